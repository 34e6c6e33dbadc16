// What a queue does where nothing is refused, with frames as unsigned numbers. The layers above
// call these once they have tested.
ghost use Rattle.std.specs.Prelude.{◌≡◌, ◌+◌, ◌-◌, ◌≤◌, ◌<◌, length};
ghost use Rattle.frame_info.specs.Frame.{last_count, max_delay};
ghost use Rattle.frame_info.specs.Word.{predicted};
ghost use Rattle.input_queue.specs.Queue as queue;
ghost use Rattle.input_queue.specs.Ring.{queue_length, word_at, put_word, fill_words, add_words};
ghost use Rattle.input_queue.specs.Whole.{Whole};

use crate::{Asked, INPUT_QUEUE_LENGTH, QueueState, Stored};
use frame_info::{BLANK, NULL_FRAME, PlayerInput, predict};

// A queue with nothing in it.
pub fn fresh_state(delay: u32) -> QueueState
    ensures { result ≡ queue.fresh_state delay }
{
    QueueState {
        frame_delay: delay,
        prediction: BLANK,
        ..QueueState::default()
    }
}

// The newest stored word, blank where there is none.
pub fn newest_word(words: &[u32], base: usize, added: u32) -> u32
    requires { base + queue_length ≤ length words.now }
    ensures { result ≡ queue.newest (word_at words.now base) added }
{
    if added == 0 {
        return BLANK;
    }
    let last = base + (added - 1) as usize % INPUT_QUEUE_LENGTH;
    words[last]
}

// Whether a prediction stands, and is another word. The frames do not count.
fn mismatches(s: QueueState, word: u32) -> bool
    ensures { result ≡ queue.mismatches s word }
{
    let guess = PlayerInput::new(NULL_FRAME, s.prediction);
    let stored = PlayerInput::new(NULL_FRAME, word);
    s.prediction_count != 0 && !guess.input_matches(stored)
}

// The first mismatch after a word is stored.
#[tactic(auto, unfolding(crate::specs::Queue::wrong_after))]
fn wrong_after(s: QueueState, word: u32) -> u32
    requires { s.last_added_count ≤ last_count + max_delay }
    ensures { result ≡ queue.wrong_after s word }
{
    if s.first_incorrect_count != 0 {
        s.first_incorrect_count
    } else if mismatches(s, word) {
        s.last_added_count + 1
    } else {
        0
    }
}

// Whether a stored word ends the prediction, by the first mismatch after it.
fn ends(s: QueueState, wrong: u32) -> bool
    ensures { result ≡ queue.ends s wrong }
{
    wrong == 0 && s.prediction_count == s.last_requested_count
}

// The prediction's frame after a word is stored.
#[tactic(auto, unfolding(crate::specs::Queue::predicting_after))]
fn predicting_after(s: QueueState, wrong: u32) -> u32
    requires { s.prediction_count ≤ last_count + max_delay + 1 }
    ensures { result ≡ queue.predicting_after s wrong }
{
    if s.prediction_count == 0 || ends(s, wrong) {
        0
    } else {
        s.prediction_count + 1
    }
}

// A word at the next place.
#[tactic(auto, unfolding(crate::specs::Queue::put))]
fn add_input_by_frame(words: &mut [u32], base: usize, s: QueueState, word: u32) -> QueueState
    requires { (base + queue_length ≤ length words.old) × (s.last_added_count ≤ last_count + max_delay)
        × (s.prediction_count ≤ s.last_added_count + 1) }
    ensures { (result ≡ queue.put s word) × (words.new ≡ put_word words.old base s.last_added_count word) }
{
    let place = s.last_added_count;
    let at = base + place as usize % INPUT_QUEUE_LENGTH;
    words[at] = word;
    let wrong = wrong_after(s, word);
    QueueState {
        last_added_count: place + 1,
        prediction_count: predicting_after(s, wrong),
        first_incorrect_count: wrong,
        ..s
    }
}

// Copies of a word, up to a place.
#[tactic(auto, using(crate::proofs::Fills::fills), unfolding(crate::specs::Queue::fill, crate::specs::Ring::fill_words))]
fn fill(words: &mut [u32], base: usize, s: QueueState, word: u32, place: u32) -> QueueState
    requires { (base + queue_length ≤ length words.old) × (place ≤ last_count + max_delay)
        × (s.last_added_count ≤ place) × (s.prediction_count ≤ s.last_added_count + 1) }
    ensures { (result ≡ queue.fill (place - s.last_added_count) s word)
        × (words.new ≡ fill_words (place - s.last_added_count) words.old base s.last_added_count word) }
{
    let mut q = s;
    for _ in s.last_added_count..place {
        q = add_input_by_frame(words, base, q, word);
    }
    q
}

// A user's word: tossed, or stored after its fills.
#[tactic(auto, using(crate::proofs::Fills::filled), unfolding(crate::specs::Queue::add, crate::specs::Queue::place_count, crate::specs::Ring::add_words))]
pub fn store(words: &mut [u32], base: usize, s: QueueState, frame: u32, word: u32) -> Stored
    requires { (frame < last_count) × Whole words.old base s }
    ensures { (result.place ≡ queue.place_count s frame)
        × (result.state ≡ queue.add (word_at words.old base) s frame word)
        × (words.new ≡ add_words words.old base s frame word) }
{
    let added = s.last_added_count;
    let place = frame + s.frame_delay;
    let state = QueueState {
        last_user_count: frame + 1,
        ..s
    };
    if place < added {
        return Stored { place: 0, state };
    }
    let copy = newest_word(words, base, added);
    let filled = fill(words, base, state, copy, place);
    Stored {
        place: place + 1,
        state: add_input_by_frame(words, base, filled, word),
    }
}

// The guess that begins after the newest stored word, blank where there is none.
fn fresh_guess(words: &[u32], base: usize, added: u32, predictor: u32) -> u32
    requires { base + queue_length ≤ length words.now }
    ensures { result ≡ queue.fresh (predicted predictor) (word_at words.now base) added }
{
    if added == 0 {
        return BLANK;
    }
    predict(predictor, newest_word(words, base, added))
}

// The queue with its last requested frame, as a count, and its prediction.
fn requesting(s: QueueState, last: u32, predicting: u32, guess: u32) -> QueueState
    ensures { result ≡ queue.requesting s last predicting guess }
{
    QueueState {
        last_requested_count: last,
        prediction_count: predicting,
        prediction: guess,
        ..s
    }
}

// The word of a frame, given as a count: the standing guess, the stored word, or a guess that
// begins. The count 0 is taken for frame 0.
#[tactic(auto, unfolding(crate::specs::Queue::answer, crate::specs::Queue::confirms, crate::specs::Queue::asked))]
pub fn ask(words: &[u32], base: usize, s: QueueState, predictor: u32, count: u32) -> Asked
    requires { Whole words.now base s }
    ensures { result ≡ queue.asking (predicted predictor) (word_at words.now base) s (count - 1) }
{
    let last = count.max(1);
    let frame = last - 1;
    let added = s.last_added_count;
    if s.prediction_count != 0 {
        return Asked {
            word: s.prediction,
            confirmed: false,
            state: requesting(s, last, s.prediction_count, s.prediction),
        };
    }
    if frame < added {
        let at = base + frame as usize % INPUT_QUEUE_LENGTH;
        return Asked {
            word: words[at],
            confirmed: true,
            state: requesting(s, last, 0, s.prediction),
        };
    }
    let guess = fresh_guess(words, base, added, predictor);
    Asked {
        word: guess,
        confirmed: false,
        state: requesting(s, last, added + 1, guess),
    }
}

// Clears prediction, mismatch and last requested.
// Kept: the definition `reset`, which `reset_prediction` and each seat of the layer cite.
#[tactic(auto, unfolding(crate::specs::Queue::reset))]
pub fn reset(s: QueueState) -> QueueState
    ensures { result ≡ queue.reset s }
{
    QueueState {
        last_requested_count: 0,
        prediction_count: 0,
        first_incorrect_count: 0,
        ..s
    }
}

// A discard's frame, capped by the last requested one.
fn capped(s: QueueState, frame: u32) -> u32
    ensures { result ≡ queue.capped s frame }
{
    if s.last_requested_count == 0 {
        frame
    } else {
        frame.min(s.last_requested_count - 1)
    }
}

// The oldest kept place after a discard.
fn oldest_after(s: QueueState, frame: u32) -> u32
    ensures { result ≡ queue.oldest_after s frame }
{
    s.oldest
        .max(frame.min(s.last_added_count.saturating_sub(1)))
}

// Keeps the places from a frame on.
#[tactic(auto, unfolding(crate::specs::Queue::discard))]
pub fn discard(s: QueueState, frame: u32) -> QueueState
    ensures { result ≡ queue.discard s frame }
{
    QueueState {
        oldest: oldest_after(s, capped(s, frame)),
        ..s
    }
}

// The queue with another delay.
// Kept: the definition `delayed`, which a rise and a fall of the delay both cite.
#[tactic(auto, unfolding(crate::specs::Queue::delayed))]
pub fn with_delay(s: QueueState, delay: u32) -> QueueState
    ensures { result ≡ queue.delayed s delay }
{
    QueueState {
        frame_delay: delay,
        ..s
    }
}

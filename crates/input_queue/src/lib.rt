// One seat's queue of control words, after ggrs's input_queue.rs.
//
// The queue is eight numbers, `QueueState`, that go by value, and a ring of 128 words that the
// caller lends: place f lies at base + f % 128. Places are stored without gaps from 0, so the ring
// holds words alone, and place f is held while it is one of the newest 128. The crate
// `input_queue_value` has the same queue with its ring inside, by value.
//
// Each call tests for itself. One that refuses answers why, and writes nothing: the state that it was
// given stands.
// Kept: words, base and state go side by side, with `Whole` on each call. C lends the states and the
// words of all seats as two lists, so that a struct of the three is no plainer: it would be made for each
// call and taken apart after it. `QueueState` has public fields, and takes any numbers.
#![tactic(auto)]

mod steps;

ghost use Rattle.std.specs.Prelude.{◌≤◌, ◌<◌, ◌≡◌};
ghost use Rattle.frame_info.specs.Frame.{last_count};
ghost use Rattle.frame_info.specs.Refusal.{done, number_in};
ghost use Rattle.input_queue.specs.Calls as calls;
ghost use Rattle.input_queue.specs.Queue as queue;
ghost use Rattle.input_queue.specs.Said.{opened_said, added_said, served_said, found_said, discarded_said, announced_in, announced_said};
ghost use Rattle.input_queue.specs.Whole.{Sane, Whole};

use frame_info::refusal::Refusal;
use frame_info::{
    BLANK, Fills, LAST_COUNT, MAX_DELAY, NULL_FRAME, PREDICTORS, PlayerInput, count_of, frame_of,
};
pub use steps::{ask, discard, fresh_state, reset, store};

// How many words a ring holds.
pub const INPUT_QUEUE_LENGTH: usize = 128;

// Frames are counts here: 0 for none, else the frame + 1.
// Kept: 0 and no Option, since the definitions of specs/Queue.antt and the lists for C hold counts.
#[derive(Clone, Copy, Debug, Default, PartialEq, Eq)]
pub struct QueueState {
    // From a frame to its place.
    pub frame_delay: u32,
    // The last user frame.
    pub last_user_count: u32,
    // How many places are stored; so the next place.
    pub last_added_count: u32,
    // The oldest place that is kept.
    pub oldest: u32,
    // The last requested frame.
    pub last_requested_count: u32,
    // The prediction's frame, and the word that is guessed.
    pub prediction_count: u32,
    pub prediction: u32,
    // The first mismatch.
    pub first_incorrect_count: u32,
}

// A setup's answer.
// Kept: no `Result`, since `calls.opened` promises a fresh queue beside a refusal too, with predictor
// and delay 0.
#[derive(Clone, Copy, Debug, PartialEq, Eq)]
pub struct Opened {
    pub refused: Option<Refusal>,
    pub predictor: u32,
    pub state: QueueState,
}

// What the other calls answer where they are not refused.
#[derive(Clone, Copy, Debug, PartialEq, Eq)]
pub struct Added {
    pub place: i32,
    pub state: QueueState,
}

#[derive(Clone, Copy, Debug, PartialEq, Eq)]
pub struct Asked {
    pub word: u32,
    pub confirmed: bool,
    pub state: QueueState,
}

#[derive(Clone, Copy, Debug, PartialEq, Eq)]
pub struct Announced {
    pub fills: Fills,
    pub state: QueueState,
}

// What the step below an add answers: the place as a count, 0 where the word was tossed, and the
// state after it.
#[derive(Clone, Copy, Debug, PartialEq, Eq)]
pub struct Stored {
    pub place: u32,
    pub state: QueueState,
}

// A fresh queue: 1 where predictor or delay is out of range.
#[tactic(auto, unfolding(crate::specs::Calls::opened))]
pub fn new(predictor: u32, delay: u32) -> Opened
    ensures { opened_said result ≡ calls.opened predictor delay }
{
    if opens(predictor, delay) {
        return Opened {
            refused: None,
            predictor,
            state: steps::fresh_state(delay),
        };
    }
    Opened {
        refused: Some(Refusal::OutOfRange),
        predictor: 0,
        state: steps::fresh_state(0),
    }
}

// Stores a hand's word, with the fills before it: 7, 6, 3, 4. Answers its place, -1 where it is
// tossed.
#[tactic(auto, using(frame_info::proofs::Refusals::number_some), unfolding(crate::specs::Calls::add_input, crate::specs::Calls::input_words, crate::specs::Calls::add_refusal))]
pub fn add_input(
    words: &mut [u32],
    base: usize,
    s: QueueState,
    input: PlayerInput,
) -> Result<Added, Refusal>
    requires { Whole words.old base s }
    ensures { (added_said s result ≡ calls.add_input words.old base s input)
        × (words.new ≡ calls.input_words words.old base s input) }
{
    let count = count_of(input.frame);
    add_refusal(s, count)?;
    let stored = store(words, base, s, count - 1, input.input);
    Ok(Added {
        place: frame_of(stored.place),
        state: stored.state,
    })
}

// The word of a frame, confirmed or predicted: 7, 13, 14. The predictor is the caller's; a number
// that is no predictor's is taken for 2, the jog cleared.
#[tactic(auto, using(frame_info::proofs::Refusals::number_some), unfolding(crate::specs::Calls::served, crate::specs::Calls::input_refusal))]
pub fn input(
    words: &[u32],
    base: usize,
    s: QueueState,
    predictor: u32,
    frame: i32,
) -> Result<Asked, Refusal>
    requires { Whole words.now base s }
    ensures { served_said s result ≡ calls.served words.now base s predictor frame }
{
    let count = count_of(frame);
    input_refusal(s, count)?;
    Ok(ask(words, base, s, predictor, count))
}

// The stored word of a frame, even after a discard: 7, 11.
#[tactic(auto, using(frame_info::proofs::Refusals::number_some), unfolding(crate::specs::Calls::found, crate::specs::Calls::found_refusal))]
pub fn confirmed_input(
    words: &[u32],
    base: usize,
    s: QueueState,
    frame: i32,
) -> Result<PlayerInput, Refusal>
    requires { Whole words.now base s }
    ensures { found_said result ≡ calls.found words.now base s frame }
{
    let count = count_of(frame);
    found_refusal(s, count)?;
    let at = base + (count - 1) as usize % INPUT_QUEUE_LENGTH;
    Ok(PlayerInput::new(frame, words[at]))
}

// Lets go of the places before a frame: 7.
#[tactic(auto, unfolding(crate::specs::Calls::discarded))]
pub fn discard_confirmed_frames(s: QueueState, frame: i32) -> Result<QueueState, Refusal>
    ensures { discarded_said s result ≡ calls.discarded s frame }
{
    let count = count_of(frame);
    if count == 0 {
        return Err(Refusal::FrameBelowZero);
    }
    Ok(discard(s, count - 1))
}

// Clears prediction, mismatch and last requested.
pub fn reset_prediction(s: QueueState) -> QueueState
    ensures { result ≡ queue.reset s }
{
    reset(s)
}

// Another delay: 1 above 60. Announces the copies that a rise will make, and stores nothing.
#[tactic(auto, unfolding(crate::specs::Calls::delayed_to))]
pub fn set_frame_delay(
    words: &[u32],
    base: usize,
    s: QueueState,
    delay: u32,
) -> Result<Announced, Refusal>
    requires { Whole words.now base s }
    ensures { announced_said s result ≡ calls.delayed_to words.now base s delay }
{
    if delay > MAX_DELAY {
        return Err(Refusal::OutOfRange);
    }
    let state = steps::with_delay(s, delay);
    if !announces(s, delay) {
        return Ok(unannounced(state));
    }
    let added = s.last_added_count;
    let fills = Fills {
        first: frame_of(added + 1),
        count: delay - s.frame_delay,
        word: steps::newest_word(words, base, added),
    };
    Ok(Announced { fills, state })
}

// The first mismatch, -1 where there is none.
pub fn first_incorrect_frame(s: QueueState) -> i32
    ensures { result ≡ calls.first_incorrect s }
{
    frame_of(s.first_incorrect_count)
}

// Whether predictor and delay are in range.
fn opens(predictor: u32, delay: u32) -> bool
    ensures { result ≡ calls.opens predictor delay }
{
    predictor < PREDICTORS && delay <= MAX_DELAY
}

// A rise, with something stored.
fn announces(s: QueueState, delay: u32) -> bool
    ensures { result ≡ calls.announces s delay }
{
    s.frame_delay < delay && s.last_added_count != 0
}

// A delay change that announces nothing.
fn unannounced(state: QueueState) -> Announced
    ensures { announced_in result ≡ calls.unannounced done state }
{
    let fills = Fills {
        first: NULL_FRAME,
        count: 0,
        word: BLANK,
    };
    Announced { fills, state }
}

// Whether an input is not for the frame after the last user frame.
fn out_of_turn(s: QueueState, count: u32) -> bool
    requires { s.last_user_count ≤ last_count }
    ensures { result ≡ calls.out_of_turn s count }
{
    s.last_user_count != 0 && s.last_user_count + 1 != count
}

// Whether a word and its fills would make more undiscarded than the ring holds.
fn overfull(s: QueueState, frame: u32) -> bool
    requires { (frame < last_count) × Sane s }
    ensures { result ≡ calls.overfull s frame }
{
    let place = frame + s.frame_delay;
    place >= s.last_added_count && INPUT_QUEUE_LENGTH < (place + 1 - s.oldest) as usize
}

// Why an input is refused, if it is.
#[tactic(auto, unfolding(crate::specs::Calls::add_refusal))]
pub fn add_refusal(s: QueueState, count: u32) -> Result<(), Refusal>
    requires { Sane s }
    ensures { number_in result ≡ calls.add_refusal s count }
{
    if count == 0 {
        return Err(Refusal::FrameBelowZero);
    }
    if count > LAST_COUNT {
        return Err(Refusal::FrameTooHigh);
    }
    if out_of_turn(s, count) {
        return Err(Refusal::NotNextFrame);
    }
    if overfull(s, count - 1) {
        return Err(Refusal::QueueFull);
    }
    Ok(())
}

// Why a request is refused, if it is.
#[tactic(auto, unfolding(crate::specs::Calls::input_refusal))]
pub fn input_refusal(s: QueueState, count: u32) -> Result<(), Refusal>
    ensures { number_in result ≡ calls.input_refusal s count }
{
    if count == 0 {
        return Err(Refusal::FrameBelowZero);
    }
    if s.first_incorrect_count != 0 {
        return Err(Refusal::MismatchStands);
    }
    if count <= s.oldest {
        return Err(Refusal::BelowOldest);
    }
    Ok(())
}

// Whether a frame is one of the newest places that the ring has room for.
fn holds(s: QueueState, frame: u32) -> bool
    ensures { result ≡ calls.holds s frame }
{
    frame < s.last_added_count && (s.last_added_count - frame) as usize <= INPUT_QUEUE_LENGTH
}

// Why a confirmed lookup is refused, if it is.
#[tactic(auto, unfolding(crate::specs::Calls::found_refusal))]
pub fn found_refusal(s: QueueState, count: u32) -> Result<(), Refusal>
    ensures { number_in result ≡ calls.found_refusal s count }
{
    if count == 0 {
        return Err(Refusal::FrameBelowZero);
    }
    if !holds(s, count - 1) {
        return Err(Refusal::NotConfirmed);
    }
    Ok(())
}

// Frames served and replayed, and what is let go of after them.
ghost use Rattle.std.specs.Prelude.{◌≡◌, [], ◌+◌, ◌-◌, ◌*◌, ◌≤◌, ◌<◌, length, take, drop};
ghost use Rattle.frame_info.specs.Frame.{last_count};
ghost use Rattle.frame_info.specs.Word.{predicted};
ghost use Rattle.console.specs.Step.{step_of};
ghost use Rattle.input_queue.specs.Queue.{asked, answer, confirms};
ghost use Rattle.input_queue.specs.Ring.{word_at};
ghost use Rattle.sync_layer.specs.Lists.{write_row};
ghost use Rattle.sync_layer.specs.Seats.{max_seats, ring_of, seat_at, map_seats};
ghost use Rattle.sync_layer.specs.Slots.{max_limit, slot_words, served_from, slot_of, save_slot};
ghost use Rattle.sync_layer.specs.Calls.{status_of};
ghost use Rattle.sync_layer.specs.Whole.{WordRoom, SlotRoom};
ghost use Rattle.desk.specs.Desk as m;
ghost use Rattle.desk.specs.Calls as calls;
ghost use Rattle.desk.specs.Whole.{Ready, Seated, Whole};

use crate::DeskState;
use crate::showing::known_count;
use sync_layer::{
    SERVED_FROM, ask_seat, discard_seats, reset_seats, save_slot, slot_of, state_in, status_of,
};

// Asks every seat for the current frame. The words go into the frame's slot, from a place on.
// Kept: `serve_row` does this too and lends back two numbers a seat. One loop for both, with a
// closure or a switch for these, is no plainer: its promise would have to say what they did.
#[tactic(auto, using(crate::proofs::Served::servings))]
fn serve_seats(seats: &mut [u32], words: &[u32], slots: &mut [u32], desk: DeskState, from: usize)
    requires { Seated desk seats.old × WordRoom words.now × (from + max_seats ≤ length slots.old) × (from ≤ max_limit * slot_words + served_from) }
    ensures { (seats.new ≡ map_seats desk.seats (λ i q. asked (predicted desk.predictor) (word_at words.now (ring_of i)) q desk.current) seats.old)
        × (slots.new
        ≡ write_row desk.seats slots.old from
        (λ i. answer (predicted desk.predictor) (word_at words.now (ring_of i)) (seat_at seats.old i) desk.current)) }
{
    let n = desk.seats as usize;
    let current = desk.current;
    let predictor = desk.predictor;
    for i in 0..n {
        let asked = ask_seat(seats, words, predictor, current + 1, i);
        slots[from + i] = asked.word;
    }
}

// The beginning of a frame: the console is saved in the frame's slot. Answers where the slot's words
// begin.
fn begin_frame(slots: &mut [u32], desk: DeskState) -> usize
    requires { Ready desk × SlotRoom slots.old }
    ensures { (result ≡ slot_of desk.limit desk.current + served_from) × (result ≤ desk.limit * slot_words + served_from)
        × (slots.new ≡ save_slot desk.limit slots.old desk.current desk.console) }
{
    let limit = desk.limit;
    let current = desk.current;
    save_slot(slots, limit, current, desk.console);
    slot_of(limit, current) + SERVED_FROM
}

// The end of a frame: the console steps by the words in the frame's slot, and current is one more.
fn next_frame(slots: &[u32], desk: DeskState, from: usize) -> DeskState
    requires { Ready desk × (from + max_seats ≤ length slots.now) }
    ensures { result ≡ record {
      seats = desk.seats;
      limit = desk.limit;
      predictor = desk.predictor;
      current = desk.current + 1;
      console = step_of desk.console (take (from + desk.seats - from) (drop from slots.now));
    } }
{
    let state = desk.console;
    let end = from + desk.seats as usize;
    DeskState {
        current: desk.current + 1,
        console: state.step(&slots[from..end]),
        ..desk
    }
}

// One frame: save, request all seats, step, current + 1.
#[tactic(auto, using(crate::proofs::Served::frames))]
fn one_frame(seats: &mut [u32], words: &[u32], slots: &mut [u32], desk: DeskState) -> DeskState
    requires { Whole (m.desk_of desk seats.old words.now slots.old) }
    ensures { m.desk_of result seats.new words.now slots.new ≡ calls.frame_on (m.desk_of desk seats.old words.now slots.old) }
{
    let from = begin_frame(slots, desk);
    serve_seats(seats, words, slots, desk, from);
    next_frame(&slots[..], desk, from)
}

// At least one frame, to the end: one frame and then the rest. Every replayed frame is played from
// here, so that the frame's code has one caller and is compiled into it.
// Kept: a replay calls itself, as its promise, `m.replay`, goes frame by frame. A loop would say that by an
// invariant over the frames played so far, which is no plainer.
#[tactic(auto, using(crate::proofs::Served::plays))]
fn play(seats: &mut [u32], words: &[u32], slots: &mut [u32], desk: DeskState, end: u32) -> DeskState
    requires { Whole (m.desk_of desk seats.old words.now slots.old) × (desk.current < end) × (end ≤ last_count) }
    ensures { m.desk_of result seats.new words.now slots.new
        ≡ m.replay step_of (predicted desk.predictor) (end - desk.current) (m.desk_of desk seats.old words.now slots.old) }
{
    let next = one_frame(seats, words, slots, desk);
    if next.current >= end {
        return next;
    }
    // What is lent to a call stays in memory. A copy is lent, so that `next` need not.
    let rest = DeskState { ..next };
    play(seats, words, slots, rest, end)
}

// To the end: no frame where the desk is there, else one frame and then the rest of the replay.
#[tactic(auto, unfolding(crate::specs::Desk::replay))]
fn replay(
    seats: &mut [u32],
    words: &[u32],
    slots: &mut [u32],
    desk: DeskState,
    end: u32,
) -> DeskState
    requires { Whole (m.desk_of desk seats.old words.now slots.old) × (desk.current ≤ end) × (end < last_count) }
    ensures { m.desk_of result seats.new words.now slots.new
        ≡ m.replay step_of (predicted desk.predictor) (end - desk.current) (m.desk_of desk seats.old words.now slots.old) }
{
    if desk.current >= end {
        return desk;
    }
    play(seats, words, slots, desk, end)
}

// The desk at a saved frame.
#[tactic(auto, unfolding(crate::specs::Desk::load))]
fn load(slots: &[u32], desk: DeskState, frame: u32) -> DeskState
    requires { Ready desk × SlotRoom slots.now }
    ensures { result ≡ (m.load (m.desk_of desk [] [] slots.now) frame).state }
{
    DeskState {
        current: frame,
        console: state_in(slots, desk.limit, frame),
        ..desk
    }
}

// Where a mismatch stands: load the lowest, reset all, and replay to the current frame.
#[tactic(auto, using(crate::proofs::Served::corrects))]
pub fn correct(
    seats: &mut [u32],
    words: &[u32],
    slots: &mut [u32],
    desk: DeskState,
    lowest: u32,
) -> DeskState
    requires { Whole (m.desk_of desk seats.old words.now slots.old) × (lowest ≡ m.mismatch_of (m.desk_of desk seats.old words.now slots.old)) }
    ensures { m.desk_of result seats.new words.now slots.new
        ≡ m.corrected step_of (predicted desk.predictor) (m.desk_of desk seats.old words.now slots.old) }
{
    if lowest == 0 {
        return desk;
    }
    let back = load(&slots[..], desk, lowest - 1);
    reset_seats(seats, desk.seats as usize);
    replay(seats, words, slots, back, desk.current)
}

// Confirms K: the queues let go of what is before it.
#[tactic(auto, unfolding(crate::specs::Desk::confirm, crate::specs::Desk::discard_all))]
pub fn confirm(seats: &mut [u32], desk: DeskState)
    requires { Seated desk seats.old }
    ensures { m.desk_of desk seats.new [] [] ≡ m.confirm (m.desk_of desk seats.old [] []) }
{
    let known = known_count(&seats[..], desk);
    if known == 0 {
        return;
    }
    let frame = desk.current.min(known - 1);
    if frame == 0 {
        return;
    }
    discard_seats(seats, desk.seats as usize, frame - 1);
}

// Asks every seat for the current frame, as `serve_seats` does, and lends back each word and how it
// stands. While a seat is asked is the one time that its word and standing are at hand.
#[tactic(auto, using(crate::proofs::Served::servings, crate::proofs::Loops::writing))]
fn serve_row(
    seats: &mut [u32],
    words: &[u32],
    slots: &mut [u32],
    desk: DeskState,
    from: usize,
    served: &mut [u32],
    statuses: &mut [u32],
)
    requires { Seated desk seats.old × WordRoom words.now × (from + max_seats ≤ length slots.old) × (from ≤ max_limit * slot_words + served_from)
        × (desk.seats ≤ length served.old) × (desk.seats ≤ length statuses.old) }
    ensures { (seats.new ≡ map_seats desk.seats (λ i q. asked (predicted desk.predictor) (word_at words.now (ring_of i)) q desk.current) seats.old)
        × (slots.new
        ≡ write_row desk.seats slots.old from
        (λ i. answer (predicted desk.predictor) (word_at words.now (ring_of i)) (seat_at seats.old i) desk.current))
        × (served.new
        ≡ write_row desk.seats served.old 0
        (λ i. answer (predicted desk.predictor) (word_at words.now (ring_of i)) (seat_at seats.old i) desk.current))
        × (statuses.new ≡ write_row desk.seats statuses.old 0 (λ i. status_of (confirms (seat_at seats.old i) desk.current))) }
{
    let n = desk.seats as usize;
    let current = desk.current;
    let predictor = desk.predictor;
    for i in 0..n {
        let asked = ask_seat(seats, words, predictor, current + 1, i);
        slots[from + i] = asked.word;
        served[i] = asked.word;
        statuses[i] = status_of(asked.confirmed);
    }
}

// One frame, with the words served and their standings lent back.
// Kept: `one_frame` is this without the two lists, for the same reason.
#[tactic(auto, using(crate::proofs::Served::frames))]
pub fn serve_frame(
    seats: &mut [u32],
    words: &[u32],
    slots: &mut [u32],
    desk: DeskState,
    served: &mut [u32],
    statuses: &mut [u32],
) -> DeskState
    requires { Whole (m.desk_of desk seats.old words.now slots.old) × (desk.seats ≤ length served.old) × (desk.seats ≤ length statuses.old) }
    ensures { (m.desk_of result seats.new words.now slots.new ≡ calls.frame_on (m.desk_of desk seats.old words.now slots.old))
        × (served.new ≡ write_row desk.seats served.old 0 (calls.served_word (m.desk_of desk seats.old words.now slots.old)))
        × (statuses.new ≡ write_row desk.seats statuses.old 0 (calls.status_of (m.desk_of desk seats.old words.now slots.old))) }
{
    let from = begin_frame(slots, desk);
    serve_row(seats, words, slots, desk, from, served, statuses);
    next_frame(&slots[..], desk, from)
}

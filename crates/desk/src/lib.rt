// The desk: it drives the queues, the saved slots and the console, and never shows a frame as
// settled that may still change.
//
// A desk is seven numbers, `DeskState`, that go by value, and three lists of numbers that the
// caller lends: the seats' queues, their words, and the saved slots. Each call takes only those
// that it touches, and tests for itself. One that refuses answers why, and writes nothing: the desk that
// it was given stands. A refused setup alone writes: it leaves a fresh desk of one seat, which
// is a seat's numbers and the first slot.
//
// Kept: state and lists go one by one and are no struct, and what a call presumes of them, `Seated` or
// `Whole`, stands in its contract: each is lent only the lists that it touches, a caller in C has the lists
// apart, and `desk_at` makes a `DeskState` of any numbers that C lends.
#![tactic(auto)]

mod frames;
mod line;
mod showing;

ghost use Rattle.std.specs.Prelude.{◌≡◌, [], ◌+◌, ◌-◌, ◌*◌, ◌≤◌, ◌<◌, length};
ghost use Rattle.frame_info.specs.Frame.{count_of};
ghost use Rattle.frame_info.specs.Refusal.{number_in, number_given};
ghost use Rattle.sync_layer.specs.Whole.{SeatRoom, WordRoom, SlotRoom};
ghost use Rattle.desk.specs.Desk as m;
ghost use Rattle.desk.specs.Calls as calls;
ghost use Rattle.desk.specs.Said.{taken_said, advanced_said};
ghost use Rattle.desk.specs.Whole.{Ready, Seated, Whole};

use console::Console;
use frame_info::refusal::Refusal;
use frame_info::{LAST_COUNT, count_of, frame_of};
use input_queue::INPUT_QUEUE_LENGTH;
pub use showing::{known, log, show};
use sync_layer::{MAX_SEATS, lowest_wrong, seat_at, set_seat};

#[derive(Clone, Copy, Debug, PartialEq, Eq)]
pub struct DeskState {
    pub seats: u32,
    pub limit: u32,
    pub predictor: u32,
    // The current frame, as itself.
    pub current: u32,
    pub console: Console,
}

// A setup's answer.
// Kept: no `Result`, since `setup_of` promises a fresh desk beside a refusal too.
#[derive(Clone, Copy, Debug, PartialEq, Eq)]
pub struct Opened {
    pub refused: Option<Refusal>,
    pub desk: DeskState,
}

// What was corrected: the lowest mismatch, and how many frames were replayed from it; -1 and 0 where
// no mismatch stood.
// Kept: -1 and 0 and no Option, since `calls.report_at` says so.
#[derive(Clone, Copy, Debug, PartialEq, Eq)]
pub struct Report {
    pub frame: i32,
    pub count: u32,
}

// What was corrected, and the desk after the call.
#[derive(Clone, Copy, Debug, PartialEq, Eq)]
pub struct Settled {
    pub report: Report,
    pub desk: DeskState,
}

// A fresh desk, one delay for each seat: 1 where anything is out of range, and then a desk of one
// seat with limit, delay and predictor 0. The words need not be cleared.
#[tactic(auto, unfolding(crate::specs::Calls::setup_answer, crate::specs::Desk::setup_state, crate::specs::Desk::setup_of, sync_layer::specs::Calls::opened))]
pub fn setup(
    seats: &mut [u32],
    slots: &mut [u32],
    limit: u32,
    predictor: u32,
    delays: &[u32],
) -> Opened
    requires { SeatRoom seats.old × SlotRoom slots.old }
    ensures { (number_given result.refused ≡ calls.setup_answer limit predictor delays.now)
        × (m.desk_of result.desk seats.new [] slots.new ≡ m.setup_of (m.setup_with limit predictor delays.now seats.old [] slots.old)) }
{
    let o = sync_layer::new(seats, slots, limit, predictor, delays);
    let layer = o.layer;
    Opened {
        refused: o.refused,
        desk: DeskState {
            seats: layer.num_players,
            limit: layer.max_prediction,
            predictor: layer.predictor,
            current: 0,
            console: Console::new(),
        },
    }
}

// Why a word is refused, if it is.
#[tactic(auto, unfolding(crate::specs::Desk::take_answer, input_queue::specs::Calls::add_refusal))]
fn take_refusal(seats: &[u32], desk: DeskState, seat: u32, count: u32) -> Result<(), Refusal>
    requires { Seated desk seats.now }
    ensures { number_in result ≡ m.take_answer (m.desk_of desk seats.now [] []) seat count }
{
    if desk.seats <= seat {
        return Err(Refusal::NoSuchSeat);
    }
    if count == 0 {
        return Err(Refusal::FrameBelowZero);
    }
    if count > LAST_COUNT {
        return Err(Refusal::FrameTooHigh);
    }
    let s = seat_at(seats, seat as usize);
    if count - 1 != s.last_user_count {
        return Err(Refusal::NotNextFrame);
    }
    input_queue::add_refusal(s, count)
}

// Stores a seat's word for a frame: 2, 7, 6, 3, 4. The first frame of a seat is 0. Answers the
// place.
#[tactic(auto, using(frame_info::proofs::Refusals::number_some), unfolding(crate::specs::Desk::take_answer, crate::specs::Desk::take, crate::specs::Desk::taken, crate::specs::Calls::take_says))]
pub fn take(
    seats: &mut [u32],
    words: &mut [u32],
    desk: DeskState,
    seat: u32,
    frame: i32,
    word: u32,
) -> Result<i32, Refusal>
    requires { Seated desk seats.old × WordRoom words.old }
    ensures { (taken_said result ≡ calls.take_says (m.desk_of desk seats.old words.old []) seat frame)
        × (m.desk_of desk seats.new words.new [] ≡ m.take (m.desk_of desk seats.old words.old []) seat (count_of frame) word) }
{
    let count = count_of(frame);
    take_refusal(&seats[..], desk, seat, count)?;
    let i = seat as usize;
    let s = seat_at(&seats[..], i);
    let stored = input_queue::store(words, i * INPUT_QUEUE_LENGTH, s, count - 1, word);
    set_seat(seats, i, stored.state);
    Ok(frame_of(stored.place))
}

fn report_at(lowest: u32, current: u32) -> Report
    requires { lowest ≤ current }
    ensures { result ≡ calls.report_at lowest current }
{
    Report {
        frame: frame_of(lowest),
        count: if lowest == 0 {
            0
        } else {
            current - (lowest - 1)
        },
    }
}

// Corrects what was guessed wrong: where a mismatch stands, loads the lowest, resets all and replays
// to the current frame, each frame saved again with the words served. Then lets go of what can no
// longer change.
#[tactic(auto, using(crate::proofs::Served::settles))]
pub fn settle(seats: &mut [u32], words: &[u32], slots: &mut [u32], desk: DeskState) -> Settled
    requires { Whole (m.desk_of desk seats.old words.now slots.old) }
    ensures { (result.report ≡ calls.report_of (m.desk_of desk seats.old words.now slots.old))
        × (m.desk_of result.desk seats.new words.now slots.new ≡ calls.settle_of (m.desk_of desk seats.old words.now slots.old)) }
{
    let lowest = lowest_wrong(&seats[..], desk.seats as usize);
    let report = report_at(lowest, desk.current);
    // A replay ends at the current frame, so that the console is all of the desk that is corrected.
    // The other numbers are the ones that were given: they need not be read back.
    let corrected = frames::correct(seats, words, slots, desk, lowest);
    frames::confirm(seats, desk);
    Settled {
        report,
        desk: DeskState {
            console: corrected.console,
            ..desk
        },
    }
}

// Why an advance is refused, if it is.
#[tactic(auto, unfolding(crate::specs::Desk::advance_answer))]
fn advance_refusal(seats: &[u32], desk: DeskState) -> Result<(), Refusal>
    requires { Seated desk seats.now }
    ensures { number_in result ≡ m.advance_answer (m.desk_of desk seats.now [] []) }
{
    let next = desk.current + 1;
    if next >= LAST_COUNT {
        return Err(Refusal::FrameTooHigh);
    }
    if next.saturating_sub(showing::known_count(seats, desk)) > desk.limit {
        return Err(Refusal::TooFarAhead);
    }
    Ok(())
}

// An advance into lists that have a place for every seat, for callers who have tested that: C, whose
// lists are as long as the caller says.
#[tactic(auto, using(crate::proofs::Served::advancing))]
pub fn advance_into(
    seats: &mut [u32],
    words: &[u32],
    slots: &mut [u32],
    desk: DeskState,
    served: &mut [u32],
    statuses: &mut [u32],
) -> Result<Settled, Refusal>
    requires { Whole (m.desk_of desk seats.old words.now slots.old) × (desk.seats ≤ length served.old) × (desk.seats ≤ length statuses.old) }
    ensures { (number_in result ≡ m.advance_answer (m.desk_of desk seats.old words.now slots.old))
        × ((advanced_said desk result).report ≡ calls.advance_report (m.desk_of desk seats.old words.now slots.old))
        × (m.desk_of (advanced_said desk result).desk seats.new words.now slots.new ≡ calls.advance_of (m.desk_of desk seats.old words.now slots.old))
        × (served.new ≡ calls.advance_served (m.desk_of desk seats.old words.now slots.old) served.old)
        × (statuses.new ≡ calls.advance_statuses (m.desk_of desk seats.old words.now slots.old) statuses.old) }
{
    advance_refusal(&seats[..], desk)?;
    let settled = settle(seats, words, slots, desk);
    let next = frames::serve_frame(seats, words, slots, settled.desk, served, statuses);
    Ok(Settled {
        report: settled.report,
        desk: next,
    })
}

// Serves one frame: 6, 5, changing nothing; else settles, saves, requests all seats, steps, and goes
// one frame on. Lends back each seat's word and its status, confirmed or predicted; what is lent past
// the seats stays as it was.
// Kept: this and `advance_into` are two. This one's arrays have room, so that it asks for none, and the other one serves C.
pub fn advance(
    seats: &mut [u32],
    words: &[u32],
    slots: &mut [u32],
    desk: DeskState,
    served: &mut [u32; MAX_SEATS],
    statuses: &mut [u32; MAX_SEATS],
) -> Result<Settled, Refusal>
    requires { Whole (m.desk_of desk seats.old words.now slots.old) }
    ensures { (number_in result ≡ m.advance_answer (m.desk_of desk seats.old words.now slots.old))
        × ((advanced_said desk result).report ≡ calls.advance_report (m.desk_of desk seats.old words.now slots.old))
        × (m.desk_of (advanced_said desk result).desk seats.new words.now slots.new ≡ calls.advance_of (m.desk_of desk seats.old words.now slots.old))
        × (served.new ≡ calls.advance_served (m.desk_of desk seats.old words.now slots.old) served.old)
        × (statuses.new ≡ calls.advance_statuses (m.desk_of desk seats.old words.now slots.old) statuses.old) }
{
    advance_into(seats, words, slots, desk, served, statuses)
}

pub fn current_frame(desk: DeskState) -> i32
    requires { Ready desk }
    ensures { result ≡ calls.current_frame_of desk }
{
    frame_of(desk.current + 1)
}

// The desk for programs in C or Rust, to which the crate `desk_face_c` exports it. Each function is
// one call of the crate `desk`, and adds nothing: what the desk takes and hands back as structs
// stands here in lists of 32-bit numbers, since a struct has no layout that C knows.
//
// `state` is the desk's own seven numbers. `said` has what a call answers beside its number, with
// a frame as a count: 0 for none, else the frame + 1. A list is a pointer and a length. Each
// function tests first that all its lists are long enough, and answers 20 where one is not. It
// writes only where it is done, but for `desk_setup`, which leaves a fresh desk where it refuses by
// 1. What a caller in C still owes is that a pointer is good for its length, that no two lists
// overlap, and a desk that came from `desk_setup` and the calls after it.
//
// Kept: the C interface has no struct, no enum and no `Result`, so that each exported function takes
// plain lists and numbers, and answers a number.
#![tactic(auto)]

pub mod layer;
mod room;

ghost use Rattle.std.specs.Prelude.{◌≡◌, true, [], ◌≤◌, length, get_or};
ghost use Rattle.frame_info.specs.Refusal.{number_in};
ghost use Rattle.sync_layer.specs.Lists.{write_row};
ghost use Rattle.sync_layer.specs.Seats.{max_seats};
ghost use Rattle.sync_layer.specs.Whole.{SlotRoom};
ghost use Rattle.desk.specs.Calls as calls;
ghost use Rattle.desk.specs.Desk.{desk_of};
ghost use Rattle.desk.specs.Said.{shown_said};
ghost use Rattle.desk.specs.Whole as bounds;
ghost use Rattle.desk_face.specs.Face as face;
ghost use Rattle.desk_face.specs.Lists.{state_words, desk_at, set_desk, set_report, set_console};

use console::Console;
use desk::DeskState;
use frame_info::count_of;
use frame_info::refusal::Refusal;
use sync_layer::MAX_SEATS;

// A call's answer, as a caller in C gets it: 0 where it is done.
fn number(answer: Result<(), Refusal>) -> u32
    ensures { result ≡ number_in answer }
{
    match answer {
        Ok(()) => 0,
        Err(refusal) => refusal.number(),
    }
}

// Kept: the C interface has no struct, since C knows no layout of one. Its numbers stand in a list,
// each in its place, where the next four functions read and write them.
#[tactic(auto, unfolding(crate::specs::Lists::desk_at))]
fn desk_at(state: &[u32]) -> DeskState
    requires { state_words ≤ length state.now }
    ensures { result ≡ desk_at state.now }
{
    DeskState {
        seats: state[0],
        limit: state[1],
        predictor: state[2],
        current: state[3],
        console: Console {
            head: state[4],
            kind: state[5],
            seal: state[6],
        },
    }
}

#[tactic(auto, unfolding(crate::specs::Lists::set_desk, sync_layer::specs::Lists::write_row))]
fn set_desk(state: &mut [u32], desk: DeskState)
    requires { state_words ≤ length state.old }
    ensures { state.new ≡ set_desk state.old desk }
{
    state[0] = desk.seats;
    state[1] = desk.limit;
    state[2] = desk.predictor;
    state[3] = desk.current;
    state[4] = desk.console.head;
    state[5] = desk.console.kind;
    state[6] = desk.console.seal;
}

#[tactic(auto, unfolding(crate::specs::Lists::set_report))]
fn set_report(said: &mut [u32], report: desk::Report)
    requires { 2 ≤ length said.old }
    ensures { said.new ≡ set_report said.old report }
{
    said[0] = count_of(report.frame);
    said[1] = report.count;
}

#[tactic(auto, unfolding(crate::specs::Lists::set_console))]
fn set_console(said: &mut [u32], console: Console)
    requires { 3 ≤ length said.old }
    ensures { said.new ≡ set_console said.old console }
{
    said[0] = console.head;
    said[1] = console.kind;
    said[2] = console.seal;
}

// The first n numbers of a row go to the front of a list.
// Kept: a length beside the row, since the desk's row is an array of four and n is its seats.
fn put_row(out: &mut [u32], row: &[u32; MAX_SEATS], n: usize)
    requires { (n ≤ max_seats) × (n ≤ length out.old) }
    ensures { out.new ≡ write_row n out.old 0 (λ i. get_or row.now i 0) }
{
    out[..n].copy_from_slice(&row[..n]);
}

// Kept: each call stands twice below. Within it answers a `Result`, for `?`, and exported its number, which is what C reads.
//
// A setup that refuses by 1 leaves a fresh desk all the same.
#[tactic(auto, unfolding(crate::specs::Face::setup_room, crate::specs::Face::setup_on))]
fn setup(
    state: &mut [u32],
    seats: &mut [u32],
    slots: &mut [u32],
    limit: u32,
    predictor: u32,
    delays: &[u32],
) -> Result<(), Refusal>
    ensures { face.left (number_in result) (face.lent state.new seats.new [] slots.new [] [] [])
        ≡ face.setup_leaves limit predictor delays.now (face.lent state.old seats.old [] slots.old [] [] []) }
{
    if !room::for_setup(state.len(), seats.len(), slots.len()) {
        return Err(Refusal::NoRoomForBytes);
    }
    let o = desk::setup(seats, slots, limit, predictor, delays);
    set_desk(state, o.desk);
    match o.refused {
        Some(refusal) => Err(refusal),
        None => Ok(()),
    }
}

pub fn desk_setup(
    state: &mut [u32],
    seats: &mut [u32],
    slots: &mut [u32],
    limit: u32,
    predictor: u32,
    delays: &[u32],
) -> u32
    ensures { face.left result (face.lent state.new seats.new [] slots.new [] [] [])
        ≡ face.setup_leaves limit predictor delays.now (face.lent state.old seats.old [] slots.old [] [] []) }
{
    number(setup(state, seats, slots, limit, predictor, delays))
}

#[tactic(auto, using(frame_info::proofs::Refusals::number_some), unfolding(crate::specs::Face::take_room, crate::specs::Face::take_on, crate::specs::Face::does, desk::specs::Calls::take_says, desk::specs::Desk::take))]
fn take(
    state: &[u32],
    seats: &mut [u32],
    words: &mut [u32],
    seat: u32,
    frame: i32,
    word: u32,
    said: &mut [u32],
) -> Result<(), Refusal>
    requires { face.take_fits (face.lent state.now seats.old words.old [] [] [] said.old) ≡ true → bounds.Seated (desk_at state.now) seats.old }
    ensures { face.left (number_in result) (face.lent state.now seats.new words.new [] [] [] said.new)
        ≡ face.take_leaves seat frame word (face.lent state.now seats.old words.old [] [] [] said.old) }
{
    if !room::for_take(state.len(), seats.len(), words.len(), said.len()) {
        return Err(Refusal::NoRoomForBytes);
    }
    let desk = desk_at(state);
    let place = desk::take(seats, words, desk, seat, frame, word)?;
    said[0] = count_of(place);
    Ok(())
}

// `said` has the place.
pub fn desk_take(
    state: &[u32],
    seats: &mut [u32],
    words: &mut [u32],
    seat: u32,
    frame: i32,
    word: u32,
    said: &mut [u32],
) -> u32
    requires { face.take_fits (face.lent state.now seats.old words.old [] [] [] said.old) ≡ true → bounds.Seated (desk_at state.now) seats.old }
    ensures { face.left result (face.lent state.now seats.new words.new [] [] [] said.new)
        ≡ face.take_leaves seat frame word (face.lent state.now seats.old words.old [] [] [] said.old) }
{
    number(take(state, seats, words, seat, frame, word, said))
}

#[tactic(auto, unfolding(crate::specs::Face::settle_room, crate::specs::Face::settle_on))]
fn settle(
    state: &mut [u32],
    seats: &mut [u32],
    words: &[u32],
    slots: &mut [u32],
    said: &mut [u32],
) -> Result<(), Refusal>
    requires { face.settle_fits (face.lent state.old seats.old words.now slots.old [] [] said.old) ≡ true
        → bounds.Whole (face.desk_in (face.lent state.old seats.old words.now slots.old [] [] said.old)) }
    ensures { face.left (number_in result) (face.lent state.new seats.new words.now slots.new [] [] said.new)
        ≡ face.settle_leaves (face.lent state.old seats.old words.now slots.old [] [] said.old) }
{
    if !room::for_settle(
        state.len(),
        seats.len(),
        words.len(),
        slots.len(),
        said.len(),
    ) {
        return Err(Refusal::NoRoomForBytes);
    }
    let before = desk_at(&state[..]);
    let s = desk::settle(seats, words, slots, before);
    set_desk(state, s.desk);
    set_report(said, s.report);
    Ok(())
}

// `said` has the report.
pub fn desk_settle(
    state: &mut [u32],
    seats: &mut [u32],
    words: &[u32],
    slots: &mut [u32],
    said: &mut [u32],
) -> u32
    requires { face.settle_fits (face.lent state.old seats.old words.now slots.old [] [] said.old) ≡ true
        → bounds.Whole (face.desk_in (face.lent state.old seats.old words.now slots.old [] [] said.old)) }
    ensures { face.left result (face.lent state.new seats.new words.now slots.new [] [] said.new)
        ≡ face.settle_leaves (face.lent state.old seats.old words.now slots.old [] [] said.old) }
{
    number(settle(state, seats, words, slots, said))
}

#[tactic(auto, using(frame_info::proofs::Refusals::number_some), unfolding(crate::specs::Face::settle_room, crate::specs::Face::rows_room, crate::specs::Face::room_of_row, crate::specs::Face::advance_on, crate::specs::Face::does, desk::specs::Calls::advance_report, desk::specs::Calls::advance_served, desk::specs::Calls::advance_statuses, desk::specs::Desk::advance))]
fn advance(
    state: &mut [u32],
    seats: &mut [u32],
    words: &[u32],
    slots: &mut [u32],
    served: &mut [u32],
    statuses: &mut [u32],
    said: &mut [u32],
) -> Result<(), Refusal>
    requires { face.advance_fits (face.lent state.old seats.old words.now slots.old served.old statuses.old said.old) ≡ true
        → bounds.Whole (face.desk_in (face.lent state.old seats.old words.now slots.old served.old statuses.old said.old)) }
    ensures { face.left (number_in result) (face.lent state.new seats.new words.now slots.new served.new statuses.new said.new)
        ≡ face.advance_leaves (face.lent state.old seats.old words.now slots.old served.old statuses.old said.old) }
{
    if !room::for_settle(
        state.len(),
        seats.len(),
        words.len(),
        slots.len(),
        said.len(),
    ) {
        return Err(Refusal::NoRoomForBytes);
    }
    let before = desk_at(&state[..]);
    if !room::for_rows(before.seats, served.len(), statuses.len()) {
        return Err(Refusal::NoRoomForBytes);
    }
    let a = desk::advance_into(seats, words, slots, before, served, statuses)?;
    set_desk(state, a.desk);
    set_report(said, a.report);
    Ok(())
}

// `said` has the report. `served` and `statuses` have one place for each seat.
pub fn desk_advance(
    state: &mut [u32],
    seats: &mut [u32],
    words: &[u32],
    slots: &mut [u32],
    served: &mut [u32],
    statuses: &mut [u32],
    said: &mut [u32],
) -> u32
    requires { face.advance_fits (face.lent state.old seats.old words.now slots.old served.old statuses.old said.old) ≡ true
        → bounds.Whole (face.desk_in (face.lent state.old seats.old words.now slots.old served.old statuses.old said.old)) }
    ensures { face.left result (face.lent state.new seats.new words.now slots.new served.new statuses.new said.new)
        ≡ face.advance_leaves (face.lent state.old seats.old words.now slots.old served.old statuses.old said.old) }
{
    number(advance(state, seats, words, slots, served, statuses, said))
}

// A show into a list that has a place for each seat.
#[tactic(auto, using(frame_info::proofs::Refusals::number_some), unfolding(desk::specs::Calls::show_says, desk::specs::Calls::show_words))]
fn show_into(
    slots: &[u32],
    seats: &[u32],
    desk: DeskState,
    frame: i32,
    shown: &mut [u32],
) -> Result<Console, Refusal>
    requires { bounds.Seated desk seats.now × SlotRoom slots.now × (desk.seats ≤ length shown.old) }
    ensures { (shown_said result ≡ calls.show_says (desk_of desk seats.now [] slots.now) frame)
        × (shown.new ≡ calls.show_words (desk_of desk seats.now [] slots.now) frame shown.old) }
{
    let mut words = [0u32; MAX_SEATS];
    let console = desk::show(slots, seats, desk, frame, &mut words)?;
    put_row(shown, &words, desk.seats as usize);
    Ok(console)
}

#[tactic(auto, unfolding(crate::specs::Face::look_room, crate::specs::Face::room_of_row, crate::specs::Face::show_on, crate::specs::Face::does))]
fn show(
    state: &[u32],
    seats: &[u32],
    slots: &[u32],
    frame: i32,
    shown: &mut [u32],
    said: &mut [u32],
) -> Result<(), Refusal>
    requires { face.show_fits (face.lent state.now seats.now [] slots.now shown.old [] said.old) ≡ true → bounds.Seated (desk_at state.now) seats.now }
    ensures { face.left (number_in result) (face.lent state.now seats.now [] slots.now shown.new [] said.new)
        ≡ face.show_leaves frame (face.lent state.now seats.now [] slots.now shown.old [] said.old) }
{
    if !room::for_look(state.len(), seats.len(), slots.len(), said.len(), 3) {
        return Err(Refusal::NoRoomForBytes);
    }
    let desk = desk_at(state);
    if !room::for_row(desk.seats, shown.len()) {
        return Err(Refusal::NoRoomForBytes);
    }
    let console = show_into(slots, seats, desk, frame, shown)?;
    set_console(said, console);
    Ok(())
}

// `said` has the console after the frame. `shown` has one place for each seat.
pub fn desk_show(
    state: &[u32],
    seats: &[u32],
    slots: &[u32],
    frame: i32,
    shown: &mut [u32],
    said: &mut [u32],
) -> u32
    requires { face.show_fits (face.lent state.now seats.now [] slots.now shown.old [] said.old) ≡ true → bounds.Seated (desk_at state.now) seats.now }
    ensures { face.left result (face.lent state.now seats.now [] slots.now shown.new [] said.new)
        ≡ face.show_leaves frame (face.lent state.now seats.now [] slots.now shown.old [] said.old) }
{
    number(show(state, seats, slots, frame, shown, said))
}

#[tactic(auto, unfolding(crate::specs::Face::look_room, crate::specs::Face::log_on, crate::specs::Face::does))]
fn log(
    state: &[u32],
    seats: &[u32],
    slots: &[u32],
    frame: i32,
    line: &mut [u8],
    said: &mut [u32],
) -> Result<(), Refusal>
    requires { face.log_fits (face.lent state.now seats.now [] slots.now line.old [] said.old) ≡ true → bounds.Seated (desk_at state.now) seats.now }
    ensures { face.left (number_in result) (face.lent state.now seats.now [] slots.now line.new [] said.new)
        ≡ face.log_leaves frame (face.lent state.now seats.now [] slots.now line.old [] said.old) }
{
    if !room::for_look(state.len(), seats.len(), slots.len(), said.len(), 1) {
        return Err(Refusal::NoRoomForBytes);
    }
    let desk = desk_at(state);
    said[0] = desk::log(slots, seats, desk, frame, line)?;
    Ok(())
}

// `said` has the number of bytes written.
pub fn desk_log(
    state: &[u32],
    seats: &[u32],
    slots: &[u32],
    frame: i32,
    line: &mut [u8],
    said: &mut [u32],
) -> u32
    requires { face.log_fits (face.lent state.now seats.now [] slots.now line.old [] said.old) ≡ true → bounds.Seated (desk_at state.now) seats.now }
    ensures { face.left result (face.lent state.now seats.now [] slots.now line.new [] said.new)
        ≡ face.log_leaves frame (face.lent state.now seats.now [] slots.now line.old [] said.old) }
{
    number(log(state, seats, slots, frame, line, said))
}

#[tactic(auto, unfolding(crate::specs::Face::known_room, crate::specs::Face::known_on))]
fn known(state: &[u32], seats: &[u32], said: &mut [u32]) -> Result<(), Refusal>
    requires { face.known_fits (face.lent state.now seats.now [] [] [] [] said.old) ≡ true → bounds.Seated (desk_at state.now) seats.now }
    ensures { face.left (number_in result) (face.lent state.now seats.now [] [] [] [] said.new)
        ≡ face.known_leaves (face.lent state.now seats.now [] [] [] [] said.old) }
{
    if !room::for_known(state.len(), seats.len(), said.len()) {
        return Err(Refusal::NoRoomForBytes);
    }
    let desk = desk_at(state);
    said[0] = count_of(desk::known(seats, desk));
    Ok(())
}

// `said` has K as a count, 0 where a seat has no word: a number of its own would be one more that a
// caller has to tell from a refusal.
pub fn desk_known(state: &[u32], seats: &[u32], said: &mut [u32]) -> u32
    requires { face.known_fits (face.lent state.now seats.now [] [] [] [] said.old) ≡ true → bounds.Seated (desk_at state.now) seats.now }
    ensures { face.left result (face.lent state.now seats.now [] [] [] [] said.new)
        ≡ face.known_leaves (face.lent state.now seats.now [] [] [] [] said.old) }
{
    number(known(state, seats, said))
}

// What is known, what is settled, and what a settled frame shows.
ghost use Rattle.std.specs.Prelude.{◌≡◌, [], ◌≤◌, ◌<◌, length};
ghost use Rattle.frame_info.specs.Frame.{last_count};
ghost use Rattle.frame_info.specs.Refusal.{number_in};
ghost use Rattle.console.specs.Step.{step_of};
ghost use Rattle.sync_layer.specs.Lists.{write_row};
ghost use Rattle.sync_layer.specs.Whole.{SlotRoom};
ghost use Rattle.desk.specs.Desk as m;
ghost use Rattle.desk.specs.Calls as calls;
ghost use Rattle.desk.specs.Said.{shown_said, logged_said};
ghost use Rattle.desk.specs.Settled as settled;
ghost use Rattle.desk.specs.Whole.{Ready, Seated};

use crate::DeskState;
use crate::line::{FIELD_LENGTH, put_line};
use console::Console;
use frame_info::refusal::Refusal;
use frame_info::{count_of, frame_of};
use sync_layer::{MAX_SEATS, SERVED_FROM, lowest_wrong, seat_at, slot_of, state_in};

// K as a count: the least newest place over the seats.
#[tactic(auto, using(crate::proofs::Loops::leasts))]
pub fn known_count(seats: &[u32], desk: DeskState) -> u32
    requires { Seated desk seats.now }
    ensures { result ≡ m.known_of (m.desk_of desk seats.now [] []) }
{
    let first = seat_at(seats, 0);
    let mut least = first.last_added_count;
    for i in 1..desk.seats as usize {
        let s = seat_at(seats, i);
        least = least.min(s.last_added_count);
    }
    least
}

// K, -1 where a seat has no word.
pub fn known(seats: &[u32], desk: DeskState) -> i32
    requires { Seated desk seats.now }
    ensures { result ≡ calls.known_frame (m.desk_of desk seats.now [] []) }
{
    frame_of(known_count(seats, desk))
}

fn right_up_to(seats: &[u32], desk: DeskState, frame: u32) -> bool
    requires { Seated desk seats.now × (frame < last_count) }
    ensures { result ≡ settled.right_up_to (m.desk_of desk seats.now [] []) frame }
{
    let lowest = lowest_wrong(seats, desk.seats as usize);
    lowest == 0 || frame + 1 < lowest
}

#[tactic(auto, unfolding(crate::specs::Settled::is_settled))]
fn is_settled(seats: &[u32], desk: DeskState, frame: u32) -> bool
    requires { Seated desk seats.now }
    ensures { result ≡ settled.is_settled (m.desk_of desk seats.now [] []) frame }
{
    frame < desk.current
        && desk.current <= frame + 1 + desk.limit
        && frame < known_count(seats, desk)
        && right_up_to(seats, desk, frame)
}

// Why a frame is not shown, if it is not.
#[tactic(auto, unfolding(crate::specs::Calls::show_answer))]
fn show_refusal(seats: &[u32], desk: DeskState, count: u32) -> Result<(), Refusal>
    requires { Seated desk seats.now }
    ensures { number_in result ≡ calls.show_answer (m.desk_of desk seats.now [] []) count }
{
    if count == 0 {
        return Err(Refusal::FrameBelowZero);
    }
    if !is_settled(seats, desk, count - 1) {
        return Err(Refusal::NotSettled);
    }
    Ok(())
}

// The words of a frame's slot, one for each seat.
#[tactic(auto, using(crate::proofs::Loops::words))]
pub fn words_in(slots: &[u32], desk: DeskState, frame: u32) -> &[u32]
    requires { Ready desk × SlotRoom slots.now }
    ensures { (result.now ≡ settled.shown_words (m.desk_of desk [] [] slots.now) frame) × (length result.now ≡ desk.seats) }
{
    let from = slot_of(desk.limit, frame) + SERVED_FROM;
    &slots[from..from + desk.seats as usize]
}

#[tactic(auto, using(crate::proofs::Loops::words))]
fn put_words(slots: &[u32], desk: DeskState, frame: u32, out: &mut [u32])
    requires { Ready desk × SlotRoom slots.now × (desk.seats ≤ length out.old) }
    ensures { out.new ≡ write_row desk.seats out.old 0 (settled.shown_word (m.desk_of desk [] [] slots.now) frame) }
{
    let row = words_in(slots, desk, frame);
    out[..row.len()].copy_from_slice(row);
}

// The state of a frame's slot, stepped once with its words.
pub fn shown_state(slots: &[u32], desk: DeskState, frame: u32) -> Console
    requires { Ready desk × SlotRoom slots.now }
    ensures { result ≡ settled.shown_state step_of (m.desk_of desk [] [] slots.now) frame }
{
    let state = state_in(slots, desk.limit, frame);
    state.step(words_in(slots, desk, frame))
}

// A settled frame's words and the console after it: 7, 21. What is lent past the seats stays as it was.
#[tactic(auto, using(frame_info::proofs::Refusals::number_some), unfolding(crate::specs::Calls::show_answer, crate::specs::Calls::show_says, crate::specs::Calls::show_words, crate::specs::Settled::is_settled))]
pub fn show(
    slots: &[u32],
    seats: &[u32],
    desk: DeskState,
    frame: i32,
    out: &mut [u32; MAX_SEATS],
) -> Result<Console, Refusal>
    requires { Seated desk seats.now × SlotRoom slots.now }
    ensures { (shown_said result ≡ calls.show_says (m.desk_of desk seats.now [] slots.now) frame)
        × (out.new ≡ calls.show_words (m.desk_of desk seats.now [] slots.now) frame out.old) }
{
    let count = count_of(frame);
    show_refusal(seats, desk, count)?;
    put_words(slots, desk, count - 1, out);
    Ok(shown_state(slots, desk, count - 1))
}

// Why a frame is not logged into so many bytes, if it is not.
#[tactic(auto, using(frame_info::proofs::Refusals::number_some), unfolding(crate::specs::Calls::log_answer))]
fn log_refusal(seats: &[u32], desk: DeskState, count: u32, room: usize) -> Result<(), Refusal>
    requires { Seated desk seats.now }
    ensures { number_in result ≡ calls.log_answer (m.desk_of desk seats.now [] []) count room }
{
    show_refusal(seats, desk, count)?;
    if room < FIELD_LENGTH * (desk.seats as usize + 2) {
        return Err(Refusal::NoRoomForBytes);
    }
    Ok(())
}

// A settled frame's log line: 7, 21, 20. Answers how many bytes it takes; those past it stay.
#[tactic(auto, using(frame_info::proofs::Refusals::number_some), unfolding(crate::specs::Calls::log_answer, crate::specs::Calls::show_answer, crate::specs::Calls::log_says, crate::specs::Calls::log_bytes, crate::specs::Settled::is_settled))]
pub fn log(
    slots: &[u32],
    seats: &[u32],
    desk: DeskState,
    frame: i32,
    out: &mut [u8],
) -> Result<u32, Refusal>
    requires { Seated desk seats.now × SlotRoom slots.now }
    ensures { (logged_said result ≡ calls.log_says (m.desk_of desk seats.now [] slots.now) frame out.old)
        × (out.new ≡ calls.log_bytes (m.desk_of desk seats.now [] slots.now) frame out.old) }
{
    let count = count_of(frame);
    log_refusal(seats, desk, count, out.len())?;
    put_line(slots, desk, count - 1, out);
    Ok(FIELD_LENGTH as u32 * (desk.seats + 2))
}

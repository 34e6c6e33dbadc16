// The seats' queues in a lent list of numbers: seat i's eight from i * SEAT_WORDS on. And what is
// done to every seat in turn.
// Kept: numbers and no list of structs, since C lends the list.
ghost use Rattle.std.specs.Prelude.{◌≡◌, ◌+◌, ◌-◌, ◌*◌, ◌≤◌, ◌<◌, length};
ghost use Rattle.input_queue.specs.Queue.{reset, discard};
ghost use Rattle.input_queue.specs.declared.QueueState.{QueueState};
ghost use Rattle.sync_layer.specs.Lists.{lower, lowest_of};
ghost use Rattle.sync_layer.specs.Seats.{seat_words, seat_at, set_seat, map_seats};
ghost use Rattle.sync_layer.specs.Calls.{fresh_seats};

use crate::SEAT_WORDS;
use input_queue::QueueState;

#[tactic(auto, unfolding(crate::specs::Seats::seat_at))]
pub fn seat_at(seats: &[u32], seat: usize) -> QueueState
    requires { (seat + 1) * seat_words ≤ length seats.now }
    ensures { result ≡ seat_at seats.now seat }
{
    let at = seat * SEAT_WORDS;
    QueueState {
        frame_delay: seats[at],
        last_user_count: seats[at + 1],
        last_added_count: seats[at + 2],
        oldest: seats[at + 3],
        last_requested_count: seats[at + 4],
        prediction_count: seats[at + 5],
        prediction: seats[at + 6],
        first_incorrect_count: seats[at + 7],
    }
}

#[tactic(auto, unfolding(crate::specs::Seats::set_seat, crate::specs::Lists::write_row))]
pub fn set_seat(seats: &mut [u32], seat: usize, s: QueueState)
    requires { (seat + 1) * seat_words ≤ length seats.old }
    ensures { seats.new ≡ set_seat seats.old seat s }
{
    let at = seat * SEAT_WORDS;
    seats[at] = s.frame_delay;
    seats[at + 1] = s.last_user_count;
    seats[at + 2] = s.last_added_count;
    seats[at + 3] = s.oldest;
    seats[at + 4] = s.last_requested_count;
    seats[at + 5] = s.prediction_count;
    seats[at + 6] = s.prediction;
    seats[at + 7] = s.first_incorrect_count;
}

// Every seat fresh, with its own delay.
#[tactic(auto, using(crate::proofs::Seating::map_past), unfolding(crate::specs::Seats::map_seats))]
pub fn fresh_seats(seats: &mut [u32], delays: &[u32])
    requires { length delays.now * seat_words ≤ length seats.old }
    ensures { seats.new ≡ fresh_seats delays.now seats.old }
{
    for (i, &delay) in delays.iter().enumerate() {
        set_seat(seats, i, input_queue::fresh_state(delay));
    }
}

// Every seat's queue changed in turn.
fn change_seats<F: Fn(QueueState) -> QueueState>(seats: &mut [u32], n: usize, change: F)
    requires { (n * seat_words ≤ length seats.old) × ((s : _) → F.pre change s) }
    ensures { (h : QueueState → QueueState) → ((s r : _) → F.post change s r → r ≡ h s) → seats.new ≡ map_seats n (λ i q. h q) seats.old }
{
    for i in 0..n {
        let s = seat_at(seats, i);
        set_seat(seats, i, change(s));
    }
}

pub fn reset_seats(seats: &mut [u32], n: usize)
    requires { n * seat_words ≤ length seats.old }
    ensures { seats.new ≡ map_seats n (λ i q. reset q) seats.old }
{
    change_seats(seats, n, |s| input_queue::reset(s));
}

pub fn discard_seats(seats: &mut [u32], n: usize, frame: u32)
    requires { n * seat_words ≤ length seats.old }
    ensures { seats.new ≡ map_seats n (λ i q. discard q frame) seats.old }
{
    change_seats(seats, n, |s| input_queue::discard(s, frame));
}

fn lower_of(a: u32, b: u32) -> u32
    ensures { result ≡ lower a b }
{
    match (a, b) {
        (0, _) => b,
        (_, 0) => a,
        _ => a.min(b),
    }
}

// The lowest mismatch of the seats, as a count.
#[tactic(auto, unfolding(crate::specs::Lists::lowest_of))]
pub fn lowest_wrong(seats: &[u32], n: usize) -> u32
    requires { n * seat_words ≤ length seats.now }
    ensures { result ≡ lowest_of n (λ i. (seat_at seats.now i).first_incorrect_count) }
{
    let mut lowest = 0;
    for i in 0..n {
        let s = seat_at(seats, i);
        lowest = lower_of(lowest, s.first_incorrect_count);
    }
    lowest
}

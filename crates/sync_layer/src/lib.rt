// The sync layer, after ggrs's sync_layer.rs.
//
// A layer is six numbers, `LayerState`, that go by value, and three lists of numbers that the
// caller lends: the seats' queues, their words, and the saved slots. Each call takes only those
// that it touches, and tests for itself. One that refuses answers why, and writes nothing: the layer
// that it was given stands. A refused setup alone hands back a fresh layer, and so writes its one seat
// and its one slot. The crate `sync_layer_value` has the same layer with its lists inside.
//
// Kept: `Ready`, `Seated`, `WordRoom` and `SlotRoom` stand in the contracts and in no type. They are of lists that C lends,
// each call of those that it touches, and C's `layer_request` makes a `LayerState` of any numbers.
#![tactic(auto)]

mod seats;
mod serving;
mod slots;

ghost use Rattle.std.specs.Prelude.{nat_le, ◌≡◌, ◌+◌, ◌-◌, ◌*◌, ◌≤◌, ◌<◌};
ghost use Rattle.std.specs.List.{list_all};
ghost use Rattle.frame_info.specs.Frame.{max_delay, count_of};
ghost use Rattle.frame_info.specs.Refusal.{number_in};
ghost use Rattle.input_queue.specs.Calls.{add_refusal};
ghost use Rattle.sync_layer.specs.Calls as calls;
ghost use Rattle.sync_layer.specs.Said.{opened_said, advanced_said, loaded_said, saved_said, latest_said, placed_said, announced_said, confirmed_said};
ghost use Rattle.sync_layer.specs.Seats.{seat_at};
ghost use Rattle.sync_layer.specs.Slots.{max_limit, save_slot};
ghost use Rattle.sync_layer.specs.Whole.{SeatRoom, WordRoom, SlotRoom, Ready, Seated, Places};

use console::Console;
use frame_info::refusal::Refusal;
use frame_info::{Fills, LAST_COUNT, MAX_DELAY, PREDICTORS, PlayerInput, count_of, frame_of};
use input_queue::INPUT_QUEUE_LENGTH;
pub use seats::{discard_seats, lowest_wrong, reset_seats, seat_at, set_seat};
pub use serving::{
    ask_seat, confirmed_inputs, status_of, synchronized_inputs, synchronized_inputs_into,
};
pub use slots::{count_in, save_slot, slot_of, state_in};

// The most seats, and the highest prediction limit.
pub const MAX_SEATS: usize = 4;

pub const MAX_LIMIT: u32 = 15;

// How many numbers of the lent lists a seat has, and a slot.
pub const SEAT_WORDS: usize = 8;

pub const SLOT_WORDS: usize = 16;

// Where the words that the desk served begin in a slot, after the frame and the state.
pub const SERVED_FROM: usize = 4;

// How many numbers each of the lent lists has.
pub const SEATS_LENGTH: usize = MAX_SEATS * SEAT_WORDS;

pub const WORDS_LENGTH: usize = MAX_SEATS * INPUT_QUEUE_LENGTH;

pub const SLOTS_LENGTH: usize = (MAX_LIMIT as usize + 1) * SLOT_WORDS;

#[derive(Clone, Copy, Debug, PartialEq, Eq)]
pub struct LayerState {
    pub num_players: u32,
    pub max_prediction: u32,
    pub predictor: u32,
    // The current frame, as itself.
    pub current_frame: u32,
    // The last saved and the last confirmed frame, as counts.
    pub last_saved_count: u32,
    pub last_confirmed_count: u32,
}

// A setup's answer.
// Kept: no `Result`, since `calls.opened` promises a fresh layer beside a refusal too.
#[derive(Clone, Copy, Debug, PartialEq, Eq)]
pub struct Opened {
    pub refused: Option<Refusal>,
    pub layer: LayerState,
}

// What the other calls answer where they are not refused, if that is more than one value.
#[derive(Clone, Copy, Debug, PartialEq, Eq)]
pub struct Loaded {
    pub state: Console,
    pub layer: LayerState,
}

fn delays_in_range(delays: &[u32]) -> bool
    ensures { result ≡ list_all (λ d. nat_le d max_delay) delays.now }
{
    delays.iter().all(|&delay| delay <= MAX_DELAY)
}

#[tactic(auto, using(crate::proofs::Answers::all_in_range), unfolding(crate::specs::Calls::Setup::fits))]
fn fits(limit: u32, predictor: u32, delays: &[u32]) -> bool
    ensures { result ≡ calls.fits limit predictor delays.now }
{
    !delays.is_empty()
        && delays.len() <= MAX_SEATS
        && limit <= MAX_LIMIT
        && predictor < PREDICTORS
        && delays_in_range(delays)
}

fn fresh_layer(seats: u32, limit: u32, predictor: u32) -> LayerState
    ensures { result ≡ calls.fresh_layer seats limit predictor }
{
    LayerState {
        num_players: seats,
        max_prediction: limit,
        predictor,
        current_frame: 0,
        last_saved_count: 0,
        last_confirmed_count: 0,
    }
}

// A fresh layer, one delay for each seat: 1 where anything is out of range, and then a layer of one
// seat with limit, delay and predictor 0. The words need not be cleared.
#[tactic(auto, unfolding(crate::specs::Calls::Setup::opened, crate::specs::Calls::Setup::opened_seats, crate::specs::Calls::Setup::opened_slots, crate::specs::Calls::Setup::fits))]
pub fn new(
    seats: &mut [u32],
    slots: &mut [u32],
    limit: u32,
    predictor: u32,
    delays: &[u32],
) -> Opened
    requires { SeatRoom seats.old × SlotRoom slots.old }
    ensures { (opened_said result ≡ calls.opened limit predictor delays.now)
        × (seats.new ≡ calls.opened_seats limit predictor delays.now seats.old)
        × (slots.new ≡ calls.opened_slots limit predictor delays.now slots.old) }
{
    if fits(limit, predictor, delays) {
        seats::fresh_seats(seats, delays);
        slots::clear_slots(slots, limit as usize + 1);
        return Opened {
            refused: None,
            layer: fresh_layer(delays.len() as u32, limit, predictor),
        };
    }
    seats::fresh_seats(seats, &[0]);
    slots::clear_slots(slots, 1);
    Opened {
        refused: Some(Refusal::OutOfRange),
        layer: fresh_layer(1, 0, 0),
    }
}

pub fn current_frame(layer: LayerState) -> i32
    requires { Ready layer }
    ensures { result ≡ calls.current_frame_of layer }
{
    frame_of(layer.current_frame + 1)
}

// -1 where nothing is saved.
pub fn last_saved_frame(layer: LayerState) -> i32
    ensures { result ≡ calls.last_saved layer }
{
    frame_of(layer.last_saved_count)
}

// -1 where nothing is confirmed.
pub fn last_confirmed_frame(layer: LayerState) -> i32
    ensures { result ≡ calls.last_confirmed layer }
{
    frame_of(layer.last_confirmed_count)
}

// Kept: the definition `with_current`, which two promises cite, and so a function with its name.
fn with_current(layer: LayerState, frame: u32) -> LayerState
    ensures { result ≡ calls.with_current layer frame }
{
    LayerState {
        current_frame: frame,
        ..layer
    }
}

// One frame on: 6 at the last frame.
#[tactic(auto, unfolding(crate::specs::Calls::Frames::advanced))]
pub fn advance_frame(layer: LayerState) -> Result<LayerState, Refusal>
    requires { Ready layer }
    ensures { advanced_said layer result ≡ calls.advanced layer }
{
    let next = layer.current_frame + 1;
    if next >= LAST_COUNT {
        return Err(Refusal::FrameTooHigh);
    }
    Ok(with_current(layer, next))
}

// Frame and state into the current frame's slot. The words of the slot stay.
pub fn save_current_state(slots: &mut [u32], layer: LayerState, state: Console) -> LayerState
    requires { Ready layer × SlotRoom slots.old }
    ensures { (result ≡ calls.saved_layer layer)
        × (slots.new ≡ save_slot layer.max_prediction slots.old layer.current_frame state) }
{
    let current = layer.current_frame;
    save_slot(slots, layer.max_prediction, current, state);
    LayerState {
        last_saved_count: current + 1,
        ..layer
    }
}

fn slot_holds(slots: &[u32], limit: u32, count: u32) -> bool
    requires { (limit ≤ max_limit) × (0 < count) × SlotRoom slots.now }
    ensures { result ≡ calls.holds limit slots.now count }
{
    count_in(slots, limit, count - 1) == count
}

// Why a load is refused, if it is.
#[tactic(auto, unfolding(crate::specs::Calls::Frames::load_refusal))]
fn load_refusal(slots: &[u32], layer: LayerState, count: u32) -> Result<(), Refusal>
    requires { Ready layer × SlotRoom slots.now }
    ensures { number_in result ≡ calls.load_refusal layer slots.now count }
{
    if count == 0 {
        return Err(Refusal::FrameBelowZero);
    }
    if layer.current_frame < count {
        return Err(Refusal::LoadNotPast);
    }
    if count + layer.max_prediction <= layer.current_frame {
        return Err(Refusal::LoadTooOld);
    }
    if !slot_holds(slots, layer.max_prediction, count) {
        return Err(Refusal::SlotHoldsAnother);
    }
    Ok(())
}

// The state saved for a frame, which becomes the current one: 7, 8, 9, 10.
#[tactic(auto, unfolding(crate::specs::Calls::Frames::loaded, crate::specs::Calls::Frames::load_refusal))]
pub fn load_frame(slots: &[u32], layer: LayerState, frame: i32) -> Result<Loaded, Refusal>
    requires { Ready layer × SlotRoom slots.now }
    ensures { loaded_said layer result ≡ calls.loaded layer slots.now frame }
{
    let count = count_of(frame);
    load_refusal(slots, layer, count)?;
    Ok(Loaded {
        state: state_in(slots, layer.max_prediction, count - 1),
        layer: with_current(layer, count - 1),
    })
}

// Why a saved lookup is refused, if it is.
#[tactic(auto, unfolding(crate::specs::Calls::Frames::saved_refusal))]
fn saved_refusal(slots: &[u32], limit: u32, count: u32) -> Result<(), Refusal>
    requires { (limit ≤ max_limit) × SlotRoom slots.now }
    ensures { number_in result ≡ calls.saved_refusal limit slots.now count }
{
    if count == 0 {
        return Err(Refusal::FrameBelowZero);
    }
    if !slot_holds(slots, limit, count) {
        return Err(Refusal::SlotHoldsAnother);
    }
    Ok(())
}

// The state saved for a frame: 7, 10.
#[tactic(auto, unfolding(crate::specs::Calls::Frames::saved_by, crate::specs::Calls::Frames::saved_refusal))]
pub fn saved_state_by_frame(
    slots: &[u32],
    layer: LayerState,
    frame: i32,
) -> Result<Console, Refusal>
    requires { Ready layer × SlotRoom slots.now }
    ensures { saved_said result ≡ calls.saved_by layer slots.now frame }
{
    let count = count_of(frame);
    saved_refusal(slots, layer.max_prediction, count)?;
    Ok(state_in(slots, layer.max_prediction, count - 1))
}

// The highest frame saved within a range, -1 where there is none: 7 for either end.
#[tactic(auto, unfolding(crate::specs::Calls::Frames::latest))]
pub fn latest_saved_state_in_range(
    slots: &[u32],
    layer: LayerState,
    start: i32,
    end: i32,
) -> Result<i32, Refusal>
    requires { Ready layer × SlotRoom slots.now }
    ensures { latest_said result ≡ calls.latest layer slots.now start end }
{
    let low = count_of(start);
    let high = count_of(end);
    if low == 0 || high == 0 {
        return Err(Refusal::FrameBelowZero);
    }
    let n = layer.max_prediction as usize + 1;
    Ok(frame_of(slots::highest_in(slots, n, low, high)))
}

// Why a remote input is refused, if it is.
#[tactic(auto, unfolding(crate::specs::Calls::Inputs::remote_refusal))]
fn remote_refusal(seats: &[u32], layer: LayerState, seat: u32, count: u32) -> Result<(), Refusal>
    requires { Seated layer seats.now }
    ensures { number_in result ≡ calls.remote_refusal layer seats.now seat count }
{
    if seat >= layer.num_players {
        return Err(Refusal::NoSuchSeat);
    }
    input_queue::add_refusal(seat_at(seats, seat as usize), count)
}

// Why a local input is refused, if it is.
#[tactic(auto, unfolding(crate::specs::Calls::Inputs::local_refusal))]
fn local_refusal(seats: &[u32], layer: LayerState, seat: u32, count: u32) -> Result<(), Refusal>
    requires { Seated layer seats.now }
    ensures { number_in result ≡ calls.local_refusal layer seats.now seat count }
{
    if seat >= layer.num_players {
        return Err(Refusal::NoSuchSeat);
    }
    if count == 0 {
        return Err(Refusal::FrameBelowZero);
    }
    if count > LAST_COUNT {
        return Err(Refusal::FrameTooHigh);
    }
    if count != layer.current_frame + 1 {
        return Err(Refusal::NotCurrentFrame);
    }
    input_queue::add_refusal(seat_at(seats, seat as usize), count)
}

// Seat i's queue takes an input that is not refused. Answers its place.
#[tactic(auto, unfolding(input_queue::specs::Calls::add_input, input_queue::specs::Calls::input_words, input_queue::specs::Calls::add_refusal))]
fn place_input(seats: &mut [u32], words: &mut [u32], seat: usize, input: PlayerInput) -> i32
    requires { Places seats.old words.old seat × (add_refusal (seat_at seats.old seat) (count_of input.frame) ≡ 0) }
    ensures { (result ≡ (calls.placed seats.old words.old seat input).place)
        × (seats.new ≡ calls.placed_seats seats.old words.old seat input)
        × (words.new ≡ calls.placed_words seats.old words.old seat input) }
{
    let s = seat_at(seats, seat);
    let frame = count_of(input.frame) - 1;
    let stored = input_queue::store(words, seat * INPUT_QUEUE_LENGTH, s, frame, input.input);
    set_seat(seats, seat, stored.state);
    frame_of(stored.place)
}

// A far hand's input: 2, 7, 6, 3, 4.
#[tactic(auto, unfolding(crate::specs::Calls::Inputs::remote, crate::specs::Calls::Inputs::remote_seats, crate::specs::Calls::Inputs::remote_words, crate::specs::Calls::Inputs::remote_refusal))]
pub fn add_remote_input(
    seats: &mut [u32],
    words: &mut [u32],
    layer: LayerState,
    seat: u32,
    input: PlayerInput,
) -> Result<i32, Refusal>
    requires { Seated layer seats.old × WordRoom words.old }
    ensures { (placed_said result ≡ calls.remote layer seats.old words.old seat input)
        × (seats.new ≡ calls.remote_seats layer seats.old words.old seat input)
        × (words.new ≡ calls.remote_words layer seats.old words.old seat input) }
{
    remote_refusal(seats, layer, seat, count_of(input.frame))?;
    Ok(place_input(seats, words, seat as usize, input))
}

// A near hand's input, for the current frame: 2, 7, 6, 12, 3, 4.
#[tactic(auto, unfolding(crate::specs::Calls::Inputs::local, crate::specs::Calls::Inputs::local_seats, crate::specs::Calls::Inputs::local_words, crate::specs::Calls::Inputs::local_refusal))]
pub fn add_local_input(
    seats: &mut [u32],
    words: &mut [u32],
    layer: LayerState,
    seat: u32,
    input: PlayerInput,
) -> Result<i32, Refusal>
    requires { Seated layer seats.old × WordRoom words.old }
    ensures { (placed_said result ≡ calls.local layer seats.old words.old seat input)
        × (seats.new ≡ calls.local_seats layer seats.old words.old seat input)
        × (words.new ≡ calls.local_words layer seats.old words.old seat input) }
{
    local_refusal(seats, layer, seat, count_of(input.frame))?;
    Ok(place_input(seats, words, seat as usize, input))
}

// Another delay for a seat: 2, 1.
#[tactic(auto, using(crate::proofs::Seating::seat_kept), unfolding(crate::specs::Calls::Inputs::delayed_to, crate::specs::Calls::Inputs::delayed_seats))]
pub fn set_frame_delay(
    seats: &mut [u32],
    words: &[u32],
    layer: LayerState,
    seat: u32,
    delay: u32,
) -> Result<Fills, Refusal>
    requires { Seated layer seats.old × WordRoom words.now }
    ensures { (announced_said result ≡ calls.delayed_to layer seats.old words.now seat delay)
        × (seats.new ≡ calls.delayed_seats layer seats.old words.now seat delay) }
{
    if seat >= layer.num_players {
        return Err(Refusal::NoSuchSeat);
    }
    let i = seat as usize;
    let s = seat_at(seats, i);
    let d = input_queue::set_frame_delay(words, i * INPUT_QUEUE_LENGTH, s, delay)?;
    set_seat(seats, i, d.state);
    Ok(d.fills)
}

pub fn reset_prediction(seats: &mut [u32], layer: LayerState)
    requires { Seated layer seats.old }
    ensures { seats.new ≡ calls.reset_seats layer seats.old }
{
    reset_seats(seats, layer.num_players as usize);
}

// The lowest mismatch, -1 where there is none.
pub fn check_simulation_consistency(seats: &[u32], layer: LayerState) -> i32
    requires { Seated layer seats.now }
    ensures { result ≡ calls.lowest_mismatch layer seats.now }
{
    frame_of(lowest_wrong(seats, layer.num_players as usize))
}

// What a confirm comes to after its caps, as a count.
fn confirm_cap(layer: LayerState, count: u32, sparse: bool) -> u32
    requires { Ready layer }
    ensures { result ≡ calls.confirm_cap layer count sparse }
{
    let least = if sparse {
        count.min(layer.last_saved_count)
    } else {
        count
    };
    least.min(layer.current_frame + 1)
}

// Why a confirm is refused, if it is.
#[tactic(auto, unfolding(crate::specs::Calls::Confirm::cap_refusal))]
fn confirm_refusal(seats: &[u32], layer: LayerState, count: u32, cap: u32) -> Result<(), Refusal>
    requires { Seated layer seats.now }
    ensures { number_in result ≡ calls.cap_refusal layer seats.now count cap }
{
    if count == 0 {
        return Err(Refusal::FrameBelowZero);
    }
    let wrong = lowest_wrong(seats, layer.num_players as usize);
    if wrong != 0 && wrong < cap {
        return Err(Refusal::AboveMismatch);
    }
    Ok(())
}

// Nothing at or below a frame will change any more: 7, 15. The queues let go of what is before it.
#[tactic(auto, unfolding(crate::specs::Calls::Confirm::confirmed, crate::specs::Calls::Confirm::confirmed_seats))]
pub fn set_last_confirmed_frame(
    seats: &mut [u32],
    layer: LayerState,
    frame: i32,
    sparse: bool,
) -> Result<LayerState, Refusal>
    requires { Seated layer seats.old }
    ensures { (confirmed_said layer result ≡ calls.confirmed layer seats.old frame sparse)
        × (seats.new ≡ calls.confirmed_seats layer seats.old frame sparse) }
{
    let count = count_of(frame);
    let cap = confirm_cap(layer, count, sparse);
    confirm_refusal(seats, layer, count, cap)?;
    if cap >= 2 {
        discard_seats(seats, layer.num_players as usize, cap - 2);
    }
    Ok(LayerState {
        last_confirmed_count: cap,
        ..layer
    })
}

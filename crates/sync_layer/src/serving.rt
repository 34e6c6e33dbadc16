// What is served to every seat for a frame. A status list has one entry a seat: whether it is gone,
// and its last frame.
ghost use Rattle.std.specs.Prelude.{ℕ, ◌≡◌, ◌+◌, ◌-◌, ◌*◌, ◌≤◌, ◌<◌, length, set};
ghost use Rattle.frame_info.specs.Refusal.{number_in};
ghost use Rattle.frame_info.specs.Word.{predicted};
ghost use Rattle.input_queue.specs.Queue.{asking};
ghost use Rattle.input_queue.specs.Ring.{word_at};
ghost use Rattle.sync_layer.specs.Calls as calls;
ghost use Rattle.sync_layer.specs.Lists.{first_refusal, write_row};
ghost use Rattle.sync_layer.specs.Seats.{max_seats, seat_words, ring_of, seat_at, set_seat, map_seats};
ghost use Rattle.sync_layer.specs.Whole.{WordRoom, Seated, Places, Serves, Listed, OneEach};

use crate::seats::{seat_at, set_seat};
use crate::{LayerState, MAX_SEATS};
use frame_info::input_status::{CONFIRMED, DISCONNECTED, InputStatus, PREDICTED};
use frame_info::refusal::Refusal;
use frame_info::{BLANK, NULL_FRAME, count_of, frame_of};
use input_queue::{Asked, INPUT_QUEUE_LENGTH};

// Whether a seat is gone, with its last frame below a frame.
// Kept: a status list goes as two lists, as C lends it. Of a struct of both, each `ensures` would say
// list.entry.disconnected.now and list.entry.last_frame.now, which is no plainer.
fn gone_below(disconnected: &[bool], last_frame: &[i32], seat: usize, frame: u32) -> bool
    requires { Listed disconnected.now last_frame.now seat }
    ensures { result ≡ calls.gone_below frame disconnected.now last_frame.now seat }
{
    disconnected[seat] && count_of(last_frame[seat]) <= frame
}

fn one_each(layer: LayerState, disconnected: &[bool], last_frame: &[i32]) -> bool
    ensures { result ≡ calls.one_each layer disconnected.now last_frame.now }
{
    let n = layer.num_players as usize;
    disconnected.len() == n && last_frame.len() == n
}

// Why the lowest of n seats that refuse does, if one does.
fn first_refusal<F: Fn(usize) -> Result<(), Refusal>>(n: usize, refusal: F) -> Result<(), Refusal>
    requires { (i : ℕ) → i < n → F.pre refusal i }
    ensures { (number : ℕ → ℕ) → ((i : ℕ) (r : _) → i < n → F.post refusal i r → number_in r ≡ number i) → number_in result ≡ first_refusal n number }
{
    for i in 0..n {
        refusal(i)?;
    }
    Ok(())
}

fn ask_refusal(
    seats: &[u32],
    layer: LayerState,
    disconnected: &[bool],
    last_frame: &[i32],
    seat: usize,
) -> Result<(), Refusal>
    requires { Seated layer seats.now × (seat < layer.num_players) × Listed disconnected.now last_frame.now seat }
    ensures { number_in result ≡ calls.ask_refusal layer seats.now disconnected.now last_frame.now seat }
{
    if gone_below(disconnected, last_frame, seat, layer.current_frame) {
        return Ok(());
    }
    input_queue::input_refusal(seat_at(seats, seat), layer.current_frame + 1)
}

// Why a request is refused, if it is: 2, and then seat by seat 13, 14.
#[tactic(auto, unfolding(crate::specs::Calls::Requests::request_refusal))]
fn request_refusal(
    seats: &[u32],
    layer: LayerState,
    disconnected: &[bool],
    last_frame: &[i32],
) -> Result<(), Refusal>
    requires { Seated layer seats.now }
    ensures { number_in result ≡ calls.request_refusal layer seats.now disconnected.now last_frame.now }
{
    if !one_each(layer, disconnected, last_frame) {
        return Err(Refusal::NoSuchSeat);
    }
    first_refusal(layer.num_players as usize, |i| {
        ask_refusal(seats, layer, disconnected, last_frame, i)
    })
}

// How an asked word stands.
pub fn status_of(confirmed: bool) -> InputStatus
    ensures { result ≡ calls.status_of confirmed }
{
    if confirmed { CONFIRMED } else { PREDICTED }
}

// One seat's queue asked for a frame, given as a count, and put back.
pub fn ask_seat(seats: &mut [u32], words: &[u32], predictor: u32, count: u32, seat: usize) -> Asked
    requires { Places seats.old words.now seat }
    ensures { (result ≡ asking (predicted predictor) (word_at words.now (ring_of seat)) (seat_at seats.old seat) (count - 1))
        × (seats.new ≡ set_seat seats.old seat result.state) }
{
    let s = seat_at(seats, seat);
    let asked = input_queue::ask(words, seat * INPUT_QUEUE_LENGTH, s, predictor, count);
    set_seat(seats, seat, asked.state);
    asked
}

// One seat's word and status, and its queue after the request; one that is gone is not asked.
#[tactic(auto, using(crate::proofs::Seating::seat_kept))]
fn serve_seat(
    seats: &mut [u32],
    words: &[u32],
    layer: LayerState,
    disconnected: &[bool],
    last_frame: &[i32],
    seat: usize,
    inputs: &mut [u32],
    statuses: &mut [InputStatus],
)
    requires { Serves layer seats.old words.now seat × Listed disconnected.now last_frame.now seat
        × (seat < length inputs.old) × (seat < length statuses.old) }
    ensures { (seats.new
        ≡ set_seat seats.old seat
        (calls.asked_seat layer seats.old words.now disconnected.now last_frame.now seat (seat_at seats.old seat)))
        × (inputs.new ≡ set inputs.old seat (calls.served_word layer seats.old words.now disconnected.now last_frame.now seat))
        × (statuses.new ≡ set statuses.old seat
        (calls.status layer seats.old words.now disconnected.now last_frame.now seat)) }
{
    if gone_below(disconnected, last_frame, seat, layer.current_frame) {
        inputs[seat] = BLANK;
        statuses[seat] = DISCONNECTED;
    } else {
        let asked = ask_seat(seats, words, layer.predictor, layer.current_frame + 1, seat);
        inputs[seat] = asked.word;
        statuses[seat] = status_of(asked.confirmed);
    }
}

#[tactic(auto, using(crate::proofs::Seating::map_past), unfolding(crate::specs::Seats::map_seats, crate::specs::Lists::write_row))]
fn serve_seats(
    seats: &mut [u32],
    words: &[u32],
    layer: LayerState,
    disconnected: &[bool],
    last_frame: &[i32],
    inputs: &mut [u32],
    statuses: &mut [InputStatus],
)
    requires { Seated layer seats.old × WordRoom words.now × OneEach layer disconnected.now last_frame.now
        × (layer.num_players ≤ length inputs.old) × (layer.num_players ≤ length statuses.old) }
    ensures { (seats.new
        ≡ map_seats layer.num_players (calls.asked_seat layer seats.old words.now disconnected.now last_frame.now) seats.old)
        × (inputs.new
        ≡ write_row layer.num_players inputs.old 0 (calls.served_word layer seats.old words.now disconnected.now last_frame.now))
        × (statuses.new
        ≡ write_row layer.num_players statuses.old 0 (calls.status layer seats.old words.now disconnected.now last_frame.now)) }
{
    for i in 0..layer.num_players as usize {
        serve_seat(
            seats,
            words,
            layer,
            disconnected,
            last_frame,
            i,
            inputs,
            statuses,
        );
    }
}

// A request into lists that have a place for every seat, for callers who have tested that: C, whose
// lists are as long as the caller says.
#[tactic(auto, unfolding(crate::specs::Calls::Requests::served_seats, crate::specs::Calls::Requests::served_words, crate::specs::Calls::Requests::statuses, crate::specs::Calls::Requests::request_refusal))]
pub fn synchronized_inputs_into(
    seats: &mut [u32],
    words: &[u32],
    layer: LayerState,
    disconnected: &[bool],
    last_frame: &[i32],
    inputs: &mut [u32],
    statuses: &mut [InputStatus],
) -> Result<(), Refusal>
    requires { Seated layer seats.old × WordRoom words.now × (layer.num_players ≤ length inputs.old) × (layer.num_players ≤ length statuses.old) }
    ensures { (number_in result ≡ calls.request_refusal layer seats.old disconnected.now last_frame.now)
        × (seats.new ≡ calls.served_seats layer seats.old words.now disconnected.now last_frame.now)
        × (inputs.new ≡ calls.served_words layer seats.old words.now disconnected.now last_frame.now inputs.old)
        × (statuses.new ≡ calls.statuses layer seats.old words.now disconnected.now last_frame.now statuses.old) }
{
    request_refusal(seats, layer, disconnected, last_frame)?;
    serve_seats(
        seats,
        words,
        layer,
        disconnected,
        last_frame,
        inputs,
        statuses,
    );
    Ok(())
}

// The word of every seat for the current frame, and its status: 2, and then the lowest seat that
// refuses decides.
// Kept: two public names of one request. This one's arrays have room, so that it requires none.
pub fn synchronized_inputs(
    seats: &mut [u32],
    words: &[u32],
    layer: LayerState,
    disconnected: &[bool],
    last_frame: &[i32],
    inputs: &mut [u32; MAX_SEATS],
    statuses: &mut [InputStatus; MAX_SEATS],
) -> Result<(), Refusal>
    requires { Seated layer seats.old × WordRoom words.now }
    ensures { (number_in result ≡ calls.request_refusal layer seats.old disconnected.now last_frame.now)
        × (seats.new ≡ calls.served_seats layer seats.old words.now disconnected.now last_frame.now)
        × (inputs.new ≡ calls.served_words layer seats.old words.now disconnected.now last_frame.now inputs.old)
        × (statuses.new ≡ calls.statuses layer seats.old words.now disconnected.now last_frame.now statuses.old) }
{
    synchronized_inputs_into(
        seats,
        words,
        layer,
        disconnected,
        last_frame,
        inputs,
        statuses,
    )
}

fn find_refusal(
    seats: &[u32],
    disconnected: &[bool],
    last_frame: &[i32],
    count: u32,
    seat: usize,
) -> Result<(), Refusal>
    requires { ((seat + 1) * seat_words ≤ length seats.now) × (0 < count) × Listed disconnected.now last_frame.now seat }
    ensures { number_in result ≡ calls.find_refusal seats.now disconnected.now last_frame.now count seat }
{
    if gone_below(disconnected, last_frame, seat, count - 1) {
        return Ok(());
    }
    input_queue::found_refusal(seat_at(seats, seat), count)
}

#[tactic(auto, unfolding(crate::specs::Calls::Requests::confirmed_refusal))]
fn confirmed_refusal(
    seats: &[u32],
    layer: LayerState,
    disconnected: &[bool],
    last_frame: &[i32],
    count: u32,
) -> Result<(), Refusal>
    requires { Seated layer seats.now }
    ensures { number_in result ≡ calls.confirmed_refusal layer seats.now disconnected.now last_frame.now count }
{
    if !one_each(layer, disconnected, last_frame) {
        return Err(Refusal::NoSuchSeat);
    }
    if count == 0 {
        return Err(Refusal::FrameBelowZero);
    }
    first_refusal(layer.num_players as usize, |i| {
        find_refusal(seats, disconnected, last_frame, count, i)
    })
}

#[tactic(auto, unfolding(crate::specs::Lists::write_row))]
fn find_seats(
    words: &[u32],
    layer: LayerState,
    disconnected: &[bool],
    last_frame: &[i32],
    count: u32,
    frames: &mut [i32],
    inputs: &mut [u32],
)
    requires { (layer.num_players ≤ max_seats) × (0 < count) × WordRoom words.now × OneEach layer disconnected.now last_frame.now
        × (layer.num_players ≤ length frames.old) × (layer.num_players ≤ length inputs.old) }
    ensures { (frames.new ≡ write_row layer.num_players frames.old 0 (calls.confirmed_frame disconnected.now last_frame.now count))
        × (inputs.new ≡ write_row layer.num_players inputs.old 0
        (calls.confirmed_word words.now disconnected.now last_frame.now count)) }
{
    let frame = count - 1;
    for i in 0..layer.num_players as usize {
        if gone_below(disconnected, last_frame, i, frame) {
            frames[i] = NULL_FRAME;
            inputs[i] = BLANK;
        } else {
            frames[i] = frame_of(count);
            inputs[i] = words[i * INPUT_QUEUE_LENGTH + frame as usize % INPUT_QUEUE_LENGTH];
        }
    }
}

// The stored word of every seat for a frame; -1 and blank for one that is gone: 2, 7, and then the
// lowest seat that has none decides, by 11.
// Kept: two lent arrays, filled together, which the by-value layer lends from its own record.
#[tactic(auto, unfolding(crate::specs::Calls::Requests::confirmed_frames, crate::specs::Calls::Requests::confirmed_words, crate::specs::Calls::Requests::confirmed_refusal))]
pub fn confirmed_inputs(
    seats: &[u32],
    words: &[u32],
    layer: LayerState,
    disconnected: &[bool],
    last_frame: &[i32],
    frame: i32,
    frames: &mut [i32; MAX_SEATS],
    inputs: &mut [u32; MAX_SEATS],
) -> Result<(), Refusal>
    requires { Seated layer seats.now × WordRoom words.now }
    ensures { (number_in result ≡ calls.confirmed_number layer seats.now disconnected.now last_frame.now frame)
        × (frames.new ≡ calls.confirmed_frames layer seats.now disconnected.now last_frame.now frame frames.old)
        × (inputs.new ≡ calls.confirmed_words layer seats.now words.now disconnected.now last_frame.now frame inputs.old) }
{
    let count = count_of(frame);
    confirmed_refusal(seats, layer, disconnected, last_frame, count)?;
    find_seats(
        words,
        layer,
        disconnected,
        last_frame,
        count,
        frames,
        inputs,
    );
    Ok(())
}

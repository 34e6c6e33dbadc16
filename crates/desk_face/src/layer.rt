// Two calls of the sync layer in the same manner. `state` is the layer's own six numbers.
ghost use Rattle.std.specs.Prelude.{◌≡◌, ◌≤◌, length};
ghost use Rattle.frame_info.specs.Refusal.{number_in};
ghost use Rattle.desk_face.specs.Lists.{layer_words, layer_at, set_layer, console_of};
ghost use Rattle.desk_face.specs.Layers.{room_to_save, save_number, save_state, save_slots, SaveReady, room_to_request, request_number, request_seats, request_inputs, request_statuses, RequestReady};

use crate::{number, room};
use console::Console;
use frame_info::input_status::InputStatus;
use frame_info::refusal::Refusal;
use sync_layer::{LayerState, SEATS_LENGTH, SLOTS_LENGTH, WORDS_LENGTH};

// How many numbers a layer has of its own.
const LAYER_WORDS: usize = 6;

// Kept: the C interface has no struct, since C knows no layout of one. Its numbers stand in a list,
// each in its place.
#[tactic(auto, unfolding(crate::specs::Lists::layer_at))]
fn layer_at(state: &[u32]) -> LayerState
    requires { layer_words ≤ length state.now }
    ensures { result ≡ layer_at state.now }
{
    LayerState {
        num_players: state[0],
        max_prediction: state[1],
        predictor: state[2],
        current_frame: state[3],
        last_saved_count: state[4],
        last_confirmed_count: state[5],
    }
}

#[tactic(auto, unfolding(crate::specs::Lists::set_layer, sync_layer::specs::Lists::write_row))]
fn set_layer(state: &mut [u32], layer: LayerState)
    requires { layer_words ≤ length state.old }
    ensures { state.new ≡ set_layer state.old layer }
{
    state[0] = layer.num_players;
    state[1] = layer.max_prediction;
    state[2] = layer.predictor;
    state[3] = layer.current_frame;
    state[4] = layer.last_saved_count;
    state[5] = layer.last_confirmed_count;
}

fn room_to_save(state: &[u32], slots: &[u32]) -> bool
    ensures { result ≡ room_to_save state.now slots.now }
{
    state.len() >= LAYER_WORDS && slots.len() >= SLOTS_LENGTH
}

#[tactic(auto, unfolding(crate::specs::Layers::save_number, crate::specs::Layers::save_state, crate::specs::Layers::save_slots))]
fn save(state: &mut [u32], slots: &mut [u32], console: Console) -> Result<(), Refusal>
    requires { SaveReady state.old slots.old }
    ensures { (number_in result ≡ save_number state.old slots.old)
        × (state.new ≡ save_state state.old slots.old)
        × (slots.new ≡ save_slots state.old slots.old console) }
{
    if !room_to_save(&state[..], &slots[..]) {
        return Err(Refusal::NoRoomForBytes);
    }
    let before = layer_at(&state[..]);
    let after = sync_layer::save_current_state(slots, before, console);
    set_layer(state, after);
    Ok(())
}

// Answers 20 where a list is too short, else 0.
pub fn layer_save(state: &mut [u32], slots: &mut [u32], head: u32, kind: u32, seal: u32) -> u32
    requires { SaveReady state.old slots.old }
    ensures { (result ≡ save_number state.old slots.old)
        × (state.new ≡ save_state state.old slots.old)
        × (slots.new ≡ save_slots state.old slots.old (console_of head kind seal)) }
{
    number(save(state, slots, Console { head, kind, seal }))
}

#[tactic(auto, unfolding(crate::specs::Face::rows_room, crate::specs::Face::room_of_row))]
fn room_to_request(
    state: &[u32],
    seats: &[u32],
    words: &[u32],
    inputs: &[u32],
    statuses: &[u32],
) -> bool
    ensures { result ≡ room_to_request state.now seats.now words.now inputs.now statuses.now }
{
    state.len() >= LAYER_WORDS
        && seats.len() >= SEATS_LENGTH
        && words.len() >= WORDS_LENGTH
        && room::for_rows(layer_at(state).num_players, inputs.len(), statuses.len())
}

#[tactic(auto, unfolding(crate::specs::Layers::request_number, crate::specs::Layers::request_seats, crate::specs::Layers::request_inputs, crate::specs::Layers::request_statuses))]
fn request(
    state: &[u32],
    seats: &mut [u32],
    words: &[u32],
    gone: &[bool],
    last: &[i32],
    inputs: &mut [u32],
    statuses: &mut [InputStatus],
) -> Result<(), Refusal>
    requires { RequestReady state.now seats.old words.now inputs.old statuses.old }
    ensures { (number_in result ≡ request_number state.now seats.old words.now inputs.old statuses.old gone.now last.now)
        × (seats.new ≡ request_seats state.now seats.old words.now inputs.old statuses.old gone.now last.now)
        × (inputs.new ≡ request_inputs state.now seats.old words.now inputs.old statuses.old gone.now last.now)
        × (statuses.new
        ≡ request_statuses state.now seats.old words.now inputs.old statuses.old gone.now last.now) }
{
    if !room_to_request(state, &seats[..], words, &inputs[..], &statuses[..]) {
        return Err(Refusal::NoRoomForBytes);
    }
    let layer = layer_at(state);
    sync_layer::synchronized_inputs_into(seats, words, layer, gone, last, inputs, statuses)
}

// Answers 20 where a list is too short, else the layer's number.
pub fn layer_request(
    state: &[u32],
    seats: &mut [u32],
    words: &[u32],
    gone: &[bool],
    last: &[i32],
    inputs: &mut [u32],
    statuses: &mut [InputStatus],
) -> u32
    requires { RequestReady state.now seats.old words.now inputs.old statuses.old }
    ensures { (result ≡ request_number state.now seats.old words.now inputs.old statuses.old gone.now last.now)
        × (seats.new ≡ request_seats state.now seats.old words.now inputs.old statuses.old gone.now last.now)
        × (inputs.new ≡ request_inputs state.now seats.old words.now inputs.old statuses.old gone.now last.now)
        × (statuses.new
        ≡ request_statuses state.now seats.old words.now inputs.old statuses.old gone.now last.now) }
{
    number(request(state, seats, words, gone, last, inputs, statuses))
}

// The exports of the crate `desk_face` for programs in C or Rust: each is its function of the same
// name, with the same promise. A crate is a library or an archive for C, so that the archive is a
// crate of its own.
//
// Kept: the C interface has a name, lists and numbers, and answers a number.
#![tactic(auto)]

ghost use Rattle.std.specs.Prelude.{◌≡◌, true, []};
ghost use Rattle.desk.specs.Whole as bounds;
ghost use Rattle.desk_face.specs.Face as face;
ghost use Rattle.desk_face.specs.Layers.{save_number, save_state, save_slots, SaveReady, request_number};
ghost use Rattle.desk_face.specs.Layers.{request_seats, request_inputs, request_statuses, RequestReady};
ghost use Rattle.desk_face.specs.Lists.{desk_at, console_of};

use desk_face::layer;
use frame_info::input_status::InputStatus;

#[unsafe(no_mangle)]
pub extern "C" fn desk_setup(
    state: &mut [u32],
    seats: &mut [u32],
    slots: &mut [u32],
    limit: u32,
    predictor: u32,
    delays: &[u32],
) -> u32
    ensures { face.left result (face.lent state.new seats.new [] slots.new [] [] [])
        ≡ face.setup_leaves limit predictor delays.now (face.lent state.old seats.old [] slots.old [] [] []) }
{
    desk_face::desk_setup(state, seats, slots, limit, predictor, delays)
}

// `said` has the place.
#[unsafe(no_mangle)]
pub extern "C" fn desk_take(
    state: &[u32],
    seats: &mut [u32],
    words: &mut [u32],
    seat: u32,
    frame: i32,
    word: u32,
    said: &mut [u32],
) -> u32
    requires { face.take_fits (face.lent state.now seats.old words.old [] [] [] said.old) ≡ true → bounds.Seated (desk_at state.now) seats.old }
    ensures { face.left result (face.lent state.now seats.new words.new [] [] [] said.new)
        ≡ face.take_leaves seat frame word (face.lent state.now seats.old words.old [] [] [] said.old) }
{
    desk_face::desk_take(state, seats, words, seat, frame, word, said)
}

// `said` has the report.
#[unsafe(no_mangle)]
pub extern "C" fn desk_settle(
    state: &mut [u32],
    seats: &mut [u32],
    words: &[u32],
    slots: &mut [u32],
    said: &mut [u32],
) -> u32
    requires { face.settle_fits (face.lent state.old seats.old words.now slots.old [] [] said.old) ≡ true
        → bounds.Whole (face.desk_in (face.lent state.old seats.old words.now slots.old [] [] said.old)) }
    ensures { face.left result (face.lent state.new seats.new words.now slots.new [] [] said.new)
        ≡ face.settle_leaves (face.lent state.old seats.old words.now slots.old [] [] said.old) }
{
    desk_face::desk_settle(state, seats, words, slots, said)
}

// `said` has the report. `served` and `statuses` have one place for each seat.
#[unsafe(no_mangle)]
pub extern "C" fn desk_advance(
    state: &mut [u32],
    seats: &mut [u32],
    words: &[u32],
    slots: &mut [u32],
    served: &mut [u32],
    statuses: &mut [u32],
    said: &mut [u32],
) -> u32
    requires { face.advance_fits (face.lent state.old seats.old words.now slots.old served.old statuses.old said.old) ≡ true
        → bounds.Whole (face.desk_in (face.lent state.old seats.old words.now slots.old served.old statuses.old said.old)) }
    ensures { face.left result (face.lent state.new seats.new words.now slots.new served.new statuses.new said.new)
        ≡ face.advance_leaves (face.lent state.old seats.old words.now slots.old served.old statuses.old said.old) }
{
    desk_face::desk_advance(state, seats, words, slots, served, statuses, said)
}

// `said` has the console after the frame. `shown` has one place for each seat.
#[unsafe(no_mangle)]
pub extern "C" fn desk_show(
    state: &[u32],
    seats: &[u32],
    slots: &[u32],
    frame: i32,
    shown: &mut [u32],
    said: &mut [u32],
) -> u32
    requires { face.show_fits (face.lent state.now seats.now [] slots.now shown.old [] said.old) ≡ true → bounds.Seated (desk_at state.now) seats.now }
    ensures { face.left result (face.lent state.now seats.now [] slots.now shown.new [] said.new)
        ≡ face.show_leaves frame (face.lent state.now seats.now [] slots.now shown.old [] said.old) }
{
    desk_face::desk_show(state, seats, slots, frame, shown, said)
}

// `said` has the number of bytes written.
#[unsafe(no_mangle)]
pub extern "C" fn desk_log(
    state: &[u32],
    seats: &[u32],
    slots: &[u32],
    frame: i32,
    line: &mut [u8],
    said: &mut [u32],
) -> u32
    requires { face.log_fits (face.lent state.now seats.now [] slots.now line.old [] said.old) ≡ true → bounds.Seated (desk_at state.now) seats.now }
    ensures { face.left result (face.lent state.now seats.now [] slots.now line.new [] said.new)
        ≡ face.log_leaves frame (face.lent state.now seats.now [] slots.now line.old [] said.old) }
{
    desk_face::desk_log(state, seats, slots, frame, line, said)
}

// `said` has K as a count, 0 where a seat has no word: a number of its own would be one more that a
// caller has to tell from a refusal.
#[unsafe(no_mangle)]
pub extern "C" fn desk_known(state: &[u32], seats: &[u32], said: &mut [u32]) -> u32
    requires { face.known_fits (face.lent state.now seats.now [] [] [] [] said.old) ≡ true → bounds.Seated (desk_at state.now) seats.now }
    ensures { face.left result (face.lent state.now seats.now [] [] [] [] said.new)
        ≡ face.known_leaves (face.lent state.now seats.now [] [] [] [] said.old) }
{
    desk_face::desk_known(state, seats, said)
}

// Answers 20 where a list is too short, else 0.
#[unsafe(no_mangle)]
pub extern "C" fn layer_save(
    state: &mut [u32],
    slots: &mut [u32],
    head: u32,
    kind: u32,
    seal: u32,
) -> u32
    requires { SaveReady state.old slots.old }
    ensures { (result ≡ save_number state.old slots.old)
        × (state.new ≡ save_state state.old slots.old)
        × (slots.new ≡ save_slots state.old slots.old (console_of head kind seal)) }
{
    layer::layer_save(state, slots, head, kind, seal)
}

// Answers 20 where a list is too short, else the layer's number.
#[unsafe(no_mangle)]
pub extern "C" fn layer_request(
    state: &[u32],
    seats: &mut [u32],
    words: &[u32],
    gone: &[bool],
    last: &[i32],
    inputs: &mut [u32],
    statuses: &mut [InputStatus],
) -> u32
    requires { RequestReady state.now seats.old words.now inputs.old statuses.old }
    ensures { (result ≡ request_number state.now seats.old words.now inputs.old statuses.old gone.now last.now)
        × (seats.new ≡ request_seats state.now seats.old words.now inputs.old statuses.old gone.now last.now)
        × (inputs.new ≡ request_inputs state.now seats.old words.now inputs.old statuses.old gone.now last.now)
        × (statuses.new
        ≡ request_statuses state.now seats.old words.now inputs.old statuses.old gone.now last.now) }
{
    layer::layer_request(state, seats, words, gone, last, inputs, statuses)
}

// The calls of the layer in force, by value: each makes its call and tells its answer. One that is refused leaves the layer as it was.
//
// Kept: the room that an answer needs stands in each contract, since the list that is lent is longer than any one answer.
#![tactic(auto, using(crate::proofs::Keeping::keeping))]

mod statuses;
mod tell;

ghost use Rattle.std.specs.Prelude.{◌+◌, ◌≤◌, ◌<◌, length};
ghost use Rattle.sync_layer_value.specs.Value.{Whole};

use console::Console;
use cues_text::{Fields, Told, tell_fills, tell_frame, tell_number, tell_refusal, tell_setup};
use frame_info::PlayerInput;
use sheet::calls::LayerCall;
use sync_layer_value::SyncLayer;

// layer LIMIT PREDICTOR DELAY..
fn open(fields: &Fields, out: &mut [u8], at: usize) -> Told<SyncLayer>
    requires { at + 192 ≤ length out.old }
    ensures { Whole result.part × (result.at ≤ at + 191) }
{
    let mut delays = [0u32; 2048];
    let n = fields.numbers(2, &mut delays);
    let opened = SyncLayer::new(fields.number(0), fields.number(1), &delays[..n]);
    Told {
        part: opened.layer,
        at: tell_setup(out, at, opened.refused),
    }
}

fn input_of(fields: &Fields) -> PlayerInput {
    PlayerInput::new(fields.frame(1), fields.number(2))
}

// l.local SEAT FRAME WORD
// Kept: `remote` differs in the call alone. One function for both would take the call as a closure, whose promise, that a
// whole layer stays whole, would have to be said of it.
fn local(fields: &Fields, layer: SyncLayer, out: &mut [u8], at: usize) -> Told<SyncLayer>
    requires { Whole layer × (at + 192 ≤ length out.old) }
    ensures { Whole result.part × (result.at ≤ at + 191) }
{
    match layer.add_local_input(fields.number(0), input_of(fields)) {
        Ok(placed) => Told {
            part: placed.layer,
            at: tell_frame(out, at, placed.place),
        },
        Err(refusal) => Told {
            part: layer,
            at: tell_refusal(out, at, refusal),
        },
    }
}

// l.remote SEAT FRAME WORD
fn remote(fields: &Fields, layer: SyncLayer, out: &mut [u8], at: usize) -> Told<SyncLayer>
    requires { Whole layer × (at + 192 ≤ length out.old) }
    ensures { Whole result.part × (result.at ≤ at + 191) }
{
    match layer.add_remote_input(fields.number(0), input_of(fields)) {
        Ok(placed) => Told {
            part: placed.layer,
            at: tell_frame(out, at, placed.place),
        },
        Err(refusal) => Told {
            part: layer,
            at: tell_refusal(out, at, refusal),
        },
    }
}

// l.delay SEAT DELAY
fn delay(fields: &Fields, layer: SyncLayer, out: &mut [u8], at: usize) -> Told<SyncLayer>
    requires { Whole layer × (at + 192 ≤ length out.old) }
    ensures { Whole result.part × (result.at ≤ at + 191) }
{
    match layer.set_frame_delay(fields.number(0), fields.number(1)) {
        Ok(announced) => Told {
            part: announced.layer,
            at: tell_fills(out, at, announced.fills),
        },
        Err(refusal) => Told {
            part: layer,
            at: tell_refusal(out, at, refusal),
        },
    }
}

// l.reset
fn reset(layer: SyncLayer, out: &mut [u8], at: usize) -> Told<SyncLayer>
    requires { Whole layer × (at + 192 ≤ length out.old) }
    ensures { Whole result.part × (result.at ≤ at + 191) }
{
    Told {
        part: layer.reset_prediction(),
        at: tell_number(out, at, 0),
    }
}

// l.confirm FRAME FLAG
fn confirm(fields: &Fields, layer: SyncLayer, out: &mut [u8], at: usize) -> Told<SyncLayer>
    requires { Whole layer × (at + 192 ≤ length out.old) }
    ensures { Whole result.part × (result.at ≤ at + 191) }
{
    match layer.set_last_confirmed_frame(fields.frame(0), fields.number(1) != 0) {
        Ok(part) => Told {
            part: part,
            at: tell_number(out, at, 0),
        },
        Err(refusal) => Told {
            part: layer,
            at: tell_refusal(out, at, refusal),
        },
    }
}

// l.save HEAD KIND SEAL
fn save(fields: &Fields, layer: SyncLayer, out: &mut [u8], at: usize) -> Told<SyncLayer>
    requires { Whole layer × (at + 192 ≤ length out.old) }
    ensures { Whole result.part × (result.at ≤ at + 191) }
{
    let state = Console {
        head: fields.number(0),
        kind: fields.number(1),
        seal: fields.number(2),
    };
    Told {
        part: layer.save_current_state(state),
        at: tell_number(out, at, 0),
    }
}

// l.load FRAME
fn load(fields: &Fields, layer: SyncLayer, out: &mut [u8], at: usize) -> Told<SyncLayer>
    requires { Whole layer × (at + 192 ≤ length out.old) }
    ensures { Whole result.part × (result.at ≤ at + 191) }
{
    match layer.load_frame(fields.frame(0)) {
        Ok(loaded) => Told {
            part: loaded.layer,
            at: tell::tell_state(out, at, loaded.state),
        },
        Err(refusal) => Told {
            part: layer,
            at: tell_refusal(out, at, refusal),
        },
    }
}

// l.advance
fn advance(layer: SyncLayer, out: &mut [u8], at: usize) -> Told<SyncLayer>
    requires { Whole layer × (at + 192 ≤ length out.old) }
    ensures { Whole result.part × (result.at ≤ at + 191) }
{
    match layer.advance_frame() {
        Ok(part) => Told {
            part: part,
            at: tell_frame(out, at, part.current_frame()),
        },
        Err(refusal) => Told {
            part: layer,
            at: tell_refusal(out, at, refusal),
        },
    }
}

// l.request STATUS..
fn request(fields: &Fields, layer: SyncLayer, out: &mut [u8], at: usize) -> Told<SyncLayer>
    requires { Whole layer × (at + 192 ≤ length out.old) }
    ensures { Whole result.part × (result.at ≤ at + 191) }
{
    let mut gone = [false; 2048];
    let mut lasts = [0i32; 2048];
    let n = fields.count as usize;
    statuses::take(fields, 0, n, &mut gone, &mut lasts);
    let seats = layer.state.num_players as usize;
    let served = match layer.synchronized_inputs(&gone[..n], &lasts[..n]) {
        Ok(served) => served,
        Err(refusal) => {
            return Told {
                part: layer,
                at: tell_refusal(out, at, refusal),
            };
        }
    };
    Told {
        part: served.layer,
        at: tell::tell_served(out, at, &served.inputs, &served.statuses, seats),
    }
}

// l.confirmed FRAME STATUS..; the layer stays as it is, here and in all that follow.
fn confirmed(fields: &Fields, layer: SyncLayer, out: &mut [u8], at: usize) -> usize
    requires { Whole layer × (at + 192 ≤ length out.old) }
    ensures { result ≤ at + 191 }
{
    let mut gone = [false; 2048];
    let mut lasts = [0i32; 2048];
    let n = fields.count.saturating_sub(1) as usize;
    statuses::take(fields, 1, n, &mut gone, &mut lasts);
    match layer.confirmed_inputs(&gone[..n], &lasts[..n], fields.frame(0)) {
        Ok(found) => {
            let n = layer.state.num_players as usize;
            tell::tell_found(out, at, &found.frames, &found.inputs, n)
        }
        Err(refusal) => tell_refusal(out, at, refusal),
    }
}

// l.consistent
fn consistent(layer: SyncLayer, out: &mut [u8], at: usize) -> usize
    requires { Whole layer × (at + 192 ≤ length out.old) }
    ensures { result ≤ at + 191 }
{
    tell_frame(out, at, layer.check_simulation_consistency())
}

// l.saved FRAME
fn saved(fields: &Fields, layer: SyncLayer, out: &mut [u8], at: usize) -> usize
    requires { Whole layer × (at + 192 ≤ length out.old) }
    ensures { result ≤ at + 191 }
{
    match layer.saved_state_by_frame(fields.frame(0)) {
        Ok(state) => tell::tell_state(out, at, state),
        Err(refusal) => tell_refusal(out, at, refusal),
    }
}

// l.latest START END
fn latest(fields: &Fields, layer: SyncLayer, out: &mut [u8], at: usize) -> usize
    requires { Whole layer × (at + 192 ≤ length out.old) }
    ensures { result ≤ at + 191 }
{
    match layer.latest_saved_state_in_range(fields.frame(0), fields.frame(1)) {
        Ok(frame) => tell_frame(out, at, frame),
        Err(refusal) => tell_refusal(out, at, refusal),
    }
}

// l.now
fn now(layer: SyncLayer, out: &mut [u8], at: usize) -> usize
    requires { Whole layer × (at + 192 ≤ length out.old) }
    ensures { result ≤ at + 191 }
{
    let saved = layer.last_saved_frame();
    let confirmed = layer.last_confirmed_frame();
    tell::tell_frames(out, at, layer.current_frame(), saved, confirmed)
}

// Any call of the layer, with as many fields as its line had. The last ones only look.
pub fn make(
    call: LayerCall,
    fields: &Fields,
    layer: SyncLayer,
    out: &mut [u8],
    at: usize,
) -> Told<SyncLayer>
    requires { Whole layer × (at + 192 ≤ length out.old) }
    ensures { Whole result.part × (result.at ≤ at + 191) }
{
    let looked = match call {
        LayerCall::Open => return open(fields, out, at),
        LayerCall::Local => return local(fields, layer, out, at),
        LayerCall::Remote => return remote(fields, layer, out, at),
        LayerCall::Save => return save(fields, layer, out, at),
        LayerCall::Load => return load(fields, layer, out, at),
        LayerCall::Advance => return advance(layer, out, at),
        LayerCall::Request => return request(fields, layer, out, at),
        LayerCall::Confirm => return confirm(fields, layer, out, at),
        LayerCall::Delay => return delay(fields, layer, out, at),
        LayerCall::Reset => return reset(layer, out, at),
        LayerCall::Confirmed => confirmed(fields, layer, out, at),
        LayerCall::Consistent => consistent(layer, out, at),
        LayerCall::Saved => saved(fields, layer, out, at),
        LayerCall::Latest => latest(fields, layer, out, at),
        LayerCall::Now => now(layer, out, at),
    };
    Told {
        part: layer,
        at: looked,
    }
}

// Any call of the layer, by its number within the part, with as many fields as its line had; a number that is no call's is the last call's.
pub fn make_numbered(
    call: u32,
    count: u32,
    args: &[u64],
    layer: SyncLayer,
    out: &mut [u8],
    at: usize,
) -> Told<SyncLayer>
    requires { Whole layer × (2048 ≤ length args.now) × (count < 2048) × (at + 192 ≤ length out.old) }
    ensures { Whole result.part × (result.at ≤ at + 191) }
{
    let fields = Fields {
        values: args,
        count,
    };
    make(LayerCall::numbered(call), &fields, layer, out, at)
}

// What is in force while a sheet is read, as one value, and one line of a sheet: it is read, its
// call is made on the part of the world that it names, and its answer's line is written.
//
// Kept: the room that an answer needs stands in each contract, since the list that is lent is longer than any one answer.
#![tactic(auto, using(crate::proofs::Keeping::keeping))]

ghost use Rattle.std.specs.Prelude.{◌≡◌, ◌+◌, ◌≤◌, ◌<◌, length, set};
ghost use Rattle.sheet.specs.Calls as calls;
ghost use Rattle.sheet.specs.Said.{number_of_queue_call, number_of_sync_call};
ghost use Rattle.sheet.specs.Reading.{reading_of};
ghost use Rattle.cues_queue.specs.Queue.{queue_after};
ghost use Rattle.cues_sync.specs.Sync.{after};
ghost use Rattle.cues_world.specs.Force as force;
ghost use Rattle.cues_world.specs.Force.{Whole, Idle};

use cues_text::Fields;
use desk_value::Desk;
use input_queue_value::InputQueue;
use sheet::Line;
use sheet::calls::{Call, DeltaCall, DeskCall, LayerCall, QueueCall, SyncCall};
use sync_layer_value::SyncLayer;
use time_sync::TimeSync;

// What is in force, and how many bytes of the output are filled.
// Kept: `Whole` stands in the contracts and is no ghost field, since the definitions `force.with_queue` and its like make a
// world of any parts. They put the output's count into it too.
#[derive(Clone, Copy, Debug, PartialEq, Eq)]
pub struct World {
    pub queue: InputQueue,
    pub layer: SyncLayer,
    pub sync: TimeSync,
    pub desk: Desk,
    pub filled: usize,
}

// At the start each part is fresh: one seat, with limit, delay and predictor 0.
#[tactic(auto, unfolding(crate::specs::Force::start))]
pub fn start() -> World
    ensures { result ≡ force.start }
{
    let delays = [0u32; 1];
    World {
        queue: InputQueue::new(0, 0).queue,
        layer: SyncLayer::new(0, 0, &delays).layer,
        sync: TimeSync::new(),
        desk: Desk::setup(0, 0, &delays).desk,
        filled: 0,
    }
}

// Ends an answer's line.
fn end_answer(out: &mut [u8], at: usize) -> usize
    requires { at < length out.old }
    ensures { (result ≡ at + 1) × (out.new ≡ set out.old at 10) }
{
    digits::put_byte(out, at, b'\n')
}

// A call of each part, which alone is new after it. The layer and the desk, 3.2 KB each, are put where they stand: a struct update
// copies them once more.
fn queue_line(call: QueueCall, fields: &Fields, world: World, out: &mut [u8]) -> World
    requires { Whole world × (world.filled + 16385 ≤ length out.old) }
    ensures { Whole result × (result.filled ≤ world.filled + 16384)
        × (result ≡ force.with_queue world (queue_after (number_of_queue_call call) fields.now.values.now world.queue) result.filled) }
{
    let told = cues_queue::make(call, fields, world.queue, out, world.filled);
    World {
        queue: told.part,
        filled: end_answer(out, told.at),
        ..world
    }
}

fn layer_line(call: LayerCall, fields: &Fields, mut world: World, out: &mut [u8]) -> World
    requires { Whole world × (world.filled + 16385 ≤ length out.old) }
    ensures { Whole result × (result.filled ≤ world.filled + 16384)
        × (result ≡ force.with_layer world result.layer result.filled) }
{
    let told = cues_layer::make(call, fields, world.layer, out, world.filled);
    world.layer = told.part;
    world.filled = end_answer(out, told.at);
    world
}

fn sync_line(call: SyncCall, fields: &Fields, world: World, out: &mut [u8]) -> World
    requires { Whole world × (world.filled + 16385 ≤ length out.old) }
    ensures { Whole result × (result.filled ≤ world.filled + 16384)
        × (result ≡ force.with_sync world (after (number_of_sync_call call) fields.now.values.now world.sync) result.filled) }
{
    let told = cues_sync::make(call, fields, world.sync, out, world.filled);
    World {
        sync: told.part,
        filled: end_answer(out, told.at),
        ..world
    }
}

fn delta_line(call: DeltaCall, line: &[u8], fields: &Fields, world: World, out: &mut [u8]) -> World
    requires { Whole world × (world.filled + 16385 ≤ length out.old) }
    ensures { Whole result × (result.filled ≤ world.filled + 16384)
        × (result ≡ force.with_filled world result.filled) }
{
    let end = cues_delta::make(call, line, fields, out, world.filled);
    World {
        filled: end_answer(out, end),
        ..world
    }
}

fn desk_line(call: DeskCall, fields: &Fields, mut world: World, out: &mut [u8]) -> World
    requires { Whole world × (world.filled + 16385 ≤ length out.old) }
    ensures { Whole result × (result.filled ≤ world.filled + 16384)
        × (result ≡ force.with_desk world result.desk result.filled) }
{
    let told = cues_desk::make(call, fields, world.desk, out, world.filled);
    world.desk = told.part;
    world.filled = end_answer(out, told.at);
    world
}

// A call of any part.
fn make(call: Call, line: &[u8], fields: &Fields, world: World, out: &mut [u8]) -> World
    requires { Whole world × (world.filled + 16385 ≤ length out.old) }
    ensures { Whole result × (result.filled ≤ world.filled + 16384) }
{
    match call {
        Call::Queue(call) => queue_line(call, fields, world, out),
        Call::Layer(call) => layer_line(call, fields, world, out),
        Call::Sync(call) => sync_line(call, fields, world, out),
        Call::Delta(call) => delta_line(call, line, fields, world, out),
        Call::Desk(call) => desk_line(call, fields, world, out),
    }
}

// Answers a line. One that makes no call leaves what is in force as it is: it is passed over, or `bad`
// is its answer.
pub fn answer(line: &[u8], args: &mut [u64], world: World, out: &mut [u8]) -> World
    requires { (2048 ≤ length args.old) × Whole world × (world.filled + 16385 ≤ length out.old) }
    ensures { Whole result × (result.filled ≤ world.filled + 16384)
        × (calls.PASSED ≤ (reading_of line.now).line.call → Idle (reading_of line.now).line.call out.old out.new world result) }
{
    let (call, count) = match sheet::read_line(line, args) {
        Line::Passed => return world,
        Line::Bad => {
            return World {
                filled: digits::put_text(out, world.filled, b"bad\n"),
                ..world
            };
        }
        Line::Asks { call, count } => (call, count),
    };
    let fields = Fields {
        values: &args[..],
        count,
    };
    make(call, line, &fields, world, out)
}

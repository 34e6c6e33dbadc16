// The calls of the queue in force, by value: each makes its call and tells its answer. One that is refused leaves the queue as it was.
//
// Kept: the room that an answer needs stands in each contract, since the list that is lent is longer than any one answer.
#![tactic(auto)]

ghost use Rattle.std.specs.Prelude.{◌≡◌, ◌+◌, ◌≤◌, length};
ghost use Rattle.input_queue_value.specs.Value.{Whole};
ghost use Rattle.sheet.specs.Said.{number_of_queue_call};
ghost use Rattle.cues_text.specs.Text.{Puts};
ghost use Rattle.cues_queue.specs.Queue as tells;

use cues_text::{
    Fields, Told, tell_fills, tell_frame, tell_number, tell_refusal, tell_served, tell_setup,
    tell_word,
};
use frame_info::PlayerInput;
use input_queue_value::InputQueue;
use sheet::calls::QueueCall;

fn open(fields: &Fields, out: &mut [u8], at: usize) -> Told<InputQueue>
    requires { at + 64 ≤ length out.old }
    ensures { (result.part ≡ tells.opened fields.now.values.now)
        × Puts (tells.opened_text fields.now.values.now) 63 at out.old out.new result.at }
{
    let opened = InputQueue::new(fields.number(0), fields.number(1));
    Told {
        part: opened.queue,
        at: tell_setup(out, at, opened.refused),
    }
}

#[tactic(auto, using(cues_text::proofs::Texts::told_refused))]
fn add(fields: &Fields, queue: InputQueue, out: &mut [u8], at: usize) -> Told<InputQueue>
    requires { (at + 64 ≤ length out.old) × Whole queue }
    ensures { (result.part ≡ tells.added fields.now.values.now queue)
        × Puts (tells.added_text fields.now.values.now queue) 63 at out.old out.new result.at }
{
    match queue.add_input(PlayerInput::new(fields.frame(0), fields.number(1))) {
        Ok(added) => Told {
            part: added.queue,
            at: tell_frame(out, at, added.place),
        },
        Err(refusal) => Told {
            part: queue,
            at: tell_refusal(out, at, refusal),
        },
    }
}

#[tactic(auto, using(cues_text::proofs::Texts::told_refused))]
fn request(fields: &Fields, queue: InputQueue, out: &mut [u8], at: usize) -> Told<InputQueue>
    requires { (at + 64 ≤ length out.old) × Whole queue }
    ensures { (result.part ≡ tells.requested fields.now.values.now queue)
        × Puts (tells.requested_text fields.now.values.now queue) 63 at out.old out.new result.at }
{
    match queue.input(fields.frame(0)) {
        Ok(served) => Told {
            part: served.queue,
            at: tell_served(out, at, served.word, served.confirmed),
        },
        Err(refusal) => Told {
            part: queue,
            at: tell_refusal(out, at, refusal),
        },
    }
}

#[tactic(auto, using(cues_text::proofs::Texts::told_refused))]
fn confirmed(fields: &Fields, queue: InputQueue, out: &mut [u8], at: usize) -> usize
    requires { (at + 64 ≤ length out.old) × Whole queue }
    ensures { Puts (tells.confirmed_text fields.now.values.now queue) 63 at out.old out.new result }
{
    match queue.confirmed_input(fields.frame(0)) {
        Ok(input) => tell_word(out, at, input.input),
        Err(refusal) => tell_refusal(out, at, refusal),
    }
}

fn discard(fields: &Fields, queue: InputQueue, out: &mut [u8], at: usize) -> Told<InputQueue>
    requires { at + 64 ≤ length out.old }
    ensures { (result.part ≡ tells.discarded fields.now.values.now queue)
        × Puts (tells.discarded_text fields.now.values.now queue) 63 at out.old out.new result.at }
{
    match queue.discard_confirmed_frames(fields.frame(0)) {
        Ok(part) => Told {
            part,
            at: tell_number(out, at, 0),
        },
        Err(refusal) => Told {
            part: queue,
            at: tell_refusal(out, at, refusal),
        },
    }
}

fn reset(queue: InputQueue, out: &mut [u8], at: usize) -> Told<InputQueue>
    requires { at + 64 ≤ length out.old }
    ensures { (result.part ≡ tells.cleared queue)
        × Puts (tells.cleared_text) 63 at out.old out.new result.at }
{
    Told {
        part: queue.reset_prediction(),
        at: tell_number(out, at, 0),
    }
}

#[tactic(auto, using(cues_text::proofs::Texts::told_refused))]
fn delay(fields: &Fields, queue: InputQueue, out: &mut [u8], at: usize) -> Told<InputQueue>
    requires { (at + 64 ≤ length out.old) × Whole queue }
    ensures { (result.part ≡ tells.delayed fields.now.values.now queue)
        × Puts (tells.delayed_text fields.now.values.now queue) 63 at out.old out.new result.at }
{
    match queue.set_frame_delay(fields.number(0)) {
        Ok(announced) => Told {
            part: announced.queue,
            at: tell_fills(out, at, announced.fills),
        },
        Err(refusal) => Told {
            part: queue,
            at: tell_refusal(out, at, refusal),
        },
    }
}

fn wrong(queue: InputQueue, out: &mut [u8], at: usize) -> usize
    requires { at + 64 ≤ length out.old }
    ensures { Puts (tells.wrong_text queue) 63 at out.old out.new result }
{
    tell_frame(out, at, queue.first_incorrect_frame())
}

// Any call of the queue.
#[tactic(auto, unfolding(crate::specs::Queue::queue_after, crate::specs::Queue::text_after))]
pub fn make(
    call: QueueCall,
    fields: &Fields,
    queue: InputQueue,
    out: &mut [u8],
    at: usize,
) -> Told<InputQueue>
    requires { (at + 64 ≤ length out.old) × Whole queue }
    ensures { (result.part ≡ tells.queue_after (number_of_queue_call call) fields.now.values.now queue)
        × Puts (tells.text_after (number_of_queue_call call) fields.now.values.now queue) 63 at out.old out.new result.at }
{
    match call {
        QueueCall::Open => open(fields, out, at),
        QueueCall::Add => add(fields, queue, out, at),
        QueueCall::Request => request(fields, queue, out, at),
        QueueCall::Confirmed => Told {
            part: queue,
            at: confirmed(fields, queue, out, at),
        },
        QueueCall::Discard => discard(fields, queue, out, at),
        QueueCall::Reset => reset(queue, out, at),
        QueueCall::Delay => delay(fields, queue, out, at),
        QueueCall::Wrong => Told {
            part: queue,
            at: wrong(queue, out, at),
        },
    }
}

// Any call of the queue, by its number within the part; a number that is no call's is the last call's.
#[tactic(auto, using(crate::proofs::Numbered::numbered))]
pub fn make_numbered(
    call: u32,
    args: &[u64],
    queue: InputQueue,
    out: &mut [u8],
    at: usize,
) -> Told<InputQueue>
    requires { (2048 ≤ length args.now) × (at + 64 ≤ length out.old) × Whole queue }
    ensures { (result.part ≡ tells.queue_after call args.now queue)
        × Puts (tells.text_after call args.now queue) 63 at out.old out.new result.at }
{
    // No call of the queue reads how many fields there are.
    let fields = Fields {
        values: args,
        count: 0,
    };
    make(QueueCall::numbered(call), &fields, queue, out, at)
}

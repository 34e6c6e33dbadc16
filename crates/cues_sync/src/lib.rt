// The windows of time sync, and their calls: each makes its call on the library and tells its answer.
//
// Kept: the room that an answer needs stands in each contract, since the list that is lent is longer than any one answer.
#![tactic(auto)]

ghost use Rattle.std.specs.Prelude.{◌+◌, ◌≤◌, ◌≡◌, length};
ghost use Rattle.sheet.specs.Said.{number_of_sync_call};
ghost use Rattle.time_sync.specs.Windows.{fresh};
ghost use Rattle.cues_sync.specs.Sync as windows;

use cues_text::{Fields, Told, put_number, put_word_value, tell_frame, tell_number, tell_refusal};
use digits::put_text;
use sheet::calls::SyncCall;
use time_sync::{Reading, TimeSync};

fn open(out: &mut [u8], at: usize) -> Told<TimeSync>
    requires { at + 64 ≤ length out.old }
    ensures { (result.part ≡ fresh) × (result.at ≤ at + 63) }
{
    Told {
        part: TimeSync::new(),
        at: tell_number(out, at, 0),
    }
}

fn advance(fields: &Fields, sync: TimeSync, out: &mut [u8], at: usize) -> Told<TimeSync>
    requires { at + 64 ≤ length out.old }
    ensures { (result.part ≡ windows.advanced_by fields.now.values.now sync) × (result.at ≤ at + 63) }
{
    match sync.advance_frame(fields.frame(0), fields.frame(1), fields.frame(2)) {
        Ok(part) => Told {
            part,
            at: tell_number(out, at, 0),
        },
        Err(refusal) => Told {
            part: sync,
            at: tell_refusal(out, at, refusal),
        },
    }
}

fn average(sync: TimeSync, out: &mut [u8], at: usize) -> usize
    requires { at + 64 ≤ length out.old }
    ensures { result ≤ at + 63 }
{
    tell_frame(out, at, sync.average_frame_advantage())
}

#[tactic(auto, using(crate::proofs::Sizes::plain))]
fn averages(sync: TimeSync, out: &mut [u8], at: usize) -> usize
    requires { at + 64 ≤ length out.old }
    ensures { result ≤ at + 63 }
{
    let both = sync.averages();
    let number = put_number(out, at, 0);
    let local = put_word_value(out, number, both.local.to_bits());
    put_word_value(out, local, both.remote.to_bits())
}

// The way it leans, and how far.
fn tell_size(out: &mut [u8], at: usize, way: &[u8], size: u32) -> usize
    requires { (at + 64 ≤ length out.old) × (length way.now ≤ 8) }
    ensures { result ≤ at + 63 }
{
    let end = put_text(out, at, way);
    put_word_value(out, end, size)
}

#[tactic(auto, using(crate::proofs::Sizes::plain))]
fn reading(sync: TimeSync, out: &mut [u8], at: usize) -> usize
    requires { at + 64 ≤ length out.old }
    ensures { result ≤ at + 63 }
{
    match sync.reading() {
        Reading::Even => put_text(out, at, b"0 even"),
        Reading::Over(size) => tell_size(out, at, b"0 over", size.to_bits()),
        Reading::Under(size) => tell_size(out, at, b"0 under", size.to_bits()),
    }
}

// Any call of time sync. The last three only look: the windows stay as they are.
#[tactic(auto, unfolding(crate::specs::Sync::after))]
pub fn make(
    call: SyncCall,
    fields: &Fields,
    sync: TimeSync,
    out: &mut [u8],
    at: usize,
) -> Told<TimeSync>
    requires { at + 64 ≤ length out.old }
    ensures { (result.part ≡ windows.after (number_of_sync_call call) fields.now.values.now sync) × (result.at ≤ at + 63) }
{
    let looked = match call {
        SyncCall::Open => return open(out, at),
        SyncCall::Advance => return advance(fields, sync, out, at),
        SyncCall::Average => average(sync, out, at),
        SyncCall::Averages => averages(sync, out, at),
        SyncCall::Reading => reading(sync, out, at),
    };
    Told {
        part: sync,
        at: looked,
    }
}

// Any call of time sync, by its number within the part; a number that is no call's is the last call's.
#[tactic(auto, using(crate::proofs::Numbered::after_same))]
pub fn make_numbered(
    call: u32,
    args: &[u64],
    sync: TimeSync,
    out: &mut [u8],
    at: usize,
) -> Told<TimeSync>
    requires { (2048 ≤ length args.now) × (at + 64 ≤ length out.old) }
    ensures { (result.part ≡ windows.after call args.now sync) × (result.at ≤ at + 63) }
{
    // No call of time sync reads how many fields there are.
    let fields = Fields {
        values: args,
        count: 0,
    };
    make(SyncCall::numbered(call), &fields, sync, out, at)
}

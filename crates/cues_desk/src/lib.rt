// The calls of the desk in force, by value: each makes its call and tells its answer. One that is refused leaves the desk as it was.
//
// Kept: the room that an answer needs stands in each contract, since the list that is lent is longer than any one answer.
#![tactic(auto, using(crate::proofs::Keeping::keeping))]

mod rows;

ghost use Rattle.std.specs.Prelude.{◌+◌, ◌≤◌, ◌<◌, length, IfOk};
ghost use Rattle.desk_value.specs.Value.{Whole};

use cues_text::{
    Fields, Told, put_frame_value, put_number, put_state_value, tell_frame, tell_refusal,
    tell_setup,
};
use desk_value::Desk;
use frame_info::refusal::Refusal;
use rows::{put_report, tell_served, tell_shown};
use sheet::calls::DeskCall;

// desk LIMIT PREDICTOR DELAY..
fn open(fields: &Fields, out: &mut [u8], at: usize) -> Told<Desk>
    requires { at + 192 ≤ length out.old }
    ensures { Whole result.part × (result.at ≤ at + 191) }
{
    let mut delays = [0u32; 2048];
    let n = fields.numbers(2, &mut delays);
    let opened = Desk::setup(fields.number(0), fields.number(1), &delays[..n]);
    Told {
        part: opened.desk,
        at: tell_setup(out, at, opened.refused),
    }
}

// take SEAT FRAME WORD
fn take(fields: &Fields, desk: Desk, out: &mut [u8], at: usize) -> Told<Desk>
    requires { Whole desk × (at + 192 ≤ length out.old) }
    ensures { Whole result.part × (result.at ≤ at + 191) }
{
    match desk.take(fields.number(0), fields.frame(1), fields.number(2)) {
        Ok(taken) => Told {
            part: taken.desk,
            at: tell_frame(out, at, taken.place),
        },
        Err(refusal) => Told {
            part: desk,
            at: tell_refusal(out, at, refusal),
        },
    }
}

// settle
fn settle(desk: Desk, out: &mut [u8], at: usize) -> Told<Desk>
    requires { Whole desk × (at + 192 ≤ length out.old) }
    ensures { Whole result.part × (result.at ≤ at + 191) }
{
    let settled = desk.settle();
    let zero = put_number(out, at, 0);
    Told {
        part: settled.desk,
        at: put_report(out, zero, settled.report),
    }
}

// advance. A desk keeps its number of seats, so that the one before the call says how many were served.
fn advance(desk: Desk, out: &mut [u8], at: usize) -> Told<Desk>
    requires { Whole desk × (at + 192 ≤ length out.old) }
    ensures { Whole result.part × (result.at ≤ at + 191) }
{
    match desk.advance() {
        Ok(advanced) => Told {
            part: advanced.desk,
            at: tell_served(out, at, advanced, desk.seats() as usize),
        },
        Err(refusal) => Told {
            part: desk,
            at: tell_refusal(out, at, refusal),
        },
    }
}

// show FRAME
fn show(fields: &Fields, desk: Desk, out: &mut [u8], at: usize) -> usize
    requires { Whole desk × (at + 192 ≤ length out.old) }
    ensures { result ≤ at + 191 }
{
    match desk.show(fields.frame(0)) {
        Ok(shown) => tell_shown(out, at, shown, desk.seats() as usize),
        Err(refusal) => tell_refusal(out, at, refusal),
    }
}

// A log line into these bytes. Answers how many it takes without the newline that ends it, which is the
// answer's own.
fn log_into(desk: Desk, frame: i32, pad: &mut [u8]) -> Result<usize, Refusal>
    requires { Whole desk }
    ensures { IfOk result (λ size. size ≤ 53) }
{
    let count = desk.log(frame, pad)?;
    Ok(count as usize - 1)
}

// log FRAME ROOM: no more bytes are lent than there are.
fn log(fields: &Fields, desk: Desk, out: &mut [u8], at: usize) -> usize
    requires { Whole desk × (at + 192 ≤ length out.old) }
    ensures { result ≤ at + 191 }
{
    let mut pad = [0u8; 4096];
    let room = fields.number(1).min(4096) as usize;
    match log_into(desk, fields.frame(0), &mut pad[..room]) {
        Ok(size) => tell_line(out, at, &pad[..size]),
        Err(refusal) => tell_refusal(out, at, refusal),
    }
}

// A log line after its number.
fn tell_line(out: &mut [u8], at: usize, line: &[u8]) -> usize
    requires { at + 11 + length line.now ≤ length out.old }
    ensures { result ≤ at + 11 + length line.now }
{
    let end = put_number(out, at, 0);
    let next = digits::put_byte(out, end, b' ');
    digits::put_text(out, next, line)
}

// now: the current frame, K, and the console as it stands.
fn standing(desk: Desk, out: &mut [u8], at: usize) -> usize
    requires { Whole desk × (at + 192 ≤ length out.old) }
    ensures { result ≤ at + 191 }
{
    let end = put_number(out, at, 0);
    let next = put_frame_value(out, end, desk.current_frame());
    let last = put_frame_value(out, next, desk.known());
    put_state_value(out, last, desk.console())
}

// Any call of the desk, with as many fields as its line had. The last three only look.
pub fn make(call: DeskCall, fields: &Fields, desk: Desk, out: &mut [u8], at: usize) -> Told<Desk>
    requires { Whole desk × (at + 192 ≤ length out.old) }
    ensures { Whole result.part × (result.at ≤ at + 191) }
{
    let looked = match call {
        DeskCall::Open => return open(fields, out, at),
        DeskCall::Take => return take(fields, desk, out, at),
        DeskCall::Settle => return settle(desk, out, at),
        DeskCall::Advance => return advance(desk, out, at),
        DeskCall::Show => show(fields, desk, out, at),
        DeskCall::Log => log(fields, desk, out, at),
        DeskCall::Now => standing(desk, out, at),
    };
    Told {
        part: desk,
        at: looked,
    }
}

// Any call of the desk, by its number within the part, with as many fields as its line had; a number that is no call's is the last call's.
pub fn make_numbered(
    call: u32,
    count: u32,
    args: &[u64],
    desk: Desk,
    out: &mut [u8],
    at: usize,
) -> Told<Desk>
    requires { Whole desk × (2048 ≤ length args.now) × (count < 2048) × (at + 192 ≤ length out.old) }
    ensures { Whole result.part × (result.at ≤ at + 191) }
{
    let fields = Fields {
        values: args,
        count,
    };
    make(DeskCall::numbered(call), &fields, desk, out, at)
}

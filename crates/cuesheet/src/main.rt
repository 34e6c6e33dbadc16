// cuesheet: reads a cue sheet on standard input, makes its calls on the library, and writes one
// answer line for each.
#![tactic(auto)]

mod reading;

ghost use Rattle.std.specs.Prelude.{◌≡◌, ◌≤◌, ◌<◌, length};
ghost use Rattle.cues_world.specs.Force.{Whole};

use cues_world::World;
use reading::{Failed, LINE};
use std::fs::{File, Files};
use std::io;
use std::io::{Stdin, Stdout, Write};

// Where the last word goes, which whoever started the program may read.
const WORD_FILE: &str = "/dev/fd/9";

// Every line of a sheet, or what fails first. A last line without a newline counts, and an empty one
// gets no answer. The loop's turns are as many as those of a line: a sheet that goes on after them was
// not read to its end.
fn answer_all(
    stdin: Stdin,
    stdout: Stdout,
    bytes: &mut [u8],
    line: &mut [u8; LINE],
    args: &mut [u64],
    world: World,
    out: &mut [u8],
) -> Result<(), Failed>
    requires { (2048 ≤ length args.old) × Whole world × (65536 ≡ length out.old) }
{
    let mut w = world;
    let mut reader = reading::start();
    for _ in 0..u64::MAX {
        reader = reading::next_line(stdin, stdout, bytes, line, &out[..], reader)?;
        w.filled = reader.filled;
        w = cues_world::answer(&line[..reader.used], args, w, out);
        reader = reading::flush(stdout, &out[..], reader, w.filled)?;
        if !reader.more {
            return reading::write_out(stdout, &out[..], reader.filled);
        }
    }
    reading::write_out(stdout, &out[..], reader.filled)?;
    Err(Failed::Read)
}

// The last word: that all was read and written, or what failed. Where nobody gave the descriptor
// there is nobody to tell.
fn tell_end(files: &impl Files, end: Result<(), Failed>) -> io::Result<()> {
    let mut options = File::options();
    options.append(true);
    let mut to = options.open(files, WORD_FILE)?;
    match end {
        Ok(()) => to.write_all(b"all\n"),
        Err(Failed::Read) => to.write_all(b"read\n"),
        Err(Failed::Write) => to.write_all(b"write\n"),
    }
}

#[tactic(auto, using(cues_world::proofs::Keeping::start_whole))]
fn main(rt: HostRuntime) {
    // the bytes that are read at once, the longest line that is read and one byte, its fields, and the
    // answers that wait to be written
    let mut bytes = [0u8; 65536];
    let mut line = [0u8; LINE];
    let mut args = [0u64; 2048];
    let mut out = [0u8; 65536];
    let world = cues_world::start();
    let end = answer_all(
        rt.stdin(),
        rt.stdout(),
        &mut bytes,
        &mut line,
        &mut args,
        world,
        &mut out,
    );
    let _ = tell_end(&rt, end);
}

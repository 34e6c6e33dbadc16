// The log line of a frame.
ghost use Rattle.std.specs.Prelude.{◌≡◌, [], ◌∷◌, ◌+◌, ◌*◌, ◌≤◌, length};
ghost use Rattle.std.proofs.lemmas.List.Edits.{sets};
ghost use Rattle.sync_layer.specs.Whole.{SlotRoom};
ghost use Rattle.desk.specs.Line.{spaced, field_length, line_length};
ghost use Rattle.desk.specs.Desk as m;
ghost use Rattle.desk.specs.Calls as calls;
ghost use Rattle.desk.specs.Whole.{Ready};

use crate::DeskState;
use crate::showing::{shown_state, words_in};
use digits::{put_byte, put_word};

// How many bytes a number takes in a line: eight digits, and the space or the newline beside them.
pub const FIELD_LENGTH: usize = 9;

// A space and a number. Answers the place after it.
#[tactic(auto, unfolding(crate::specs::Line::spaced))]
fn put_spaced(out: &mut [u8], at: usize, word: u32) -> usize
    requires { at + field_length ≤ length out.old }
    ensures { (result ≡ at + field_length) × (out.new ≡ sets out.old at (spaced (word ∷ []))) }
{
    let next = put_byte(out, at, b' ');
    put_word(out, next, word)
}

// The words of a row, each with a space before it. Answers the place after them.
#[tactic(auto, using(crate::proofs::Lines::rows))]
fn put_row(out: &mut [u8], at: usize, row: &[u32]) -> usize
    requires { at + field_length * length row.now ≤ length out.old }
    ensures { (result ≡ at + field_length * length row.now) × (out.new ≡ sets out.old at (spaced row.now)) }
{
    let mut next = at;
    for word in row {
        next = put_spaced(out, next, *word);
    }
    next
}

#[tactic(auto, using(crate::proofs::Lines::lines))]
pub fn put_line(slots: &[u32], desk: DeskState, frame: u32, out: &mut [u8])
    requires { Ready desk × SlotRoom slots.now × (line_length desk.seats ≤ length out.old) }
    ensures { out.new ≡ sets out.old 0 (calls.log_line (m.desk_of desk [] [] slots.now) frame) }
{
    let console = shown_state(slots, desk, frame);
    let next = put_word(out, 0, frame);
    let last = put_row(out, next, words_in(slots, desk, frame));
    let end = put_spaced(out, last, console.seal);
    put_byte(out, end, b'\n');
}

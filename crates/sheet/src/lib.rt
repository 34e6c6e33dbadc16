// A cue sheet's line: its fields, the call that it names, and what its fields hold.
#![tactic(auto)]

ghost use Rattle.std.specs.Prelude.{◌≡◌, ◌+◌, ◌*◌, ◌≤◌, ◌<◌, ◌∷◌, [], length, true, option_map};
ghost use Rattle.std.specs.Iterator.{YieldsFirstBy, item_count};
ghost use Rattle.std.proofs.lemmas.List.Edits.{sets};
ghost use Rattle.digits.specs.Digits.{decimal_of, only_digits};
ghost use Rattle.sheet.specs.Fields.{fields_of};
ghost use Rattle.sheet.specs.Steps.{ends_run, run_of, call_named};
ghost use Rattle.sheet.specs.Calls.{kind_at, up_to, flag_of, status_of, is_hex, counted_of, value_of};
ghost use Rattle.sheet.specs.Bytes.{pairs_of, bytes_in, fitting, bytes_at};
ghost use Rattle.sheet.specs.Reading.{fields_from, reading_of, args_after};
ghost use Rattle.sheet.specs.Said.{letter_of, call_said, line_said};

pub mod calls;

use calls::{Call, Kind, ON, Row, TABLE};

// A longer line is bad, whatever stands in it.
const LONGEST: usize = 4096;

// What a line asks for.
// Kept: the values of a call's fields stay in the list that `read_line` is lent, beside their count. An
// answer that borrowed them from it could not promise `args.new`, the whole list.
#[derive(Clone, Copy, Debug, PartialEq, Eq)]
pub enum Line {
    // Nothing: it gets no answer.
    Passed,
    // It is answered `bad`.
    Bad,
    // A call, and how many fields follow its name.
    Asks { call: Call, count: u32 },
}

// Whether a byte ends a run of spaces, or of other bytes.
#[tactic(auto, unfolding(crate::specs::Steps::ends_run))]
fn ends_run(b: u8, spaces: bool) -> bool
    ensures { result ≡ ends_run b spaces }
{
    (b == b' ') != spaces
}

// How many bytes at the front make a run.
fn run_of(s: &[u8], spaces: bool) -> usize
    ensures { result ≡ run_of spaces s.now }
{
    s.iter()
        .position(|b| ends_run(*b, spaces))
        .unwrap_or(s.len())
}

// The fields that a line has left. One or more spaces part two.
#[derive(Drop)]
struct Fields<'a> {
    rest: &'a [u8],
}

impl<'a> Iterator for Fields<'a> {
    type Item = &'a [u8];

    ghost next_gives = { YieldsFirstBy (λ field. field.now) (λ fields. fields_of fields.rest.now) };

    ghost remaining = { item_count (λ fields. fields_of fields.rest.now) };

    #[tactic(auto, using(crate::proofs::Fielding::fielding))]
    fn next(&mut self) -> Option<&'a [u8]> {
        let (_, rest) = self.rest.split_at(run_of(self.rest, true));
        let (field, rest) = rest.split_at(run_of(rest, false));
        self.rest = rest;
        if field.is_empty() { None } else { Some(field) }
    }
}

// The row of a name, if one has it.
fn find_row(name: &[u8]) -> Option<Row>
    ensures { option_map call_said result ≡ call_named name.now }
{
    TABLE.iter().find(|row| row.0 == name).map(|&(_, call, least, most, kinds)| Row {
        call,
        least,
        most,
        kinds,
    })
}

// A decimal number of at most so much.
#[tactic(auto, unfolding(crate::specs::Calls::up_to))]
fn read_up_to(most: u32, s: &[u8]) -> Option<u64>
    ensures { result ≡ up_to most (decimal_of s.now) }
{
    digits::read_decimal(s)
        .filter(|v| *v <= most)
        .map(u64::from)
}

#[tactic(auto, using(crate::proofs::Texts::texts), unfolding(crate::specs::Calls::flag_of, crate::specs::Calls::bytes_of))]
fn read_flag(s: &[u8]) -> Option<u64>
    ensures { result ≡ flag_of s.now }
{
    match s {
        b"0" => Some(0),
        b"1" => Some(1),
        _ => None,
    }
}

#[tactic(auto, using(crate::proofs::Texts::texts), unfolding(crate::specs::Calls::status_of, crate::specs::Calls::bytes_of, crate::specs::Calls::held))]
fn read_status(s: &[u8]) -> Option<u64>
    ensures { result ≡ status_of s.now }
{
    if s == b"on".as_slice() {
        return Some(ON);
    }
    let frame = s.strip_prefix(b"gone:")?;
    digits::read_signed(frame).map(u64::from)
}

// Whether every byte is a hex digit.
fn all_hex(s: &[u8]) -> bool
    ensures { result ≡ only_digits 16 s.now }
{
    s.iter().all(u8::is_ascii_hexdigit)
}

// Whether a text is one hex pair or more.
#[tactic(auto, unfolding(crate::specs::Calls::is_hex))]
fn is_hex(s: &[u8]) -> bool
    ensures { result ≡ is_hex s.now }
{
    !s.is_empty() && s.len() % 2 == 0 && all_hex(s)
}

// How many bytes a Bytes field has.
#[tactic(auto, using(crate::proofs::Texts::texts), unfolding(crate::specs::Calls::counted_of, crate::specs::Calls::bytes_of))]
fn read_bytes(s: &[u8]) -> Option<u64>
    ensures { result ≡ counted_of s.now }
{
    match s {
        b"-" => Some(0),
        _ => is_hex(s).then_some((s.len() / 2) as u64),
    }
}

// What a field holds, by its kind.
#[tactic(auto, unfolding(crate::specs::Calls::value_of, crate::specs::Calls::held))]
fn read_field(kind: Kind, s: &[u8]) -> Option<u64>
    ensures { result ≡ value_of (letter_of kind) s.now }
{
    match kind {
        Kind::Unused => None,
        Kind::Number => digits::read_decimal(s).map(u64::from),
        Kind::Frame => digits::read_signed(s).map(u64::from),
        Kind::Word => digits::read_word(s).map(u64::from),
        Kind::Room => read_up_to(4096, s),
        Kind::Lens => read_up_to(512, s),
        Kind::Len => read_up_to(65535, s),
        Kind::Flag => read_flag(s),
        Kind::Status => read_status(s),
        Kind::Bytes => read_bytes(s),
    }
}

// The kind of a call's field.
#[tactic(auto, unfolding(crate::specs::Calls::kind_at))]
fn kind_at(row: &Row, i: u32) -> Kind
    ensures { letter_of result ≡ kind_at (call_said row.now) i }
{
    row.kinds[i.min(3) as usize]
}

// The fields after a call's name.
fn read_fields(fields: Fields, row: &Row, args: &mut [u64]) -> Line
    requires { row.now.most ≤ length args.old }
    ensures { (line_said result ≡ (fields_from (call_said row.now) 0 (fields_of fields.entry.rest.now)).line)
        × (args.new ≡ sets args.old 0 (fields_from (call_said row.now) 0 (fields_of fields.entry.rest.now)).values) }
{
    // Kept: counted by hand and not by `enumerate`, since the count goes into the answer after the loop.
    let mut count: u32 = 0;
    for field in fields {
        if count >= row.most {
            return Line::Bad;
        }
        let Some(value) = read_field(kind_at(row, count), field) else {
            return Line::Bad;
        };
        args[count as usize] = value;
        count += 1;
    }
    if count < row.least {
        return Line::Bad;
    }
    Line::Asks {
        call: row.call,
        count,
    }
}

// A line of a cue sheet. The values of its fields go to the front of `args`.
pub fn read_line(line: &[u8], args: &mut [u64]) -> Line
    requires { 2048 ≤ length args.old }
    ensures { (line_said result ≡ (reading_of line.now).line) × (args.new ≡ args_after line.now args.old) }
{
    if line.len() > LONGEST {
        return Line::Bad;
    }
    // a comment is told by its first byte, so that the rest of it is not read
    let (_, rest) = line.split_at(run_of(line, true));
    if rest.starts_with(b"#") {
        return Line::Passed;
    }
    let mut fields = Fields { rest };
    let Some(name) = fields.next() else {
        return Line::Passed;
    };
    let Some(row) = find_row(name) else {
        return Line::Bad;
    };
    read_fields(fields, &row, args)
}

// The byte of two hex digits.
fn byte_of(pair: &[u8]) -> u8
    requires { (length pair.now ≡ 2) × (only_digits 16 pair.now ≡ true) }
    ensures { pairs_of pair.now ≡ result ∷ [] }
{
    digits::read_word(pair).unwrap() as u8
}

// The bytes of a text of hex pairs, where they fit, and how many they are.
#[tactic(auto, using(crate::proofs::Decoding::bytes))]
fn put_bytes(s: &[u8], out: &mut [u8]) -> usize
    ensures { (result ≡ length (fitting (length out.old) (bytes_in s.now)))
        × (out.new ≡ sets out.old 0 (fitting (length out.old) (bytes_in s.now))) }
{
    let count = s.len() / 2;
    if !is_hex(s) || count > out.len() {
        return 0;
    }
    for (i, pair) in s.chunks_exact(2).enumerate() {
        out[i] = byte_of(pair);
    }
    count
}

// The bytes of a line's field, which go to the front of `out`, and how many they are. The name is
// field 0. A field that is missing, is not Bytes or does not fit in `out` has none.
// Kept: the answer is a count, and no slice of `out`, which could not promise `out.new`.
pub fn field_bytes(line: &[u8], field: usize, out: &mut [u8]) -> usize
    ensures { (result ≡ length (bytes_at (length out.old) line.now field))
        × (out.new ≡ sets out.old 0 (bytes_at (length out.old) line.now field)) }
{
    match (Fields { rest: line }).nth(field) {
        Some(field) => put_bytes(field, out),
        None => 0,
    }
}

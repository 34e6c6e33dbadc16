// Delta coding's calls: each makes its call on the library and tells its answer, with the lent bytes and lengths whole.
//
// Kept: the room that an answer needs stands in each contract, since the list that is lent is longer than any one answer.
#![tactic(auto)]

ghost use Rattle.std.specs.Prelude.{◌≡◌, ◌+◌, ◌*◌, ◌≤◌, ◌<◌, length};

use compression::Unpacked;
use cues_text::{Fields, put_letter_value, put_number, put_number_value};
use digits::{put_byte, put_pair};
use frame_info::refusal::Refusal;
use sheet::calls::DeltaCall;

// What lent bytes and lengths hold before a call, so that what was not to be written is seen.
const LENT_BYTE: u8 = 238;

const LENT_LENGTH: u16 = 61166;

// The lengths after a line's first three fields.
// Kept: a remainder, which is the length itself, since `as` may lose nothing: `Fields` says nothing of what its values hold.
fn read_lengths(fields: &Fields, lengths: &mut [u16])
    requires { length lengths.old + 3 ≤ 2048 }
{
    for (i, length) in lengths.iter_mut().enumerate() {
        *length = (fields.number(i + 3) % 65536) as u16;
    }
}

fn put_pairs(out: &mut [u8], at: usize, bytes: &[u8]) -> usize
    requires { at + 2 * length bytes.now ≤ length out.old }
    ensures { result ≡ at + 2 * length bytes.now }
{
    let mut end = at;
    for &byte in bytes {
        end = put_pair(out, end, byte);
    }
    end
}

// Bytes as a field: two digits each, and a dash for none.
fn put_bytes_value(out: &mut [u8], at: usize, bytes: &[u8]) -> usize
    requires { at + 2 + 2 * length bytes.now ≤ length out.old }
    ensures { result ≤ at + 2 + 2 * length bytes.now }
{
    if bytes.is_empty() {
        return put_letter_value(out, at, b'-');
    }
    let next = put_byte(out, at, b' ');
    put_pairs(out, next, bytes)
}

fn put_lengths_value(out: &mut [u8], at: usize, lengths: &[u16]) -> usize
    requires { at + 11 * length lengths.now ≤ length out.old }
    ensures { result ≤ at + 11 * length lengths.now }
{
    let mut end = at;
    for &length in lengths {
        end = put_number_value(out, end, u32::from(length));
    }
    end
}

// A number of bytes or lengths, as it is told: they are at most 4,096.
// Kept: a remainder, which is the number itself, since `as` may lose nothing and no contract here bounds it.
fn told_count(n: usize) -> u32 {
    (n % 65536) as u32
}

// The bytes of a line's field: there are no more than there is room for.
// Kept: a filling that answers a length, since nothing here can answer a list of its own.
fn field_bytes(line: &[u8], field: usize, out: &mut [u8]) -> usize
    ensures { result ≤ length out.old }
{
    sheet::field_bytes(line, field, out)
}

// What `pack` answers: the number, the count where nothing is refused, and the lent bytes.
fn tell_packed(packed: Result<usize, Refusal>, lent: &[u8], out: &mut [u8], at: usize) -> usize
    requires { (length lent.now ≤ 4096) × (at + 16384 ≤ length out.old) }
    ensures { result ≤ at + 16383 }
{
    let next = match packed {
        Ok(bytes) => {
            let number = put_number(out, at, 0);
            put_number_value(out, number, told_count(bytes))
        }
        Err(refusal) => put_number(out, at, refusal.number()),
    };
    put_bytes_value(out, next, lent)
}

// Packs with these lent bytes, whole, and tells the answer.
fn pack_into<'a>(
    fields: &Fields,
    reference: &'a [u8],
    pending: &'a [u8],
    lengths: &mut [u16],
    lent: &mut [u8],
    out: &mut [u8],
    at: usize,
) -> usize
    requires { (length lengths.old + 3 ≤ 2048) × (length lent.old ≤ 4096) × (at + 16384 ≤ length out.old) }
    ensures { result ≤ at + 16383 }
{
    read_lengths(fields, lengths);
    lent.fill(LENT_BYTE);
    let packed = compression::delta_encode(reference, pending, &lengths[..], lent);
    tell_packed(packed, &lent[..], out, at)
}

// pack ROOM REFERENCE PENDING LEN..
fn pack(line: &[u8], fields: &Fields, out: &mut [u8], at: usize) -> usize
    requires { at + 16384 ≤ length out.old }
    ensures { result ≤ at + 16383 }
{
    let mut first = [0u8; 4096];
    let mut second = [0u8; 4096];
    let mut lengths = [0u16; 2048];
    let mut lent = [0u8; 4096];
    let room = fields.number(0).min(4096) as usize;
    let few = fields.count.saturating_sub(3) as usize;
    let n = field_bytes(line, 2, &mut first);
    let m = field_bytes(line, 3, &mut second);
    pack_into(
        fields,
        &first[..n],
        &second[..m],
        &mut lengths[..few],
        &mut lent[..room],
        out,
        at,
    )
}

// What `unpack` answers: the number, the counts where nothing is refused, and the lent bytes and lengths.
fn tell_unpacked(
    unpacked: Result<Unpacked, Refusal>,
    lent: &[u8],
    lengths: &[u16],
    out: &mut [u8],
    at: usize,
) -> usize
    requires { (length lent.now ≤ 4096) × (length lengths.now ≤ 512) × (at + 16384 ≤ length out.old) }
    ensures { result ≤ at + 16383 }
{
    let next = match unpacked {
        Ok(counts) => {
            let number = put_number(out, at, 0);
            let bytes = put_number_value(out, number, told_count(counts.bytes));
            put_number_value(out, bytes, told_count(counts.lengths))
        }
        Err(refusal) => put_number(out, at, refusal.number()),
    };
    let end = put_bytes_value(out, next, lent);
    put_lengths_value(out, end, lengths)
}

// Unpacks with these lent bytes and lengths, whole, and tells the answer.
fn unpack_into(
    reference: &[u8],
    packet: &[u8],
    lengths: &mut [u16],
    lent: &mut [u8],
    out: &mut [u8],
    at: usize,
) -> usize
    requires { (length lengths.old ≤ 512) × (length lent.old ≤ 4096) × (at + 16384 ≤ length out.old) }
    ensures { result ≤ at + 16383 }
{
    lengths.fill(LENT_LENGTH);
    lent.fill(LENT_BYTE);
    let unpacked = compression::delta_decode(reference, packet, lent, lengths);
    tell_unpacked(unpacked, &lent[..], &lengths[..], out, at)
}

// unpack ROOM LENS REFERENCE PACKET
fn unpack(line: &[u8], fields: &Fields, out: &mut [u8], at: usize) -> usize
    requires { at + 16384 ≤ length out.old }
    ensures { result ≤ at + 16383 }
{
    let mut first = [0u8; 4096];
    let mut second = [0u8; 4096];
    let mut lengths = [0u16; 512];
    let mut lent = [0u8; 4096];
    let room = fields.number(0).min(4096) as usize;
    let few = fields.number(1).min(512) as usize;
    let n = field_bytes(line, 3, &mut first);
    let m = field_bytes(line, 4, &mut second);
    unpack_into(
        &first[..n],
        &second[..m],
        &mut lengths[..few],
        &mut lent[..room],
        out,
        at,
    )
}

// Either call.
pub fn make(call: DeltaCall, line: &[u8], fields: &Fields, out: &mut [u8], at: usize) -> usize
    requires { at + 16384 ≤ length out.old }
    ensures { result ≤ at + 16383 }
{
    match call {
        DeltaCall::Pack => pack(line, fields, out, at),
        DeltaCall::Unpack => unpack(line, fields, out, at),
    }
}

// Either call, by its number within the part; a number that is no call's is the last call's.
pub fn make_numbered(
    call: u32,
    line: &[u8],
    count: u32,
    args: &[u64],
    out: &mut [u8],
    at: usize,
) -> usize
    requires { (2048 ≤ length args.now) × (count < 2048) × (at + 16384 ≤ length out.old) }
    ensures { result ≤ at + 16383 }
{
    let fields = Fields {
        values: args,
        count,
    };
    make(DeltaCall::numbered(call), line, &fields, out, at)
}

// Delta coding, both ways: a list of inputs as one packet, each input masked by the one before.
//
// A list of inputs is lent as their bytes, one after the other, and the list of their lengths. A packet has for each
// input its length, as two bytes with the low one first, and then its bytes, XORed with the base as far as both reach
// and as they are from there on. The first base is the reference, each later one the input before. The base is a part
// of what it stands in, and is never copied.
//
// Each call tests for itself. One that refuses answers why, and writes nothing.
#![tactic(auto)]

ghost use Rattle.std.specs.Prelude.{◌≡◌, ◌+◌, ◌*◌, ◌≤◌, ◌<◌, length, take, drop, eqb};
ghost use Rattle.frame_info.specs.Refusal.{number_in};
ghost use Rattle.compression.specs.Layout.{length_limit, masked, record_of, packed, split, total};
ghost use Rattle.compression.specs.Layout.{unpacked, records, restored, joined, lengths_of, whole};
ghost use Rattle.compression.specs.Promise.{pack_answer, pack_out, unpack_answer, unpack_out, unpack_lengths};
ghost use Rattle.compression.specs.Promise.{inputs_of, first_of, number_of, over};
ghost use Rattle.compression.specs.Said.{packed_said, unpacked_said, length_of};
ghost use Rattle.compression.specs.Inside.{base_at, counted};

use frame_info::refusal::Refusal;

// What unpacking wrote: how many bytes and lengths.
#[derive(Clone, Copy, Debug, PartialEq, Eq)]
pub struct Unpacked {
    pub bytes: usize,
    pub lengths: usize,
}

// What stands at a place of a packet.
#[derive(Clone, Copy, Debug, PartialEq, Eq)]
pub enum Record {
    // Nothing: the packet ends here.
    End,
    // One byte, where a length should be.
    Half,
    // A length, and fewer bytes than it says.
    Short,
    // A length, and that many bytes.
    Whole(u16),
}

impl Record {
    // The length that a whole record has, and none at the end. Elsewhere the packet breaks.
    pub fn length(self) -> Result<Option<u16>, Refusal>
        ensures number { number_in result ≡ number_of self }
        ensures value { result ≡ length_of self }
    {
        match self {
            Record::End => Ok(None),
            Record::Half => Err(Refusal::HalfLength),
            Record::Short => Err(Refusal::FewerBytes),
            Record::Whole(length) => Ok(Some(length)),
        }
    }
}

// A packet that is held, and a place in it.
#[derive(Clone, Copy, Debug, PartialEq, Eq)]
pub struct Reader<'a> {
    pub packet: &'a [u8],
    pub at: usize,
}

impl<'a> Reader<'a> {
    pub fn new(packet: &'a [u8], at: usize) -> Reader<'a>
        ensures { (result.packet ≡ packet.entry) × (result.at ≡ at) }
    {
        Reader { packet, at }
    }

    // What stands at the reader's place.
    #[tactic(auto, using(crate::proofs::Reading::firsts))]
    pub fn next_record(self) -> Record
        ensures { result ≡ first_of (drop self.entry.at self.entry.packet.now) }
    {
        if self.packet.len() < self.at {
            return Record::End;
        }
        match &self.packet[self.at..] {
            [] => Record::End,
            [_] => Record::Half,
            [low, high, bytes @ ..] => {
                let size = u16::from_le_bytes([*low, *high]);
                if bytes.len() < size as usize {
                    Record::Short
                } else {
                    Record::Whole(size)
                }
            }
        }
    }

    // The bytes of the record at the reader's place, without its length.
    fn body(self, size: u16) -> &'a [u8]
        requires { self.at + (2 + size) ≤ length self.packet.now }
        ensures { result.now ≡ take size (drop (self.entry.at + 2) self.entry.packet.now) }
    {
        &self.packet[self.at + 2..][..size as usize]
    }
}

// Bytes masked by the base go to the front of out. A call of its own, so that the loops around it have registers left.
#[inline(never)]
fn mask(base: &[u8], bytes: &[u8], out: &mut [u8])
    requires { length bytes.now ≤ length out.old }
    ensures { out.new ≡ over (masked base.now bytes.now) out.old }
{
    let both = base.len().min(bytes.len());
    // Kept: the bytes are indexed, as a proof knows none of those that a `zip` with `iter_mut` writes.
    for (i, b) in base[..both].iter().enumerate() {
        out[i] = *b ^ bytes[i];
    }
    // The base mostly reaches all, and to copy nothing is a call as well.
    if both < bytes.len() {
        out[both..bytes.len()].copy_from_slice(&bytes[both..]);
    }
}

// One input's record goes to the front of out: its length, and its bytes masked by the base.
#[tactic(auto, using(crate::proofs::Runs::record_laid))]
fn pack_one(base: &[u8], input: &[u8], out: &mut [u8])
    requires { (length input.now < length_limit) × (2 + length input.now ≤ length out.old) }
    ensures { out.new ≡ over (record_of base.now input.now) out.old }
{
    let (length, bytes) = out.split_at_mut(2);
    length.copy_from_slice(&(input.len() as u16).to_le_bytes());
    mask(base, input, bytes);
}

// All inputs' records, one after the other.
fn pack_all<'a>(reference: &'a [u8], pending: &'a [u8], lengths: &[u16], out: &mut [u8]) -> usize
    requires { (total lengths.now ≡ length pending.now) × (length pending.now + 2 * length lengths.now ≤ length out.old) }
    ensures { (result ≡ length (packed reference.now (split lengths.now pending.now)))
        × (out.new ≡ over (packed reference.now (split lengths.now pending.now)) out.old) }
{
    let mut base = reference;
    let mut rest = pending;
    let mut at = 0;
    for length in lengths {
        let (input, later) = rest.split_at(*length as usize);
        pack_one(base, input, &mut out[at..]);
        at += 2 + input.len();
        base = input;
        rest = later;
    }
    at
}

// Whether the lengths sum to n. It looks no further than n, so no sum wraps.
#[tactic(auto, using(crate::proofs::Sums::totals))]
fn sums_to(lengths: &[u16], n: usize) -> bool
    ensures { result ≡ eqb (total lengths.now) n }
{
    let mut rest = n;
    for length in lengths {
        let Some(less) = rest.checked_sub(*length as usize) else {
            return false;
        };
        rest = less;
    }
    rest == 0
}

// The packet of the inputs that stand one after the other in pending, with these lengths, goes to the front of out.
// Answers how many bytes it has: 18, 20.
// Kept: here and in `delta_decode` bytes and lengths are two lists, since the definitions `pack_out`, `unpack_out` and
// `unpack_lengths` name each, and no heap is here to hold a list of lists.
#[tactic(auto, using(crate::proofs::Packing::length_packed), unfolding(crate::specs::Promise::pack_answer, crate::specs::Promise::pack_out, crate::specs::Promise::left))]
pub fn delta_encode<'a>(
    reference: &'a [u8],
    pending: &'a [u8],
    lengths: &[u16],
    out: &mut [u8],
) -> Result<usize, Refusal>
    ensures { (packed_said result ≡ pack_answer reference.now pending.now lengths.now (length out.old))
        × (out.new ≡ pack_out reference.now pending.now lengths.now out.old) }
{
    if !sums_to(lengths, pending.len()) {
        return Err(Refusal::LengthsDiffer);
    }
    if out.len() < pending.len() + 2 * lengths.len() {
        return Err(Refusal::NoRoomForBytes);
    }
    Ok(pack_all(reference, pending, lengths, out))
}

// A first look at the packet: how many bytes and lengths it holds, if it is whole.
fn scan(packet: &[u8]) -> Result<Unpacked, Refusal>
    ensures { unpacked_said result ≡ counted (records packet.now) }
{
    let mut reader = Reader::new(packet, 0);
    let mut seen = Unpacked {
        bytes: 0,
        lengths: 0,
    };
    while let Some(length) = reader.next_record().length()? {
        reader.at += 2 + length as usize;
        seen.bytes += length as usize;
        seen.lengths += 1;
    }
    Ok(seen)
}

// The base in force after some inputs, the last of which stands at the end of the bytes so far, from `from` on.
fn base_of<'a>(reference: &'a [u8], earlier: &'a [u8], inputs: usize, from: usize) -> &'a [u8]
    requires { from ≤ length earlier.now }
    ensures { result.now ≡ base_at reference.now earlier.now inputs from (length earlier.now) }
{
    if inputs == 0 {
        reference
    } else {
        &earlier[from..]
    }
}

// All inputs of a whole packet, one after the other, and their lengths.
fn unpack_all(reference: &[u8], packet: &[u8], out: &mut [u8], lengths: &mut [u16])
    requires { (records packet.now ≡ whole (inputs_of (records packet.now)))
        × (length (joined (inputs_of (records packet.now))) ≤ length out.old)
        × (length (inputs_of (records packet.now)) ≤ length lengths.old) }
    ensures { (out.new
        ≡ over (joined (restored reference.now (inputs_of (records packet.now)))) out.old)
        × (lengths.new
        ≡ over (lengths_of (restored reference.now (inputs_of (records packet.now)))) lengths.old) }
{
    let mut reader = Reader::new(packet, 0);
    let mut done = Unpacked {
        bytes: 0,
        lengths: 0,
    };
    let mut from = 0;
    // Kept: a `for` over the places of the lengths tests one more end, and unpacks 60 inputs of 64 bytes a fifth slower.
    while let Record::Whole(length) = reader.next_record() {
        let body = reader.body(length);
        let (earlier, rest) = out.split_at_mut(done.bytes);
        mask(base_of(reference, earlier, done.lengths, from), body, rest);
        lengths[done.lengths] = length;
        reader.at += 2 + body.len();
        from = done.bytes;
        done.bytes += body.len();
        done.lengths += 1;
    }
}

// The inputs that the packet is of go to the front of out, one after the other, and their lengths to the front of
// lengths: the first of 16 or 17, then 19, 20.
pub fn delta_decode(
    reference: &[u8],
    packet: &[u8],
    out: &mut [u8],
    lengths: &mut [u16],
) -> Result<Unpacked, Refusal>
    ensures { (unpacked_said result
        ≡ unpack_answer (unpacked reference.now packet.now) (length out.old) (length lengths.old))
        × (out.new
        ≡ unpack_out (unpacked reference.now packet.now) out.old (length lengths.old))
        × (lengths.new
        ≡ unpack_lengths (unpacked reference.now packet.now) (length out.old) lengths.old) }
{
    let seen = scan(packet)?;
    if lengths.len() < seen.lengths {
        return Err(Refusal::NoRoomForLengths);
    }
    if out.len() < seen.bytes {
        return Err(Refusal::NoRoomForBytes);
    }
    unpack_all(reference, packet, out, lengths);
    Ok(seen)
}

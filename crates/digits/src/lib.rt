// Numbers as text: read from lent bytes, and written into lent bytes.
#![tactic(auto)]

ghost use Rattle.std.specs.Prelude.{◌≡◌, ◌+◌, ◌*◌, ◌≤◌, ◌<◌, length, set, pos, neg_ℤ};
ghost use Rattle.std.proofs.lemmas.List.Edits.{sets};
ghost use Rattle.digits.specs.Digits.{digit_in, number_of, and_then, pattern_of, decimal_of, word_of, signed_of, digit_byte, last_digits, width_of, decimal_text, signed_text, word_text, pair_text};

// A byte's worth as a digit of a base, where it is one.
// Kept: std's `to_digit` is of a character, and its promise is not in the words of `digit_of`. So is `from_digit`, for the
// bytes that are written below.
#[tactic(auto, unfolding(crate::specs::Digits::digit_of, crate::specs::Digits::digit_in))]
fn to_digit(b: u8, base: u32) -> Option<u32>
    requires { base ≤ 16 }
    ensures { result ≡ digit_in base b }
{
    let worth = match b {
        b'0'..=b'9' => b - b'0',
        b'a'..=b'f' => b - b'a' + 10,
        b'A'..=b'F' => b - b'A' + 10,
        _ => return None,
    };
    Some(u32::from(worth)).filter(|d| *d < base)
}

// A number in a base. Once it is too large, more digits can't make it smaller.
#[tactic(auto, using(crate::proofs::Reading::numbers), unfolding(crate::specs::Digits::digit_in))]
fn read_number(s: &[u8], base: u32) -> Option<u32>
    requires { (1 ≤ base) × (base ≤ 16) }
    ensures { result ≡ number_of base s.now }
{
    if s.is_empty() {
        return None;
    }
    let mut value: u32 = 0;
    for b in s {
        let d = to_digit(*b, base)?;
        value = value.checked_mul(base)?.checked_add(d)?;
    }
    Some(value)
}

// A decimal u32, with no sign.
#[tactic(auto, unfolding(crate::specs::Digits::decimal_of))]
pub fn read_decimal(s: &[u8]) -> Option<u32>
    ensures { result ≡ decimal_of s.now }
{
    read_number(s, 10)
}

// 1 to 8 hex digits.
#[tactic(auto, unfolding(crate::specs::Digits::word_of))]
pub fn read_word(s: &[u8]) -> Option<u32>
    ensures { result ≡ word_of s.now }
{
    if s.len() > 8 {
        return None;
    }
    read_number(s, 16)
}

// A decimal i32, as its two's complement pattern.
#[tactic(auto, using(crate::proofs::Reading::fields))]
pub fn read_signed(s: &[u8]) -> Option<u32>
    ensures { result ≡ signed_of s.now }
{
    match s.strip_prefix(b"-") {
        Some(digits) => negative(read_number(digits, 10)),
        None => positive(read_number(s, 10)),
    }
}

// A number without a sign, where it is an i32.
#[tactic(auto, unfolding(crate::specs::Digits::and_then, crate::specs::Digits::pattern_of))]
fn positive(n: Option<u32>) -> Option<u32>
    ensures { result ≡ and_then n (λ v. pattern_of (pos v)) }
{
    n.filter(|v| *v <= 2_147_483_647)
}

// A number after a `-`, as its pattern.
#[tactic(auto, unfolding(crate::specs::Digits::and_then, crate::specs::Digits::pattern_of))]
fn negative(n: Option<u32>) -> Option<u32>
    ensures { result ≡ and_then n (λ v. pattern_of (neg_ℤ (pos v))) }
{
    n.filter(|v| *v <= 2_147_483_648).map(u32::wrapping_neg)
}

#[tactic(auto, unfolding(crate::specs::Digits::digit_byte))]
fn digit_byte(d: u32) -> u8
    requires { d < 16 }
    ensures { result ≡ digit_byte d }
{
    let d = d as u8;
    if d < 10 { b'0' + d } else { b'a' + (d - 10) }
}

// The last `count` digits of n, from the last one back.
// Kept: the loop is over places. Tried `out[at..at + count].iter_mut().rev()`: once its borrow is over,
// a proof knows how many bytes there are, and none of them.
#[tactic(auto, using(crate::proofs::Writing::written))]
fn put_digits(out: &mut [u8], at: usize, n: u32, base: u32, count: usize)
    requires { (at + count ≤ length out.old) × (1 ≤ base) × (base ≤ 16) }
    ensures { out.new ≡ sets out.old at (last_digits base count n) }
{
    let mut rest = n;
    for left in (0..count).rev() {
        out[at + left] = digit_byte(rest % base);
        rest /= base;
    }
}

// How many decimal digits n has.
// Kept: a division for each, as the definition `width_of` has it. `checked_ilog10` is no plainer: 0 has none.
#[tactic(auto, using(crate::proofs::Writing::widths))]
fn width_of(n: u32) -> usize
    ensures { result ≡ width_of n }
{
    let mut width: usize = 1;
    let mut rest = n;
    while rest >= 10 {
        rest /= 10;
        width += 1;
    }
    width
}

// What is written stands at a place of lent bytes, and the answer is the place after it.
// Kept: the bytes and the place are two arguments, and no struct that writes. The promises are on the
// whole of the lent list, as the desk's log line and the cue sheets' answers need it; a struct would
// have to lend it and give it back at each call, which is no plainer.
#[tactic(auto, using(crate::proofs::Writing::decimals), unfolding(crate::specs::Digits::decimal_text))]
pub fn put_decimal(out: &mut [u8], at: usize, n: u32) -> usize
    requires { at + 10 ≤ length out.old }
    ensures { (result ≡ at + length (decimal_text n)) × (out.new ≡ sets out.old at (decimal_text n)) }
{
    let count = width_of(n);
    put_digits(out, at, n, 10, count);
    at + count
}

#[tactic(auto, using(crate::proofs::Writing::signs))]
pub fn put_signed(out: &mut [u8], at: usize, z: i32) -> usize
    requires { at + 11 ≤ length out.old }
    ensures { (result ≡ at + length (signed_text z)) × (out.new ≡ sets out.old at (signed_text z)) }
{
    let size = z.unsigned_abs();
    if z < 0 {
        let next = put_byte(out, at, b'-');
        put_decimal(out, next, size)
    } else {
        put_decimal(out, at, size)
    }
}

#[tactic(auto, unfolding(crate::specs::Digits::word_text))]
pub fn put_word(out: &mut [u8], at: usize, w: u32) -> usize
    requires { at + 8 ≤ length out.old }
    ensures { (result ≡ at + 8) × (out.new ≡ sets out.old at (word_text w)) }
{
    put_digits(out, at, w, 16, 8);
    at + 8
}

// A byte as two digits.
#[tactic(auto, unfolding(crate::specs::Digits::pair_text))]
pub fn put_pair(out: &mut [u8], at: usize, b: u8) -> usize
    requires { at + 2 ≤ length out.old }
    ensures { (result ≡ at + 2) × (out.new ≡ sets out.old at (pair_text b)) }
{
    put_digits(out, at, u32::from(b), 16, 2);
    at + 2
}

pub fn put_byte(out: &mut [u8], at: usize, b: u8) -> usize
    requires { at < length out.old }
    ensures { (result ≡ at + 1) × (out.new ≡ set out.old at b) }
{
    out[at] = b;
    at + 1
}

// Bytes as they stand.
#[tactic(auto, using(crate::proofs::Writing::text_put))]
pub fn put_text(out: &mut [u8], at: usize, text: &[u8]) -> usize
    requires { at + length text.now ≤ length out.old }
    ensures { (result ≡ at + length text.now) × (out.new ≡ sets out.old at text.now) }
{
    let end = at + text.len();
    out[at..end].copy_from_slice(text);
    end
}

// The fields of a line as a call takes them, and the shapes of answers: the number, and values after it where that is 0. Each is put into `out`
// from a place on, and answers where it ends.
// Kept: the list and the place are two parameters, and no struct. The functions of `digits` take the two, and what a struct lends
// is said in a contract by what the list holds at its entry and at its exit, which is no plainer. So the room that an answer needs
// stands in each contract too, and a part's own `Whole`: a part is one of four types, and three of them have one.
#![tactic(auto)]

mod fields;

ghost use Rattle.std.specs.Prelude.{◌≡◌, [], ◌+◌, ◌≤◌, ◌<◌, length};
ghost use Rattle.frame_info.specs.Refusal.{done, number_of, number_given};
ghost use Rattle.digits.specs.Digits.{decimal_text};
ghost use Rattle.cues_text.specs.Text as text;
ghost use Rattle.cues_text.specs.Text.{Puts};

use console::Console;
use digits::{put_byte, put_decimal, put_signed, put_word};
pub use fields::{Fields, frame_arg, low, number_arg};
use frame_info::Fills;
use frame_info::refusal::Refusal;

// What a call leaves: the part of the program's world that it was made on, and where its answer ends.
#[derive(Clone, Copy, Debug, PartialEq, Eq)]
pub struct Told<T> {
    pub part: T,
    pub at: usize,
}

// A number, with how far it reaches at most.
pub fn put_number(out: &mut [u8], at: usize, number: u32) -> usize
    requires { at + 10 ≤ length out.old }
    ensures { Puts (decimal_text number) 10 at out.old out.new result }
{
    put_decimal(out, at, number)
}

pub fn put_frame_value(out: &mut [u8], at: usize, frame: i32) -> usize
    requires { at + 12 ≤ length out.old }
    ensures { Puts (text.frame_value frame) 12 at out.old out.new result }
{
    let next = put_byte(out, at, b' ');
    put_signed(out, next, frame)
}

pub fn put_number_value(out: &mut [u8], at: usize, number: u32) -> usize
    requires { at + 11 ≤ length out.old }
    ensures { Puts (text.number_value number) 11 at out.old out.new result }
{
    let next = put_byte(out, at, b' ');
    put_decimal(out, next, number)
}

pub fn put_word_value(out: &mut [u8], at: usize, word: u32) -> usize
    requires { at + 9 ≤ length out.old }
    ensures { Puts (text.word_value word) 9 at out.old out.new result }
{
    let next = put_byte(out, at, b' ');
    put_word(out, next, word)
}

fn standing_byte(confirmed: bool) -> u8
    ensures { result ≡ text.standing_byte confirmed }
{
    if confirmed { b'c' } else { b'p' }
}

pub fn put_standing_value(out: &mut [u8], at: usize, confirmed: bool) -> usize
    requires { at + 2 ≤ length out.old }
    ensures { Puts (text.standing_value confirmed) 2 at out.old out.new result }
{
    put_letter_value(out, at, standing_byte(confirmed))
}

pub fn put_served_value(out: &mut [u8], at: usize, word: u32, confirmed: bool) -> usize
    requires { at + 11 ≤ length out.old }
    ensures { Puts (text.served_value word confirmed) 11 at out.old out.new result }
{
    let next = put_word_value(out, at, word);
    put_standing_value(out, next, confirmed)
}

// A letter after a space.
pub fn put_letter_value(out: &mut [u8], at: usize, letter: u8) -> usize
    requires { at + 2 ≤ length out.old }
    ensures { Puts (text.letter_value letter) 2 at out.old out.new result }
{
    let next = put_byte(out, at, b' ');
    put_byte(out, next, letter)
}

fn put_head_value(out: &mut [u8], at: usize, state: Console) -> usize
    requires { at + 18 ≤ length out.old }
    ensures { Puts (text.head_value state) 18 at out.old out.new result }
{
    let next = put_word_value(out, at, state.head);
    put_word_value(out, next, state.kind)
}

pub fn put_state_value(out: &mut [u8], at: usize, state: Console) -> usize
    requires { at + 27 ≤ length out.old }
    ensures { Puts (text.state_value state) 27 at out.old out.new result }
{
    let next = put_head_value(out, at, state);
    put_word_value(out, next, state.seal)
}

// The first frame and the count of a fill.
// Kept: two numbers of the three, since the definition `first_value` is of these two.
fn put_first_value(out: &mut [u8], at: usize, first: i32, count: u32) -> usize
    requires { at + 23 ≤ length out.old }
    ensures { Puts (text.first_value first count) 23 at out.old out.new result }
{
    let next = put_frame_value(out, at, first);
    put_number_value(out, next, count)
}

pub fn put_fills_value(out: &mut [u8], at: usize, fills: Fills) -> usize
    requires { at + 32 ≤ length out.old }
    ensures { Puts (text.fills_value fills.first fills.count fills.word) 32 at out.old out.new result }
{
    let next = put_first_value(out, at, fills.first, fills.count);
    put_word_value(out, next, fills.word)
}

// A number, and nothing after it.
pub fn tell_number(out: &mut [u8], at: usize, number: u32) -> usize
    requires { at + 64 ≤ length out.old }
    ensures { Puts (text.answer_text number []) 63 at out.old out.new result }
{
    put_number(out, at, number)
}

// A call that is refused: its number alone, whatever it would have told.
pub fn tell_refusal(out: &mut [u8], at: usize, refusal: Refusal) -> usize
    requires { at + 64 ≤ length out.old }
    ensures { Puts (text.answer_text (number_of refusal) []) 63 at out.old out.new result }
{
    tell_number(out, at, refusal.number())
}

// A setup, which leaves a fresh part even where it is refused.
pub fn tell_setup(out: &mut [u8], at: usize, refused: Option<Refusal>) -> usize
    requires { at + 64 ≤ length out.old }
    ensures { Puts (text.answer_text (number_given refused) []) 63 at out.old out.new result }
{
    tell_number(out, at, refused.map_or(0, Refusal::number))
}

// A call that is done: 0, and what it tells.
pub fn tell_frame(out: &mut [u8], at: usize, frame: i32) -> usize
    requires { at + 64 ≤ length out.old }
    ensures { Puts (text.answer_text done (text.frame_value frame)) 63 at out.old out.new result }
{
    let end = put_number(out, at, 0);
    put_frame_value(out, end, frame)
}

pub fn tell_word(out: &mut [u8], at: usize, word: u32) -> usize
    requires { at + 64 ≤ length out.old }
    ensures { Puts (text.answer_text done (text.word_value word)) 63 at out.old out.new result }
{
    let end = put_number(out, at, 0);
    put_word_value(out, end, word)
}

pub fn tell_served(out: &mut [u8], at: usize, word: u32, confirmed: bool) -> usize
    requires { at + 64 ≤ length out.old }
    ensures { Puts (text.answer_text done (text.served_value word confirmed)) 63 at out.old out.new result }
{
    let end = put_number(out, at, 0);
    put_served_value(out, end, word, confirmed)
}

pub fn tell_fills(out: &mut [u8], at: usize, fills: Fills) -> usize
    requires { at + 64 ≤ length out.old }
    ensures { Puts (text.answer_text done (text.fills_value fills.first fills.count fills.word)) 63 at out.old out.new result }
{
    let end = put_number(out, at, 0);
    put_fills_value(out, end, fills)
}

// A frame after the number, or where that is not 0 the number alone.
#[tactic(auto, using(crate::proofs::Texts::told_other))]
pub fn answer_frame(out: &mut [u8], at: usize, number: u32, frame: i32) -> usize
    requires { at + 64 ≤ length out.old }
    ensures { Puts (text.answer_text number (text.frame_value frame)) 63 at out.old out.new result }
{
    if number != 0 {
        return tell_number(out, at, number);
    }
    tell_frame(out, at, frame)
}

// A word after the number, or where that is not 0 the number alone.
#[tactic(auto, using(crate::proofs::Texts::told_other))]
pub fn answer_word(out: &mut [u8], at: usize, number: u32, word: u32) -> usize
    requires { at + 64 ≤ length out.old }
    ensures { Puts (text.answer_text number (text.word_value word)) 63 at out.old out.new result }
{
    if number != 0 {
        return tell_number(out, at, number);
    }
    tell_word(out, at, word)
}

// A word and its standing after the number, or where that is not 0 the number alone.
#[tactic(auto, using(crate::proofs::Texts::told_other))]
pub fn answer_served(out: &mut [u8], at: usize, number: u32, word: u32, confirmed: bool) -> usize
    requires { at + 64 ≤ length out.old }
    ensures { Puts (text.answer_text number (text.served_value word confirmed)) 63 at out.old out.new result }
{
    if number != 0 {
        return tell_number(out, at, number);
    }
    tell_served(out, at, word, confirmed)
}

// Fills after the number, or where that is not 0 the number alone.
#[tactic(auto, using(crate::proofs::Texts::told_other))]
pub fn answer_fills(
    out: &mut [u8],
    at: usize,
    number: u32,
    first: i32,
    count: u32,
    word: u32,
) -> usize
    requires { at + 64 ≤ length out.old }
    ensures { Puts (text.answer_text number (text.fills_value first count word)) 63 at out.old out.new result }
{
    if number != 0 {
        return tell_number(out, at, number);
    }
    tell_fills(out, at, Fills { first, count, word })
}

// The answers of the layer alone: a state, three frames, and what every seat is served.
ghost use Rattle.std.specs.Prelude.{◌+◌, ◌*◌, ◌≤◌, length};
ghost use Rattle.sync_layer.specs.Seats.{max_seats};

use console::Console;
use cues_text::{put_frame_value, put_letter_value, put_number, put_state_value, put_word_value};
use frame_info::input_status::{CONFIRMED, InputStatus, PREDICTED};
use sync_layer::MAX_SEATS;

pub fn tell_state(out: &mut [u8], at: usize, state: Console) -> usize
    requires { at + 192 ≤ length out.old }
    ensures { result ≤ at + 191 }
{
    let end = put_number(out, at, 0);
    put_state_value(out, end, state)
}

pub fn tell_frames(out: &mut [u8], at: usize, current: i32, saved: i32, confirmed: i32) -> usize
    requires { at + 192 ≤ length out.old }
    ensures { result ≤ at + 191 }
{
    let first = put_number(out, at, 0);
    let second = put_frame_value(out, first, current);
    let third = put_frame_value(out, second, saved);
    put_frame_value(out, third, confirmed)
}

fn letter_of(status: InputStatus) -> u8 {
    match status {
        CONFIRMED => b'c',
        PREDICTED => b'p',
        _ => b'g',
    }
}

fn put_served(out: &mut [u8], at: usize, word: u32, status: InputStatus) -> usize
    requires { at + 11 ≤ length out.old }
    ensures { result ≤ at + 11 }
{
    let next = put_word_value(out, at, word);
    put_letter_value(out, next, letter_of(status))
}

// Every seat's word and status.
// Kept: two arrays, as `ServedLayer` has them.
pub fn tell_served(
    out: &mut [u8],
    at: usize,
    words: &[u32; MAX_SEATS],
    statuses: &[InputStatus; MAX_SEATS],
    n: usize,
) -> usize
    requires { (n ≤ max_seats) × (at + 192 ≤ length out.old) }
    ensures { result ≤ at + 191 }
{
    let mut end = put_number(out, at, 0);
    for (&word, &status) in words[..n].iter().zip(&statuses[..n]) {
        end = put_served(out, end, word, status);
    }
    end
}

fn put_found(out: &mut [u8], at: usize, frame: i32, word: u32) -> usize
    requires { at + 21 ≤ length out.old }
    ensures { result ≤ at + 21 }
{
    let next = put_frame_value(out, at, frame);
    put_word_value(out, next, word)
}

// Every seat's frame and word.
// Kept: two arrays, as `ConfirmedInputs` has them.
pub fn tell_found(
    out: &mut [u8],
    at: usize,
    frames: &[i32; MAX_SEATS],
    words: &[u32; MAX_SEATS],
    n: usize,
) -> usize
    requires { (n ≤ max_seats) × (at + 192 ≤ length out.old) }
    ensures { result ≤ at + 191 }
{
    let mut end = put_number(out, at, 0);
    for (&frame, &word) in frames[..n].iter().zip(&words[..n]) {
        end = put_found(out, end, frame, word);
    }
    end
}

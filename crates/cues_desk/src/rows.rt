// What an answer says of every seat, and of what was corrected.
ghost use Rattle.std.specs.Prelude.{◌+◌, ◌*◌, ◌≤◌, length};
ghost use Rattle.sync_layer.specs.Seats.{max_seats};

use cues_text::{
    put_frame_value, put_number, put_number_value, put_served_value, put_state_value,
    put_word_value,
};
use desk::Report;
use desk_value::{AdvancedDesk, ShownDesk};
use frame_info::input_status::{CONFIRMED, InputStatus};
use sync_layer::MAX_SEATS;

// The lowest mismatch, and how many frames were replayed.
pub fn put_report(out: &mut [u8], at: usize, report: Report) -> usize
    requires { at + 23 ≤ length out.old }
    ensures { result ≤ at + 23 }
{
    let next = put_frame_value(out, at, report.frame);
    put_number_value(out, next, report.count)
}

// Each seat's word.
fn put_words(out: &mut [u8], at: usize, words: &[u32; MAX_SEATS], n: usize) -> usize
    requires { (n ≤ max_seats) × (at + 9 * n ≤ length out.old) }
    ensures { result ≤ at + 9 * n }
{
    let mut next = at;
    for &word in &words[..n] {
        next = put_word_value(out, next, word);
    }
    next
}

// Each seat's word and whether it is confirmed.
// Kept: two arrays, as `AdvancedDesk` has them.
fn put_served(
    out: &mut [u8],
    at: usize,
    words: &[u32; MAX_SEATS],
    statuses: &[InputStatus; MAX_SEATS],
    n: usize,
) -> usize
    requires { (n ≤ max_seats) × (at + 11 * n ≤ length out.old) }
    ensures { result ≤ at + 11 * n }
{
    let mut next = at;
    for (&word, &status) in words[..n].iter().zip(&statuses[..n]) {
        next = put_served_value(out, next, word, status == CONFIRMED);
    }
    next
}

// A frame that was served: what was corrected before it, and each seat's word and status.
pub fn tell_served(out: &mut [u8], at: usize, a: AdvancedDesk, n: usize) -> usize
    requires { (n ≤ max_seats) × (at + 77 ≤ length out.old) }
    ensures { result ≤ at + 77 }
{
    let end = put_number(out, at, 0);
    let next = put_report(out, end, a.report);
    put_served(out, next, &a.served, &a.statuses, n)
}

// A frame that is shown: each seat's word, and the console after it.
pub fn tell_shown(out: &mut [u8], at: usize, shown: ShownDesk, n: usize) -> usize
    requires { (n ≤ max_seats) × (at + 73 ≤ length out.old) }
    ensures { result ≤ at + 73 }
{
    let end = put_number(out, at, 0);
    let next = put_words(out, end, &shown.words, n);
    put_state_value(out, next, shown.console)
}

// The statuses that a call takes as many as a line has of, put into lent lists.
ghost use Rattle.std.specs.Prelude.{◌+◌, ◌≤◌, length};

use cues_text::{Fields, low};
use sheet::calls::ON;

// A seat is gone where its status is a frame, which is below that of a seat that is on.
fn is_gone(status: u64) -> bool {
    status < ON
}

// n statuses, from a field on: whether a seat is gone, and its last frame, which does not matter for one that is not.
// Kept: two arrays, as the calls of the layer are lent them.
pub fn take(fields: &Fields, from: usize, n: usize, gone: &mut [bool], lasts: &mut [i32])
    requires { (from + n ≤ 2048) × (n ≤ length gone.old) × (n ≤ length lasts.old) }
{
    let seats = gone.iter_mut().zip(lasts.iter_mut());
    for ((gone, last), &status) in seats.zip(&fields.values[from..from + n]) {
        *gone = is_gone(status);
        *last = low(status).cast_signed();
    }
}

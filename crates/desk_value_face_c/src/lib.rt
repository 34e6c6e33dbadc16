// The export of the crate `desk_value_face` for the bench: its function of the same name, with the
// same promise. A crate is a library or an archive for C, so that the archive is a crate of its own.
//
// Kept: the C interface has a name, lists and numbers, and answers a number.
#![tactic(auto)]

ghost use Rattle.std.specs.Prelude.{◌≡◌, length};

// Two words a frame. Answers 6 where there are more frames than a reel has, 20 where a list is too
// short, and else how many calls were refused, which is 0 where all went well.
#[unsafe(no_mangle)]
pub extern "C" fn value_night(words: &[u32], frames: u32, said: &mut [u32]) -> u32
    ensures { length said.new ≡ length said.old }
{
    desk_value_face::value_night(words, frames, said)
}

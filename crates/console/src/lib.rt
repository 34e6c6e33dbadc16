// The console: what one frame's words do to the scan.
#![tactic(auto)]

ghost use Rattle.std.specs.Prelude.{◌≡◌};
ghost use Rattle.console.specs.Step.{start, extended, moved, sealed, kind_of, step_of};

use frame_info::box_of;

#[derive(Clone, Copy, Debug, Default, PartialEq, Eq)]
pub struct Console {
    pub head: u32,
    pub kind: u32,
    pub seal: u32,
}

impl Console {
    pub fn new() -> Console
        ensures { result ≡ start }
    {
        Console::default()
    }

    // One frame, with each seat's word in order.
    #[tactic(auto, unfolding(crate::specs::Step::step_of))]
    pub fn step(self, words: &[u32]) -> Console
        ensures { result ≡ step_of self words.now }
    {
        let mut head = self.head;
        let mut seal = self.seal;
        for &word in words {
            head = move_head(head, word);
            seal = seal_word(seal, word);
        }
        Console {
            head,
            kind: first_box(words),
            seal,
        }
    }
}

// The jog as 32 bits, its sign carried to the top.
// Kept: a remainder before the cast, since `as` may lose nothing.
fn extend_jog(word: u32) -> u32
    ensures { result ≡ extended word }
{
    let jog = ((word % 256) as u8).cast_signed();
    i32::from(jog).cast_unsigned()
}

#[tactic(auto, using(crate::proofs::Laws::moves))]
fn move_head(head: u32, word: u32) -> u32
    ensures { result ≡ moved head word }
{
    head.wrapping_add(extend_jog(word))
}

#[tactic(auto, using(crate::proofs::Laws::turns), unfolding(crate::specs::Step::sealed))]
fn seal_word(seal: u32, word: u32) -> u32
    ensures { result ≡ sealed seal word }
{
    seal.rotate_left(5) ^ word
}

fn first_box(words: &[u32]) -> u32
    ensures { result ≡ kind_of words.now }
{
    words.first().map_or(0, |word| box_of(*word))
}

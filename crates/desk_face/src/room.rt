// Whether the lists that a call in C is lent are long enough, from their lengths.
//
// Kept: a test for each call. They share `for_desk`, and one for all would take lists that a call is
// not lent, and so be no plainer.
ghost use Rattle.std.specs.Prelude.{◌≡◌};
ghost use Rattle.desk_face.specs.Face as face;

use sync_layer::{SEATS_LENGTH, SLOTS_LENGTH, WORDS_LENGTH};

// How many numbers a desk has of its own.
const STATE_WORDS: usize = 7;

fn for_desk(state: usize, seats: usize) -> bool
    ensures { result ≡ face.desk_room state seats }
{
    seats >= SEATS_LENGTH && state >= STATE_WORDS
}

#[tactic(auto, unfolding(crate::specs::Face::setup_room))]
pub fn for_setup(state: usize, seats: usize, slots: usize) -> bool
    ensures { result ≡ face.setup_room state seats slots }
{
    slots >= SLOTS_LENGTH && for_desk(state, seats)
}

#[tactic(auto, unfolding(crate::specs::Face::take_room))]
pub fn for_take(state: usize, seats: usize, words: usize, said: usize) -> bool
    ensures { result ≡ face.take_room state seats words said }
{
    said >= 1 && words >= WORDS_LENGTH && for_desk(state, seats)
}

#[tactic(auto, unfolding(crate::specs::Face::settle_room))]
pub fn for_settle(state: usize, seats: usize, words: usize, slots: usize, said: usize) -> bool
    ensures { result ≡ face.settle_room state seats words slots said }
{
    said >= 2 && slots >= SLOTS_LENGTH && words >= WORDS_LENGTH && for_desk(state, seats)
}

// A call that only looks, and says so many numbers.
#[tactic(auto, unfolding(crate::specs::Face::look_room))]
pub fn for_look(state: usize, seats: usize, slots: usize, said: usize, says: usize) -> bool
    ensures { result ≡ face.look_room says state seats slots said }
{
    said >= says && slots >= SLOTS_LENGTH && for_desk(state, seats)
}

#[tactic(auto, unfolding(crate::specs::Face::known_room))]
pub fn for_known(state: usize, seats: usize, said: usize) -> bool
    ensures { result ≡ face.known_room state seats said }
{
    said >= 1 && for_desk(state, seats)
}

// A place for each of n seats.
#[tactic(auto, unfolding(crate::specs::Face::room_of_row))]
pub fn for_row(n: u32, row: usize) -> bool
    ensures { result ≡ face.room_of_row n row }
{
    row >= n as usize
}

#[tactic(auto, unfolding(crate::specs::Face::rows_room))]
pub fn for_rows(n: u32, row: usize, statuses: usize) -> bool
    ensures { result ≡ face.rows_room n row statuses }
{
    statuses >= n as usize && for_row(n, row)
}

// The saved slots in a lent list of numbers: limit + 1 slots, frame f in slot f mod that number,
// slot i's numbers from i * SLOT_WORDS on. These are the frame as a count, head, kind, seal, and
// from 4 on the words that the desk served.
// Kept: numbers beside their limit and no struct of both, since C lends the list and the layer holds
// the limit.
ghost use Rattle.std.specs.Prelude.{◌≡◌, ◌+◌, ◌-◌, ◌*◌, ◌≤◌, ◌<◌, suc};
ghost use Rattle.frame_info.specs.Frame.{last_count};
ghost use Rattle.sync_layer.specs.Slots.{max_limit, slot_words, slot_of, slot_at, state_in, save_slot, clear_slots, within, highest_in};
ghost use Rattle.sync_layer.specs.Whole.{SlotRoom};

use crate::SLOT_WORDS;
use console::Console;

// Where a frame's slot begins.
pub fn slot_of(limit: u32, frame: u32) -> usize
    requires { limit ≤ max_limit }
    ensures { (result ≡ slot_of limit frame) × (result ≤ limit * slot_words) }
{
    (frame % (limit + 1)) as usize * SLOT_WORDS
}

#[tactic(auto, unfolding(crate::specs::Slots::save_slot, crate::specs::Lists::write_row))]
pub fn save_slot(slots: &mut [u32], limit: u32, frame: u32, state: Console)
    requires { (limit ≤ max_limit) × (frame < last_count) × SlotRoom slots.old }
    ensures { slots.new ≡ save_slot limit slots.old frame state }
{
    let at = slot_of(limit, frame);
    slots[at] = frame + 1;
    slots[at + 1] = state.head;
    slots[at + 2] = state.kind;
    slots[at + 3] = state.seal;
}

// The count of the frame that a frame's slot holds.
pub fn count_in(slots: &[u32], limit: u32, frame: u32) -> u32
    requires { (limit ≤ max_limit) × SlotRoom slots.now }
    ensures { result ≡ slot_at limit slots.now frame 0 }
{
    let at = slot_of(limit, frame);
    slots[at]
}

pub fn state_in(slots: &[u32], limit: u32, frame: u32) -> Console
    requires { (limit ≤ max_limit) × SlotRoom slots.now }
    ensures { result ≡ state_in limit slots.now frame }
{
    let at = slot_of(limit, frame);
    Console {
        head: slots[at + 1],
        kind: slots[at + 2],
        seal: slots[at + 3],
    }
}

// Slots 0 to n - 1 hold no frame.
#[tactic(auto, unfolding(crate::specs::Slots::clear_slots))]
pub fn clear_slots(slots: &mut [u32], n: usize)
    requires { (n ≤ suc max_limit) × SlotRoom slots.old }
    ensures { slots.new ≡ clear_slots n slots.old }
{
    for i in 0..n {
        slots[i * SLOT_WORDS] = 0;
    }
}

fn within_both(low: u32, high: u32, count: u32) -> u32
    ensures { result ≡ within low high count }
{
    if (low..=high).contains(&count) {
        count
    } else {
        0
    }
}

// The highest frame's count that slots 0 to n - 1 hold within two others, 0 where there is none.
#[tactic(auto, using(std::proofs::lemmas::Bool::Decides::nat_tests), unfolding(crate::specs::Slots::highest_in))]
pub fn highest_in(slots: &[u32], n: usize, low: u32, high: u32) -> u32
    requires { (n ≤ suc max_limit) × SlotRoom slots.now }
    ensures { result ≡ highest_in n slots.now low high }
{
    let mut highest = 0;
    for i in 0..n {
        highest = highest.max(within_both(low, high, slots[i * SLOT_WORDS]));
    }
    highest
}

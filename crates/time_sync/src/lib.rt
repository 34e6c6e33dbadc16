// How far this side runs ahead of the other, averaged over the last thirty frames.
#![tactic(auto)]

ghost use Rattle.std.specs.Prelude.{◌≡◌};
ghost use Rattle.std.specs.Float.Ieee.{to_signed};
ghost use Rattle.frame_info.specs.Refusal.{number_in};
ghost use Rattle.time_sync.specs.Windows.{fresh, slot_of, advanced};
ghost use Rattle.time_sync.specs.Said.{slot_in, advanced_said};
ghost use Rattle.time_sync.specs.Sums.{window_sum};
ghost use Rattle.time_sync.specs.Averages.{average, averages_of, half};
ghost use Rattle.time_sync.specs.Bits.{Under31, cut_of};
ghost use Rattle.time_sync.specs.Answer.{frame_advantage};
ghost use Rattle.time_sync.specs.Readings.{shown, reading_of};

use frame_info::refusal::Refusal;
use std::num::{nearest_i32_to_f32, saturating_f32_to_i32};

// A window's entries.
pub const WINDOW: usize = 30;

// Two windows of thirty frame advantages. Frame f has slot f mod 30 of each.
// Kept: two lists, and not one of pairs. The definitions `fresh`, `written` and `averages_of` name each.
#[derive(Clone, Copy, Debug, PartialEq, Eq)]
pub struct TimeSync {
    pub local: [i32; WINDOW],
    pub remote: [i32; WINDOW],
}

// Both averages, in binary32.
#[derive(Clone, Copy, Debug, PartialEq)]
pub struct Averages {
    pub local: f32,
    pub remote: f32,
}

// How the half stands to zero, with its size before truncation.
#[derive(Clone, Copy, Debug, PartialEq)]
pub enum Reading {
    Even,
    Over(f32),
    Under(f32),
}

// The slot of a frame: the frame mod 30. A frame below 0 has none.
fn slot_of(frame: i32) -> Option<usize>
    ensures { result ≡ slot_in (slot_of frame) }
{
    usize::try_from(frame).ok().map(|frame| frame % WINDOW)
}

// The sum of a window's thirty entries, modulo 2^32.
#[tactic(auto, using(crate::proofs::Sums::sums))]
fn sum(window: &[i32; WINDOW]) -> i32
    ensures { result ≡ window_sum window.now }
{
    let mut total: i32 = 0;
    for entry in window {
        total = total.wrapping_add(*entry);
    }
    total
}

// The sum of a window, rounded to binary32 and divided by 30.
#[tactic(auto, using(crate::proofs::Halves::halves))]
fn average_of(window: &[i32; WINDOW]) -> f32
    ensures { result ≡ average window.now }
{
    nearest_i32_to_f32(sum(window)) / 30.0
}

// x without its fraction, for an x that is less than 2^31 in size: what IEEE says, and what x's bits say.
fn truncated(x: f32) -> i32
    requires { Under31 x }
    ensures { (result ≡ to_signed 31 x) × (result ≡ cut_of x) }
{
    saturating_f32_to_i32(x)
}

impl TimeSync {
    // Windows of zeros.
    #[tactic(auto, unfolding(crate::specs::Windows::fresh))]
    pub fn new() -> TimeSync
        ensures { result ≡ fresh }
    {
        TimeSync {
            local: [0; WINDOW],
            remote: [0; WINDOW],
        }
    }

    // Writes the frame's slot of each window where it stands. A frame below 0 is refused.
    #[tactic(auto, using(crate::proofs::Windows::advances))]
    pub fn advance(&mut self, frame: i32, local_adv: i32, remote_adv: i32) -> Result<(), Refusal>
        ensures { (number_in result ≡ (advanced self.old frame local_adv remote_adv).no)
            × (self.new ≡ (advanced self.old frame local_adv remote_adv).sync) }
    {
        let Some(slot) = slot_of(frame) else {
            return Err(Refusal::FrameBelowZero);
        };
        self.local[slot] = local_adv;
        self.remote[slot] = remote_adv;
        Ok(())
    }

    // The same by value: the copy that was passed is lent.
    pub fn advance_frame(
        mut self,
        frame: i32,
        local_adv: i32,
        remote_adv: i32,
    ) -> Result<TimeSync, Refusal>
        ensures { advanced_said self result ≡ advanced self frame local_adv remote_adv }
    {
        self.advance(frame, local_adv, remote_adv)?;
        Ok(self)
    }

    // Both averages together.
    #[tactic(auto, using(crate::proofs::Halves::halves))]
    pub fn averages(self) -> Averages
        ensures { result ≡ averages_of self }
    {
        Averages {
            local: average_of(&self.local),
            remote: average_of(&self.remote),
        }
    }

    // Half of the remote average minus the local one.
    #[tactic(auto, using(crate::proofs::Halves::halves))]
    fn meeting_point(self) -> f32
        ensures { result ≡ half self }
    {
        (average_of(&self.remote) - average_of(&self.local)) / 2.0
    }

    // The half without its fraction.
    #[tactic(auto, using(crate::proofs::Halves::halves), unfolding(crate::specs::Answer::frame_advantage))]
    pub fn average_frame_advantage(self) -> i32
        ensures { result ≡ frame_advantage self }
    {
        truncated(self.meeting_point())
    }

    // The half as it is: even, over by or under by.
    #[tactic(auto, using(crate::proofs::Halves::halves))]
    pub fn reading(self) -> Reading
        ensures { shown result ≡ reading_of self }
    {
        let h = self.meeting_point();
        if h == 0.0 {
            Reading::Even
        } else if h > 0.0 {
            Reading::Over(h)
        } else {
            Reading::Under(-h)
        }
    }
}

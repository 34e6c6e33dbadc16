// Why a call says no, by the numbers that its promises cite.
ghost use Rattle.std.specs.Prelude.{◌≡◌, Some};
ghost use Rattle.frame_info.specs.Refusal.{number_of, sentence_of};

use std::error::Error;
use std::fmt;

// A refused call changes no state and no lent byte. 0 is the number of a call that is done.
#[derive(Clone, Copy, Debug, PartialEq, Eq)]
pub enum Refusal {
    // A setup with seats, limit, delay or predictor out of range, or a delay change above 60.
    OutOfRange = 1,
    // There is no such seat.
    NoSuchSeat = 2,
    // An input that is not for the frame after the last one.
    NotNextFrame = 3,
    // The word and its fills would make more than 128 undiscarded.
    QueueFull = 4,
    // The desk's advance, where the current frame is more than the limit past K.
    TooFarAhead = 5,
    // An input frame above 1,000,000,000, or an advance at that current frame.
    FrameTooHigh = 6,
    // A frame below 0.
    FrameBelowZero = 7,
    // A load of the current frame or a later one.
    LoadNotPast = 8,
    // A load of a frame more than the limit before the current one.
    LoadTooOld = 9,
    // The frame's slot does not hold it.
    SlotHoldsAnother = 10,
    // There is no confirmed word for the frame.
    NotConfirmed = 11,
    // A local input that is not for the current frame.
    NotCurrentFrame = 12,
    // A request while a mismatch stands.
    MismatchStands = 13,
    // A request below the oldest frame that is kept.
    BelowOldest = 14,
    // A confirm, after its caps, above some seat's mismatch.
    AboveMismatch = 15,
    // One byte stands where a length should be.
    HalfLength = 16,
    // There are fewer bytes than the length says.
    FewerBytes = 17,
    // The lengths do not sum to the pending bytes.
    LengthsDiffer = 18,
    // There is no room for the lengths.
    NoRoomForLengths = 19,
    // There is no room for the bytes.
    NoRoomForBytes = 20,
    // The frame is not settled.
    NotSettled = 21,
}

impl Refusal {
    // The number, as lists for C and cue sheets show it.
    pub fn number(self) -> u32
        ensures { result ≡ number_of self }
    {
        self as u32
    }
}

impl From<Refusal> for u32 {
    ghost from_gives = { λ refusal n. n ≡ number_of refusal };

    fn from(refusal: Refusal) -> u32 {
        refusal.number()
    }
}

impl fmt::Display for Refusal {
    ghost output = { λ refusal. Some (sentence_of refusal) };

    fn fmt<W: fmt::Write>(&self, f: &mut fmt::Formatter<W>) -> fmt::Result {
        f.write_str(match self {
            Refusal::OutOfRange =>
                "a setup with seats, limit, delay or predictor out of range, or a delay change above 60",
            Refusal::NoSuchSeat => "there is no such seat",
            Refusal::NotNextFrame => "the input is not for the frame after the last one",
            Refusal::QueueFull => "the word and its fills would make more than 128 undiscarded",
            Refusal::TooFarAhead => "the current frame is more than the limit past K",
            Refusal::FrameTooHigh =>
                "the frame is above 1,000,000,000, or an advance would go above it",
            Refusal::FrameBelowZero => "the frame is below 0",
            Refusal::LoadNotPast => "a load of the current frame or a later one",
            Refusal::LoadTooOld => "a load of a frame more than the limit before the current one",
            Refusal::SlotHoldsAnother => "the frame's slot does not hold it",
            Refusal::NotConfirmed => "there is no confirmed word for the frame",
            Refusal::NotCurrentFrame => "a local input that is not for the current frame",
            Refusal::MismatchStands => "a request while a mismatch stands",
            Refusal::BelowOldest => "a request below the oldest frame that is kept",
            Refusal::AboveMismatch => "a confirm, after its caps, above some seat's mismatch",
            Refusal::HalfLength => "one byte stands where a length should be",
            Refusal::FewerBytes => "there are fewer bytes than the length says",
            Refusal::LengthsDiffer => "the lengths do not sum to the pending bytes",
            Refusal::NoRoomForLengths => "there is no room for the lengths",
            Refusal::NoRoomForBytes => "there is no room for the bytes",
            Refusal::NotSettled => "the frame is not settled",
        })
    }
}

impl Error for Refusal {}

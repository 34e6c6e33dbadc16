// A night on the desk by value, for the bench. A struct has no layout that C knows, so the desk
// cannot go out and come back: the whole night runs here, and numbers alone cross the edge.
//
// This drives the bench and is no call of the desk. So it promises only that no call is made that
// the desk does not allow, and the bench compares how the night ends with the lent desk and ggrs.
#![tactic(auto)]

ghost use Rattle.std.specs.Prelude.{◌≡◌, length};
ghost use Rattle.desk_value.specs.Value as held;
ghost use Rattle.desk_value_face.specs.Said.{said_words};

use desk_value::Desk;
use frame_info::refusal::Refusal;
use frame_info::{BLANK, LAST_COUNT};

// The night's limit and seats, and how many frames late seat 1 is.
const LIMIT: u32 = 8;

const SEATS: usize = 2;

const LATE: i32 = 4;

// How many numbers a night says.
const SAID_WORDS: usize = 7;

// A night as it goes, on a desk that each call leaves whole.
#[derive(Drop)]
struct Night {
    desk: Desk,
    // How often and how far it went back.
    corrections: u32,
    replayed: u32,
    // Every word served, drawn together.
    served: u32,
    // How many calls were refused.
    refused: u32,
    ghost whole: { held.Whole desk },
}

impl Night {
    // A fresh desk, and what is told so far.
    fn open(said: &[u32; SAID_WORDS]) -> Night {
        let [_, _, _, corrections, replayed, served, refused] = *said;
        let opened = Desk::setup(LIMIT, 0, &[0; SEATS]);
        Night {
            desk: opened.desk,
            corrections,
            replayed,
            served,
            refused: refused.wrapping_add(u32::from(opened.refused.is_some())),
        }
    }

    fn take(&mut self, seat: u32, frame: i32, word: u32) {
        match self.desk.take(seat, frame, word) {
            Ok(taken) => self.desk = taken.desk,
            Err(_) => self.refused = self.refused.wrapping_add(1),
        }
    }

    fn draw(&mut self, word: u32) {
        self.served = self.served.rotate_left(1) ^ word;
    }

    fn advance(&mut self) {
        match self.desk.advance() {
            Ok(advanced) => {
                self.desk = advanced.desk;
                let again = advanced.report.count;
                self.corrections = self.corrections.wrapping_add(u32::from(again > 0));
                self.replayed = self.replayed.wrapping_add(again);
                for word in &advanced.served[..SEATS] {
                    self.draw(*word);
                }
            }
            Err(_) => {
                self.refused = self.refused.wrapping_add(1);
                // a refused advance serves blanks
                for _ in 0..SEATS {
                    self.draw(BLANK);
                }
            }
        }
    }

    // One frame: seat 0's word for it, and seat 1's for the one that it is late by.
    fn turn(&mut self, frame: i32, words: &[u32; SEATS]) {
        self.take(0, frame, words[0]);
        if frame >= LATE {
            self.take(1, frame - LATE, words[1]);
        }
        self.advance();
    }

    // The console's three numbers, how often and how far the night went back, every word served
    // drawn together, and how many calls were refused.
    fn told(&self) -> [u32; SAID_WORDS]
        ensures { length result ≡ said_words }
    {
        let console = self.desk.console();
        [
            console.head,
            console.kind,
            console.seal,
            self.corrections,
            self.replayed,
            self.served,
            self.refused,
        ]
    }
}

// Two words a frame. Answers 6 where there are more frames than a reel has, 20 where a list is too
// short, and else how many calls were refused, which is 0 where all went well.
// Kept: it answers a number and fills a list of numbers, since C calls `value_night`.
pub fn value_night(words: &[u32], frames: u32, said: &mut [u32]) -> u32
    ensures { length said.new ≡ length said.old }
{
    if frames >= LAST_COUNT {
        return Refusal::FrameTooHigh.number();
    }
    if words.len() / SEATS < frames as usize {
        return Refusal::NoRoomForBytes.number();
    }
    let Some(said) = said.first_chunk_mut() else {
        return Refusal::NoRoomForBytes.number();
    };
    let mut night = Night::open(said);
    for (frame, pair) in (0..frames as i32).zip(words.as_chunks().0) {
        night.turn(frame, pair);
    }
    *said = night.told();
    night.refused
}

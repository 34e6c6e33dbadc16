// The desk as one value, its lists inside: the form by value of `desk`. Each method lends its own
// lists to that crate's call of the same name, and puts the desk together again.
//
// Kept: `Whole` stands in the contracts and is no ghost field: the fields are public, and the definitions of specs/Value.antt
// and a caller may make a desk of any numbers.
#![tactic(auto)]

ghost use Rattle.std.specs.Prelude.{◌≡◌};
ghost use Rattle.desk.specs.Calls as calls;
ghost use Rattle.desk.specs.Said.{logged_said};
ghost use Rattle.desk_value.specs.Said.{opened_said, taken_said, advanced_said, shown_said};
ghost use Rattle.desk_value.specs.Value as held;

use console::Console;
use desk::{DeskState, Report};
use frame_info::BLANK;
use frame_info::input_status::InputStatus;
use frame_info::refusal::Refusal;
use sync_layer::{MAX_SEATS, SEATS_LENGTH, SLOTS_LENGTH, WORDS_LENGTH};

#[derive(Clone, Copy, Debug, PartialEq, Eq)]
pub struct Desk {
    pub state: DeskState,
    pub seats: [u32; SEATS_LENGTH],
    pub words: [u32; WORDS_LENGTH],
    pub slots: [u32; SLOTS_LENGTH],
}

// A setup's answer.
// Kept: no `Result`, since `held.opened` promises a fresh desk beside a refusal too.
#[derive(Clone, Copy, Debug, PartialEq, Eq)]
pub struct OpenedDesk {
    pub refused: Option<Refusal>,
    pub desk: Desk,
}

// What the other calls answer where they are not refused.
#[derive(Clone, Copy, Debug, PartialEq, Eq)]
pub struct TakenDesk {
    pub place: i32,
    pub desk: Desk,
}

#[derive(Clone, Copy, Debug, PartialEq, Eq)]
pub struct SettledDesk {
    pub report: Report,
    pub desk: Desk,
}

// The words served and their statuses, seat by seat; 0 past the desk's seats.
// Kept: `held.advanced` says this record field by field.
#[derive(Clone, Copy, Debug, PartialEq, Eq)]
pub struct AdvancedDesk {
    pub report: Report,
    pub served: [u32; MAX_SEATS],
    pub statuses: [InputStatus; MAX_SEATS],
    pub desk: Desk,
}

// The words shown, seat by seat; 0 past the desk's seats.
#[derive(Clone, Copy, Debug, PartialEq, Eq)]
pub struct ShownDesk {
    pub words: [u32; MAX_SEATS],
    pub console: Console,
}

impl Desk {
    // A fresh desk, one delay for each seat: 1 where anything is out of range, and then a desk of
    // one seat with limit, delay and predictor 0.
    #[tactic(auto, unfolding(crate::specs::Value::opened, desk::specs::Desk::setup_of))]
    pub fn setup(limit: u32, predictor: u32, delays: &[u32]) -> OpenedDesk
        ensures { opened_said result ≡ held.opened limit predictor delays.now }
    {
        let mut seats = [0; SEATS_LENGTH];
        let mut slots = [0; SLOTS_LENGTH];
        let opened = desk::setup(&mut seats, &mut slots, limit, predictor, delays);
        OpenedDesk {
            refused: opened.refused,
            desk: Desk {
                state: opened.desk,
                seats,
                words: [BLANK; WORDS_LENGTH],
                slots,
            },
        }
    }

    // Stores a seat's word for a frame: 2, 7, 6, 3, 4. Answers the place.
    #[tactic(auto, using(crate::proofs::Held::take_refused))]
    pub fn take(self, seat: u32, frame: i32, word: u32) -> Result<TakenDesk, Refusal>
        requires { held.Whole self }
        ensures { taken_said self result ≡ held.taken self seat frame word }
    {
        let Desk {
            state,
            mut seats,
            mut words,
            slots,
        } = self;
        let place = desk::take(&mut seats, &mut words, state, seat, frame, word)?;
        Ok(TakenDesk {
            place,
            desk: Desk {
                state,
                seats,
                words,
                slots,
            },
        })
    }

    // Corrects what was guessed wrong, and lets go of what can no longer change.
    #[tactic(auto, unfolding(crate::specs::Value::settled))]
    pub fn settle(self) -> SettledDesk
        requires { held.Whole self }
        ensures { result ≡ held.settled self }
    {
        let Desk {
            state,
            mut seats,
            words,
            mut slots,
        } = self;
        let settled = desk::settle(&mut seats, &words, &mut slots, state);
        SettledDesk {
            report: settled.report,
            desk: Desk {
                state: settled.desk,
                seats,
                words,
                slots,
            },
        }
    }

    // Serves one frame: 6, 5, changing nothing; else settles, saves, requests all seats, steps, and
    // goes one frame on.
    #[tactic(auto, using(frame_info::proofs::Refusals::number_some), unfolding(crate::specs::Value::advanced, desk::specs::Calls::advance_report, desk::specs::Calls::advance_served, desk::specs::Calls::advance_statuses, desk::specs::Desk::advance))]
    pub fn advance(self) -> Result<AdvancedDesk, Refusal>
        requires { held.Whole self }
        ensures { advanced_said self result ≡ held.advanced self }
    {
        let Desk {
            state,
            mut seats,
            words,
            mut slots,
        } = self;
        let mut served = [BLANK; MAX_SEATS];
        let mut statuses = [0; MAX_SEATS];
        let advanced = desk::advance(
            &mut seats,
            &words,
            &mut slots,
            state,
            &mut served,
            &mut statuses,
        )?;
        Ok(AdvancedDesk {
            report: advanced.report,
            served,
            statuses,
            desk: Desk {
                state: advanced.desk,
                seats,
                words,
                slots,
            },
        })
    }

    // A settled frame's words and the console after it: 7, 21.
    #[tactic(auto, using(crate::proofs::Held::shows), unfolding(crate::specs::Value::shown, desk::specs::Calls::show_says, desk::specs::Calls::show_words))]
    pub fn show(self, frame: i32) -> Result<ShownDesk, Refusal>
        requires { held.Whole self }
        ensures { shown_said result ≡ held.shown self frame }
    {
        let mut words = [BLANK; MAX_SEATS];
        let console = desk::show(&self.slots, &self.seats, self.state, frame, &mut words)?;
        Ok(ShownDesk { words, console })
    }

    // A settled frame's log line: 7, 21, 20. Answers how many bytes it takes; those past it stay.
    #[tactic(auto, using(crate::proofs::Held::logs))]
    pub fn log(self, frame: i32, out: &mut [u8]) -> Result<u32, Refusal>
        requires { held.Whole self }
        ensures { (logged_said result ≡ calls.log_says (held.lent self) frame out.old)
            × (out.new ≡ calls.log_bytes (held.lent self) frame out.old) }
    {
        desk::log(&self.slots, &self.seats, self.state, frame, out)
    }

    pub fn current_frame(self) -> i32
        requires { held.Whole self }
        ensures { result ≡ calls.current_frame_of self.state }
    {
        desk::current_frame(self.state)
    }

    // K, -1 where a seat has no word.
    pub fn known(self) -> i32
        requires { held.Whole self }
        ensures { result ≡ calls.known_frame (held.lent self) }
    {
        desk::known(&self.seats, self.state)
    }

    pub fn console(self) -> Console
        ensures { result ≡ self.state.console }
    {
        self.state.console
    }

    pub fn seats(self) -> u32
        ensures { result ≡ self.state.seats }
    {
        self.state.seats
    }

    pub fn limit(self) -> u32
        ensures { result ≡ self.state.limit }
    {
        self.state.limit
    }
}

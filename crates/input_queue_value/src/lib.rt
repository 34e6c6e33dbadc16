// One seat's queue as one value, its ring inside: the form by value of `input_queue`. Each method
// lends its own ring to that crate's call of the same name, and puts the queue together again.
//
// Kept: `Whole` stands in the contracts and is no ghost field: the fields are public, and the definitions of specs/Value.antt
// and a caller may make a queue of any numbers.
#![tactic(auto)]

ghost use Rattle.std.specs.Prelude.{◌≡◌};
ghost use Rattle.input_queue.specs.Calls as calls;
ghost use Rattle.input_queue.specs.Said.{found_said};
ghost use Rattle.input_queue_value.specs.Said.{opened_said, added_said, served_said, discarded_said, announced_said};
ghost use Rattle.input_queue_value.specs.Value as held;

use frame_info::refusal::Refusal;
use frame_info::{BLANK, Fills, PlayerInput};
use input_queue::{INPUT_QUEUE_LENGTH, QueueState};

#[derive(Clone, Copy, Debug, PartialEq, Eq)]
pub struct InputQueue {
    pub predictor: u32,
    pub state: QueueState,
    pub inputs: [u32; INPUT_QUEUE_LENGTH],
}

// A setup's answer.
// Kept: no `Result`, since `held.opened` promises a fresh queue beside a refusal too, with predictor
// and delay 0.
#[derive(Clone, Copy, Debug, PartialEq, Eq)]
pub struct OpenedQueue {
    pub refused: Option<Refusal>,
    pub queue: InputQueue,
}

// What the other calls answer where they are not refused.
#[derive(Clone, Copy, Debug, PartialEq, Eq)]
pub struct AddedQueue {
    pub place: i32,
    pub queue: InputQueue,
}

#[derive(Clone, Copy, Debug, PartialEq, Eq)]
pub struct ServedQueue {
    pub word: u32,
    pub confirmed: bool,
    pub queue: InputQueue,
}

#[derive(Clone, Copy, Debug, PartialEq, Eq)]
pub struct AnnouncedQueue {
    pub fills: Fills,
    pub queue: InputQueue,
}

impl InputQueue {
    #[tactic(auto, unfolding(crate::specs::Value::opened))]
    pub fn new(predictor: u32, delay: u32) -> OpenedQueue
        ensures { opened_said result ≡ held.opened predictor delay }
    {
        let opened = input_queue::new(predictor, delay);
        OpenedQueue {
            refused: opened.refused,
            queue: InputQueue {
                predictor: opened.predictor,
                state: opened.state,
                inputs: [BLANK; INPUT_QUEUE_LENGTH],
            },
        }
    }

    #[tactic(auto, using(frame_info::proofs::Refusals::number_some), unfolding(crate::specs::Value::add_input, input_queue::specs::Calls::add_input, input_queue::specs::Calls::input_words))]
    pub fn add_input(mut self, input: PlayerInput) -> Result<AddedQueue, Refusal>
        requires { held.Whole self }
        ensures { added_said self result ≡ held.add_input self input }
    {
        let s = self.state;
        let added = input_queue::add_input(&mut self.inputs[..], 0, s, input)?;
        Ok(AddedQueue {
            place: added.place,
            queue: InputQueue {
                state: added.state,
                ..self
            },
        })
    }

    #[tactic(auto, unfolding(crate::specs::Value::served))]
    pub fn input(self, frame: i32) -> Result<ServedQueue, Refusal>
        requires { held.Whole self }
        ensures { served_said self result ≡ held.served self frame }
    {
        let asked = input_queue::input(&self.inputs[..], 0, self.state, self.predictor, frame)?;
        Ok(ServedQueue {
            word: asked.word,
            confirmed: asked.confirmed,
            queue: InputQueue {
                state: asked.state,
                ..self
            },
        })
    }

    pub fn confirmed_input(self, frame: i32) -> Result<PlayerInput, Refusal>
        requires { held.Whole self }
        ensures { found_said result ≡ calls.found self.inputs 0 self.state frame }
    {
        input_queue::confirmed_input(&self.inputs[..], 0, self.state, frame)
    }

    #[tactic(auto, unfolding(crate::specs::Value::discarded))]
    pub fn discard_confirmed_frames(self, frame: i32) -> Result<InputQueue, Refusal>
        ensures { discarded_said self result ≡ held.discarded self frame }
    {
        let state = input_queue::discard_confirmed_frames(self.state, frame)?;
        Ok(InputQueue { state, ..self })
    }

    pub fn reset_prediction(self) -> InputQueue
        ensures { result ≡ held.reset self }
    {
        InputQueue {
            state: input_queue::reset_prediction(self.state),
            ..self
        }
    }

    #[tactic(auto, unfolding(crate::specs::Value::delayed_to))]
    pub fn set_frame_delay(self, delay: u32) -> Result<AnnouncedQueue, Refusal>
        requires { held.Whole self }
        ensures { announced_said self result ≡ held.delayed_to self delay }
    {
        let announced = input_queue::set_frame_delay(&self.inputs[..], 0, self.state, delay)?;
        Ok(AnnouncedQueue {
            fills: announced.fills,
            queue: InputQueue {
                state: announced.state,
                ..self
            },
        })
    }

    pub fn first_incorrect_frame(self) -> i32
        ensures { result ≡ calls.first_incorrect self.state }
    {
        input_queue::first_incorrect_frame(self.state)
    }
}

// The sync layer as one value, its lists inside. Each method lends its own lists to the call of the
// same name in `sync_layer`, and puts the layer together again.
//
// Kept: `Whole` stands in the contracts and is no ghost field: the fields are public, and the definitions of specs/Value.antt
// and a caller may make a layer of any numbers.
#![tactic(auto)]

ghost use Rattle.std.specs.Prelude.{◌≡◌};
ghost use Rattle.sync_layer.specs.Calls as calls;
ghost use Rattle.sync_layer.specs.Said.{saved_said, latest_said};
ghost use Rattle.sync_layer_value.specs.Said.{opened_said, advanced_said, loaded_said, placed_said, announced_said, served_said, inputs_said, confirmed_said};
ghost use Rattle.sync_layer_value.specs.Value as held;

use console::Console;
use frame_info::input_status::InputStatus;
use frame_info::refusal::Refusal;
use frame_info::{BLANK, Fills, PlayerInput};
use sync_layer::{LayerState, MAX_SEATS, SEATS_LENGTH, SLOTS_LENGTH, WORDS_LENGTH};

#[derive(Clone, Copy, Debug, PartialEq, Eq)]
pub struct SyncLayer {
    pub state: LayerState,
    pub seats: [u32; SEATS_LENGTH],
    pub words: [u32; WORDS_LENGTH],
    pub slots: [u32; SLOTS_LENGTH],
}

// A setup's answer.
// Kept: no `Result`, since `held.opened` promises a fresh layer beside a refusal too.
#[derive(Clone, Copy, Debug, PartialEq, Eq)]
pub struct OpenedLayer {
    pub refused: Option<Refusal>,
    pub layer: SyncLayer,
}

// What the other calls answer where they are not refused.
#[derive(Clone, Copy, Debug, PartialEq, Eq)]
pub struct LoadedLayer {
    pub state: Console,
    pub layer: SyncLayer,
}

#[derive(Clone, Copy, Debug, PartialEq, Eq)]
pub struct PlacedLayer {
    pub place: i32,
    pub layer: SyncLayer,
}

#[derive(Clone, Copy, Debug, PartialEq, Eq)]
pub struct AnnouncedLayer {
    pub fills: Fills,
    pub layer: SyncLayer,
}

// The words and their statuses, seat by seat; 0 past the layer's seats.
// Kept: `held.served` says this record field by field.
#[derive(Clone, Copy, Debug, PartialEq, Eq)]
pub struct ServedLayer {
    pub inputs: [u32; MAX_SEATS],
    pub statuses: [InputStatus; MAX_SEATS],
    pub layer: SyncLayer,
}

// The frames and words that stand for a frame, seat by seat.
// Kept: `held.confirmed_inputs` says this record field by field.
#[derive(Clone, Copy, Debug, PartialEq, Eq)]
pub struct ConfirmedInputs {
    pub frames: [i32; MAX_SEATS],
    pub inputs: [u32; MAX_SEATS],
}

impl SyncLayer {
    #[tactic(auto, unfolding(crate::specs::Value::opened))]
    pub fn new(limit: u32, predictor: u32, delays: &[u32]) -> OpenedLayer
        ensures { opened_said result ≡ held.opened limit predictor delays.now }
    {
        let mut seats = [0u32; SEATS_LENGTH];
        let mut slots = [0u32; SLOTS_LENGTH];
        let opened = sync_layer::new(&mut seats, &mut slots, limit, predictor, delays);
        OpenedLayer {
            refused: opened.refused,
            layer: SyncLayer {
                state: opened.layer,
                seats,
                words: [BLANK; WORDS_LENGTH],
                slots,
            },
        }
    }

    pub fn current_frame(self) -> i32
        requires { held.Whole self }
        ensures { result ≡ calls.current_frame_of self.state }
    {
        sync_layer::current_frame(self.state)
    }

    pub fn last_saved_frame(self) -> i32
        ensures { result ≡ calls.last_saved self.state }
    {
        sync_layer::last_saved_frame(self.state)
    }

    pub fn last_confirmed_frame(self) -> i32
        ensures { result ≡ calls.last_confirmed self.state }
    {
        sync_layer::last_confirmed_frame(self.state)
    }

    #[tactic(auto, unfolding(crate::specs::Value::advanced))]
    pub fn advance_frame(self) -> Result<SyncLayer, Refusal>
        requires { held.Whole self }
        ensures { advanced_said self result ≡ held.advanced self }
    {
        let state = sync_layer::advance_frame(self.state)?;
        Ok(SyncLayer { state, ..self })
    }

    #[tactic(auto, unfolding(crate::specs::Value::saved))]
    pub fn save_current_state(mut self, state: Console) -> SyncLayer
        requires { held.Whole self }
        ensures { result ≡ held.saved self state }
    {
        let s = self.state;
        let state = sync_layer::save_current_state(&mut self.slots, s, state);
        SyncLayer { state, ..self }
    }

    #[tactic(auto, unfolding(crate::specs::Value::loaded))]
    pub fn load_frame(self, frame: i32) -> Result<LoadedLayer, Refusal>
        requires { held.Whole self }
        ensures { loaded_said self result ≡ held.loaded self frame }
    {
        let loaded = sync_layer::load_frame(&self.slots, self.state, frame)?;
        Ok(LoadedLayer {
            state: loaded.state,
            layer: SyncLayer {
                state: loaded.layer,
                ..self
            },
        })
    }

    pub fn saved_state_by_frame(self, frame: i32) -> Result<Console, Refusal>
        requires { held.Whole self }
        ensures { saved_said result ≡ calls.saved_by self.state self.slots frame }
    {
        sync_layer::saved_state_by_frame(&self.slots, self.state, frame)
    }

    pub fn latest_saved_state_in_range(self, start: i32, end: i32) -> Result<i32, Refusal>
        requires { held.Whole self }
        ensures { latest_said result ≡ calls.latest self.state self.slots start end }
    {
        sync_layer::latest_saved_state_in_range(&self.slots, self.state, start, end)
    }

    #[tactic(auto, unfolding(crate::specs::Value::local, sync_layer::specs::Calls::Inputs::local, sync_layer::specs::Calls::Inputs::local_seats, sync_layer::specs::Calls::Inputs::local_words))]
    pub fn add_local_input(mut self, seat: u32, input: PlayerInput) -> Result<PlacedLayer, Refusal>
        requires { held.Whole self }
        ensures { placed_said self result ≡ held.local self seat input }
    {
        let s = self.state;
        let place = sync_layer::add_local_input(&mut self.seats, &mut self.words, s, seat, input)?;
        Ok(PlacedLayer { place, layer: self })
    }

    #[tactic(auto, unfolding(crate::specs::Value::remote, sync_layer::specs::Calls::Inputs::remote, sync_layer::specs::Calls::Inputs::remote_seats, sync_layer::specs::Calls::Inputs::remote_words))]
    pub fn add_remote_input(mut self, seat: u32, input: PlayerInput) -> Result<PlacedLayer, Refusal>
        requires { held.Whole self }
        ensures { placed_said self result ≡ held.remote self seat input }
    {
        let s = self.state;
        let place = sync_layer::add_remote_input(&mut self.seats, &mut self.words, s, seat, input)?;
        Ok(PlacedLayer { place, layer: self })
    }

    #[tactic(auto, using(crate::proofs::Delays::delay_refused), unfolding(crate::specs::Value::delayed_to))]
    pub fn set_frame_delay(mut self, seat: u32, delay: u32) -> Result<AnnouncedLayer, Refusal>
        requires { held.Whole self }
        ensures { announced_said self result ≡ held.delayed_to self seat delay }
    {
        let s = self.state;
        let fills = sync_layer::set_frame_delay(&mut self.seats, &self.words, s, seat, delay)?;
        Ok(AnnouncedLayer { fills, layer: self })
    }

    pub fn reset_prediction(mut self) -> SyncLayer
        requires { held.Whole self }
        ensures { result ≡ held.reset self }
    {
        let s = self.state;
        sync_layer::reset_prediction(&mut self.seats, s);
        self
    }

    #[tactic(auto, unfolding(crate::specs::Value::served, sync_layer::specs::Calls::Requests::served_seats, sync_layer::specs::Calls::Requests::served_words, sync_layer::specs::Calls::Requests::statuses))]
    pub fn synchronized_inputs(
        mut self,
        disconnected: &[bool],
        last_frame: &[i32],
    ) -> Result<ServedLayer, Refusal>
        requires { held.Whole self }
        ensures { served_said self result ≡ held.served self disconnected.now last_frame.now }
    {
        let s = self.state;
        let mut inputs = [BLANK; MAX_SEATS];
        let mut statuses = [0u32; MAX_SEATS];
        sync_layer::synchronized_inputs(
            &mut self.seats,
            &self.words,
            s,
            disconnected,
            last_frame,
            &mut inputs,
            &mut statuses,
        )?;
        Ok(ServedLayer {
            inputs,
            statuses,
            layer: self,
        })
    }

    #[tactic(auto, unfolding(crate::specs::Value::confirmed_inputs, sync_layer::specs::Calls::Requests::confirmed_frames, sync_layer::specs::Calls::Requests::confirmed_words))]
    pub fn confirmed_inputs(
        self,
        disconnected: &[bool],
        last_frame: &[i32],
        frame: i32,
    ) -> Result<ConfirmedInputs, Refusal>
        requires { held.Whole self }
        ensures { inputs_said result ≡ held.confirmed_inputs self disconnected.now last_frame.now frame }
    {
        let mut frames = [0i32; MAX_SEATS];
        let mut inputs = [BLANK; MAX_SEATS];
        sync_layer::confirmed_inputs(
            &self.seats,
            &self.words,
            self.state,
            disconnected,
            last_frame,
            frame,
            &mut frames,
            &mut inputs,
        )?;
        Ok(ConfirmedInputs { frames, inputs })
    }

    #[tactic(auto, unfolding(crate::specs::Value::confirmed, sync_layer::specs::Calls::Confirm::confirmed, sync_layer::specs::Calls::Confirm::confirmed_seats))]
    pub fn set_last_confirmed_frame(
        mut self,
        frame: i32,
        sparse: bool,
    ) -> Result<SyncLayer, Refusal>
        requires { held.Whole self }
        ensures { confirmed_said self result ≡ held.confirmed self frame sparse }
    {
        let s = self.state;
        let state = sync_layer::set_last_confirmed_frame(&mut self.seats, s, frame, sparse)?;
        Ok(SyncLayer { state, ..self })
    }

    pub fn check_simulation_consistency(self) -> i32
        requires { held.Whole self }
        ensures { result ≡ calls.lowest_mismatch self.state self.seats }
    {
        sync_layer::check_simulation_consistency(&self.seats, self.state)
    }
}

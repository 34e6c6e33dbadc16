// What every layer speaks of: frames, control words, inputs, the predictors and the refusals.
//
// A frame is an i32 at every public edge, and -1 stands for none. Inside, a frame is a count: 0 for
// none, else the frame + 1, so that all arithmetic below the edge is unsigned. `count_of` and
// `frame_of` are the only way across.
#![tactic(auto)]

pub mod input_status;
pub mod refusal;

ghost use Rattle.std.specs.Prelude.{◌≡◌, eqb};
ghost use Rattle.frame_info.specs.Frame.{count_of, frame_of};
ghost use Rattle.frame_info.specs.Word.{box_of, predicted, player_input, blank};

// No frame.
// Kept: -1 and the count 0 stand for none, and no Option, in the C interface's calls and lists, and
// in the definitions `count_of` and `frame_of`.
pub const NULL_FRAME: i32 = -1;

// The last frame of a reel, and its count.
pub const LAST_FRAME: i32 = 1_000_000_000;

pub const LAST_COUNT: u32 = LAST_FRAME as u32 + 1;

// The largest delay, and the number of predictors.
pub const MAX_DELAY: u32 = 60;

pub const PREDICTORS: u32 = 3;

// The word of a hand that does nothing.
pub const BLANK: u32 = 0;

// The highest count that has a frame.
const HIGHEST_COUNT: u32 = 2_147_483_648;

// The frame as a count: 0 for one below 0.
// Kept: this and `frame_of` are functions, since `From` between two numbers is std's to write.
pub fn count_of(frame: i32) -> u32
    ensures { result ≡ count_of frame }
{
    if frame < 0 { 0 } else { (frame as u32) + 1 }
}

// The count's frame: -1 for none, and for a count that is past every frame.
pub fn frame_of(count: u32) -> i32
    ensures { result ≡ frame_of count }
{
    match count {
        1..=HIGHEST_COUNT => (count - 1) as i32,
        _ => NULL_FRAME,
    }
}

// One hand's word for one frame.
#[derive(Clone, Copy, Debug, PartialEq, Eq)]
pub struct PlayerInput {
    pub frame: i32,
    pub input: u32,
}

impl PlayerInput {
    pub fn new(frame: i32, input: u32) -> PlayerInput
        ensures { result ≡ player_input frame input }
    {
        PlayerInput { frame, input }
    }

    pub fn blank_input(frame: i32) -> PlayerInput
        ensures { result ≡ player_input frame blank }
    {
        PlayerInput {
            frame,
            input: BLANK,
        }
    }

    // Whether the words are the same. The frames do not count.
    pub fn input_matches(self, other: PlayerInput) -> bool
        ensures { result ≡ eqb self.input other.input }
    {
        self.input == other.input
    }
}

// The fills that a delay change announces: the first one's frame, how many they are, and the word
// that each repeats; -1, 0 and blank where there are none.
#[derive(Clone, Copy, Debug, PartialEq, Eq)]
pub struct Fills {
    pub first: i32,
    pub count: u32,
    pub word: u32,
}

// The box: 1 for variable density.
pub fn box_of(word: u32) -> u32
    ensures { result ≡ box_of word }
{
    word / 256 % 2
}

// The guess that a predictor makes from the newest word. A number that is no predictor's is taken
// for 2, the jog cleared; setups refuse it.
// Kept: the predictor is a number and no enum, since `predict` promises a guess for any number.
#[tactic(auto, unfolding(crate::specs::Word::predicted))]
pub fn predict(predictor: u32, word: u32) -> u32
    ensures { result ≡ predicted predictor word }
{
    match predictor {
        0 => word,
        1 => BLANK,
        _ => word - word % 256,
    }
}

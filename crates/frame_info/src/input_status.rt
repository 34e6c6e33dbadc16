// How a word that is served stands: ggrs's `InputStatus`.
// Kept: a number, since the lists that C lends to `desk_advance` and `layer_request` hold it.
pub type InputStatus = u32;

// The word was stored.
pub const CONFIRMED: InputStatus = 0;
// The word was guessed.
pub const PREDICTED: InputStatus = 1;
// The seat is gone, and its word is blank.
pub const DISCONNECTED: InputStatus = 2;

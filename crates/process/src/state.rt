// What a process knows between rounds.
use sets::ProcessSet;

// Its preferred value, whom it has detected, and whether it follows the king.
// The value is a byte and no enum: a step is public, words come as bytes, and it may be asked about any.
#[derive(Clone, Copy, Debug, PartialEq, Eq)]
pub struct Core {
    pub preferred: u8,
    pub detected: ProcessSet,
    pub follows: bool,
}

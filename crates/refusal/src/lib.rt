// Why something is refused: the cases of every layer with their numbers and places. Layers, places and whole refusals print themselves.
// A number and a place are methods of each kind and no trait: nothing is written for refusals of any kind.
#![tactic(auto)]

mod place;
mod process;
mod rule;
mod script;

pub use place::{Layer, Place};
pub use process::ProcessRefusal;
pub use rule::RuleRefusal;
pub use script::{Cause, Refusal};

// The code of a process: so far the step of one round.
#![tactic(auto)]

mod kind;
mod round;
mod selection;
mod state;

pub use round::step;
pub use state::Core;

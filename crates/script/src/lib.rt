// Reading a script: its lines, what they give, and why it is refused.
#![tactic(auto)]

mod draft;
mod fault;
mod line;
mod located;

pub use draft::{Draft, MAX_BYTES};
pub use fault::Fault;
pub use line::{Counts, Entry, Line};
pub use located::Located;

// Fault rules: which processes may lie or fall silent together.
#![tactic(auto)]

mod adopt;
mod counts;
mod intersection;
mod pair_list;
mod structure;
mod threshold;

pub use intersection::Intersection;
pub use pair_list::{MAX_PAIRS, PairList};
pub use structure::AdversaryStructure;
pub use threshold::Threshold;

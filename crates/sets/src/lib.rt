// Sets of processes, and fault pairs made of two of them.
#![tactic(auto)]

mod fault_pair;
mod process_set;

pub use fault_pair::FaultPair;
pub use process_set::{MAX_PROCESSES, Mask, ProcessSet};

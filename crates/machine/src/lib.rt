// One process as a state machine of six calls, by definitions, and the promise over every list of calls.
#![tactic(auto)]

mod promise;
mod types;

pub use promise::promise_is_kept;
pub use types::{Answer, Call, Entry, ProcessState, Reply, Report, SLOTS, Stage};

// From the bytes of a script to what is printed.
#![tactic(auto)]

mod crew;
mod output;
mod verdict;

pub use crew::Crew;
pub use output::{judge, report_of};

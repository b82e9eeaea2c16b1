// The agreement protocol: its steps, what it achieves, and how many rounds it runs.
#![tactic(auto)]

mod table;
mod theorems;

pub use table::rounds;
pub use theorems::{
    courses_exist, faults_halve, good_phase_agrees, phase_ends_in_a_bit, shared_bit_is_kept,
    standing_processes_agree, unanimity_persists,
};

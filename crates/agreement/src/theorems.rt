// What the agreement protocol achieves, for every rule that keeps the laws, every number of processes,
// and every history that keeps a fault schedule which the rule holds. Each function carries one theorem.
ghost use Rattle.agreement.specs.Theorems.{Agreement, Validity, Persistence, GoodPhaseAgrees, FaultsHalve, PhaseEndsInABit, CoursesExist};

// Two standing processes that have shut all rounds hold the same value.
pub fn standing_processes_agree()
    ensures { Agreement }
{}

// A bit with which all processes started that are not Byzantine is kept.
pub fn shared_bit_is_kept()
    ensures { Validity }
{}

// A bit that all correct processes prefer stays through a phase.
pub fn unanimity_persists()
    ensures { Persistence }
{}

// After a phase with a correct king in which nobody fails, all correct processes prefer the same.
pub fn good_phase_agrees()
    ensures { GoodPhaseAgrees }
{}

// In as many phases as there are processes, none of them good, the correct processes at least halve.
pub fn faults_halve()
    ensures { FaultsHalve }
{}

// At the end of a phase the preferred value is a bit.
pub fn phase_ends_in_a_bit()
    ensures { PhaseEndsInABit }
{}

// The premises of these theorems can be met, whatever the faults that the rule holds.
pub fn courses_exist()
    ensures { CoursesExist }
{}

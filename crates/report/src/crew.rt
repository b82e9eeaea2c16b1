// The crew of an accepted rule.
ghost use Rattle.std.specs.Prelude.{◌≡◌, Some};
ghost use Rattle.agreement.specs.Rounds.{rounds_of};
ghost use Rattle.report.specs.Reports.{crew_words};

use adversary::AdversaryStructure;
use agreement::rounds;
use std::fmt;

// The number of processes of an accepted rule, and how many rounds they run.
#[derive(Clone, Copy, Debug, PartialEq, Eq)]
pub struct Crew {
    pub processes: u8,
    pub rounds: u16,
    pub ghost of_processes: { rounds ≡ rounds_of processes },
}

impl Crew {
    // What any rule makes of the crew.
    pub(crate) fn of<R: AdversaryStructure>(rule: &R) -> Crew
        ensures { result.processes ≡ R.AdversaryStructure.size rule.now }
    {
        let processes = rule.processes();
        Crew {
            processes,
            rounds: rounds(processes),
        }
    }
}

// `seats N rounds T`
impl fmt::Display for Crew {
    ghost output = { λ x. Some (crew_words x.processes) };

    fn fmt<W: fmt::Write>(&self, f: &mut fmt::Formatter<W>) -> fmt::Result {
        let processes = self.processes;
        let rounds = self.rounds;
        write!(f, "seats {processes} rounds {rounds}")
    }
}

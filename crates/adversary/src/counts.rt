// How a threshold is made and asked.
ghost use Rattle.std.specs.Prelude.{◌≡◌, IfOk};
ghost use Rattle.std.specs.Result.{result_err};
ghost use Rattle.sets.specs.Sets.{full, set_of};
ghost use Rattle.adversary.specs.Counts.{Counts};
ghost use Rattle.adversary.specs.Refusals.{threshold_refusal};
ghost use Rattle.adversary.specs.Rules.{within};
ghost use Rattle.adversary.specs.ListLaws;
ghost use Rattle.adversary.specs.ThresholdLaws.{accepted, threshold_lawful};

use crate::adopt::process_count;
use crate::structure::AdversaryStructure;
use crate::threshold::Threshold;
use refusal::RuleRefusal;
use sets::{FaultPair, ProcessSet};

impl Threshold {
    // At most `total` faulty processes, at most `byzantine` of them Byzantine; refused where that could cover the crew.
    pub fn new(processes: u16, total: u16, byzantine: u16) -> Result<Threshold, RuleRefusal>
        ensures answer { result_err result ≡ threshold_refusal processes total byzantine }
        ensures value { IfOk result (λ x. Counts x processes total byzantine) }
    {
        let count = process_count(processes)?;
        if byzantine > total {
            return Err(RuleRefusal::ByzantineAboveTotal);
        }
        if u32::from(total) + 2 * u32::from(byzantine) >= u32::from(count) {
            return Err(RuleRefusal::TotalTooHigh);
        }
        // Kept as casts, which are proved to lose nothing, since both counts are below the number of processes.
        Ok(Threshold {
            processes: count,
            total: total as u8,
            byzantine: byzantine as u8,
        })
    }
}

impl AdversaryStructure for Threshold {
    ghost size = { λ r. r.processes };

    ghost holding = { λ r. within r.processes r.total r.byzantine };

    ghost sized = { λ r. ListLaws.sized r.processes (accepted r.processes r.total r.byzantine r.lawful).size };

    ghost lawful = { λ r. threshold_lawful r.processes r.total r.byzantine (accepted r.processes r.total r.byzantine r.lawful).few };

    fn processes(&self) -> u8 {
        self.processes
    }

    fn holds(&self, pair: FaultPair) -> bool {
        let faulty = pair.byzantine.union(pair.failing);
        let inside = faulty.is_subset(ProcessSet::first(self.processes));
        let few_byzantine = pair.byzantine.len() <= u32::from(self.byzantine);
        let few = faulty.len() <= u32::from(self.total);
        inside && few_byzantine && few
    }
}

// Two rules at once: it holds what both hold.
ghost use Rattle.std.specs.Prelude.{◌≡◌};
ghost use Rattle.adversary.specs.Rules.{both};
ghost use Rattle.adversary.specs.ThresholdLaws.{both_lawful};
ghost use Rattle.std.proofs.Common.{rules};

use crate::structure::AdversaryStructure;
use sets::FaultPair;

// The processes are those of the first.
#[derive(Debug, PartialEq, Eq, Drop)]
pub struct Intersection<P, Q> {
    first: P,
    second: Q,
}

impl<P, Q> Intersection<P, Q> {
    // The rule over these two.
    pub fn new(first: P, second: Q) -> Intersection<P, Q>
        ensures former { result.first ≡ first }
        ensures latter { result.second ≡ second }
    {
        Intersection { first, second }
    }
}

impl<P: AdversaryStructure, Q: AdversaryStructure> AdversaryStructure for Intersection<P, Q> {
    ghost size = { λ r. P.AdversaryStructure.size r.first };

    ghost holding = { λ r. both (P.AdversaryStructure.holding r.first) (Q.AdversaryStructure.holding r.second) };

    ghost sized = { Prim.search rules };

    ghost lawful = { λ r. both_lawful _ _ _ _ (P.AdversaryStructure.lawful r.first) (Q.AdversaryStructure.lawful r.second) };

    fn processes(&self) -> u8 {
        self.first.processes()
    }

    fn holds(&self, pair: FaultPair) -> bool {
        self.first.holds(pair) && self.second.holds(pair)
    }
}

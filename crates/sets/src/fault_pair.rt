// A pair of sets: the processes that may say anything, and those that fall silent once.
ghost use Rattle.std.specs.Prelude.{◌≡◌};
ghost use Rattle.sets.specs.Pairs.{contained, covers, cover_of, byz, fail};

use crate::process_set::{MAX_PROCESSES, ProcessSet};

#[derive(Clone, Copy, Debug, Default, PartialEq, Eq, Hash)]
pub struct FaultPair {
    pub byzantine: ProcessSet,
    pub failing: ProcessSet,
}

impl FaultPair {
    // No faults at all: both sets are empty.
    pub const EMPTY: FaultPair = FaultPair {
        byzantine: ProcessSet::EMPTY,
        failing: ProcessSet::EMPTY,
    };

    // Whether this pair is contained in the other.
    pub fn is_within(self, other: FaultPair) -> bool
        ensures { result ≡ contained (byz self) (fail self) (byz other) (fail other) }
    {
        self.byzantine.is_subset(other.byzantine)
            && self.failing.is_subset(other.byzantine.union(other.failing))
    }

    // Whether three pairs cover the processes 1 to `count`.
    pub fn cover(count: u8, p: FaultPair, q: FaultPair, r: FaultPair) -> bool
        ensures { result ≡ covers count (byz p) (fail p) (byz q) (fail q) (byz r) (fail r) }
    {
        let covered = FaultPair::covered(p, q, r);
        count <= MAX_PROCESSES && ProcessSet::first(count).is_subset(covered)
    }

    // What three pairs cover: the Byzantine processes of any, and the failing ones of all three.
    fn covered(p: FaultPair, q: FaultPair, r: FaultPair) -> ProcessSet
        ensures { result.bits ≡ cover_of (byz p) (fail p) (byz q) (fail q) (byz r) (fail r) }
    {
        let byzantine = p.byzantine.union(q.byzantine).union(r.byzantine);
        let failing = p.failing.intersection(q.failing).intersection(r.failing);
        byzantine.union(failing)
    }
}

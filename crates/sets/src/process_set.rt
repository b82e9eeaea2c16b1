// A set of processes as a bit mask: process p, counted from 1, is worth 2^(p - 1).
ghost use Rattle.std.specs.Prelude.{◌≡◌, ◌-◌, ◌<◌, ◌≤◌, min, ◌&&◌, ◌==◌, bit_and, bit_or, count_ones};
ghost use Rattle.sets.specs.Meaning.{MasksAreSets};
ghost use Rattle.sets.specs.Sets.{limit, has, full, subset, numbered, single, set_of, with_process};

// The greatest number of processes in a crew: the one place in the code that fixes it.
pub const MAX_PROCESSES: u8 = 16;

// As many bits as there may be processes.
pub type Mask = u16;

#[derive(Clone, Copy, Debug, Default, PartialEq, Eq, Hash)]
pub struct ProcessSet {
    bits: Mask,
}

impl ProcessSet {
    // The set with no process.
    pub const EMPTY: ProcessSet = ProcessSet { bits: 0 };

    // The set of processes 1 to `count`, and of no more than there may be.
    pub fn first(count: u8) -> ProcessSet
        ensures { result ≡ set_of (full (min count limit)) }
    {
        ProcessSet {
            bits: low_bits(count.min(MAX_PROCESSES)),
        }
    }

    // The set of this one process; nothing where `number` is not that of a process.
    pub fn of(number: u8) -> Option<ProcessSet>
        ensures { result ≡ single number }
    {
        if number < 1 || number > MAX_PROCESSES {
            return None;
        }
        Some(ProcessSet {
            bits: 1 << (number - 1),
        })
    }

    // Whether no process is in the set.
    pub fn is_empty(self) -> bool
        ensures { result ≡ (self.bits == 0) }
    {
        self == ProcessSet::EMPTY
    }

    // Whether process `number` is in the set.
    #[tactic(auto, using(crate::proofs::Masks::single_subset))]
    pub fn contains(self, number: u8) -> bool
        ensures { result ≡ (numbered number && has self.bits (number - 1)) }
    {
        ProcessSet::of(number).is_some_and(|one| one.is_subset(self))
    }

    // The set with process `number` added; the same set where there is no such process.
    pub fn with(self, number: u8) -> ProcessSet
        ensures { result ≡ with_process self number }
    {
        ProcessSet::of(number).map_or(self, |one| self.union(one))
    }

    // The processes of either set.
    pub fn union(self, other: ProcessSet) -> ProcessSet
        ensures { result ≡ set_of (bit_or self.bits other.bits) }
    {
        ProcessSet {
            bits: self.bits | other.bits,
        }
    }

    // The processes of both sets.
    pub fn intersection(self, other: ProcessSet) -> ProcessSet
        ensures { result ≡ set_of (bit_and self.bits other.bits) }
    {
        ProcessSet {
            bits: self.bits & other.bits,
        }
    }

    // Whether every process of this set is in the other.
    pub fn is_subset(self, other: ProcessSet) -> bool
        ensures { result ≡ subset self.bits other.bits }
    {
        self.bits & other.bits == self.bits
    }

    // How many processes are in the set.
    pub fn len(self) -> u32
        ensures { result ≡ count_ones self.bits }
    {
        self.bits.count_ones()
    }
}

// The set with this mask.
impl From<Mask> for ProcessSet {
    ghost from_gives = { λ bits set. set ≡ set_of bits };

    fn from(bits: Mask) -> ProcessSet {
        ProcessSet { bits }
    }
}

// The set's mask.
impl From<ProcessSet> for Mask {
    ghost from_gives = { λ set bits. set_of bits ≡ set };

    fn from(set: ProcessSet) -> Mask {
        let ProcessSet { bits } = set;
        bits
    }
}

// The mask whose lowest `count` bits are one.
fn low_bits(count: u8) -> Mask
    requires { count ≤ limit }
    ensures { result ≡ full count }
{
    // Kept as a cast, which is proved to lose nothing: no From narrows a number, and a try_from could not fail here.
    ((1u32 << count) - 1) as Mask
}

// That masks are sets: what each operation on masks means, process by process, at any width.
pub fn masks_are_sets()
    ensures { MasksAreSets }
{}

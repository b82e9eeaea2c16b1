// A rule given by its greatest pairs: it holds exactly what is contained in a listed one.
ghost use Rattle.std.specs.Prelude.{◌≡◌, true};
ghost use Rattle.adversary.specs.Refusals.{adoptable};

use arrayvec::ArrayVec;
use sets::FaultPair;

// The most pairs that a list has.
pub const MAX_PAIRS: usize = 64;

// The pairs lie in the list itself, which uses no heap, and before the number, so that a list is moved by whole words.
// The fact says that they could be adopted.
#[derive(Debug, PartialEq, Eq, Drop)]
pub struct PairList {
    pub(crate) pairs: ArrayVec<FaultPair, MAX_PAIRS>,
    pub(crate) processes: u8,
    ghost lawful: { adoptable processes pairs.items ≡ true },
}

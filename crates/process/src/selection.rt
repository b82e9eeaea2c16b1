// The set of the processes that pass a test.
ghost use Rattle.std.specs.Prelude.{◌≡◌, ℕ, ◌<◌, ◌≤◌, Bool};
ghost use Rattle.sets.specs.Sets.{limit, mask};
ghost use Rattle.process.specs.Tests.{AgreesBelow};

use sets::ProcessSet;

// The set of those of the first `count` processes whose positions pass a test.
#[tactic(auto, using(sets::proofs::Masks::mask_step), unfolding(sets::specs::Sets::mask))]
pub(crate) fn passing<F: Fn(u8) -> bool>(count: u8, test: F) -> ProcessSet
    requires few { count ≤ limit }
    requires callable { (r : ℕ) → r < count → F.pre test r }
    ensures { (t : ℕ → Bool) → AgreesBelow (F.post test) count t → result.bits ≡ mask count t }
{
    let mut set = ProcessSet::EMPTY;
    for position in 0..count {
        if test(position) {
            set = set.with(position + 1);
        }
    }
    set
}

// What every fault rule is, whatever its kind.
ghost use Rattle.std.specs.Prelude.{◌≡◌, ℕ, Bool};
ghost use Rattle.adversary.specs.Laws.{Sized, Lawful};
ghost use Rattle.sets.specs.Pairs.{byz, fail};

use sets::FaultPair;

// A rule is for a number of processes and holds some fault pairs. Both may always be asked, about any pair.
// A new kind gives the two meanings and shows the laws; whatever is generic over rules rests on these alone.
pub trait AdversaryStructure {
    // for how many processes the rule is
    ghost size: { Self → ℕ };

    // whether it holds the pair of two masks
    ghost holding: { Self → ℕ → ℕ → Bool };

    fn processes(&self) -> u8
        ensures { result ≡ size self.now };

    fn holds(&self, pair: FaultPair) -> bool
        ensures { result ≡ holding self.now (byz pair) (fail pair) };

    ghost sized: { (r : Self) → Sized (size r) };

    ghost lawful: { (r : Self) → Lawful (size r) (holding r) };
}

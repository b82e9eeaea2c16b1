// The three kinds of rounds, one after the other in each phase.
ghost use Rattle.std.specs.Prelude.{◌≡◌};
ghost use Rattle.agreement.specs.Step.{kind_of, most_word as most};
ghost use Rattle.process.specs.Rounds.{round_kind};

// How many rounds a phase has: one of each kind.
pub(crate) const PHASE_ROUNDS: u16 = 3;

// The word of a process without a value: the greatest that counts in any round. A byte, as all words are.
pub(crate) const NO_VALUE: u8 = 2;

// In the first kind all values are unified, in the second they are exchanged, in the third the king speaks.
#[derive(Clone, Copy, Debug, PartialEq, Eq)]
pub(crate) enum Kind {
    Unify,
    Exchange,
    King,
}

impl Kind {
    // The kind of the round after `shut` rounds.
    pub(crate) fn of(shut: u16) -> Kind
        ensures { round_kind result ≡ kind_of shut }
    {
        match shut % PHASE_ROUNDS {
            0 => Kind::Unify,
            1 => Kind::Exchange,
            _ => Kind::King,
        }
    }

    // The greatest word that counts in such a round.
    pub(crate) fn most_word(self) -> u8
        ensures { result ≡ most (round_kind self) }
    {
        match self {
            Kind::Unify => 1,
            Kind::Exchange | Kind::King => NO_VALUE,
        }
    }
}

// Why a rule is refused.
ghost use Rattle.std.specs.Prelude.{◌≡◌};
ghost use Rattle.refusal.specs.Numbers.{rule_number, rule_place};

use crate::place::Place;

#[derive(Clone, Copy, Debug, PartialEq, Eq)]
pub enum RuleRefusal {
    // The number of processes is not 1 to 16.
    Processes,
    // No pair, or more than 64.
    PairCount,
    // The pair at this place has a process above the number of processes.
    AboveProcesses(u16),
    // The pair at this place has a process in both of its sets.
    InBothSets(u16),
    // The pairs at these places cover the crew.
    Cover(u16, u16, u16),
    // More Byzantine processes than faulty ones in all.
    ByzantineAboveTotal,
    // Faulty processes and twice the Byzantine ones are as many as the crew, or more.
    TotalTooHigh,
}

impl RuleRefusal {
    // The printed number.
    pub fn number(self) -> u8
        ensures { result ≡ rule_number self }
    {
        match self {
            RuleRefusal::Processes => 1,
            RuleRefusal::PairCount => 2,
            RuleRefusal::AboveProcesses(_) => 3,
            RuleRefusal::InBothSets(_) => 4,
            RuleRefusal::Cover(_, _, _) => 5,
            RuleRefusal::ByzantineAboveTotal => 6,
            RuleRefusal::TotalTooHigh => 7,
        }
    }

    // The listed pair, or the three listed pairs, to blame.
    pub fn place(self) -> Place
        ensures { result ≡ rule_place self }
    {
        match self {
            RuleRefusal::AboveProcesses(pair) | RuleRefusal::InBothSets(pair) => Place::At(pair),
            RuleRefusal::Cover(i, j, k) => Place::Three(i, j, k),
            _ => Place::Nowhere,
        }
    }
}

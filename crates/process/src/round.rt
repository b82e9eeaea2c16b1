// The step of one round.
ghost use Rattle.std.specs.Prelude.{◌≡◌, bit_or};
ghost use Rattle.agreement.specs.Step.{reading, most_word, unified as unifies, exchanged as exchanges, told as tells, step as steps, kind_of, king_of};
ghost use Rattle.process.specs.Rounds.{row_of, state_of, round_kind, caught_in, saying_in};
ghost use Rattle.process.specs.declared.kind.Kind.TheVariants.{Unify, Exchange, King};

use crate::kind::{Kind, NO_VALUE, PHASE_ROUNDS};
use crate::selection::passing;
use crate::state::Core;
use adversary::AdversaryStructure;
use sets::{FaultPair, ProcessSet};

// How the slot at a position is read in a round of this kind: a word that does not count is as good as none.
fn read_slot(slots: &[Option<u8>], kind: Kind, position: u8) -> Option<u8>
    ensures { result ≡ reading (most_word (round_kind kind)) (row_of slots.now position) }
{
    let word = slots.get(usize::from(position)).copied().flatten();
    word.filter(|word| *word <= kind.most_word())
}

// One round of one process: its rule, the words in its slots, how many rounds were shut before, and what it knew then.
// Nothing compares it: it is made for one call and holds references.
#[derive(Drop)]
struct Round<'a, S: AdversaryStructure> {
    rule: &'a S,
    slots: &'a [Option<u8>],
    shut: u16,
    kind: Kind,
    before: Core,
    ghost of_kind: { round_kind kind ≡ kind_of shut },
}

// A round in which everyone is heard, with the processes that said nothing that counts. Nothing compares it either.
// It costs a look at the slot of each process, so a third round, which takes the word of the king alone, has none.
#[derive(Drop)]
struct Hearing<'a, S: AdversaryStructure> {
    round: &'a Round<'a, S>,
    silent: ProcessSet,
    ghost known: { bit_or round.now.before.detected.bits silent.bits ≡ caught_in (S.AdversaryStructure.size round.now.rule.now) round.now.kind round.now.slots.now round.now.before },
}

impl<'a, S: AdversaryStructure> Hearing<'a, S> {
    // The hearing of a round.
    #[tactic(auto, unfolding(agreement::specs::Step::caught))]
    fn new(round: &'a Round<'a, S>) -> Self
        ensures { result.round.now ≡ round.now }
    {
        let silent = passing(round.rule.processes(), |position| {
            read_slot(round.slots, round.kind, position).is_none()
        });
        Hearing { round, silent }
    }

    // Those that are detected after it: those that were before, and the silent ones.
    fn caught(&self) -> ProcessSet
        ensures { result.bits ≡ caught_in (S.AdversaryStructure.size self.now.round.now.rule.now) self.now.round.now.kind self.now.round.now.slots.now self.now.round.now.before }
    {
        self.round.before.detected.union(self.silent)
    }

    // Those that said `word` and are not caught.
    #[tactic(auto, unfolding(agreement::specs::Step::saying))]
    fn saying(&self, word: u8) -> ProcessSet
        ensures { result.bits ≡ saying_in (S.AdversaryStructure.size self.now.round.now.rule.now) self.now.round.now.kind self.now.round.now.slots.now self.now.round.now.before word }
    {
        let caught = self.caught();
        passing(self.round.rule.processes(), |position| {
            read_slot(self.round.slots, self.round.kind, position) == Some(word)
                && !caught.contains(position + 1)
        })
    }

    // Whether those that said `word` may all lie.
    fn may_lie(&self, word: u8) -> bool
        ensures { result ≡ S.AdversaryStructure.holding self.now.round.now.rule.now (saying_in (S.AdversaryStructure.size self.now.round.now.rule.now) self.now.round.now.kind self.now.round.now.slots.now self.now.round.now.before word) (caught_in (S.AdversaryStructure.size self.now.round.now.rule.now) self.now.round.now.kind self.now.round.now.slots.now self.now.round.now.before) }
    {
        self.round.rule.holds(FaultPair {
            byzantine: self.saying(word),
            failing: self.caught(),
        })
    }

    // First round: 0 if those that said 1 may all be faulty, else 1 if those that said 0 may, else no value.
    fn unified(&self) -> Core
        requires { self.now.round.now.kind ≡ Unify }
        ensures { state_of result ≡ unifies (S.AdversaryStructure.size self.now.round.now.rule.now) (S.AdversaryStructure.holding self.now.round.now.rule.now) (row_of self.now.round.now.slots.now) (state_of self.now.round.now.before) }
    {
        let preferred = if self.may_lie(1) {
            0
        } else if self.may_lie(0) {
            1
        } else {
            NO_VALUE
        };
        let detected = self.caught();
        Core {
            preferred,
            detected,
            ..self.round.before
        }
    }

    // Second round: 0 if those that said 0 cannot all be faulty, else 1 likewise, else no value.
    fn exchanged(&self) -> Core
        requires { self.now.round.now.kind ≡ Exchange }
        ensures { state_of result ≡ exchanges (S.AdversaryStructure.size self.now.round.now.rule.now) (S.AdversaryStructure.holding self.now.round.now.rule.now) (row_of self.now.round.now.slots.now) (state_of self.now.round.now.before) }
    {
        let preferred = if !self.may_lie(0) {
            0
        } else if !self.may_lie(1) {
            1
        } else {
            NO_VALUE
        };
        Core {
            preferred,
            detected: self.caught(),
            follows: !self.may_lie(NO_VALUE),
        }
    }
}

impl<'a, S: AdversaryStructure> Round<'a, S> {
    // The round after `shut` rounds.
    fn new(rule: &'a S, shut: u16, slots: &'a [Option<u8>], before: Core) -> Self
        ensures of_rule { result.rule.now ≡ rule.now }
        ensures of_shut { result.shut ≡ shut }
        ensures of_slots { result.slots.now ≡ slots.now }
        ensures of_before { result.before ≡ before }
    {
        Round {
            rule,
            slots,
            shut,
            kind: Kind::of(shut),
            before,
        }
    }

    // Third round: a king that is followed gives the value, 1 at most.
    fn told(&self) -> Core
        requires { self.now.kind ≡ King }
        ensures { state_of result ≡ tells (S.AdversaryStructure.size self.now.rule.now) (S.AdversaryStructure.holding self.now.rule.now) self.now.shut (row_of self.now.slots.now) (state_of self.now.before) }
    {
        if !self.before.follows {
            return self.before;
        }
        let word = read_slot(self.slots, self.kind, self.king()).unwrap_or(0);
        Core {
            preferred: word.min(1),
            ..self.before
        }
    }

    // The position of the king.
    fn king(&self) -> u8
        ensures { result ≡ king_of (S.AdversaryStructure.size self.now.rule.now) self.now.shut }
    {
        // Kept as a cast, which is proved to lose nothing: what is left of a division by a byte is a byte.
        ((self.shut / PHASE_ROUNDS) % u16::from(self.rule.processes())) as u8
    }

    // What the process knows after it.
    #[tactic(auto, unfolding(agreement::specs::Step::step))]
    fn step(&self) -> Core
        ensures { state_of result ≡ steps (S.AdversaryStructure.size self.now.rule.now) (S.AdversaryStructure.holding self.now.rule.now) self.now.shut (row_of self.now.slots.now) (state_of self.now.before) }
    {
        match self.kind {
            // One place makes the hearing of either kind: in an arm of its own for each, the king's round got dearer.
            Kind::Unify | Kind::Exchange => {
                let heard = Hearing::new(self);
                if self.kind == Kind::Exchange {
                    heard.exchanged()
                } else {
                    heard.unified()
                }
            }
            Kind::King => self.told(),
        }
    }
}

// The step of the round after `shut` rounds, on the words in the slots.
pub fn step<S: AdversaryStructure>(rule: &S, shut: u16, slots: &[Option<u8>], before: Core) -> Core
    ensures { state_of result ≡ steps (S.AdversaryStructure.size rule.now) (S.AdversaryStructure.holding rule.now) shut (row_of slots.now) (state_of before) }
{
    Round::new(rule, shut, slots, before).step()
}

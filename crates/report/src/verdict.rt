// Whether the rule of a script is accepted.
ghost use Rattle.std.specs.Prelude.{◌≡◌, suc, take, None, Ok, Err, MatchResult};
ghost use Rattle.adversary.specs.Counts.{Counts as Counted};
ghost use Rattle.adversary.specs.Lists.{Has};
ghost use Rattle.adversary.specs.Refusals.{most_pairs, list_refusal, threshold_refusal};
ghost use Rattle.refusal.specs.declared.script.Cause.TheVariants.{Rule};
ghost use Rattle.refusal.specs.Numbers.{at_line};
ghost use Rattle.script.specs.Sheets.{sheet_of, pairs_of};
ghost use Rattle.report.specs.Verdicts.{rule_line, judged, settled};

use crate::crew::Crew;
use adversary::{Intersection, MAX_PAIRS, PairList, Threshold};
use arrayvec::ArrayVec;
use refusal::{Cause, Refusal, RuleRefusal};
use script::{Counts, Draft, Located};
use sets::FaultPair;

// The most pairs that the rule is asked about. One more than a list has is enough to see that there are too many.
const ASKED_PAIRS: usize = MAX_PAIRS + 1;

// A draft, and the number of processes that it gives. Nothing compares them: it is made for one call and holds a
// reference.
#[derive(Clone, Copy)]
struct Seated<'a> {
    draft: &'a Draft,
    seats: Located<u16>,
}

impl<'a> Seated<'a> {
    // The line that a rule's refusal gets.
    fn rule_line(self, refusal: RuleRefusal) -> Option<u16>
        ensures { result ≡ rule_line (sheet_of self.entry.draft.now) self.entry.seats.line refusal }
    {
        match refusal {
            RuleRefusal::Processes => Some(self.seats.line),
            RuleRefusal::AboveProcesses(place) | RuleRefusal::InBothSets(place) => {
                let index = usize::from(place.saturating_sub(1));
                self.draft.pairs.get(index).map(|pair| pair.line)
            }
            RuleRefusal::ByzantineAboveTotal | RuleRefusal::TotalTooHigh => {
                self.draft.count.map(|counts| counts.line)
            }
            RuleRefusal::PairCount | RuleRefusal::Cover(_, _, _) => None,
        }
    }

    // A rule's answer, with the line added to a refusal.
    // Taken apart first: of a closure that captures `self` itself, which holds a reference, the proof learns nothing.
    fn lined<T>(self, answer: Result<T, RuleRefusal>) -> Result<T, Refusal>
        ensures { MatchResult answer (λ x. result ≡ Ok x) (λ e. result ≡ Err (at_line (Rule e) (rule_line (sheet_of self.entry.draft.now) self.entry.seats.line e))) }
    {
        let Seated { draft, seats } = self;
        answer.map_err(|refusal| Refusal {
            cause: Cause::Rule(refusal),
            line: Seated { draft, seats }.rule_line(refusal),
        })
    }

    // The listed pairs without their lines, as many as the rule is asked about. They use no heap, so that no draft is too
    // long to be judged. A loop, since `collect` and `extend` answer errors that cannot come here.
    fn pairs(self) -> ArrayVec<FaultPair, ASKED_PAIRS>
        ensures { result.items ≡ take (suc most_pairs) (pairs_of (sheet_of self.entry.draft.now)) }
    {
        let mut pairs = ArrayVec::new();
        for pair in self.draft.pairs.iter().take(ASKED_PAIRS) {
            pairs.push(pair.value);
        }
        pairs
    }

    // The rule of the listed pairs.
    fn list(self) -> Result<PairList, Refusal>
        ensures { let s = sheet_of self.entry.draft.now in let q = self.entry.seats in MatchResult result (λ l. (list_refusal q.value (pairs_of s) ≡ None) × Has l q.value (pairs_of s)) (λ e. settled s q (list_refusal q.value (pairs_of s)) ≡ Err e) }
    {
        let pairs = self.pairs();
        let mut list = PairList::new();
        self.lined(list.adopt(self.seats.value, pairs.as_slice()))?;
        Ok(list)
    }

    // The rule of the counts.
    fn threshold(self, counts: Counts) -> Result<Threshold, Refusal>
        ensures { let s = sheet_of self.entry.draft.now in let q = self.entry.seats in MatchResult result (λ x. (threshold_refusal q.value counts.total counts.byzantine ≡ None) × Counted x q.value counts.total counts.byzantine) (λ e. settled s q (threshold_refusal q.value counts.total counts.byzantine) ≡ Err e) }
    {
        self.lined(Threshold::new(self.seats.value, counts.total, counts.byzantine))
    }
}

// Something that a script must have is not there.
const MISSING: Refusal = Refusal {
    cause: Cause::Misplaced,
    line: None,
};

// Whether the rule is accepted: what is missing first, then the list, then the counts.
pub(crate) fn judge_draft(draft: &Draft) -> Result<Crew, Refusal>
    ensures { MatchResult result (λ c. judged (sheet_of draft.now) ≡ Ok c.processes) (λ e. judged (sheet_of draft.now) ≡ Err e) }
{
    let seats = draft.seats.ok_or(MISSING)?;
    let seated = Seated { draft, seats };
    match draft.count {
        None if draft.pairs.is_empty() => Err(MISSING),
        None => Ok(Crew::of(&seated.list()?)),
        Some(counts) if draft.pairs.is_empty() => Ok(Crew::of(&seated.threshold(counts.value)?)),
        Some(counts) => {
            let list = seated.list()?;
            let threshold = seated.threshold(counts.value)?;
            Ok(Crew::of(&Intersection::new(list, threshold)))
        }
    }
}

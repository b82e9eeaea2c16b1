// How a pair list is made, checked and asked.
ghost use Rattle.std.specs.Prelude.{◌≡◌, ℕ, ◌+◌, ◌-◌, ◌<◌, ◌≤◌, [], ◌∷◌, length, Option, IfOk, MatchResult};
ghost use Rattle.std.specs.Result.{result_err};
ghost use Rattle.sets.specs.Pairs.{byz, fail, pair_of};
ghost use Rattle.sets.specs.Sets.{limit};
ghost use Rattle.adversary.specs.Refusals.{first, or_else, answered, size_refusal, pair_refusal, pairs_refusal, third_from, second_from, least_cover, cover_refusal, most_pairs, Judged};
ghost use Rattle.adversary.specs.Rules.{listed};
ghost use Rattle.adversary.specs.Lists.{Has, pairs_of};
ghost use Rattle.adversary.specs.ListLaws;
ghost use Rattle.adversary.specs.ListLaws.{adopted, list_lawful};

use crate::pair_list::{MAX_PAIRS, PairList};
use crate::structure::AdversaryStructure;
use arrayvec::ArrayVec;
use refusal::RuleRefusal;
use sets::{FaultPair, MAX_PROCESSES, ProcessSet};

// The number of processes, where it is that of a crew.
pub(crate) fn process_count(processes: u16) -> Result<u8, RuleRefusal>
    ensures { result ≡ answered processes (size_refusal processes) }
{
    u8::try_from(processes)
        .ok()
        .filter(|count| 1 <= *count && *count <= MAX_PROCESSES)
        .ok_or(RuleRefusal::Processes)
}

// A place in a list, counted from 1.
fn place_of(index: usize) -> u16
    requires { index < most_pairs }
    ensures { result ≡ index + 1 }
{
    // Kept as a cast, which is proved to lose nothing: a try_from could not fail here.
    index as u16 + 1
}

// The first answer to the indices from `start` on and below `end`. A loop over indices, and what the searches below
// answer is a tuple of three, since docs/DECISIONS.md fixes these forms.
fn first_from<T, F: Fn(usize) -> Option<T>>(start: usize, end: usize, answer: F) -> Option<T>
    requires asks { (k : ℕ) → k < end → F.pre answer k }
    ensures { (f : ℕ → Option _) → ((k : ℕ) (o : _) → k < end → F.post answer k o → o ≡ f k) → result ≡ first f start (end - start) }
{
    for k in start..end {
        if let Some(found) = answer(k) {
            return Some(found);
        }
    }
    None
}

// Pairs that are to be listed, no more than a list has, for a crew of so many processes. Nothing compares them: they
// are made for one call and hold a reference.
#[derive(Clone, Copy, Debug)]
struct Candidates<'a> {
    processes: u8,
    pairs: &'a [FaultPair],
    ghost few: { processes ≤ limit },
    ghost short: { length pairs.now ≤ most_pairs },
}

impl Candidates<'_> {
    // One pair at a place: all its processes are in the crew, and none is in both sets.
    fn check_pair(&self, place: u16, pair: FaultPair) -> Result<(), RuleRefusal>
        ensures { result ≡ answered tt (pair_refusal self.now.processes place pair) }
    {
        let crew = ProcessSet::first(self.processes);
        if !pair.byzantine.union(pair.failing).is_subset(crew) {
            return Err(RuleRefusal::AboveProcesses(place));
        }
        if !pair.byzantine.intersection(pair.failing).is_empty() {
            return Err(RuleRefusal::InBothSets(place));
        }
        Ok(())
    }

    // Every pair in order.
    fn check_pairs(&self) -> Result<(), RuleRefusal>
        ensures { result ≡ answered tt (pairs_refusal self.now.processes 1 self.now.pairs.now) }
    {
        for (index, pair) in self.pairs.iter().enumerate() {
            self.check_pair(place_of(index), *pair)?;
        }
        Ok(())
    }

    // The least index of a third pair, from the second's on, that covers the crew with the two at `i` and `j`.
    fn third_cover(&self, i: usize, j: usize) -> Option<(usize, usize, usize)>
        requires first { i < length self.now.pairs.now }
        requires second { j < length self.now.pairs.now }
        ensures { result ≡ third_from self.now.processes self.now.pairs.now i j }
    {
        first_from(j, self.pairs.len(), |k| {
            FaultPair::cover(self.processes, self.pairs[i], self.pairs[j], self.pairs[k]).then_some(
                (i, j, k),
            )
        })
    }

    // The same with the least second pair, from the first's on.
    fn second_cover(&self, i: usize) -> Option<(usize, usize, usize)>
        requires { i < length self.now.pairs.now }
        ensures { result ≡ second_from self.now.processes self.now.pairs.now i }
    {
        first_from(i, self.pairs.len(), |j| self.third_cover(i, j))
    }

    // The least three indices of pairs that cover the crew: the smallest first, then the second, then the third.
    fn first_cover(&self) -> Option<(usize, usize, usize)>
        ensures { result ≡ least_cover self.now.processes self.now.pairs.now }
    {
        first_from(0, self.pairs.len(), |i| self.second_cover(i))
    }

    // What is tested of the pairs themselves: each of them, and then that no three cover the crew.
    fn check(&self) -> Result<(), RuleRefusal>
        ensures { result ≡ answered tt (or_else (pairs_refusal self.now.processes 1 self.now.pairs.now) (cover_refusal self.now.processes self.now.pairs.now)) }
    {
        self.check_pairs()?;
        self.check_cover()
    }

    // That no three of them cover the crew. A match, since map_or(Ok(()), ..) is no plainer.
    fn check_cover(&self) -> Result<(), RuleRefusal>
        ensures { result ≡ answered tt (cover_refusal self.now.processes self.now.pairs.now) }
    {
        match self.first_cover() {
            Some((i, j, k)) => Err(RuleRefusal::Cover(place_of(i), place_of(j), place_of(k))),
            None => Ok(()),
        }
    }
}

// The list of these pairs, where every test of a list is passed, one after the other.
fn list_of(processes: u16, pairs: &[FaultPair]) -> Result<PairList, RuleRefusal>
    ensures answer { Judged (result_err result) processes pairs.now }
    ensures value { IfOk result (λ l. Has l processes pairs.now) }
{
    let processes = process_count(processes)?;
    if pairs.is_empty() || pairs.len() > MAX_PAIRS {
        return Err(RuleRefusal::PairCount);
    }
    Candidates { processes, pairs }.check()?;
    // Made last, since a new list fills its whole room. The pairs fit, as was tested.
    let mut listed = ArrayVec::new();
    listed.try_extend_from_slice(pairs).unwrap();
    Ok(PairList {
        processes,
        pairs: listed,
    })
}

// Whether a pair is contained in one of these. A loop, since docs/DECISIONS.md fixes that form here.
fn is_listed(pairs: &[FaultPair], pair: FaultPair) -> bool
    ensures { result ≡ listed pairs.now (byz pair) (fail pair) }
{
    for greater in pairs {
        if pair.is_within(*greater) {
            return true;
        }
    }
    false
}

impl PairList {
    // A list for one process, with the one pair of empty sets.
    pub fn new() -> PairList
        ensures { Has result 1 (pair_of 0 0 ∷ []) }
    {
        let mut pairs = ArrayVec::new();
        pairs.push(FaultPair::EMPTY);
        PairList {
            processes: 1,
            pairs,
        }
    }

    // Replaces the whole list, or is refused and leaves it as it was.
    pub fn adopt(&mut self, processes: u16, pairs: &[FaultPair]) -> Result<(), RuleRefusal>
        ensures answer { Judged (result_err result) processes pairs.now }
        ensures after { MatchResult result (λ _. Has self.new processes pairs.now) (λ _. self.new ≡ self.old) }
    {
        *self = list_of(processes, pairs)?;
        Ok(())
    }
}

impl AdversaryStructure for PairList {
    ghost size = { λ l. l.processes };

    ghost holding = { λ l. listed (pairs_of l) };

    ghost sized = { λ r. ListLaws.sized r.processes (adopted r.processes (pairs_of r) r.lawful).size };

    ghost lawful = { λ r. list_lawful r.processes (pairs_of r) (adopted r.processes (pairs_of r) r.lawful) };

    fn processes(&self) -> u8 {
        self.processes
    }

    fn holds(&self, pair: FaultPair) -> bool {
        is_listed(self.pairs.as_slice(), pair)
    }
}

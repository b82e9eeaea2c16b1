// The state of one process, the six calls on it, and what they answer.
use refusal::ProcessRefusal;
use sets::{MAX_PROCESSES, ProcessSet};

// A slot for each process that there may be. A constant calls no function, hence the cast.
pub const SLOTS: usize = MAX_PROCESSES as usize;

// What a call may do now.
#[derive(Clone, Copy, Debug, PartialEq, Eq)]
pub enum Stage {
    // Not started.
    Resting,
    // To speak in this round.
    Due,
    // To hear the others, and then to shut the round.
    Listening,
    // All rounds are shut.
    Decided,
}

// One process, without its rule. The slot of each process holds the word heard from it in this round.
// Plain fields and a table of slots are a form that docs/DECISIONS.md fixes: number and round are 0 before the start,
// and values are the words that go by radio, 2 for none.
#[derive(Clone, Copy, Debug, PartialEq, Eq)]
pub struct ProcessState {
    pub stage: Stage,
    pub number: u8,
    pub preferred: u8,
    pub detected: ProcessSet,
    pub omissions: u16,
    pub round: u16,
    pub follows: bool,
    pub inbox: [Option<u8>; SLOTS],
}

#[derive(Clone, Copy, Debug, PartialEq, Eq)]
pub enum Call {
    Start { number: u8, bit: u8 },
    Speak,
    Hear { number: u8, round: u16, word: u8 },
    Shut,
    Verdict,
    Standing,
}

// How a process stands: its preferred value, the rounds shut, whom it has detected, and how many words were missing.
// The value is a word's byte, as in ProcessState.
#[derive(Clone, Copy, Debug, PartialEq, Eq)]
pub struct Report {
    pub preferred: u8,
    pub shut: u16,
    pub detected: ProcessSet,
    pub omissions: u16,
}

// What a call that is carried out answers.
#[derive(Clone, Copy, Debug, PartialEq, Eq)]
pub enum Answer {
    Started,
    Spoke(Option<u8>),
    Heard,
    Shut,
    Verdict(Option<u8>),
    Standing(Option<Report>),
}

// What comes of a call in a list of calls: nothing where there is no such process.
pub type Reply = Option<Result<Answer, ProcessRefusal>>;

// One call in a list: on which process, counted from 0, and what came of it.
#[derive(Clone, Copy, Debug, PartialEq, Eq)]
pub struct Entry {
    pub who: usize,
    pub call: Call,
    pub reply: Reply,
}

// What the lines of a script have given so far.
ghost use Rattle.std.specs.Prelude.{◌≡◌, ◌≤◌, length, Some};
ghost use Rattle.refusal.specs.Numbers.{at_line};
ghost use Rattle.refusal.specs.declared.script.Cause.TheVariants.{Malformed};
ghost use Rattle.fields.specs.Fields.{split, line_feed};
ghost use Rattle.script.specs.Refusals.{Answers};
ghost use Rattle.script.specs.Sheets.{sheet_of, empty_sheet, misplaced, entered, line_read, lines_read, script_read, most_bytes};

use crate::fault::Fault;
use crate::line::{Counts, Entry, Line};
use crate::located::Located;
use fields::LINE_FEED;
use refusal::{Cause, Refusal};
use sets::FaultPair;
use std::alloc::Global;

// The most bytes of a script.
pub const MAX_BYTES: usize = 8192;

// The number of processes, the listed pairs and the counts, each with its line.
#[derive(Debug, PartialEq, Eq, Drop)]
pub struct Draft {
    pub seats: Option<Located<u16>>,
    pub pairs: Vec<Located<FaultPair>>,
    pub count: Option<Located<Counts>>,
}

impl Draft {
    // What a whole script gives.
    pub fn read(heap: Global, script: &[u8]) -> Result<Draft, Fault>
        ensures { Answers result sheet_of (script_read script.now) }
    {
        if script.len() > MAX_BYTES {
            return Err(Refusal {
                cause: Cause::TooLong,
                line: None,
            }
            .into());
        }
        let mut draft = Draft::new(heap);
        draft.read_lines(script)?;
        Ok(draft)
    }

    // Nothing yet.
    fn new(heap: Global) -> Draft
        ensures { sheet_of result ≡ empty_sheet }
    {
        Draft {
            seats: None,
            pairs: Vec::new(heap),
            count: None,
        }
    }

    // Whether an entry may not stand after what there is.
    fn misplaces(&self, entry: Entry) -> bool
        ensures { result ≡ misplaced (sheet_of self.now) entry }
    {
        match entry {
            Entry::Seats(_) => self.seats.is_some(),
            Entry::Pair(_) => self.seats.is_none(),
            Entry::Count(_) => self.seats.is_none() || self.count.is_some(),
        }
    }

    // Adds what a line says.
    fn enter(&mut self, entry: Entry, line: u16) -> Result<(), Fault>
        ensures { Answers result (λ _. sheet_of self.new) (entered (sheet_of self.old) line entry) }
    {
        if self.misplaces(entry) {
            return Err(Refusal {
                cause: Cause::Misplaced,
                line: Some(line),
            }
            .into());
        }
        match entry {
            Entry::Seats(value) => self.seats = Some(Located { value, line }),
            Entry::Pair(value) => self.pairs.push(Located { value, line })?,
            Entry::Count(value) => self.count = Some(Located { value, line }),
        }
        Ok(())
    }

    // Reads one line: its form before its place.
    fn read_line(&mut self, text: &[u8], number: u16) -> Result<(), Fault>
        ensures { Answers result (λ _. sheet_of self.new) (line_read (sheet_of self.old) number text.now) }
    {
        let line = Line::of(text, number).ok_or(malformed(number))?;
        let entry = line.entry().ok_or(malformed(line.number()))?;
        self.enter(entry, line.number())
    }

    // Reads line after line. A line without an end has not the form of any.
    fn read_lines(&mut self, script: &[u8]) -> Result<(), Fault>
        requires { length script.now ≤ most_bytes }
        ensures { Answers result (λ _. sheet_of self.new) (lines_read (sheet_of self.old) 0 (split line_feed script.now)) }
    {
        for (line, number) in script.split_inclusive(|b| *b == LINE_FEED).zip(1..) {
            let text = line.strip_suffix(&[LINE_FEED]).ok_or(malformed(number))?;
            self.read_line(text, number)?;
        }
        Ok(())
    }
}

// The refusal of a line that has not the form of any.
fn malformed(line: u16) -> Refusal
    ensures { result ≡ at_line Malformed (Some line) }
{
    Refusal {
        cause: Cause::Malformed,
        line: Some(line),
    }
}

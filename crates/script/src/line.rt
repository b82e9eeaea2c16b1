// The lines of a script. A line's fields stay parts of the script, and it keeps its number.
ghost use Rattle.std.specs.Prelude.{◌≡◌, [], ◌∷◌, length, None, codes, MatchOption, ◌≢◌};
ghost use Rattle.fields.specs.Fields.{split, blank};
ghost use Rattle.script.specs.Lines.{fields_of, line_of, seats_entry, pair_entry, count_entry, entry_of};

use fields::{BLANK, number, process_set, split_once};
use sets::FaultPair;

// Cases that hold borrowed fields and the line's number are a form that docs/DECISIONS.md fixes.
#[derive(Clone, Copy, Debug, PartialEq, Eq)]
pub enum Line<'a> {
    Seats {
        count: &'a [u8],
        line: u16,
    },
    Pair {
        byzantine: &'a [u8],
        failing: &'a [u8],
        line: u16,
    },
    Count {
        total: &'a [u8],
        byzantine: &'a [u8],
        line: u16,
    },
}

// The counts of a threshold.
#[derive(Clone, Copy, Debug, PartialEq, Eq)]
pub struct Counts {
    pub total: u16,
    pub byzantine: u16,
}

// What a line says.
#[derive(Clone, Copy, Debug, PartialEq, Eq)]
pub enum Entry {
    Seats(u16),
    Pair(FaultPair),
    Count(Counts),
}

// The one field of a text, where it has just one.
fn one_field(text: &[u8]) -> Option<&[u8]>
    ensures { MatchOption result (length (split blank text.now) ≢ 1) (λ a. split blank text.now ≡ a.now ∷ []) }
{
    split_once(text, BLANK).is_none().then_some(text)
}

// The two fields of a text, where it has just two.
fn two_fields(text: &[u8]) -> Option<(&[u8], &[u8])>
    ensures { MatchOption result (length (split blank text.now) ≢ 2) (λ p. split blank text.now ≡ p.0.now ∷ p.1.now ∷ []) }
{
    let (first, rest) = split_once(text, BLANK)?;
    Some((first, one_field(rest)?))
}

impl<'a> Line<'a> {
    // The line with this text, where it has a word and as many fields as that word asks.
    pub(crate) fn of(text: &'a [u8], line: u16) -> Option<Line<'a>>
        ensures { MatchOption result (entry_of (split blank text.now) ≡ None) (λ l. (fields_of l ≡ split blank text.now) × (line_of l ≡ line)) }
    {
        let (word, fields) = split_once(text, BLANK)?;
        match word {
            b"seats" => {
                let count = one_field(fields)?;
                Some(Line::Seats { count, line })
            }
            b"pair" => {
                let (byzantine, failing) = two_fields(fields)?;
                Some(Line::Pair {
                    byzantine,
                    failing,
                    line,
                })
            }
            b"count" => {
                let (total, byzantine) = two_fields(fields)?;
                Some(Line::Count {
                    total,
                    byzantine,
                    line,
                })
            }
            _ => None,
        }
    }

    // What the line says, where its fields are of their form.
    pub(crate) fn entry(self) -> Option<Entry>
        ensures { result ≡ entry_of (fields_of self.entry) }
    {
        match self {
            Line::Seats { count, .. } => Some(Entry::Seats(number(count)?)),
            Line::Pair {
                byzantine,
                failing,
                ..
            } => Some(Entry::Pair(FaultPair {
                byzantine: process_set(byzantine)?,
                failing: process_set(failing)?,
            })),
            Line::Count {
                total,
                byzantine,
                ..
            } => Some(Entry::Count(Counts {
                total: number(total)?,
                byzantine: number(byzantine)?,
            })),
        }
    }

    // The line's number.
    pub(crate) fn number(self) -> u16
        ensures { result ≡ line_of self.entry }
    {
        match self {
            Line::Seats { line, .. } | Line::Pair { line, .. } | Line::Count { line, .. } => line,
        }
    }
}

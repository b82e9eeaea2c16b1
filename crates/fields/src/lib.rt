// How a text is parted, and what a field means.
#![tactic(auto)]

ghost use Rattle.std.specs.Prelude.{◌≡◌, ℕ, suc, ◌+◌, ◌<◌, ◌≤◌, true, [], ◌∷◌, length, take, drop, IfSome, MatchOption};
ghost use Rattle.std.specs.Str.{bytes_eq};
ghost use Rattle.sets.specs.Sets.{set_of};
ghost use Rattle.fields.specs.Fields.{split, Cut, comma, digits_from, number_in, member_in, union_in, set_in};

use memchr::memchr;
use sets::ProcessSet;

pub const LINE_FEED: u8 = b'\n';

pub const BLANK: u8 = b' ';

const COMMA: u8 = b',';

// Whether a field is this text.
// It stands beside `==` since it is public and promises that equal fields are equal lists of bytes.
pub fn is_text(field: &[u8], text: &str) -> bool
    ensures value { result ≡ bytes_eq field.now text.now }
    ensures same { result ≡ true → field.now ≡ text.now }
{
    field == text.as_bytes()
}

// The piece before the first `stop` and what follows that byte; nothing where the text has none.
pub fn split_once(text: &[u8], stop: u8) -> Option<(&[u8], &[u8])>
    ensures { MatchOption result (split stop text.now ≡ text.now ∷ []) (λ p. Cut stop text.now p.0.now p.1.now) }
{
    let n = memchr(stop, text)?;
    Some((&text[..n], &text[n + 1..]))
}

// The value of one digit.
fn digit(byte: u8) -> Option<u16>
    ensures { result ≡ digits_from 0 (byte ∷ []) }
{
    if byte.is_ascii_digit() {
        Some(u16::from(byte - b'0'))
    } else {
        None
    }
}

// A number of one to three digits.
pub fn number(field: &[u8]) -> Option<u16>
    ensures value { result ≡ number_in field.now }
    ensures small { IfSome result (λ n. n < 1000) }
{
    match *field {
        [units] => digit(units),
        [tens, units] => Some(10 * digit(tens)? + digit(units)?),
        [hundreds, tens, units] => Some(100 * digit(hundreds)? + 10 * digit(tens)? + digit(units)?),
        _ => None,
    }
}

// The set of one process.
fn member(field: &[u8]) -> Option<ProcessSet>
    ensures { result ≡ member_in field.now }
{
    ProcessSet::of(u8::try_from(number(field)?).ok()?)
}

// The set of processes whose numbers are joined by commas.
fn joined_set(field: &[u8]) -> Option<ProcessSet>
    ensures { result ≡ union_in (set_of 0) (split comma field.now) }
{
    field.split(|b| *b == COMMA).try_fold(
        ProcessSet::EMPTY,
        |set, piece| Some(set.union(member(piece)?)),
    )
}

// Process numbers joined by commas, or a dash for none.
pub fn process_set(field: &[u8]) -> Option<ProcessSet>
    ensures { result ≡ set_in field.now }
{
    if is_text(field, "-") {
        Some(ProcessSet::EMPTY)
    } else {
        joined_set(field)
    }
}

// Why a script is refused.
ghost use Rattle.std.specs.Prelude.{◌≡◌, Some};
ghost use Rattle.refusal.specs.Numbers.{number_of, layer_of, place_of};
ghost use Rattle.refusal.specs.Texts.{refusal_words};

use crate::place::{Layer, Place};
use crate::rule::RuleRefusal;
use std::error::Error;
use std::fmt;

#[derive(Clone, Copy, Debug, PartialEq, Eq)]
pub enum Cause {
    // A line that has not the form of any.
    Malformed,
    // A line that may not stand where it does, or one that is missing.
    Misplaced,
    // More bytes than a script may have.
    TooLong,
    // The rule that the script gives is refused.
    Rule(RuleRefusal),
}

// A cause, and the line where it stands, if it has one.
#[derive(Clone, Copy, Debug, PartialEq, Eq)]
pub struct Refusal {
    pub cause: Cause,
    pub line: Option<u16>,
}

impl Refusal {
    // The printed number.
    pub fn number(self) -> u8
        ensures { result ≡ number_of self.cause }
    {
        match self.cause {
            Cause::Malformed => 18,
            Cause::Misplaced => 19,
            Cause::TooLong => 20,
            Cause::Rule(refusal) => refusal.number(),
        }
    }

    // The layer that refuses.
    pub fn layer(self) -> Layer
        ensures { result ≡ layer_of self.cause }
    {
        match self.cause {
            Cause::Rule(_) => Layer::Rule,
            _ => Layer::Script,
        }
    }

    // The place within a list.
    pub fn place(self) -> Place
        ensures { result ≡ place_of self.cause }
    {
        match self.cause {
            Cause::Rule(refusal) => refusal.place(),
            _ => Place::Nowhere,
        }
    }
}

// `refused NUMBER LAYER PLACE LINE`, with 0 where there is no line.
impl fmt::Display for Refusal {
    ghost output = { λ x. Some (refusal_words x) };

    fn fmt<W: fmt::Write>(&self, f: &mut fmt::Formatter<W>) -> fmt::Result {
        let number = self.number();
        let layer = self.layer();
        let place = self.place();
        let line = self.line.unwrap_or(0);
        write!(f, "refused {number} {layer} {place} {line}")
    }
}

impl Error for Refusal {}

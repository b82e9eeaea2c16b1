// Where a refusal comes from, and where it points.
ghost use Rattle.std.specs.Prelude.{◌≡◌, Some};
ghost use Rattle.refusal.specs.Numbers.{name_of};
ghost use Rattle.refusal.specs.Texts.{place_text};

use std::fmt;

// The part of the work that refuses.
#[derive(Clone, Copy, Debug, PartialEq, Eq)]
pub enum Layer {
    Rule,
    Script,
}

impl Layer {
    // The printed name. It stands beside Display since it is public and promises the name as a text.
    pub fn name(self) -> &'static str
        ensures { result.now ≡ name_of self }
    {
        match self {
            Layer::Rule => "rule",
            Layer::Script => "script",
        }
    }
}

impl fmt::Display for Layer {
    ghost output = { λ x. Some (name_of x) };

    fn fmt<W: fmt::Write>(&self, f: &mut fmt::Formatter<W>) -> fmt::Result {
        f.write_str(self.name())
    }
}

// Nowhere, at one entry of a list, or at three, all counted from 1.
#[derive(Clone, Copy, Debug, PartialEq, Eq)]
pub enum Place {
    Nowhere,
    At(u16),
    Three(u16, u16, u16),
}

impl fmt::Display for Place {
    ghost output = { λ x. Some (place_text x) };

    fn fmt<W: fmt::Write>(&self, f: &mut fmt::Formatter<W>) -> fmt::Result {
        match self {
            Place::Nowhere => f.write_str("0"),
            Place::At(i) => write!(f, "{i}"),
            Place::Three(i, j, k) => write!(f, "{i},{j},{k}"),
        }
    }
}

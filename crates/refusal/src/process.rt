// Why a call on a process is refused.
ghost use Rattle.std.specs.Prelude.{◌≡◌};
ghost use Rattle.refusal.specs.Numbers.{process_number, process_place};

use crate::place::Place;

#[derive(Clone, Copy, Debug, PartialEq, Eq)]
pub enum ProcessRefusal {
    // The stage forbids the call.
    Stage,
    // The number is not that of a process, or one's own is heard.
    Number(u8),
    // The start bit is not 0 or 1.
    Bit(u8),
    // The round is not the current one.
    Round(u8),
    // The process is not the king, in a third round.
    King(u8),
    // The process was already heard in this round.
    Twice(u8),
}

impl ProcessRefusal {
    // The printed number.
    pub fn number(self) -> u8
        ensures { result ≡ process_number self }
    {
        match self {
            ProcessRefusal::Stage => 8,
            ProcessRefusal::Number(_) => 9,
            ProcessRefusal::Bit(_) => 10,
            ProcessRefusal::Round(_) => 11,
            ProcessRefusal::King(_) => 12,
            ProcessRefusal::Twice(_) => 13,
        }
    }

    // The number that was given, where it is to blame.
    pub fn place(self) -> Place
        ensures { result ≡ process_place self }
    {
        match self {
            ProcessRefusal::Stage => Place::Nowhere,
            ProcessRefusal::Number(number)
            | ProcessRefusal::Bit(number)
            | ProcessRefusal::Round(number)
            | ProcessRefusal::King(number)
            | ProcessRefusal::Twice(number) => Place::At(u16::from(number)),
        }
    }
}

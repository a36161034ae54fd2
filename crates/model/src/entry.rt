ghost use Rattle.std.specs.Prelude.{◌≡◌, Some};
ghost use Rattle.model.specs.Entries.{kind_number, decoded};
ghost use Rattle.model.specs.Words.{unknown_kind_words};

use std::error::Error;
use std::fmt;

// What the packets of a PID carry, and the number of each kind.
#[derive(Clone, Copy, Debug, PartialEq, Eq, Hash)]
pub enum Kind {
    // a PES stream
    Pes = 0,
    // sections
    Sections = 1,
    // a PES stream that also carries the clock
    Clock = 2,
}

impl From<Kind> for u8 {
    ghost from_gives = { λ kind number. number ≡ kind_number kind };

    fn from(kind: Kind) -> u8 {
        kind as u8
    }
}

// A number that no kind has.
#[derive(Clone, Copy, Debug, PartialEq, Eq, Hash)]
pub struct UnknownKind {
    pub number: u8,
}

impl TryFrom<u8> for Kind {
    type Error = UnknownKind;

    ghost try_from_gives = { λ number kind. kind ≡ decoded number };

    fn try_from(number: u8) -> Result<Kind, UnknownKind> {
        match number {
            0 => Ok(Kind::Pes),
            1 => Ok(Kind::Sections),
            2 => Ok(Kind::Clock),
            _ => Err(UnknownKind { number }),
        }
    }
}

impl fmt::Display for UnknownKind {
    ghost output = { λ unknown. Some (unknown_kind_words unknown) };

    fn fmt<W: fmt::Write>(&self, f: &mut fmt::Formatter<W>) -> fmt::Result {
        write!(f, "no kind has the number {}", self.number)
    }
}

impl Error for UnknownKind {}

// A PID of the sheet and its kind.
#[derive(Clone, Copy, Debug, PartialEq, Eq)]
pub struct Entry {
    pub pid: u16,
    pub kind: Kind,
}

// What stands in the places of a table past its entries.
pub const NO_ENTRY: Entry = Entry {
    pid: 0,
    kind: Kind::Pes,
};

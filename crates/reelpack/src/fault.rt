use model::refusal::Refusal;
use std::alloc::AllocFailed;
use std::error::Error;
use std::fmt;

const USAGE: &str = "usage: reelpack RATE ROUND [PID:KIND ...] < packets.ts > file.reel
  RATE   bytes for each second, 1 to 10000000
  ROUND  how long a round takes in ticks of 27 MHz, as a rule 27000000 x bytes / RATE: a multiple of 300 up to 2576980377300
  PID    0 to 8190 in decimal or 0x hexadecimal, each once, and at most 16 of them
  KIND   what it carries: 0 PES, 1 sections, 2 PES with the clock
for example: reelpack 188000 27000 0:1 0x100:2 < packets.ts > file.reel";

// What is wrong, and what to do.
#[derive(Debug, Drop)]
pub(crate) enum Fault {
    Usage,
    // an argument that is no rate, no round length or no entry
    Rate(String),
    Round(String),
    Entry(String),
    // an entry whose PID was given before
    Repeated(String),
    // so many entries
    Entries(usize),
    Refused(Refusal),
    // an input of so many bytes, which are no packets
    Size(usize),
    Memory,
    // what could not be read or written
    Arguments(anyhow::Error),
    Input(anyhow::Error),
    Output(anyhow::Error),
}

impl fmt::Display for Fault {
    fn fmt<W: fmt::Write>(&self, f: &mut fmt::Formatter<W>) -> fmt::Result {
        match self {
            Fault::Usage => f.write_str(USAGE),
            Fault::Rate(text) => write!(
                f,
                "bad byte rate `{text}`: write 1 to 10000000, in bytes for each second"
            ),
            Fault::Round(text) => write!(
                f,
                "bad round length `{text}`: write a multiple of 300 from 0 to 2576980377300, in ticks of 27 MHz"
            ),
            Fault::Entry(text) => write!(
                f,
                "bad entry `{text}`: write PID:KIND with PID 0 to 8190 (0x0 to 0x1FFE) and KIND 0, 1 or 2"
            ),
            Fault::Repeated(text) => write!(f, "repeated entry `{text}`: write each PID once"),
            Fault::Entries(count) => write!(f, "{count} entries: write at most 16"),
            Fault::Refused(refusal) => write!(f, "{refusal}"),
            Fault::Size(size) => {
                let rest = size % 188;
                write!(
                    f,
                    "the input has {size} bytes, {rest} past its last whole packet of 188: give 1 to 1000000000 whole packets"
                )
            }
            Fault::Memory => f.write_str("no memory is left: pack a shorter stream"),
            Fault::Arguments(error) => write!(f, "cannot read the arguments: {error}"),
            Fault::Input(error) => write!(f, "cannot read standard input: {error}"),
            Fault::Output(error) => write!(f, "cannot write standard output: {error}"),
        }
    }
}

impl Error for Fault {}

impl From<Refusal> for Fault {
    fn from(refusal: Refusal) -> Fault {
        Fault::Refused(refusal)
    }
}

impl<T: Drop> From<AllocFailed<T>> for Fault {
    fn from(_refused: AllocFailed<T>) -> Fault {
        Fault::Memory
    }
}

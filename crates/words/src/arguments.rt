ghost use Rattle.words.specs.Arguments.{Number, Pid, Rate, Round, Writes, Read, Parted};

use model::entry::{Entry, Kind};
use model::sheet::{HIGHEST_PID, HIGHEST_RATE, LONGEST_ROUND};

// How each kind ends the text of an entry: endings are matched whole, which is plainer than a digit that is parsed and decoded.
const ENDINGS: [(&str, Kind); 3] = [
    (":0", Kind::Pes),
    (":1", Kind::Sections),
    (":2", Kind::Clock),
];

// The byte rate that a text writes.
pub fn rate(text: &str) -> Option<u32>
    ensures { Read (Rate text.now) result }
{
    text.parse::<u32>()
        .ok()
        .filter(|rate| (1..=HIGHEST_RATE).contains(rate))
}

// The round length that a text writes. It differs from a rate in type and test, which are all there is: one function would take both.
pub fn round(text: &str) -> Option<u64>
    ensures { Read (Round text.now) result }
{
    text.parse::<u64>()
        .ok()
        .filter(|round| *round % 300 == 0 && *round <= LONGEST_ROUND)
}

// The number that a text writes: in hexadecimal after 0x, else in decimal. `parse` alone knows one base.
fn number(text: &str) -> Option<u16>
    ensures { Read (Number text.now) result }
{
    let number = match text.strip_prefix("0x") {
        Some(digits) => u16::from_str_radix(digits, 16),
        None => text.parse(),
    };
    number.ok()
}

fn pid(text: &str) -> Option<u16>
    ensures { Read (Pid text.now) result }
{
    number(text).filter(|pid| *pid <= HIGHEST_PID)
}

// What stands before the kind that a text ends with, and the kind.
fn split_kind(text: &str) -> Option<(&str, Kind)>
    ensures { Parted text.now result }
{
    // a `for` and no `find_map`: what it finds borrows from the text
    for (ending, kind) in ENDINGS {
        if let Some(front) = text.strip_suffix(ending) {
            return Some((front, kind));
        }
    }
    None
}

// The entry that a text writes as PID:KIND.
pub fn entry(text: &str) -> Option<Entry>
    ensures { Read (Writes text.now) result }
{
    let (front, kind) = split_kind(text)?;
    let pid = pid(front)?;
    Some(Entry { pid, kind })
}

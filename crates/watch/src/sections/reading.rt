ghost use Rattle.std.specs.Prelude.{◌≡◌, if◌then◌else◌, nat_eq};
ghost use Rattle.model.specs.Packet.{Bytes};
ghost use Rattle.model.specs.Sections.{Next as After, after_end, read_all, section as within, filling, wrong};
ghost use Rattle.watch.specs.Readings.{reading_of, next_of};
ghost use Rattle.watch.specs.Assembled.{bytes_of};

use crate::sections::progress::{Next, Progress};
use crate::sections::section::Section;
use model::rule::Rule;
use packet::stuffing::is_stuffing;

// A byte where only stuffing may stand.
fn stuffing(byte: u8) -> Result<Progress, Rule>
    ensures { (u : Bytes) → reading_of result u ≡ (if nat_eq byte 255 then filling else wrong 28) }
{
    if byte == 255 {
        Ok(Progress::Filling)
    } else {
        Err(Rule::Sections)
    }
}

// A byte just past a section's end. What may come there is a value and no closure: the definition has the same three cases.
fn after_end(next: Next, section: &mut Section, byte: u8) -> Result<Progress, Rule>
    ensures { reading_of result (bytes_of section.new) ≡ after_end (next_of next) byte }
{
    match next {
        Next::Nothing => Err(Rule::Sections),
        Next::Stuffing => stuffing(byte),
        Next::More => {
            if byte == 255 {
                return Ok(Progress::Filling);
            }
            section.clear();
            section.push(byte)
        }
    }
}

// The last bytes of a payload, where only stuffing may stand.
fn fill(bytes: &[u8]) -> Result<Progress, Rule>
    ensures { (n : After) (u : Bytes) → reading_of result u ≡ read_all n filling bytes.now }
{
    if is_stuffing(bytes) {
        Ok(Progress::Filling)
    } else {
        Err(Rule::Sections)
    }
}

// Reads the bytes of a payload that go on in an open section: those of the section and the stuffing at the end at once, the byte
// after a section by itself.
pub fn read_all(next: Next, section: &mut Section, bytes: &[u8]) -> Result<Progress, Rule>
    ensures { reading_of result (bytes_of section.new) ≡ read_all (next_of next) (within (bytes_of section.old)) bytes.now }
{
    let mut progress = Progress::Open;
    let mut rest = bytes;
    while let [first, others @ ..] = rest {
        match progress {
            Progress::Open => {
                let taken = section.take(rest)?;
                progress = taken.progress;
                rest = &rest[taken.count..];
            }
            Progress::Ended => {
                progress = after_end(next, section, *first)?;
                rest = others;
            }
            Progress::Filling => return fill(rest),
        }
    }
    Ok(progress)
}

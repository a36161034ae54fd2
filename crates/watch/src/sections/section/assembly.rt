ghost use Rattle.std.specs.Prelude.{◌≡◌, ◌+◌, ◌-◌, ◌<◌, ◌≤◌, [], ◌∷◌, ◌++◌, length, IfOk, if◌then◌else◌, nat_eq};
ghost use Rattle.model.specs.Crc.{crc32};
ghost use Rattle.model.specs.Packet.{Bytes};
ghost use Rattle.model.specs.Sections.{section_length, grown, section, ended, wrong};
ghost use Rattle.watch.specs.Readings.{reading_of, Takes};
ghost use Rattle.watch.specs.Assembled.{bytes_of};

use crate::sections::progress::{Progress, Taken};
use crate::sections::section::Section;
use model::rule::Rule;
use packet::crc::crc32;

fn open_if(lawful: bool) -> Result<Progress, Rule>
    ensures { (u : Bytes) → reading_of result u ≡ (if lawful then section u else wrong 28) }
{
    if lawful {
        Ok(Progress::Open)
    } else {
        Err(Rule::Sections)
    }
}

// How many bytes follow the first three, which say so.
fn section_length(bytes: &[u8]) -> usize
    requires { 3 ≤ length bytes.now }
    ensures { result ≡ section_length bytes.now }
{
    usize::from(u16::from_be_bytes([bytes[1] % 16, bytes[2]]))
}

// What the last byte of a whole section brings.
fn checked(bytes: &[u8]) -> Result<Progress, Rule>
    ensures { (u : Bytes) → reading_of result u ≡ (if nat_eq (crc32 bytes.now) 0 then ended else wrong 29) }
{
    if crc32(bytes) == 0 {
        Ok(Progress::Ended)
    } else {
        Err(Rule::Crc)
    }
}

// What the newest byte of a section, the last of these, brings.
fn progress_of(bytes: &[u8]) -> Result<Progress, Rule>
    ensures { reading_of result bytes.now ≡ grown bytes.now }
{
    let len = bytes.len();
    if len == 0 {
        return Ok(Progress::Open);
    }
    if len == 1 {
        return open_if(bytes[0] <= 254);
    }
    if len == 2 {
        return open_if(bytes[1] / 128 % 2 == 1);
    }
    let section_length = section_length(bytes);
    if len == 3 {
        return open_if(section_length >= 9 && section_length <= 1021);
    }
    if len != 3 + section_length {
        return Ok(Progress::Open);
    }
    checked(bytes)
}

impl Section {
    pub fn new() -> Section
        ensures { bytes_of result ≡ [] }
    {
        Section {
            buffer: [0; 1024],
            len: 0,
        }
    }

    pub fn clear(&mut self)
        ensures { bytes_of self.new ≡ [] }
    {
        self.len = 0;
    }

    // Takes on one more byte and says what it brings. Only an open section keeps its bytes.
    pub fn push(&mut self, byte: u8) -> Result<Progress, Rule>
        ensures { reading_of result (bytes_of self.new) ≡ grown (bytes_of self.old ++ byte ∷ []) }
    {
        let len = self.len + 1;
        self.buffer[self.len] = byte;
        let progress = progress_of(&self.buffer[0..len]);
        self.len = if let Ok(Progress::Open) = progress {
            len
        } else {
            0
        };
        progress
    }

    // How many bytes an open section lacks, once its length is known.
    fn lacks(&self) -> usize
        requires { 3 ≤ self.now.len }
        ensures { result ≡ 3 + section_length self.now.buffer - self.now.len }
    {
        3 + section_length(&self.buffer) - self.len
    }

    // Takes on the first of some bytes, or as many as the section lacks once its length is known, and says what they bring.
    pub fn take(&mut self, bytes: &[u8]) -> Result<Taken, Rule>
        requires { 1 ≤ length bytes.now }
        ensures some { IfOk result (λ taken. (1 ≤ taken.count) × (taken.count ≤ length bytes.now)) }
        ensures reads { Takes (bytes_of self.old) bytes.now result (bytes_of self.new) }
    {
        if self.len < 3 {
            let progress = self.push(bytes[0])?;
            return Ok(Taken { count: 1, progress });
        }
        let lacks = self.lacks();
        let count = bytes.len().min(lacks);
        let end = self.len + count;
        self.buffer[self.len..end].copy_from_slice(&bytes[0..count]);
        if count < lacks {
            self.len = end;
            return Ok(Taken {
                count,
                progress: Progress::Open,
            });
        }
        self.len = 0;
        let progress = checked(&self.buffer[0..end])?;
        Ok(Taken { count, progress })
    }
}

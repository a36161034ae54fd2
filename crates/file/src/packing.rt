ghost use Rattle.std.specs.Prelude.{◌≡◌, Some, vec_capacity};
ghost use Rattle.model.specs.Sheets.{text_of};
ghost use Rattle.file.specs.Packing.{refusal_in, pack_refusal, bytes_after, OpensAs, Wants, pack_error_words};
ghost use Rattle.file.specs.declared.packing.PackError.TheVariants as errors;

use crate::writing::write_tail;
use model::refusal::Refusal;
use model::sheet::Sheet;
use std::alloc::AllocError;
use std::error::Error;
use std::fmt;

// The longest tail: a trailer and 16 entries.
const LONGEST_TAIL: usize = 24 + 16 * 4;

// Why packets were not made a file.
#[derive(Clone, Copy, Debug, PartialEq, Eq)]
pub enum PackError {
    Refused(Refusal),
    // there is no memory for the tail
    Memory,
}

impl From<Refusal> for PackError {
    ghost from_gives = { λ refusal r. r ≡ errors.Refused refusal };

    fn from(refusal: Refusal) -> PackError {
        PackError::Refused(refusal)
    }
}

impl From<AllocError> for PackError {
    ghost from_gives = { λ _ r. r ≡ errors.Memory };

    fn from(_error: AllocError) -> PackError {
        PackError::Memory
    }
}

impl fmt::Display for PackError {
    ghost output = { λ error. Some (pack_error_words error) };

    fn fmt<W: fmt::Write>(&self, f: &mut fmt::Formatter<W>) -> fmt::Result {
        match self {
            Self::Refused(refusal) => write!(f, "{refusal}"),
            Self::Memory => f.write_str("no memory is left for the tail"),
        }
    }
}

impl Error for PackError {}

// Makes a whole reel file of packets, by putting the sheet's tail after them. Where it cannot, the packets stay as they were.
pub fn pack(packets: &mut Vec<u8>, sheet: &Sheet) -> Result<(), PackError>
    ensures answers { refusal_in result ≡ pack_refusal packets.old.items }
    ensures writes { packets.new.items ≡ bytes_after result (text_of sheet.now) packets.old.items }
    ensures opens { OpensAs result (text_of sheet.now) packets.old.items packets.new.items }
    ensures room { Wants result (text_of sheet.now) packets.old.items (vec_capacity packets.old) }
{
    let size = packets.len();
    if size % 188 != 0 {
        return Err(PackError::Refused(Refusal::Count));
    }
    // no heap but for the packets, which grow once: the tail is made in fixed memory
    let mut tail = [0u8; LONGEST_TAIL];
    let len = write_tail(sheet, size / 188, &mut tail)?;
    packets.extend_from_slice(&tail[..len])?;
    Ok(())
}

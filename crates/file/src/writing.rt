ghost use Rattle.std.specs.Prelude.{◌≡◌, length};
ghost use Rattle.model.specs.File.{tail_written};
ghost use Rattle.model.specs.Refusals.{outcome};
ghost use Rattle.model.specs.Sheets.{text_of};
ghost use Rattle.file.specs.Writing.{buffer_after, ReadsBack};

use crate::puts::{put_entries, put_trailer};
use crate::trailer::Trailer;
use model::count::is_bad_number;
use model::refusal::Refusal;
use model::sheet::Sheet;

// Writes the tail of a file of so many packets at the front of a buffer, and answers how many bytes it took.
pub fn write_tail(sheet: &Sheet, count: usize, buffer: &mut [u8]) -> Result<usize, Refusal>
    ensures answers { outcome (λ n. n) result ≡ tail_written (record { sheet = text_of sheet.entry.now; count = count }) (length buffer.old) }
    ensures writes { buffer.new ≡ buffer_after result (record { sheet = text_of sheet.entry.now; count = count }) buffer.old }
    ensures back { ReadsBack (record { sheet = text_of sheet.entry.now; count = count }) result buffer.new }
{
    if is_bad_number(count) {
        return Err(Refusal::Count);
    }
    let entries = sheet.entries();
    let distance = 24 + 4 * entries.len();
    if buffer.len() < distance {
        return Err(Refusal::Buffer);
    }
    put_entries(buffer, entries);
    let trailer = Trailer {
        rate: sheet.rate(),
        round: sheet.round_length(),
        count: count as u32,
        distance: distance as u32,
    };
    put_trailer(buffer, distance - 24, trailer);
    Ok(distance)
}

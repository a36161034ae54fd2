ghost use Rattle.std.specs.Prelude.{◌≡◌, ◌/◌, ◌≤◌, length};
ghost use Rattle.model.specs.File.{opened, bad_distance, bad_count};
ghost use Rattle.model.specs.Refusals.{outcome};
ghost use Rattle.model.specs.Sheets.{text_of};
ghost use Rattle.file.specs.Reading.{contents_of, sheet_in, SameEntries, SameTail};

use crate::contents::Contents;
use crate::entries::read_entries;
use crate::trailer::read_trailer;
use model::count::is_bad_number;
use model::refusal::Refusal;
use model::sheet::Sheet;

// Whether the distance is not that of 0 to 16 entries, or exceeds the file.
fn is_bad_distance(size: usize, distance: u32) -> bool
    ensures { result ≡ bad_distance size distance }
{
    !(24..=88).contains(&distance) || distance % 4 != 0 || size < distance as usize
}

// Whether so many bytes are not exactly this number of packets.
fn is_bad_count(size: usize, count: usize) -> bool
    ensures { result ≡ bad_count size count }
{
    is_bad_number(count) || size != 188 * count
}

// The sheet of these bytes of entries.
fn read_sheet(bytes: &[u8], rate: u32, round: u64) -> Result<Sheet, Refusal>
    requires { length bytes.now ≤ 64 }
    ensures answers { outcome text_of result ≡ sheet_in (length bytes.now / 4) bytes.now rate round }
    ensures again { SameEntries (length bytes.now / 4) bytes.now result }
{
    let table = read_entries(bytes).ok_or(Refusal::Entries)?;
    Sheet::new(&table[..bytes.len() / 4], rate, round)
}

// What a reel file says, or why it is none.
pub fn read(file: &[u8]) -> Result<Contents, Refusal>
    ensures answers { outcome contents_of result ≡ opened file.now }
    ensures again { SameTail file.now result }
{
    let len = file.len();
    let trailer = read_trailer(file).ok_or(Refusal::Trailer)?;
    if is_bad_distance(len, trailer.distance) {
        return Err(Refusal::Distance);
    }
    let start = len - trailer.distance as usize;
    let count = trailer.count as usize;
    if is_bad_count(start, count) {
        return Err(Refusal::Count);
    }
    let sheet = read_sheet(&file[start..len - 24], trailer.rate, trailer.round)?;
    Ok(Contents { sheet, count })
}

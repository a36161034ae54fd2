ghost use Rattle.std.specs.Prelude.{◌≡◌, ◌/◌, ◌≤◌, length};
ghost use Rattle.file.specs.Entries.{entry_in, Rewritten, Tabled};

use model::entry::{Entry, Kind, NO_ENTRY};

// The entry that four bytes write.
fn read_entry(bytes: [u8; 4]) -> Option<Entry>
    ensures answers { result ≡ entry_in bytes }
    ensures again { Rewritten bytes result }
{
    let [high, low, kind, 0] = bytes else {
        return None;
    };
    let pid = u16::from_be_bytes([high, low]);
    let kind = Kind::try_from(kind).ok()?;
    Some(Entry { pid, kind })
}

// The table that begins with the entries of these bytes, four for each, unless one of them is none. No heap: the table is whole,
// as `Sheet` wants it, and its caller knows how many are entries.
pub fn read_entries(bytes: &[u8]) -> Option<[Entry; 16]>
    requires { length bytes.now ≤ 64 }
    ensures { Tabled (length bytes.now / 4) bytes.now result }
{
    let mut table = [NO_ENTRY; 16];
    let (parts, _) = bytes.as_chunks::<4>();
    // by index: after `iter_mut` a proof knows no place of the table
    for (i, part) in parts.iter().enumerate() {
        table[i] = read_entry(*part)?;
    }
    Some(table)
}

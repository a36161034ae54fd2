ghost use Rattle.std.specs.Prelude.{◌≡◌, ◌+◌, ◌*◌, ◌≤◌, length};
ghost use Rattle.model.specs.Buffers.{laid};
ghost use Rattle.model.specs.File.{entry_bytes, entries_bytes};
ghost use Rattle.file.specs.Trailers.{bytes_of};

use crate::trailer::{MARK, Trailer};
use model::entry::Entry;

// The four bytes that write an entry.
fn bytes_of_entry(entry: Entry) -> [u8; 4]
    ensures { result ≡ entry_bytes entry }
{
    let [high, low] = entry.pid.to_be_bytes();
    [high, low, entry.kind.into(), 0]
}

// Writes entries at the front of a buffer.
pub fn put_entries(buffer: &mut [u8], entries: &[Entry])
    requires { 4 * length entries.now ≤ length buffer.old }
    ensures { buffer.new ≡ laid 0 (entries_bytes entries.now) buffer.old }
{
    // by index: after `chunks_mut` a proof knows no byte of the buffer
    for (i, entry) in entries.iter().enumerate() {
        buffer[4 * i..4 * i + 4].copy_from_slice(&bytes_of_entry(*entry));
    }
}

pub fn put_trailer(buffer: &mut [u8], at: usize, trailer: Trailer)
    requires { at + 24 ≤ length buffer.old }
    ensures { buffer.new ≡ laid at (bytes_of trailer) buffer.old }
{
    buffer[at..at + 4].copy_from_slice(&trailer.rate.to_be_bytes());
    buffer[at + 4..at + 12].copy_from_slice(&trailer.round.to_be_bytes());
    buffer[at + 12..at + 16].copy_from_slice(&trailer.count.to_be_bytes());
    buffer[at + 16..at + 20].copy_from_slice(&trailer.distance.to_be_bytes());
    buffer[at + 20..at + 24].copy_from_slice(&MARK);
}

ghost use Rattle.std.specs.Prelude.{◌≡◌, ◌<◌, ◌≤◌, length, IfSome};
ghost use Rattle.model.specs.Entries.{kind_of, row_of};
ghost use Rattle.model.specs.Sheets.{entries_of, rate_of, round_of, place_in, kind_in};

use crate::entry::{Entry, Kind};
use crate::sheet::Sheet;

// Where a PID stands among the entries, and its kind.
#[derive(Clone, Copy, Debug, PartialEq, Eq)]
pub struct Listed {
    pub place: usize,
    pub kind: Kind,
}

// What some entries say of a PID.
pub fn find_in(entries: &[Entry], pid: u16) -> Option<Listed>
    ensures place { place_in result ≡ row_of entries.now pid }
    ensures kind { kind_in result ≡ kind_of entries.now pid }
    ensures within { IfSome result (λ found. found.place < length entries.now) }
{
    // a `for` and no `position`: place and kind are found in one look
    for (place, entry) in entries.iter().enumerate() {
        if entry.pid == pid {
            return Some(Listed {
                place,
                kind: entry.kind,
            });
        }
    }
    None
}

impl Sheet {
    pub fn entries(&self) -> &[Entry]
        ensures list { result.now ≡ entries_of self.now }
        ensures few { length result.now ≤ 16 }
    {
        &self.table[0..self.len]
    }

    // Bytes for each second.
    pub fn rate(&self) -> u32
        ensures { result ≡ rate_of self.now }
    {
        self.rate
    }

    // The round length, in ticks of 27 MHz.
    pub fn round_length(&self) -> u64
        ensures { result ≡ round_of self.now }
    {
        self.round
    }

    // What the sheet says of a PID.
    pub fn find(&self, pid: u16) -> Option<Listed>
        ensures place { place_in result ≡ row_of (entries_of self.now) pid }
        ensures kind { kind_in result ≡ kind_of (entries_of self.now) pid }
        ensures few { IfSome result (λ found. found.place < 16) }
    {
        find_in(self.entries(), pid)
    }
}

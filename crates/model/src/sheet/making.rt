ghost use Rattle.std.specs.Prelude.{◌≡◌, ◌≤◌, length, take};
ghost use Rattle.model.specs.Entries.{lawful, kind_of, listed};
ghost use Rattle.model.specs.Sheets.{made, text_of, bad_timing};
ghost use Rattle.model.specs.Refusals.{outcome};

use crate::entry::{Entry, NO_ENTRY};
use crate::refusal::Refusal;
use crate::sheet::reading::find_in;
use crate::sheet::{HIGHEST_PID, HIGHEST_RATE, LONGEST_ROUND, Sheet};

// Whether a PID stands among some entries.
fn is_listed(entries: &[Entry], pid: u16) -> bool
    ensures { result ≡ listed (kind_of entries.now pid) }
{
    find_in(entries, pid).is_some()
}

// Whether all PIDs are up to 8190 and none stands twice.
fn is_lawful(entries: &[Entry]) -> bool
    ensures { result ≡ lawful entries.now }
{
    // a `for` and no `all`: each entry is asked for among those behind it
    for (i, entry) in entries.iter().enumerate() {
        let pid = entry.pid;
        if pid > HIGHEST_PID || is_listed(&entries[i + 1..], pid) {
            return false;
        }
    }
    true
}

fn is_bad_timing(rate: u32, round: u64) -> bool
    ensures { result ≡ bad_timing rate round }
{
    !(1..=HIGHEST_RATE).contains(&rate) || round % 300 != 0 || round > LONGEST_ROUND
}

// The entries at the front of a whole table.
fn table_of(entries: &[Entry]) -> [Entry; 16]
    requires { length entries.now ≤ 16 }
    ensures long { length result ≡ 16 }
    ensures front { take (length entries.now) result ≡ entries.now }
{
    let mut table = [NO_ENTRY; 16];
    table[..entries.len()].copy_from_slice(entries);
    table
}

impl Sheet {
    // A sheet of these entries, byte rate and round length: a struct of the last two would be the sheet but for its entries.
    pub fn new(entries: &[Entry], rate: u32, round: u64) -> Result<Sheet, Refusal>
        ensures { outcome text_of result ≡ made entries.now rate round }
    {
        let len = entries.len();
        if len > 16 || !is_lawful(entries) {
            return Err(Refusal::Entries);
        }
        if is_bad_timing(rate, round) {
            return Err(Refusal::Timing);
        }
        let table = table_of(entries);
        Ok(Sheet {
            table,
            len,
            rate,
            round,
        })
    }
}

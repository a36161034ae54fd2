ghost use Rattle.std.specs.Prelude.{◌≡◌, ◌%◌, ◌≤◌, true, length, take};
ghost use Rattle.model.specs.Entries.{lawful};

use crate::clock::CLOCK_VALUES;
use crate::entry::Entry;

// The data sheet of a reel: what its PIDs carry, its byte rate, and how long a round takes in ticks of 27 MHz.
// Only the first `len` places of the table are entries: no heap, and a sheet is copied, as std's and the kit's vectors are not.
#[derive(Clone, Copy)]
pub struct Sheet {
    table: [Entry; 16],
    len: usize,
    rate: u32,
    round: u64,
    ghost long: { length table ≡ 16 },
    ghost few: { len ≤ 16 },
    ghost entries: { lawful (take len table) ≡ true },
    ghost rated: { (1 ≤ rate) × (rate ≤ 10000000) },
    ghost whole: { (round % 300 ≡ 0) × (round ≤ 2576980377300) },
}

// The highest PID that a sheet lists, the highest byte rate, and the longest round, the last multiple of 300 ticks in a clock's cycle.
pub const HIGHEST_PID: u16 = 8190;

pub const HIGHEST_RATE: u32 = 10_000_000;

pub const LONGEST_ROUND: u64 = CLOCK_VALUES - 300;

pub mod making;
pub mod reading;

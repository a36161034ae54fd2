use model::rule::Rule;
use model::sheet::Sheet;

// What is kept of a PID: its latest sound packet, whether that is a copy, how many packets count for its tally, modulo 16,
// and whether one carried a clock value. The four stand side by side as in `noted_by`; without a latest packet nothing reads `copied`.
#[derive(Clone, Copy)]
pub struct Row {
    last: Option<[u8; 188]>,
    copied: bool,
    tally: u8,
    clocked: bool,
}

// What is kept of all PIDs of a sheet, in its order: no heap, so that there are as many rows as a sheet has entries at most. The clock and
// the sections watch have such a table too: one for all would be an array of a type parameter, which the kit does not prove.
#[derive(Clone, Copy)]
pub struct Ledger {
    sheet: Sheet,
    rows: [Row; 16],
}

// What is judged of a packet: the rule of form or continuity that it breaks, and, whether it breaks one or not, whether the watches
// observe it.
#[derive(Clone, Copy, Debug, PartialEq, Eq)]
pub struct Judged {
    pub rule: Option<Rule>,
    pub observed: bool,
}

// The tallies of the PIDs of a sheet, modulo 16, in its order.
pub type Tallies = [u8; 16];

pub mod judge;

ghost use Rattle.std.specs.Prelude.{◌≡◌, ◌+◌, ◌-◌, ◌*◌, ◌%◌, ◌≤◌};

use crate::progress::Progress;
use model::sheet::Sheet;
use verdict::ledger::Tallies;
use verdict::verdict::Breach;

// Plays a reel round after round, once it is checked. The clock shift is by how many ticks the round begun last is moved.
#[derive(Drop)]
pub struct Player<S, W> {
    reel: S,
    watch: W,
    sheet: Sheet,
    unit: u32,
    seen: Option<Result<Tallies, Breach>>,
    progress: Progress,
    shift: u64,
    ghost rounds: { progress.begun ≤ 1000000 },
    ghost closed: { progress.ended + progress.given_up ≤ progress.begun },
    ghost packets: { progress.place ≤ 1000000000 },
    ghost shifted: { shift ≡ (progress.begun - 1) * sheet.round % 2576980377600 },
}

pub mod calls;

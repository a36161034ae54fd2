ghost use Rattle.std.specs.Prelude.{◌≡◌, true, length};
ghost use Rattle.verdict.specs.Fitting.{fit_rounds};

use crate::ledger::Tallies;
use model::sheet::Sheet;
use reel::reel::Reel;

// Rounds of another reel, restamped.
#[derive(Drop)]
pub struct Rounds<R: Reel> {
    below: R,
    sheet: Sheet,
    tallies: Tallies,
    rounds: u32,
    ghost fit: { fit_rounds rounds (length (R.Reel.packets below)) ≡ true },
}

pub mod layer;

ghost use Rattle.std.specs.Prelude.{◌≡◌};
ghost use Rattle.model.specs.Sheets.{entries_of};
ghost use Rattle.verdict.specs.Ledgers.{Tallied};

use crate::ledger::{Ledger, Tallies};
use model::sheet::Sheet;
use reel::reel::Reel;

// The tallies of a reel, modulo 16, in the order of the sheet.
pub fn tallies<R: Reel>(reel: &mut R, sheet: &Sheet) -> Tallies
    ensures keeps { R.Reel.packets reel.new ≡ R.Reel.packets reel.old }
    ensures counts { Tallied (entries_of sheet.now) (R.Reel.packets reel.old) result }
{
    let mut ledger = Ledger::new(sheet);
    // a reel is fetched from by place
    for i in 0..reel.count() {
        let mut packet = [0u8; 188];
        let _ = reel.fetch(i, &mut packet);
        let _ = ledger.judge(&packet);
    }
    ledger.tallies()
}

ghost use Rattle.std.specs.Prelude.{◌≡◌, ◌*◌, ◌≤◌, IfOk};
ghost use Rattle.model.specs.Breaches.{verdict, Decides};
ghost use Rattle.model.specs.Sheets.{entries_of, round_of};
ghost use Rattle.model.specs.Watches.{Finding};
ghost use Rattle.verdict.specs.Ledgers.{Tallied, Looks, Rounds};
ghost use Rattle.verdict.specs.Verdicts.{breach_of};

use crate::ledger::{Ledger, Tallies};
use crate::restamping::restamp;
use crate::verdict::{Breach, Verdict};
use model::rule::Rule;
use model::sheet::Sheet;
use reel::reel::Reel;
use watch::watch::Watch;

// Judges a packet at its place in the run, and shows it to the watch.
fn look<W: Watch>(
    watch: &mut W,
    ledger: &mut Ledger,
    place: u64,
    packet: &[u8; 188],
) -> Option<Rule>
    ensures same { ledger.new.sheet ≡ ledger.old.sheet }
    ensures looks { Looks (entries_of ledger.old.sheet) place packet.now ledger.old.rows (W.Watch.finding watch.old) result ledger.new.rows (W.Watch.finding watch.new) }
{
    let judged = ledger.judge(packet);
    if judged.rule.is_none() && judged.observed {
        watch.observe(place, packet)
    } else {
        judged.rule
    }
}

// Goes through round 0 or 1, to its first breach.
fn check_round<R: Reel, W: Watch>(
    reel: &mut R,
    watch: &mut W,
    ledger: &mut Ledger,
    tallies: &Tallies,
    round: u32,
) -> Result<(), Breach>
    requires { round ≤ 1 }
    ensures keeps { R.Reel.packets reel.new ≡ R.Reel.packets reel.old }
    ensures same { ledger.new.sheet ≡ ledger.old.sheet }
    ensures finds { (f : Finding) → Rounds (entries_of ledger.old.sheet) (round_of ledger.old.sheet) f (R.Reel.packets reel.old) round tallies.now ledger.old.rows (W.Watch.finding watch.old) result ledger.new.rows (W.Watch.finding watch.new) }
{
    let sheet = *ledger.sheet();
    let n = reel.count();
    let ticks = round as u64 * sheet.round_length();
    // a reel is fetched from by place, and the place is what a breach names
    for i in 0..n {
        let mut packet = [0u8; 188];
        let _ = reel.fetch(i, &mut packet);
        restamp(&sheet, tallies, round, ticks, &mut packet);
        let place = round as u64 * n as u64 + i as u64;
        if let Some(rule) = look(watch, ledger, place, &packet) {
            return Err(Breach {
                round,
                packet: i,
                rule,
            });
        }
    }
    Ok(())
}

// Two rounds, shown to a watch as it stands, and rule 31 between them: the tallies of round 0, or the first breach.
pub fn check_with<R: Reel, W: Watch>(
    reel: &mut R,
    watch: &mut W,
    sheet: &Sheet,
) -> Result<Tallies, Breach>
    ensures keeps { R.Reel.packets reel.new ≡ R.Reel.packets reel.old }
    ensures answers { breach_of result ≡ verdict (entries_of sheet.now) (round_of sheet.now) (W.Watch.finding watch.old) (R.Reel.packets reel.old) }
    ensures counts { IfOk result (Tallied (entries_of sheet.now) (R.Reel.packets reel.old)) }
{
    let mut ledger = Ledger::new(sheet);
    let first = check_round(reel, watch, &mut ledger, &[0; 16], 0);
    first?;
    if !ledger.all_clocked() {
        return Err(Breach {
            round: 0,
            packet: reel.count(),
            rule: Rule::Unclocked,
        });
    }
    let tallies = ledger.tallies();
    check_round(reel, watch, &mut ledger, &tallies, 1)?;
    Ok(tallies)
}

// The check of a reel under a sheet: one answer for every number of rounds.
pub fn check<R: Reel, W: Watch + Drop>(reel: &mut R, sheet: &Sheet) -> Verdict
    ensures keeps { R.Reel.packets reel.new ≡ R.Reel.packets reel.old }
    ensures answers { breach_of result ≡ verdict (entries_of sheet.now) (round_of sheet.now) (W.Watch.fresh sheet.now) (R.Reel.packets reel.old) }
    ensures decides { Decides (entries_of sheet.now) (round_of sheet.now) (W.Watch.fresh sheet.now) (R.Reel.packets reel.old) (breach_of result) }
{
    let mut watch = W::make(sheet);
    check_with(reel, &mut watch, sheet)?;
    Ok(())
}

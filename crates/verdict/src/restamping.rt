ghost use Rattle.std.specs.Prelude.{◌≡◌};
ghost use Rattle.model.specs.Sheets.{entries_of};
ghost use Rattle.verdict.specs.Tallies.{restamped_by};

use crate::ledger::Tallies;
use model::sheet::Sheet;
use packet::header::pid;
use packet::moving::move_on_as;

// Moves a packet on to its round: its counter by the round times its PID's tally, its clock and stamps by so many ticks. The five stay
// arguments: the check, rounds and the player each keep another part of them, and count the ticks in another way.
pub fn restamp(sheet: &Sheet, tallies: &Tallies, round: u32, ticks: u64, packet: &mut [u8; 188])
    ensures { packet.new ≡ restamped_by (entries_of sheet.now) ticks tallies.now round packet.old }
{
    let found = sheet.find(pid(packet));
    let tally = match found {
        Some(listed) => tallies[listed.place],
        None => 0,
    };
    let steps = u64::from(round) * u64::from(tally);
    let kind = found.map(|listed| listed.kind);
    move_on_as(kind, packet, steps, ticks);
}

ghost use Rattle.std.specs.Prelude.{◌≡◌, ◌<◌, ◌≤◌, [], length, slice_index_or};
ghost use Rattle.model.specs.Sheets.{entries_of, round_of};
ghost use Rattle.verdict.specs.Fitting.{fit_rounds};
ghost use Rattle.verdict.specs.RoundReels.{rounds_of, rounds_made, rounds_due};
ghost use Rattle.verdict.specs.Tallies.{round_stamped};
ghost use Rattle.verdict.specs.RoundLaws.{rounds_whole};

use crate::restamping::restamp;
use crate::rounds::Rounds;
use crate::tallying::tallies;
use model::refusal::Refusal;
use model::sheet::Sheet;
use reel::reel::{Reel, allow_fetch};

// Whether n rounds of so many packets are a reel.
fn fit(n: u32, count: usize) -> bool
    requires { count ≤ 1000000000 }
    ensures { result ≡ fit_rounds n count }
{
    (1..=1_000_000).contains(&n) && n as usize * count <= 1_000_000_000
}

impl<R: Reel> Rounds<R> {
    // Refuses where there are no rounds, too many, or too many packets in them, and hands the reel back.
    pub fn new(mut below: R, sheet: Sheet, n: u32) -> Result<Rounds<R>, (Refusal, R)>
        ensures { rounds_made R.Reel.packets result ≡ rounds_due R.Reel.packets below sheet n }
    {
        let count = below.count();
        if !fit(n, count) {
            return Err((Refusal::Extent, below));
        }
        let tallies = tallies(&mut below, &sheet);
        Ok(Rounds {
            below,
            sheet,
            tallies,
            rounds: n,
        })
    }

    // Fetches a packet of the reel below and moves it on to a round.
    fn fetch_round(&mut self, round: u32, place: usize, packet: &mut [u8; 188])
        requires { (round ≤ 1000000) × (place < length (R.Reel.packets self.old.below)) }
        ensures keeps { R.Reel.packets self.new.below ≡ R.Reel.packets self.old.below }
        ensures same { (self.new.sheet ≡ self.old.sheet) × ((self.new.tallies ≡ self.old.tallies) × (self.new.rounds ≡ self.old.rounds)) }
        ensures writes { packet.new ≡ round_stamped (entries_of self.old.sheet) (round_of self.old.sheet) self.old.tallies round (slice_index_or (R.Reel.packets self.old.below) place []) }
    {
        let _ = self.below.fetch(place, packet);
        let ticks = u64::from(round) * self.sheet.round_length();
        restamp(&self.sheet, &self.tallies, round, ticks, packet);
    }
}

impl<R: Reel> Reel for Rounds<R> {
    ghost packets = { λ r. rounds_of r (R.Reel.packets r.below) };

    ghost whole = { λ s. rounds_whole (entries_of s.sheet) (round_of s.sheet) s.tallies s.rounds (R.Reel.packets s.below) s.sheet.whole.0 (R.Reel.whole s.below) };

    fn count(&self) -> usize {
        self.rounds as usize * self.below.count()
    }

    fn fetch(&mut self, place: usize, buffer: &mut [u8]) -> Result<(), Refusal> {
        let count = self.below.count();
        allow_fetch(self.rounds as usize * count, place, buffer.len())?;
        let mut packet = [0u8; 188];
        self.fetch_round((place / count) as u32, place % count, &mut packet);
        buffer.copy_from_slice(&packet);
        Ok(())
    }
}

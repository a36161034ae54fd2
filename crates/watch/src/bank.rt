ghost use Rattle.model.specs.Watches.{bank};
ghost use Rattle.model.specs.Sheets.{entries_of, round_of};
ghost use Rattle.laws.proofs.Final.{bank_keeps};

use crate::watch::Watch;
use model::rule::Rule;
use model::sheet::Sheet;

// Two watches in one, the first's finding going before.
#[derive(Drop)]
pub struct Bank<A, B> {
    first: A,
    second: B,
}

impl<A: Watch, B: Watch> Watch for Bank<A, B> {
    ghost finding = { λ b. bank (A.Watch.finding b.first) (B.Watch.finding b.second) };

    ghost fresh = { λ s. bank (A.Watch.fresh s) (B.Watch.fresh s) };

    ghost rounds = { λ s. bank_keeps (entries_of s) (round_of s) (A.Watch.fresh s) (B.Watch.fresh s) (A.Watch.rounds s) (B.Watch.rounds s) };

    fn make(sheet: &Sheet) -> Bank<A, B> {
        Bank {
            first: A::make(sheet),
            second: B::make(sheet),
        }
    }

    fn observe(&mut self, place: u64, packet: &[u8; 188]) -> Option<Rule> {
        let first = self.first.observe(place, packet);
        let second = self.second.observe(place, packet);
        first.or(second)
    }
}

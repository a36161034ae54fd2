ghost use Rattle.std.specs.Prelude.{◌≡◌, ◌-◌, List, length, if◌then◌else◌, None};
ghost use Rattle.model.specs.Breaches.{verdict as answer};
ghost use Rattle.model.specs.Player as rules;
ghost use Rattle.model.specs.Runs.{Placed};
ghost use Rattle.model.specs.Sheets.{entries_of, round_of};
ghost use Rattle.verdict.specs.Tallies.{round_stamped};
ghost use Rattle.verdict.specs.Verdicts.{breach_of};
ghost use Rattle.player.specs.Players.{standing_of, refused_by, Same, checked_by, sent_packet, Noted, tallies_in};
ghost use Rattle.player.specs.Standings as st;

use crate::progress::player::Player;
use crate::progress::refusals::Standing;
use crate::progress::{Counts, Progress, RoundId, Token};
use model::clock::CLOCK_VALUES;
use model::refusal::Refusal;
use model::sheet::Sheet;
use reel::reel::Reel;
use verdict::check::check_with;
use verdict::ledger::Tallies;
use verdict::restamping::restamp;
use verdict::verdict::Verdict;
use watch::watch::Watch;

impl<S: Reel, W: Watch> Player<S, W> {
    pub fn new(reel: S, sheet: Sheet, unit: u32) -> Player<S, W>
        ensures holds { (result.reel ≡ reel) × ((result.sheet ≡ sheet) × (result.unit ≡ unit)) }
        ensures starts { (result.seen ≡ None) × (result.progress ≡ record { begun = 0; ended = 0; given_up = 0; place = 0 }) }
        ensures unmoved { result.shift ≡ 0 }
        ensures fresh { (xs : List Placed) (x : Placed) → W.Watch.finding result.watch xs x ≡ W.Watch.fresh sheet xs x }
    {
        let watch = W::make(&sheet);
        Player {
            reel,
            watch,
            sheet,
            unit,
            seen: None,
            progress: Progress {
                begun: 0,
                ended: 0,
                given_up: 0,
                place: 0,
            },
            shift: 0,
        }
    }

    fn standing(&self) -> Standing
        ensures { st.standing_by result ≡ standing_of self.now }
    {
        Standing {
            approved: matches!(self.seen, Some(Ok(_))),
            progress: self.progress,
        }
    }

    // The check, made once; called again it answers the same.
    pub fn check(&mut self) -> Verdict
        ensures keeps { S.Reel.packets self.new.reel ≡ S.Reel.packets self.old.reel }
        ensures same { (self.new.sheet ≡ self.old.sheet) × ((self.new.unit ≡ self.old.unit) × (self.new.progress ≡ self.old.progress)) }
        ensures answers { breach_of result ≡ checked_by self.old.seen (answer (entries_of self.old.sheet) (round_of self.old.sheet) (W.Watch.finding self.old.watch) (S.Reel.packets self.old.reel)) }
        ensures notes { Noted (entries_of self.old.sheet) (S.Reel.packets self.old.reel) self.old.seen result self.new.seen }
    {
        let seen = match self.seen {
            Some(seen) => seen,
            None => {
                let seen = check_with(&mut self.reel, &mut self.watch, &self.sheet);
                self.seen = Some(seen);
                seen
            }
        };
        seen?;
        Ok(())
    }

    pub fn begin(&mut self) -> Result<Token, Refusal>
        ensures same { Same self.old self.new }
        ensures answers { st.began_of result ≡ rules.answered (refused_by S.Reel.packets self.old rules.begin) (rules.began self.old.unit self.old.progress.begun) }
        ensures moves { self.new.progress ≡ st.after_begin (st.granted? (refused_by S.Reel.packets self.old rules.begin)) self.old.progress }
    {
        self.standing().allow_begin()?;
        let round = self.progress.begun;
        if round > 0 {
            self.shift = (self.shift + self.sheet.round_length()) % CLOCK_VALUES;
        }
        self.progress.begun = round + 1;
        self.progress.place = 0;
        Ok(Token {
            id: RoundId {
                unit: self.unit,
                round,
            },
        })
    }

    fn is_ours(&self, id: RoundId) -> bool
        ensures { result ≡ rules.ours self.now.unit self.now.progress.begun id.unit id.round }
    {
        id.unit == self.unit && id.round as u64 + 1 == self.progress.begun as u64
    }

    pub fn end(&mut self, token: Token) -> Result<(), (Refusal, Token)>
        ensures same { Same self.old self.new }
        ensures answers { st.closed_of rules.ended result ≡ rules.answered (refused_by S.Reel.packets self.old (rules.finish token.id.unit token.id.round)) rules.ended }
        ensures back { st.Back token result }
        ensures moves { self.new.progress ≡ st.after_end (st.granted? (refused_by S.Reel.packets self.old (rules.finish token.id.unit token.id.round))) self.old.progress }
    {
        let n = self.reel.count();
        let ours = self.is_ours(token.id);
        if let Err(refusal) = self.standing().allow_end(ours, n) {
            return Err((refusal, token));
        }
        let Token { id: _ } = token;
        self.progress.ended += 1;
        Ok(())
    }

    // As `end`, but for the refusal and what is counted: one function of both would take the two as arguments and say neither.
    pub fn give_up(&mut self, token: Token) -> Result<(), (Refusal, Token)>
        ensures same { Same self.old self.new }
        ensures answers { st.closed_of rules.gave_up result ≡ rules.answered (refused_by S.Reel.packets self.old (rules.give_up token.id.unit token.id.round)) rules.gave_up }
        ensures back { st.Back token result }
        ensures moves { self.new.progress ≡ st.after_give_up (st.granted? (refused_by S.Reel.packets self.old (rules.give_up token.id.unit token.id.round))) self.old.progress }
    {
        let ours = self.is_ours(token.id);
        if let Err(refusal) = self.standing().allow_give_up(ours) {
            return Err((refusal, token));
        }
        let Token { id: _ } = token;
        self.progress.given_up += 1;
        Ok(())
    }

    pub fn send(&mut self, buffer: &mut [u8]) -> Result<(), Refusal>
        ensures keeps { S.Reel.packets self.new.reel ≡ S.Reel.packets self.old.reel }
        ensures same { (self.new.sheet ≡ self.old.sheet) × ((self.new.unit ≡ self.old.unit) × ((self.new.seen ≡ self.old.seen) × (self.new.watch ≡ self.old.watch))) }
        ensures answers { st.refusal_of result ≡ refused_by S.Reel.packets self.old (rules.send buffer.old) }
        ensures moves { self.new.progress ≡ st.after_send (st.granted? (st.refusal_of result)) self.old.progress }
        ensures writes { buffer.new ≡ (if st.granted? (st.refusal_of result) then sent_packet self.old (S.Reel.packets self.old.reel) else buffer.old) }
    {
        let n = self.reel.count();
        self.standing().allow_send(n, buffer.len())?;
        let mut packet = [0u8; 188];
        let _ = self.reel.fetch(self.progress.place, &mut packet);
        self.restamp_now(&mut packet);
        buffer.copy_from_slice(&packet);
        self.progress.place += 1;
        Ok(())
    }

    // Moves a packet on to the round begun last.
    fn restamp_now(&self, packet: &mut [u8; 188])
        ensures { packet.new ≡ round_stamped (entries_of self.now.sheet) (round_of self.now.sheet) (tallies_in self.now.seen) (self.now.progress.begun - 1) packet.old }
    {
        let tallies = self.tallies();
        restamp(
            &self.sheet,
            &tallies,
            self.progress.begun.saturating_sub(1),
            self.shift,
            packet,
        );
    }

    fn tallies(&self) -> Tallies
        ensures { result ≡ tallies_in self.now.seen }
    {
        match self.seen {
            Some(Ok(tallies)) => tallies,
            Some(Err(_)) | None => [0; 16],
        }
    }

    pub fn question(&self) -> Counts
        ensures { st.counts_of result ≡ rules.counts (length (S.Reel.packets self.now.reel)) (standing_of self.now) }
    {
        let at = self.progress;
        let packets = at.begun.saturating_sub(1) as u64 * self.reel.count() as u64
            + at.place as u64;
        Counts {
            begun: at.begun,
            ended: at.ended,
            given_up: at.given_up,
            packets,
            open: at.is_open(),
        }
    }
}

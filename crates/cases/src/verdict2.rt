// The check and the restamping of the further implementation.
use crate::other::{
    CLOCK_VALUES, NULL, Packet, STAMP_VALUES, Seen, clock, clock_rules, continuity, has_clock,
    has_payload, kind, payload_mut, pes_start, pid, put_clock, stamp_bytes, stamp_count,
};
use crate::sections::{Stop, sections};
use model::entry::{Entry, Kind};
use model::rule::Rule;
use std::alloc::{AllocError, Global};
use verdict::verdict::{Breach, Verdict};

// A time stamp, moved on by some ticks of 90 kHz.
fn moved_stamp([a, b, c, d, e]: [u8; 5], ticks: u64) -> [u8; 5] {
    let high = u64::from(a >> 1 & 7);
    let middle = u64::from(u16::from_be_bytes([b, c]) >> 1);
    let low = u64::from(u16::from_be_bytes([d, e]) >> 1);
    let value = ((high << 30) + (middle << 15) + low + ticks % STAMP_VALUES) % STAMP_VALUES;
    stamp_bytes(a, value)
}

// Moves a packet's clock value on by some ticks of 27 MHz.
fn move_clock(packet: &mut Packet, ticks: u64) {
    let value = clock(packet) + ticks % CLOCK_VALUES;
    put_clock(packet, value);
}

// How many packets of a PID count in a reel.
fn tally(reel: &[Seen], wanted: u16) -> usize {
    reel.iter()
        .filter(|seen| {
            seen.form.is_ok()
                && pid(&seen.packet) == wanted
                && has_payload(&seen.packet)
                && !seen.copy
        })
        .count()
}

// Whether a PID of the clock kind carries no clock value.
fn lacks_clock(entries: &[Entry], reel: &[Seen]) -> bool {
    entries.iter().any(|entry| {
        entry.kind == Kind::Clock
            && !reel.iter().any(|seen| {
                seen.form.is_ok() && pid(&seen.packet) == entry.pid && has_clock(&seen.packet)
            })
    })
}

// What a reel is checked under, and where memory is taken.
#[derive(Clone, Copy)]
pub struct Checker<'a> {
    pub heap: Global,
    pub entries: &'a [Entry],
    pub rate: u32,
    pub round: u64,
}

impl Checker<'_> {
    fn seen(&self, run: &[Packet]) -> Result<Vec<Seen>, AllocError> {
        let mut seen = Vec::new(self.heap);
        for packet in run {
            seen.push(Seen::new(self.entries, seen.as_slice(), *packet))?;
        }
        Ok(seen)
    }

    // A packet of round 0 as it stands in round 1.
    fn restamped(&self, reel: &[Seen], here: &Seen) -> Packet {
        let mut packet = here.packet;
        if here.form.is_err() || pid(&packet) == NULL {
            return packet;
        }
        if let Some(payload) = pes_start(self.entries, &here.packet)
            && let Ok(count) = stamp_count(payload)
            && let Some((_, stamps)) = payload_mut(&mut packet).split_at_mut_checked(9)
        {
            for stamp in stamps.as_chunks_mut::<5>().0.iter_mut().take(count) {
                *stamp = moved_stamp(*stamp, self.round / 300);
            }
        }
        if has_clock(&packet) {
            move_clock(&mut packet, self.round);
        }
        let steps = (tally(reel, pid(&packet)) % 16) as u8;
        packet[3] = packet[3] & 0xF0 | packet[3].wrapping_add(steps) & 0x0F;
        packet
    }

    // A reel and its first restamped round.
    pub fn two_rounds(&self, reel: &[Packet]) -> Result<Vec<Packet>, AllocError> {
        let seen = self.seen(reel)?;
        let mut run = reel.to_vec(self.heap)?;
        for here in &seen {
            run.push(self.restamped(seen.as_slice(), here))?;
        }
        Ok(run)
    }

    // The rule that a packet of a run breaks first.
    fn judge(&self, before: &[Seen], here: &Seen) -> Result<(), Stop> {
        here.form?;
        continuity(before, here)?;
        if !here.is_observed() {
            return Ok(());
        }
        clock_rules(self.rate, before, here)?;
        if kind(self.entries, pid(&here.packet)) == Some(Kind::Sections) {
            return sections(self.heap, before, &here.packet);
        }
        if let Some(payload) = pes_start(self.entries, &here.packet) {
            stamp_count(payload)?;
        }
        Ok(())
    }

    // The first breach of two rounds.
    pub fn check(&self, reel: &[Packet]) -> Result<Verdict, AllocError> {
        let run = self.two_rounds(reel)?;
        let run = self.seen(run.as_slice())?;
        for (place, here) in run.iter().enumerate() {
            let before = &run[..place];
            let (round, packet) = match place.checked_sub(reel.len()) {
                None => (0, place),
                Some(0) if lacks_clock(self.entries, before) => {
                    return Ok(Err(Breach {
                        round: 0,
                        packet: place,
                        rule: Rule::Unclocked,
                    }));
                }
                Some(packet) => (1, packet),
            };
            match self.judge(before, here) {
                Ok(()) => {}
                Err(Stop::Broken(rule)) => {
                    return Ok(Err(Breach {
                        round,
                        packet,
                        rule,
                    }));
                }
                Err(Stop::OutOfMemory) => return Err(AllocError),
            }
        }
        Ok(Ok(()))
    }
}

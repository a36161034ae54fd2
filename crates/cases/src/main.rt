#![tactic(auto)]

// Every worked case and some hundred generated reels, through the library and through an implementation written apart from it.
mod files;
mod makes;
mod other;
mod sections;
mod tried;
mod verdict2;

use anyhow::{Context, ensure};
use makes::{Numbers, clock, empty, filler, generated_reel, plain, section_reel, stamped};
use model::entry::Kind;
use other::Packet;
use std::alloc::AllocError;
use tried::{Tried, try_reel};

// Where the lines go, and how many reels were tried, and on how many both agree.
#[derive(Drop)]
struct Trial<'a> {
    rt: &'a HostRuntime,
    tried: u32,
    agreed: u32,
}

impl Trial<'_> {
    // Tries a reel of a kind with this round length. Where its line stands below a heading, both are written once it was tried.
    fn attempt(&self, kind: Kind, round: u64, reel: &[u8]) -> Result<Tried, AllocError> {
        try_reel(self.rt.alloc(), kind, round, reel)
    }

    // Writes the line of a reel that was tried.
    fn note(&mut self, name: &str, tried: Tried) -> anyhow::Result<()> {
        self.tried = self.tried.saturating_add(1);
        if tried.agree {
            self.agreed = self.agreed.saturating_add(1);
        }
        println!(self.rt; "{name}: {tried}")?;
        Ok(())
    }

    // Tries a reel and writes its line.
    fn say(&mut self, name: &str, kind: Kind, round: u64, reel: &[u8]) -> anyhow::Result<()> {
        let tried = self.attempt(kind, round, reel)?;
        self.note(name, tried)
    }
}

fn clocks(trial: &mut Trial<'_>) -> anyhow::Result<()> {
    for ticks in [53_827, 53_828, 54_172, 54_173] {
        let reel = [clock(0, 0), filler(), clock(0, ticks), filler()];
        let tried = trial.attempt(Kind::Clock, 108_000, reel.as_flattened())?;
        println!(trial.rt; "two packets apart, {ticks} ticks")?;
        trial.note("  clock", tried)?;
    }
    for round in [54_000, 54_300] {
        let reel = [clock(0, 0), filler()];
        let tried = trial.attempt(Kind::Clock, round, reel.as_flattened())?;
        println!(trial.rt; "a clock value in the first of two packets, {round} ticks a round")?;
        trial.note("  clock", tried)?;
    }
    Ok(())
}

fn wraps(trial: &mut Trial<'_>) -> anyhow::Result<()> {
    let reel = clock(0, 2_576_980_377_599);
    trial.say("the last clock value", Kind::Clock, 27_000, &reel)?;
    let reel = stamped(0, 8_589_934_591);
    trial.say("the last stamp", Kind::Pes, 300, &reel)
}

fn counters(trial: &mut Trial<'_>) -> anyhow::Result<()> {
    let cases: [(&str, &[Packet]); 4] = [
        ("counters 5, 5, 6", &[plain(5), plain(5), plain(6)]),
        ("three equal packets", &[plain(5), plain(5), plain(5)]),
        ("no payload after 5, counter 5", &[plain(5), empty(5)]),
        ("no payload after 5, counter 6", &[plain(5), empty(6)]),
    ];
    for (name, reel) in cases {
        trial.say(name, Kind::Pes, 0, reel.as_flattened())?;
    }
    Ok(())
}

fn fields(trial: &mut Trial<'_>) -> anyhow::Result<()> {
    for (control, length) in [(0x30, 182), (0x20, 182), (0x20, 183), (0x30, 183)] {
        let mut packet = empty(0);
        packet[3] = control;
        packet[4] = length;
        let tried = trial.attempt(Kind::Pes, 0, &packet)?;
        println!(trial.rt; "fourth byte {control}, adaptation length {length}")?;
        trial.note("  field", tried)?;
    }
    Ok(())
}

fn section_lengths(trial: &mut Trial<'_>) -> anyhow::Result<()> {
    for length in [8, 9, 1_021, 1_022] {
        let reel = section_reel(trial.rt.alloc(), length)?;
        let tried = trial.attempt(Kind::Sections, 0, reel.as_slice().as_flattened())?;
        println!(trial.rt; "section_length {length}")?;
        trial.note("  section", tried)?;
    }
    Ok(())
}

fn sizes(trial: &mut Trial<'_>) -> anyhow::Result<()> {
    let reel = [filler(), filler()];
    for size in [187, 188, 375] {
        let bytes = reel.as_flattened().get(..size).context("too few bytes")?;
        let tried = trial.attempt(Kind::Pes, 27_000, bytes)?;
        println!(trial.rt; "{size} bytes of filler")?;
        trial.note("  memory", tried)?;
    }
    Ok(())
}

fn generated(trial: &mut Trial<'_>) -> anyhow::Result<()> {
    let mut numbers = Numbers::new(1);
    for _ in 0..300u32 {
        let kind = numbers.kind();
        let reel = generated_reel(trial.rt.alloc(), &mut numbers, kind)?;
        let round = (reel.len() as u64)
            .checked_mul(27_000)
            .context("a round too long")?;
        trial.say("generated", kind, round, reel.as_slice().as_flattened())?;
    }
    Ok(())
}

fn run(rt: &HostRuntime) -> anyhow::Result<()> {
    files::say_all(rt)?;
    let mut trial = Trial {
        rt,
        tried: 0,
        agreed: 0,
    };
    clocks(&mut trial)?;
    wraps(&mut trial)?;
    counters(&mut trial)?;
    fields(&mut trial)?;
    section_lengths(&mut trial)?;
    sizes(&mut trial)?;
    generated(&mut trial)?;
    println!(rt; "{} of {} agreed", trial.agreed, trial.tried)?;
    ensure!(trial.agreed == trial.tried, "the implementations differ");
    Ok(())
}

fn main(rt: HostRuntime) -> anyhow::Result<()> {
    run(&rt)
}

#![tactic(auto)]

// Reads a reel file from standard input and prints the report on it.
use report::report::reel_report;
use std::io::{Read, Write};

// One byte more than the longest file that is reported on: no more is needed to know that a file is too long.
const ENOUGH: u64 = 65_537;

fn main(rt: HostRuntime) -> anyhow::Result<()> {
    let mut file = Vec::new(rt.alloc());
    rt.stdin().take(ENOUGH).read_to_end(&mut file)?;
    let mut out = [0u8; 64];
    let written = reel_report(&file, &mut out);
    rt.stdout().write_all(&out[..written])?;
    Ok(())
}

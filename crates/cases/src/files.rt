// Reel files at the edges of what is read.
use crate::makes::filler;
use anyhow::Context;
use report::report::reel_report;
use std::alloc::{AllocError, Global};

// The parts of a file, each free to be wrong.
#[derive(Clone, Copy)]
struct Parts {
    bytes: usize,
    entries: u16,
    pid: u16,
    // a byte of the file, which may be that of no kind
    kind: u8,
    fourth: u8,
    rate: u32,
    round: u64,
    count: u32,
    distance: u32,
}

// One filler packet and no entry.
const SMALLEST: Parts = Parts {
    bytes: 188,
    entries: 0,
    pid: 0,
    kind: 0,
    fourth: 0,
    rate: 188_000,
    round: 27_000,
    count: 1,
    distance: 24,
};

// One filler packet and one entry.
const WITH_ENTRY: Parts = Parts {
    entries: 1,
    distance: 28,
    ..SMALLEST
};

// The file of these parts: filler bytes, entries of PIDs that count up, and the trailer.
fn file_of(heap: Global, parts: Parts) -> Result<Vec<u8>, AllocError> {
    let mut file = Vec::new(heap);
    file.extend(filler().iter().copied().cycle().take(parts.bytes))?;
    for i in 0..parts.entries {
        file.extend_from_slice(&parts.pid.wrapping_add(i).to_be_bytes())?;
        file.extend_from_slice(&[parts.kind, parts.fourth])?;
    }
    file.extend_from_slice(&parts.rate.to_be_bytes())?;
    file.extend_from_slice(&parts.round.to_be_bytes())?;
    file.extend_from_slice(&parts.count.to_be_bytes())?;
    file.extend_from_slice(&parts.distance.to_be_bytes())?;
    file.extend_from_slice(b"REEL")?;
    Ok(file)
}

// Prints the report on a file.
fn say_file(rt: &HostRuntime, name: &str, file: &[u8]) -> anyhow::Result<()> {
    let mut out = [0u8; 64];
    let written = reel_report(file, &mut out);
    let text = out.get(..written).context("too long")?;
    let line = std::str::from_utf8(text)?
        .lines()
        .next()
        .context("no line")?;
    println!(rt; "{name}: {line}")?;
    Ok(())
}

// The smallest file, and its last bytes alone.
fn say_ends(rt: &HostRuntime) -> anyhow::Result<()> {
    let file = file_of(rt.alloc(), SMALLEST)?;
    let file = file.as_slice();
    say_file(rt, "the smallest file", file)?;
    let last = file.last_chunk::<23>().context("too short")?;
    say_file(rt, "its last 23 bytes", last)?;
    let last = file.last_chunk::<24>().context("too short")?;
    say_file(rt, "its last 24 bytes", last)
}

pub fn say_all(rt: &HostRuntime) -> anyhow::Result<()> {
    say_ends(rt)?;
    let s = SMALLEST;
    let e = WITH_ENTRY;
    for (name, parts) in [
        ("a distance of 23", Parts { distance: 23, ..s }),
        ("a distance of 26", Parts { distance: 26, ..s }),
        (
            "sixteen entries",
            Parts {
                entries: 16,
                distance: 88,
                ..s
            },
        ),
        (
            "seventeen entries",
            Parts {
                entries: 17,
                distance: 92,
                ..s
            },
        ),
        ("187 bytes of packets", Parts { bytes: 187, ..s }),
        ("375 bytes of packets", Parts { bytes: 375, ..s }),
        ("two packets, one stated", Parts { bytes: 376, ..s }),
        (
            "no packet",
            Parts {
                bytes: 0,
                count: 0,
                ..s
            },
        ),
        (
            "348 packets",
            Parts {
                bytes: 65_424,
                count: 348,
                ..s
            },
        ),
        (
            "349 packets",
            Parts {
                bytes: 65_612,
                count: 349,
                ..s
            },
        ),
        ("PID 8190", Parts { pid: 8190, ..e }),
        ("PID 8191", Parts { pid: 8191, ..e }),
        ("kind 2", Parts { kind: 2, ..e }),
        ("kind 3", Parts { kind: 3, ..e }),
        ("a fourth byte of 1", Parts { fourth: 1, ..e }),
        ("rate 0", Parts { rate: 0, ..s }),
        (
            "rate 10000000",
            Parts {
                rate: 10_000_000,
                ..s
            },
        ),
        (
            "rate 10000001",
            Parts {
                rate: 10_000_001,
                ..s
            },
        ),
        ("round 299", Parts { round: 299, ..s }),
        ("round 300", Parts { round: 300, ..s }),
        (
            "the longest round",
            Parts {
                round: 2_576_980_377_300,
                ..s
            },
        ),
        (
            "a longer round",
            Parts {
                round: 2_576_980_377_600,
                ..s
            },
        ),
    ] {
        let file = file_of(rt.alloc(), parts)?;
        say_file(rt, name, file.as_slice())?;
    }
    Ok(())
}

#![tactic(auto)]

// Makes a reel file of a transport stream: packets come in on standard input, and the file goes out on standard output.
mod fault;

use fault::Fault;
use file::packing::{PackError, pack};
use model::sheet::Sheet;
use model::sheet::reading::find_in;
use std::env;
use std::io::{Read, Write};
use std::process::ExitCode;
use words::arguments::{entry, rate, round};

// How much is read before the next word on how far it is: 65,536 packets.
const PORTION: u64 = 188 * 65_536;

// The sheet that the command line asks for.
fn sheet(rt: &HostRuntime) -> Result<Sheet, Fault> {
    let mut args = env::args(rt).map_err(|error| Fault::Arguments(error.into()))?;
    let _program = args.next();
    let text = args.next().ok_or(Fault::Usage)?;
    let rate = rate(text.as_str()).ok_or(Fault::Rate(text))?;
    let text = args.next().ok_or(Fault::Usage)?;
    let round = round(text.as_str()).ok_or(Fault::Round(text))?;
    let mut entries = Vec::new(rt.alloc());
    for text in args {
        let Some(entry) = entry(text.as_str()) else {
            return Err(Fault::Entry(text));
        };
        if find_in(entries.as_slice(), entry.pid).is_some() {
            return Err(Fault::Repeated(text));
        }
        entries.push(entry)?;
    }
    if entries.len() > 16 {
        return Err(Fault::Entries(entries.len()));
    }
    Ok(Sheet::new(entries.as_slice(), rate, round)?)
}

// All of standard input.
fn input(rt: &HostRuntime) -> Result<Vec<u8>, Fault> {
    let _ = eprintln!(rt; "reelpack: reading packets from standard input");
    let mut bytes = Vec::new(rt.alloc());
    for _ in 0..u64::MAX {
        let more = rt
            .stdin()
            .take(PORTION)
            .read_to_end(&mut bytes)
            .map_err(|error| Fault::Input(error.into()))?;
        let packets = bytes.len() / 188;
        let _ = eprintln!(rt; "reelpack: packets read: {packets}");
        if (more as u64) < PORTION {
            break;
        }
    }
    Ok(bytes)
}

fn run(rt: &HostRuntime) -> Result<(), Fault> {
    let sheet = sheet(rt)?;
    let mut bytes = input(rt)?;
    let size = bytes.len();
    pack(&mut bytes, &sheet).map_err(|error| match error {
        PackError::Refused(_) => Fault::Size(size),
        PackError::Memory => Fault::Memory,
    })?;
    rt.stdout()
        .write_all(bytes.as_slice())
        .map_err(|error| Fault::Output(error.into()))?;
    let written = bytes.len();
    let _ = eprintln!(rt; "reelpack: bytes written: {written}");
    Ok(())
}

fn main(rt: HostRuntime) -> ExitCode {
    match run(&rt) {
        Ok(()) => ExitCode::SUCCESS,
        Err(fault) => {
            let _ = eprintln!(rt; "reelpack: {fault}");
            ExitCode::FAILURE
        }
    }
}

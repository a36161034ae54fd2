// The sections of a PID in the further implementation: all its packets are read anew up to the one that is asked about.
use crate::other::{Packet, Seen, has_payload, payload, pid, starts};
use model::rule::Rule;
use std::alloc::{AllocFailed, Global};

// Why a packet is not passed.
#[derive(Drop)]
pub enum Stop {
    Broken(Rule),
    OutOfMemory,
}

impl From<Rule> for Stop {
    fn from(rule: Rule) -> Stop {
        Stop::Broken(rule)
    }
}

impl<T: Drop> From<AllocFailed<T>> for Stop {
    fn from(_error: AllocFailed<T>) -> Stop {
        Stop::OutOfMemory
    }
}

// How far the sections of a PID were read.
#[derive(Drop)]
enum State {
    // no packet with the start flag has come
    Waiting,
    // the bytes of the open section
    Inside(Vec<u8>),
    // a section has ended
    Ended,
    // stuffing has followed
    Stuffed,
}

// CRC_32, bit by bit.
pub fn crc(bytes: &[u8]) -> u32 {
    let mut sum = u32::MAX;
    for byte in bytes {
        sum ^= u32::from(*byte) << 24;
        for _ in 0..8u8 {
            let top = sum & 0x8000_0000 != 0;
            sum <<= 1;
            if top {
                sum ^= 0x04C1_1DB7;
            }
        }
    }
    sum
}

fn section_length(high: u8, low: u8) -> u16 {
    u16::from_be_bytes([high % 16, low])
}

// One more byte of the open section.
fn longer(mut section: Vec<u8>, byte: u8) -> Result<State, Stop> {
    section.push(byte)?;
    match section.as_slice() {
        [255] | [_, 0..=127] => Err(Rule::Sections.into()),
        [_, high, low] if !(9..=1021).contains(&section_length(*high, *low)) => {
            Err(Rule::Sections.into())
        }
        [_, high, low, rest @ ..] if rest.len() == usize::from(section_length(*high, *low)) => {
            if crc(section.as_slice()) == 0 {
                Ok(State::Ended)
            } else {
                Err(Rule::Crc.into())
            }
        }
        _ => Ok(State::Inside(section)),
    }
}

impl State {
    // One more byte: of the open section, else of the next one where `more` says so, else of stuffing.
    fn push(self, heap: Global, byte: u8, more: bool) -> Result<State, Stop> {
        match self {
            State::Inside(section) => longer(section, byte),
            _ if byte == 255 => Ok(State::Stuffed),
            State::Ended if more => longer(Vec::new(heap), byte),
            _ => Err(Rule::Sections.into()),
        }
    }

    fn read(self, heap: Global, bytes: &[u8], more: bool) -> Result<State, Stop> {
        let mut state = self;
        for byte in bytes {
            state = state.push(heap, *byte, more)?;
        }
        Ok(state)
    }

    // The bytes up to the pointer have to end the open section.
    fn close(self, bytes: &[u8]) -> Result<(), Stop> {
        let mut state = self;
        for byte in bytes {
            let State::Inside(section) = state else {
                return Err(Rule::Sections.into());
            };
            state = longer(section, *byte)?;
        }
        match state {
            State::Inside(_) => Err(Rule::Sections.into()),
            _ => Ok(()),
        }
    }

    // A payload with the start flag: the pointer, the end of the open section, and the sections that begin behind it.
    fn start(self, heap: Global, payload: &[u8]) -> Result<State, Stop> {
        let Some((pointer, rest)) = payload.split_first() else {
            return Err(Rule::Sections.into());
        };
        let Some((end, begin @ [_, ..])) = rest.split_at_checked(usize::from(*pointer)) else {
            return Err(Rule::Sections.into());
        };
        match self {
            State::Waiting => {}
            open => open.close(end)?,
        }
        State::Inside(Vec::new(heap)).read(heap, begin, true)
    }

    fn follow(self, heap: Global, packet: &Packet) -> Result<State, Stop> {
        if starts(packet) {
            return self.start(heap, payload(packet));
        }
        match self {
            State::Waiting => Ok(State::Waiting),
            open @ State::Inside(_) => open.read(heap, payload(packet), false),
            _ => Err(Rule::Sections.into()),
        }
    }
}

// The rule of sections that a packet is the first of its PID to break.
pub fn sections(heap: Global, before: &[Seen], here: &Packet) -> Result<(), Stop> {
    let mut state = State::Waiting;
    for seen in before.iter().filter(|seen| {
        seen.is_observed() && pid(&seen.packet) == pid(here) && has_payload(&seen.packet)
    }) {
        state = match state.follow(heap, &seen.packet) {
            Ok(next) => next,
            Err(Stop::Broken(_)) => return Ok(()),
            Err(stop) => return Err(stop),
        };
    }
    if has_payload(here) {
        state.follow(heap, here)?;
    }
    Ok(())
}

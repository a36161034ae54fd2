// Packets and reels to try: those of the worked cases, and generated ones.
ghost use Rattle.std.specs.Prelude.{◌<◌};

use crate::other::{CLOCK_VALUES, Packet, STAMP_VALUES, put_clock, stamp_bytes};
use crate::sections::crc;
use model::entry::Kind;
use std::alloc::{AllocError, Global};

// A stream of numbers from a seed.
#[derive(Drop)]
pub struct Numbers {
    state: u64,
}

impl Numbers {
    pub fn new(seed: u64) -> Numbers {
        Numbers {
            state: seed.wrapping_mul(0x9E37_79B9_7F4A_7C15).wrapping_add(1),
        }
    }

    // A number below n, and 0 below none.
    pub fn below(&mut self, n: u64) -> u64
        ensures { 0 < n → result < n }
    {
        self.state = self
            .state
            .wrapping_mul(6_364_136_223_846_793_005)
            .wrapping_add(1_442_695_040_888_963_407);
        if n == 0 { 0 } else { (self.state >> 33) % n }
    }

    pub fn kind(&mut self) -> Kind {
        Kind::try_from(self.below(3) as u8).unwrap_or(Kind::Clock)
    }
}

// A packet of PID 256 with a payload.
pub fn plain(counter: u8) -> Packet {
    let mut packet = [7; 188];
    packet[..4].copy_from_slice(&[0x47, 1, 0, 0x10 + counter % 16]);
    packet
}

// A packet of PID 256 with no payload.
pub fn empty(counter: u8) -> Packet {
    let mut packet = [255; 188];
    packet[..6].copy_from_slice(&[0x47, 1, 0, 0x20 + counter % 16, 183, 0]);
    packet
}

// The same with a clock value.
pub fn clock(counter: u8, value: u64) -> Packet {
    let mut packet = empty(counter);
    packet[5] = 0x10;
    put_clock(&mut packet, value);
    packet
}

pub fn filler() -> Packet {
    let mut packet = [255; 188];
    packet[..4].copy_from_slice(&[0x47, 0x1F, 0xFF, 0x10]);
    packet
}

// A packet that begins a PES packet with a PTS.
pub fn stamped(counter: u8, value: u64) -> Packet {
    let mut packet = plain(counter);
    packet[1] = 0x41;
    packet[4..8].copy_from_slice(&[0, 0, 1, 0xE0]);
    packet[10..13].copy_from_slice(&[0x80, 0x80, 5]);
    packet[13..18].copy_from_slice(&stamp_bytes(0x20, value));
    packet
}

// A section of this section_length, at least 4, with its CRC_32.
fn section(heap: Global, length: u16) -> Result<Vec<u8>, AllocError> {
    let [high, low] = length.to_be_bytes();
    let mut section = Vec::new(heap);
    section.extend_from_slice(&[0x42, 0xB0 + high % 16, low])?;
    for _ in 4..length {
        section.push(0x5A)?;
    }
    let sum = crc(section.as_slice());
    section.extend_from_slice(&sum.to_be_bytes())?;
    Ok(section)
}

// A reel of packets that carry one section, and stuffing behind it.
pub fn section_reel(heap: Global, length: u16) -> Result<Vec<Packet>, AllocError> {
    let mut payload = Vec::new(heap);
    // the pointer
    payload.push(0)?;
    payload.extend_from_slice(section(heap, length)?.as_slice())?;
    let mut reel = Vec::new(heap);
    for (counter, bytes) in payload.as_slice().chunks(184).enumerate() {
        let mut packet = [255u8; 188];
        let second = if counter == 0 { 0x41 } else { 1 };
        packet[..4].copy_from_slice(&[0x47, second, 0, 0x10 + (counter % 16) as u8]);
        packet[4..4 + bytes.len()].copy_from_slice(bytes);
        reel.push(packet)?;
    }
    Ok(reel)
}

// One generated packet, the n-th of its reel, at a rate of 188,000 bytes for each second.
fn generated(numbers: &mut Numbers, kind: Kind, counter: u8, n: u8) -> Packet {
    let value = (u64::from(n) * 27_000 + 2_576_980_350_000) % CLOCK_VALUES;
    match (numbers.below(6), kind) {
        (0, _) => filler(),
        (1, Kind::Clock) => clock(counter.wrapping_sub(1), value),
        (2, Kind::Clock) => clock(counter.wrapping_sub(1), value + numbers.below(400)),
        (3, Kind::Pes | Kind::Clock) => stamped(counter, numbers.below(STAMP_VALUES)),
        (4, _) => empty(counter.wrapping_sub(1)),
        _ => plain(counter),
    }
}

// A generated reel of one PID of a kind, sometimes with a copy or a damaged byte.
pub fn generated_reel(
    heap: Global,
    numbers: &mut Numbers,
    kind: Kind,
) -> Result<Vec<Packet>, AllocError> {
    let mut reel = Vec::new(heap);
    let mut counter = numbers.below(16) as u8;
    let count = numbers.below(5) as u8 + 1;
    for n in 0..count {
        let mut packet = generated(numbers, kind, counter, n);
        if packet[3] & 0x10 != 0 && packet[1] != 0x1F {
            counter = counter.wrapping_add(1);
        }
        if numbers.below(12) == 0 {
            let byte = numbers.below(256) as u8;
            packet[numbers.below(20) as usize] = byte;
        }
        reel.push(packet)?;
        if numbers.below(6) == 0 {
            reel.push(packet)?;
        }
    }
    Ok(reel)
}

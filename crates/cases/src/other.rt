// A further implementation of the check, written apart from the library: each packet is judged with all that stands before
// it at hand, and nothing is remembered from one packet to the next.
ghost use Rattle.std.specs.Prelude.{◌<◌};

use model::entry::{Entry, Kind};
use model::rule::Rule;

pub type Packet = [u8; 188];

// The PID of filler.
pub const NULL: u16 = 8191;

// How many values a time stamp has, in ticks of 90 kHz: a number of this implementation's own, as the next.
pub const STAMP_VALUES: u64 = 1 << 33;

// How many values the clock has, in ticks of 27 MHz.
pub const CLOCK_VALUES: u64 = 300 * STAMP_VALUES;

// The number of a rule, of this implementation's own as well: the library's is compared with it.
pub fn number(rule: Rule) -> u32 {
    match rule {
        Rule::Sync => 20,
        Rule::Header => 21,
        Rule::Pid => 22,
        Rule::AdaptationField => 23,
        Rule::Clock => 24,
        Rule::Continuity => 25,
        Rule::ClockGap => 26,
        Rule::ClockRate => 27,
        Rule::Sections => 28,
        Rule::Crc => 29,
        Rule::Stamps => 30,
        Rule::Unclocked => 31,
        Rule::Other(number) => number,
    }
}

pub fn pid(packet: &Packet) -> u16 {
    u16::from_be_bytes([packet[1], packet[2]]) % 8192
}

// What a PID carries, where it is listed.
pub fn kind(entries: &[Entry], pid: u16) -> Option<Kind> {
    entries
        .iter()
        .find(|entry| entry.pid == pid)
        .map(|entry| entry.kind)
}

pub fn starts(packet: &Packet) -> bool {
    packet[1] & 0x40 != 0
}

fn has_field(packet: &Packet) -> bool {
    packet[3] & 0x20 != 0
}

pub fn has_payload(packet: &Packet) -> bool {
    packet[3] & 0x10 != 0
}

// The flags of the adaptation field.
fn flags(packet: &Packet) -> u8 {
    if has_field(packet) && packet[4] > 0 {
        packet[5]
    } else {
        0
    }
}

pub fn has_clock(packet: &Packet) -> bool {
    flags(packet) & 0x10 != 0
}

fn payload_place(packet: &Packet) -> usize {
    if has_field(packet) {
        5 + usize::from(packet[4])
    } else {
        4
    }
}

pub fn payload(packet: &Packet) -> &[u8] {
    packet.get(payload_place(packet)..).unwrap_or(&[])
}

pub fn payload_mut(packet: &mut Packet) -> &mut [u8] {
    let place = payload_place(packet);
    packet.get_mut(place..).unwrap_or(&mut [])
}

fn clock_extension(packet: &Packet) -> u16 {
    u16::from_be_bytes([packet[10] & 1, packet[11]])
}

// Writes a clock value, modulo their number, over the one that stands there.
pub fn put_clock(packet: &mut Packet, value: u64) {
    let value = value % CLOCK_VALUES;
    let base = value / 300;
    let [high, low] = ((value % 300) as u16).to_be_bytes();
    packet[6..10].copy_from_slice(&((base / 2) as u32).to_be_bytes());
    packet[10] = (base % 2) as u8 * 128 | packet[10] & 0x7E | high;
    packet[11] = low;
}

// The five bytes of a time stamp, behind the four bits of its prefix.
pub fn stamp_bytes(prefix: u8, value: u64) -> [u8; 5] {
    let high = (value >> 30 & 7) as u8;
    let [b, c] = ((value >> 15 & 0x7FFF) as u16 * 2 + 1).to_be_bytes();
    let [d, e] = ((value & 0x7FFF) as u16 * 2 + 1).to_be_bytes();
    [prefix & 0xF0 | high << 1 | 1, b, c, d, e]
}

// The clock value, in ticks of 27 MHz.
pub fn clock(packet: &Packet) -> u64
    ensures { result < CLOCK_VALUES }
{
    let high = u32::from_be_bytes([packet[6], packet[7], packet[8], packet[9]]);
    let base = 2 * u64::from(high) + u64::from(packet[10] >> 7);
    (300 * base + u64::from(clock_extension(packet))) % CLOCK_VALUES
}

// Whether the adaptation field's last bytes are all 255.
fn is_stuffed(packet: &Packet) -> bool {
    let from = if has_clock(packet) { 12 } else { 6 };
    packet
        .iter()
        .take(payload_place(packet))
        .skip(from)
        .all(|byte| *byte == 255)
}

fn is_bad_field(packet: &Packet) -> bool {
    let length = packet[4];
    match (has_field(packet), has_payload(packet)) {
        (false, payload) => !payload,
        (true, false) if starts(packet) || length != 183 => true,
        (true, true) if length > 182 => true,
        (true, _) => {
            flags(packet) & 0x8F != 0
                || has_clock(packet) && length < 7
                || length > 0 && !is_stuffed(packet)
        }
    }
}

// The first rule of form that a packet breaks.
fn form(entries: &[Entry], packet: &Packet) -> Result<(), Rule> {
    let null = pid(packet) == NULL;
    let kind = kind(entries, pid(packet));
    if packet[0] != 0x47 {
        Err(Rule::Sync)
    } else if packet[1] & 0x80 != 0
        || packet[3] & 0xC0 != 0
        || null && (starts(packet) || has_field(packet) || !has_payload(packet))
    {
        Err(Rule::Header)
    } else if kind.is_none() && !null {
        Err(Rule::Pid)
    } else if is_bad_field(packet) {
        Err(Rule::AdaptationField)
    } else if has_clock(packet) && (kind != Some(Kind::Clock) || clock_extension(packet) > 299) {
        Err(Rule::Clock)
    } else {
        Ok(())
    }
}

// A packet of a run, and what is known of it.
#[derive(Clone, Copy)]
pub struct Seen {
    pub packet: Packet,
    pub form: Result<(), Rule>,
    // whether it repeats the packet before it of its PID
    pub copy: bool,
}

impl Seen {
    // A packet behind others.
    pub fn new(entries: &[Entry], before: &[Seen], packet: Packet) -> Seen {
        let form = form(entries, &packet);
        let copy = form.is_ok()
            && predecessor(before, &packet).is_some_and(|last| {
                last.packet == packet && has_payload(&last.packet) && !last.copy
            });
        Seen { packet, form, copy }
    }

    // Whether the watches see it.
    pub fn is_observed(&self) -> bool {
        self.form.is_ok() && pid(&self.packet) != NULL && !self.copy
    }
}

// The last sound packet of the same PID.
fn predecessor<'a>(before: &'a [Seen], packet: &Packet) -> Option<&'a Seen> {
    before.iter().rev().find(|seen| seen.form.is_ok() && pid(&seen.packet) == pid(packet))
}

// The rule of the continuity counter.
pub fn continuity(before: &[Seen], here: &Seen) -> Result<(), Rule> {
    let packet = &here.packet;
    let Some(last) = predecessor(before, packet) else {
        return Ok(());
    };
    let expected = if has_payload(packet) {
        last.packet[3].wrapping_add(1)
    } else {
        last.packet[3]
    };
    if pid(packet) == NULL || here.copy || packet[3] % 16 == expected % 16 {
        Ok(())
    } else {
        Err(Rule::Continuity)
    }
}

// The rules between two clock values, so many ticks and packets apart.
fn pace(rate: u32, ticks: u64, places: usize) -> Result<(), Rule> {
    if ticks > 2_700_000 || places > 10_000 {
        return Err(Rule::ClockGap);
    }
    let unit = 2_700_000_000_000;
    let distance = 188 * places as i128;
    let rate = i128::from(rate);
    let ticks = i128::from(ticks);
    if (distance - 1) * unit <= rate * (100_003 * ticks + 2_700_000)
        && rate * 99_997 * ticks <= (distance + 1) * unit + rate * 2_700_000
    {
        Ok(())
    } else {
        Err(Rule::ClockRate)
    }
}

// The rules of a clock value against the last one of its PID.
pub fn clock_rules(rate: u32, before: &[Seen], here: &Seen) -> Result<(), Rule> {
    let packet = &here.packet;
    if !has_clock(packet) {
        return Ok(());
    }
    let last = before.iter().rev().zip(1..).find(|(seen, _)| {
        seen.is_observed() && pid(&seen.packet) == pid(packet) && has_clock(&seen.packet)
    });
    let Some((last, places)) = last else {
        return Ok(());
    };
    let ticks = (clock(packet) + CLOCK_VALUES - clock(&last.packet)) % CLOCK_VALUES;
    pace(rate, ticks, places)
}

// The payload of a packet in which a PES packet begins.
pub fn pes_start<'a>(entries: &[Entry], packet: &'a Packet) -> Option<&'a [u8]> {
    match kind(entries, pid(packet)) {
        Some(Kind::Pes | Kind::Clock) if starts(packet) && has_payload(packet) => {
            Some(payload(packet))
        }
        _ => None,
    }
}

fn is_sound_stamp(prefix: u8, [a, _, c, _, e]: &[u8; 5]) -> bool {
    a >> 4 == prefix && a & c & e & 1 == 1
}

// How many time stamps follow a PES header's first nine bytes.
pub fn stamp_count(payload: &[u8]) -> Result<usize, Rule> {
    let [0, 0, 1, id, _, _, marks, flags, length, rest @ ..] = payload else {
        return Err(Rule::Stamps);
    };
    let (least, prefixes): (u8, &[u8]) = match flags >> 6 {
        0 => (0, &[]),
        2 => (5, &[2]),
        3 => (10, &[3, 1]),
        _ => return Err(Rule::Stamps),
    };
    let (stamps, _) = rest.as_chunks::<5>();
    if (*id == 0xBD || (0xC0..=0xEF).contains(id))
        && marks >> 6 == 2
        && flags & 0x20 == 0
        && *length >= least
        && stamps.len() >= prefixes.len()
        && prefixes
            .iter()
            .zip(stamps)
            .all(|(prefix, stamp)| is_sound_stamp(*prefix, stamp))
    {
        Ok(prefixes.len())
    } else {
        Err(Rule::Stamps)
    }
}

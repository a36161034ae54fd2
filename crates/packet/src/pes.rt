ghost use Rattle.std.specs.Prelude.{◌≡◌, ◌+◌, ◌≤◌, ◌&&◌, length, take, drop, ◌==◌};
ghost use Rattle.model.specs.Entries.{is_pes};
ghost use Rattle.model.specs.Tests.{all_of};
ghost use Rattle.model.specs.Stamps as spec;
ghost use Rattle.packet.specs.Kinds.{Under};

use crate::header;
use model::entry::Kind;

// The stream ids that carry stamps: private_stream_1, the audio and the video streams.
pub fn is_house_id(id: u8) -> bool
    ensures { result ≡ spec.house_id id }
{
    matches!(id, 0xBD | 0xC0..=0xEF)
}

// The tests of rule 30 up to the flags.
fn begins_as_pes(payload: &[u8]) -> bool
    requires { 9 ≤ length payload.now }
    ensures { result ≡ all_of (take 7 (spec.stamp_tests payload.now)) }
{
    payload[0] == 0
        && payload[1] == 0
        && payload[2] == 1
        && is_house_id(payload[3])
        && payload[6] / 64 == 2
        && payload[7] / 64 != 1
        && payload[7] / 32 % 2 != 1
}

// Whether the five bytes at a place have this prefix and the marker bits of a stamp.
fn is_stamp(payload: &[u8], place: usize, prefix: u8) -> bool
    requires { place + 5 ≤ length payload.now }
    ensures { result ≡ (spec.prefix payload.now place == prefix && spec.marked payload.now place) }
{
    payload[place] / 16 == prefix
        && payload[place] % 2 == 1
        && payload[place + 2] % 2 == 1
        && payload[place + 4] % 2 == 1
}

// The other tests of rule 30: the stamps that the flags announce are there and well formed.
fn has_stamps(payload: &[u8]) -> bool
    requires { 9 ≤ length payload.now }
    ensures { result ≡ all_of (drop 7 (spec.stamp_tests payload.now)) }
{
    let length = payload.len();
    match payload[7] / 64 {
        3 => payload[8] >= 10
            && length >= 19
            && is_stamp(payload, 9, 3)
            && is_stamp(payload, 14, 1),
        2 => payload[8] >= 5 && length >= 14 && is_stamp(payload, 9, 2),
        _ => true,
    }
}

// Rule 30, of a payload that begins a PES packet.
pub fn obeys_rule_30(payload: &[u8]) -> bool
    ensures { result ≡ spec.stamped payload.now }
{
    payload.len() >= 9 && begins_as_pes(payload) && has_stamps(payload)
}

// Whether packets of this kind carry a PES stream.
fn is_pes(kind: Option<Kind>) -> bool
    ensures { result ≡ is_pes kind }
{
    matches!(kind, Some(Kind::Pes | Kind::Clock))
}

// Whether a packet has a PES header to judge; `kind` is what the sheet says of its PID.
pub fn starts_pes(kind: Option<Kind>, packet: &[u8; 188]) -> bool
    ensures { Under kind packet.now (λ es. result ≡ spec.starts_pes es packet.now) }
{
    is_pes(kind) && header::payload_unit_start(packet) && header::has_payload(packet)
}

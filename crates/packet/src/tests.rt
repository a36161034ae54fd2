// Packets written by hand, with values of the standard.
use crate::{crc, form, header, moving, payload, pes};
use model::entry::Kind;

// Bytes of 255, after the sync byte, PID 256, these flags and this adaptation_field_length.
fn packet_of(b1: u8, b3: u8, length: u8) -> [u8; 188] {
    let mut packet = [255; 188];
    packet[0] = 0x47;
    packet[1] = b1;
    packet[2] = 0;
    packet[3] = b3;
    packet[4] = length;
    packet
}

#[test]
fn crc_of_the_check_string(rt: HostRuntime) {
    assert_eq!(rt; crc::crc32(b"123456789"), 0x0376_E6E7);
    assert_eq!(rt; crc::crc32(b"123456789\x03\x76\xE6\xE7"), 0);
}

#[test]
fn the_clock_wraps(rt: HostRuntime) {
    let mut packet = packet_of(1, 0x2F, 183);
    packet[5] = 0x10;
    packet[11] = 43;
    assert_eq!(rt; header::pcr(&packet), 2_576_980_377_599);
    moving::move_on_as(Some(Kind::Clock), &mut packet, 1, 300);
    assert_eq!(rt; header::pcr(&packet), 299);
    assert_eq!(rt; header::continuity_counter(&packet), 0);
    assert!(rt; packet[10] == 0x7F);
}

#[test]
fn a_stamp_wraps(rt: HostRuntime) {
    let mut packet = packet_of(0x41, 0x10, 0);
    packet[5] = 0;
    packet[6] = 1;
    packet[7] = 0xE0;
    packet[10] = 0x80;
    packet[11] = 0x80;
    packet[12] = 5;
    packet[13] = 0x2F;
    assert!(rt; pes::obeys_rule_30(payload::payload_of(&packet)));
    moving::move_on_as(Some(Kind::Pes), &mut packet, 0, 300);
    assert!(rt; packet[13] == 0x21 && packet[14] == 0 && packet[15] == 1);
    assert!(rt; packet[16] == 0 && packet[17] == 1);
}

#[test]
fn the_longest_adaptation_field(rt: HostRuntime) {
    let mut packet = packet_of(1, 0x30, 182);
    packet[5] = 0;
    assert!(rt; form::form_of_kind(Some(Kind::Pes), &packet).is_none());
    packet[4] = 183;
    assert!(rt; form::form_of_kind(Some(Kind::Pes), &packet).is_some());
    packet[3] = 0x20;
    assert!(rt; form::form_of_kind(Some(Kind::Pes), &packet).is_none());
}

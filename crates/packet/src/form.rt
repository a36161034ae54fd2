ghost use Rattle.std.specs.Prelude.{◌≡◌, ◌≤◌, true, [], ◌∷◌, drop};
ghost use Rattle.model.specs.Entries.{kind_of};
ghost use Rattle.model.specs.Tests.{any_of};
ghost use Rattle.model.specs.Rules.{numbered};
ghost use Rattle.model.specs.Sheets.{entries_of};
ghost use Rattle.model.specs.Form as spec;
ghost use Rattle.model.specs.Packet.{pid, has_adaptation_field, adaptation_field_length};
ghost use Rattle.packet.specs.Kinds.{Under};

use crate::header;
use crate::stuffing::is_stuffing;
use model::entry::Kind;
use model::rule::Rule;
use model::sheet::Sheet;

// Rule 21, from the three bytes after the sync byte.
fn is_bad_header(b1: u8, b2: u8, b3: u8) -> bool
    ensures { result ≡ spec.bad_header (0 ∷ b1 ∷ b2 ∷ b3 ∷ []) }
{
    let null = u16::from_be_bytes([b1 % 32, b2]) == 8191;
    b1 / 128 % 2 == 1
        || b3 / 64 != 0
        || null && (b1 / 64 % 2 == 1 || b3 / 32 % 2 == 1 || b3 / 16 % 2 != 1)
}

// Rule 23, what stands in an adaptation field: of the flags only the random access indicator, the priority indicator and PCR_flag
// may be set, and all bytes after the clock value are stuffing.
fn is_bad_field(packet: &[u8; 188]) -> bool
    requires { (has_adaptation_field packet.now ≡ true) × (adaptation_field_length packet.now ≤ 183) }
    ensures { result ≡ any_of (drop 3 (spec.adaptation_field_faults packet.now)) }
{
    let length = packet[4] as usize;
    if length == 0 {
        return false;
    }
    let flags = packet[5];
    if flags >= 128 || flags % 16 != 0 {
        return true;
    }
    if flags / 16 % 2 == 1 {
        length < 7 || !is_stuffing(&packet[12..5 + length])
    } else {
        !is_stuffing(&packet[6..5 + length])
    }
}

// Rule 23.
fn is_bad_adaptation_field(packet: &[u8; 188]) -> bool
    ensures { result ≡ spec.bad_adaptation_field packet.now }
{
    let has_payload = header::has_payload(packet);
    if !header::has_adaptation_field(packet) {
        return !has_payload;
    }
    let length = packet[4];
    if has_payload {
        length > 182 || is_bad_field(packet)
    } else {
        header::payload_unit_start(packet) || length != 183 || is_bad_field(packet)
    }
}

// Rule 24; `kind` is what the sheet says of the packet's PID.
fn is_bad_clock(kind: Option<Kind>, packet: &[u8; 188]) -> bool
    ensures { Under kind packet.now (λ es. result ≡ spec.bad_clock es packet.now) }
{
    if !header::has_pcr(packet) {
        return false;
    }
    match kind {
        Some(Kind::Clock) => u16::from_be_bytes([packet[10] % 2, packet[11]]) > 299,
        _ => true,
    }
}

// The rule of form that a packet breaks first; `kind` is what the sheet says of its PID. Kind and packet go side by side in half of the
// calls of this crate and are no struct: some read the packet and some write it, so it would be two. A rule that is found is an answer
// and no failure, here and in the watches, which look for one: so an Option, as the definitions have it.
pub fn form_of_kind(kind: Option<Kind>, packet: &[u8; 188]) -> Option<Rule>
    ensures { Under kind packet.now (λ es. numbered result ≡ spec.form es packet.now) }
{
    let [sync, b1, b2, b3, ..] = packet;
    if *sync != 0x47 {
        return Some(Rule::Sync);
    }
    if is_bad_header(*b1, *b2, *b3) {
        return Some(Rule::Header);
    }
    if kind.is_none() && !header::is_null(packet) {
        return Some(Rule::Pid);
    }
    if is_bad_adaptation_field(packet) {
        return Some(Rule::AdaptationField);
    }
    if is_bad_clock(kind, packet) {
        return Some(Rule::Clock);
    }
    None
}

// What the sheet says of the packet's PID: a search and no conversion.
pub fn kind_of(sheet: &Sheet, packet: &[u8; 188]) -> Option<Kind>
    ensures { result ≡ kind_of (entries_of sheet.now) (pid packet.now) }
{
    sheet.find(header::pid(packet)).map(|listed| listed.kind)
}

// The rule of form that a packet breaks first.
pub fn form(sheet: &Sheet, packet: &[u8; 188]) -> Option<Rule>
    ensures { numbered result ≡ spec.form (entries_of sheet.now) packet.now }
{
    form_of_kind(kind_of(sheet, packet), packet)
}

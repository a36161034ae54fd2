ghost use Rattle.std.specs.Prelude.{◌≡◌, ◌+◌, ◌^◌, ◌<◌, ◌≤◌, true, length};
ghost use Rattle.model.specs.Packet.{payload_place};
ghost use Rattle.model.specs.Sheets.{entries_of};
ghost use Rattle.model.specs.Stamps.{stamp_bytes};
ghost use Rattle.model.specs.Moves.{move_header, move_stamps, stampable, moves, moved};
ghost use Rattle.packet.specs.Kinds.{Under};

use crate::{field, form, header, payload, pes};
use model::clock::CLOCK_VALUES;
use model::entry::Kind;
use model::sheet::Sheet;

// Moves the counter on, and the clock value, if there is one. Steps and ticks are two numbers, as in the definition of a move: a struct
// of them would be taken apart in each clause.
fn move_header(packet: &mut [u8; 188], steps: u64, ticks: u64)
    ensures { packet.new ≡ move_header steps ticks packet.old }
{
    packet[3] = packet[3] / 16 * 16 + (packet[3] % 16 + (steps % 16) as u8) % 16;
    if header::has_pcr(packet) {
        let pcr = header::pcr(packet) + ticks % CLOCK_VALUES;
        field::put_pcr(&mut packet[6..12], pcr % CLOCK_VALUES);
    }
}

// Moves the stamps of a payload on. Where it does not hold them whole, some may stay as they are.
fn move_stamps(payload: &mut [u8], by: u64)
    requires { by < 2 ^ 33 }
    ensures { 9 + stamp_bytes payload.old ≤ length payload.old → payload.new ≡ move_stamps by payload.old }
{
    let length = payload.len();
    if length < 14 {
        return;
    }
    let flags = payload[7] / 64;
    if flags == 3 && length >= 19 {
        field::move_stamp(&mut payload[9..14], by);
        field::move_stamp(&mut payload[14..19], by);
    } else if flags == 2 {
        field::move_stamp(&mut payload[9..14], by);
    }
}

// Whether a packet begins a PES packet and obeys rule 30; `kind` is what the sheet says of its PID.
fn is_stampable(kind: Option<Kind>, packet: &[u8; 188]) -> bool
    ensures stamps { Under kind packet.now (λ es. result ≡ stampable es packet.now) }
    ensures within { result ≡ true → payload_place packet.now ≤ 188 }
{
    if !pes::starts_pes(kind, packet) {
        return false;
    }
    pes::obeys_rule_30(payload::payload_of(packet))
}

// Moves a packet on that is known to be sound and to have its PID on the sheet; `kind` is what the sheet says of it.
pub fn move_sound(kind: Option<Kind>, packet: &mut [u8; 188], steps: u64, ticks: u64)
    ensures { Under kind packet.old (λ es. moves es packet.old ≡ true → packet.new ≡ moved es steps ticks packet.old) }
{
    let place = header::payload_place(packet);
    let has_stamps = is_stampable(kind, packet);
    move_header(packet, steps, ticks);
    if has_stamps {
        move_stamps(&mut packet[place..], ticks / 300 % field::STAMP_VALUES);
    }
}

// Moves a packet on by so many steps of its counter and ticks of its clock; `kind` is what the sheet says of its PID.
// A packet that is not sound, or whose PID is not on the sheet, stays as it is.
pub fn move_on_as(kind: Option<Kind>, packet: &mut [u8; 188], steps: u64, ticks: u64)
    ensures { Under kind packet.old (λ es. packet.new ≡ moved es steps ticks packet.old) }
{
    if kind.is_some() && form::form_of_kind(kind, packet).is_none() {
        move_sound(kind, packet, steps, ticks);
    }
}

// Moves a packet on by so many steps of its counter and ticks of its clock.
// A packet that is not sound, or whose PID is not on the sheet, stays as it is.
pub fn move_on(sheet: &Sheet, packet: &mut [u8; 188], steps: u64, ticks: u64)
    ensures { packet.new ≡ moved (entries_of sheet.now) steps ticks packet.old }
{
    let kind = form::kind_of(sheet, packet);
    move_on_as(kind, packet, steps, ticks);
}

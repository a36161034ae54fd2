ghost use Rattle.std.specs.Prelude.{◌≡◌};
ghost use Rattle.model.specs.Packet as spec;
ghost use Rattle.model.specs.Sheets.{entries_of};
ghost use Rattle.packet.specs.Kinds.{Under};
ghost use Rattle.packet.specs.Payloads.{payload_or, answered};

use crate::{form, header};
use model::entry::Kind;
use model::rule::Rule;
use model::sheet::Sheet;

// What comes after the header and the adaptation field: nothing where these fill the packet or go past its end.
pub fn payload_of(packet: &[u8; 188]) -> &[u8]
    ensures { result.now ≡ spec.payload packet.now }
{
    let place = header::payload_place(packet).min(188);
    &packet[place..]
}

// The payload of a sound packet, if it has one; of another packet the rule that it breaks. `kind` is what the sheet says of its PID.
pub fn payload_of_kind<'a>(
    kind: Option<Kind>,
    packet: &'a [u8; 188],
) -> Result<Option<&'a [u8]>, Rule>
    ensures { Under kind packet.now (λ es. answered result ≡ payload_or es packet.now) }
{
    match form::form_of_kind(kind, packet) {
        Some(rule) => Err(rule),
        None if header::has_payload(packet) => Ok(Some(payload_of(packet))),
        None => Ok(None),
    }
}

// The payload of a sound packet, if it has one; of another packet the rule that it breaks.
pub fn payload<'a>(sheet: &Sheet, packet: &'a [u8; 188]) -> Result<Option<&'a [u8]>, Rule>
    ensures { answered result ≡ payload_or (entries_of sheet.now) packet.now }
{
    payload_of_kind(form::kind_of(sheet, packet), packet)
}

ghost use Rattle.std.specs.Prelude.{◌≡◌, ◌&&◌};
ghost use Rattle.model.specs.Packet.{pid};
ghost use Rattle.model.specs.Form.{sound};
ghost use Rattle.model.specs.Stamps.{starts_pes};
ghost use Rattle.model.specs.Sheets.{entries_of, round_of};
ghost use Rattle.model.specs.Watches.{stamps_finding};
ghost use Rattle.laws.proofs.StampsLaw.{stamps_law};

use crate::sound::is_sound;
use crate::watch::Watch;
use model::entry::Kind;
use model::rule::Rule;
use model::sheet::Sheet;
use packet::header;
use packet::payload::payload_of;
use packet::pes::obeys_rule_30;

// Rule 30: the time stamps of a PES header. It needs no memory.
#[derive(Drop)]
pub struct Stamps {
    sheet: Sheet,
}

// Whether a packet is sound and starts a PES packet. It asks the flags before it searches the sheet, as `packet::pes::starts_pes`, which
// is given the kind, does not.
fn starts_pes(sheet: &Sheet, packet: &[u8; 188]) -> bool
    ensures { result ≡ (sound (entries_of sheet.now) packet.now && starts_pes (entries_of sheet.now) packet.now) }
{
    if !header::payload_unit_start(packet) {
        return false;
    }
    if !header::has_payload(packet) {
        return false;
    }
    match sheet.find(header::pid(packet)) {
        Some(listed) => listed.kind != Kind::Sections && is_sound(listed.kind, packet),
        None => false,
    }
}

impl Watch for Stamps {
    ghost finding = { λ w. stamps_finding (entries_of w.sheet) };

    ghost fresh = { λ s. stamps_finding (entries_of s) };

    ghost rounds = { λ s. stamps_law (entries_of s) (round_of s) s.whole.0 };

    fn make(sheet: &Sheet) -> Stamps {
        Stamps { sheet: *sheet }
    }

    fn observe(&mut self, place: u64, packet: &[u8; 188]) -> Option<Rule> {
        if starts_pes(&self.sheet, packet) && !obeys_rule_30(payload_of(packet)) {
            Some(Rule::Stamps)
        } else {
            None
        }
    }
}

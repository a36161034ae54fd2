ghost use Rattle.std.specs.Prelude.{◌≡◌, ◌<◌, ◌&&◌, IfSome, if◌then◌else◌, Some, None};
ghost use Rattle.model.specs.Entries.{kind_of, row_of};
ghost use Rattle.model.specs.Packet.{pid};
ghost use Rattle.model.specs.Form.{sound};
ghost use Rattle.model.specs.Sheets.{entries_of};
ghost use Rattle.packet.specs.Kinds.{Under};
ghost use Rattle.watch.specs.Tables.{is_of};

use model::entry::Kind;
use model::sheet::Sheet;
use packet::form::form_of_kind;
use packet::header;

// Whether a packet breaks no rule of form, its PID being of this kind.
pub fn is_sound(kind: Kind, packet: &[u8; 188]) -> bool
    ensures { Under (Some kind) packet.now (λ es. result ≡ sound es packet.now) }
{
    form_of_kind(Some(kind), packet).is_none()
}

// The row of a sound packet whose PID is of this kind. That a row is below 16 is said at each function on its way from the sheet to a
// table: a type of index for four calls would be no plainer.
pub fn sound_row(sheet: &Sheet, kind: Kind, packet: &[u8; 188]) -> Option<usize>
    ensures row { result ≡ (if sound (entries_of sheet.now) packet.now && is_of kind (kind_of (entries_of sheet.now) (pid packet.now)) then row_of (entries_of sheet.now) (pid packet.now) else None) }
    ensures few { IfSome result (λ row. row < 16) }
{
    let listed = sheet.find(header::pid(packet))?;
    if listed.kind != kind {
        return None;
    }
    is_sound(kind, packet).then_some(listed.place)
}

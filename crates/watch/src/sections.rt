ghost use Rattle.std.specs.Prelude.{◌≡◌, ℕ, ◌<◌, map, length, IfSome, if◌then◌else◌, None, slice_index_or, slice_set};
ghost use Rattle.model.specs.Entries.{row_of};
ghost use Rattle.model.specs.Packet.{pid};
ghost use Rattle.model.specs.Rules.{numbered};
ghost use Rattle.model.specs.Sections.{unstarted, advance, offence, carries, sections_finding};
ghost use Rattle.model.specs.Sheets.{entries_of, round_of};
ghost use Rattle.watch.specs.Phases.{phase_of, sections_from};
ghost use Rattle.laws.proofs.SectionsLaw.{sections_law};

use crate::sections::row::Row;
use crate::sound::sound_row;
use crate::watch::Watch;
use model::entry::Kind;
use model::rule::Rule;
use model::sheet::Sheet;
use packet::header;

mod following;
mod judging;
mod progress;
mod reading;
mod row;
mod section;

// Rules 28 and 29: the sections of a PID. It keeps where each PID stands, in the order of the sheet: no heap, so as many rows as a sheet
// has entries at most.
#[derive(Drop)]
pub struct Sections {
    sheet: Sheet,
    rows: [Row; 16],
    ghost long: { length rows ≡ 16 },
}

// The row of a packet that carries section bytes, as `clock_row` for the clock. What both do is `sound_row`; a flag to ask first as one
// more argument would read no plainer.
fn section_row(sheet: &Sheet, packet: &[u8; 188]) -> Option<usize>
    ensures row { (place : ℕ) → result ≡ (if carries (entries_of sheet.now) (pid packet.now) (record { place = place; bytes = packet.now }) then row_of (entries_of sheet.now) (pid packet.now) else None) }
    ensures fits { IfSome result (λ i. i < 16) }
{
    if !header::has_payload(packet) {
        return None;
    }
    sound_row(sheet, Kind::Sections, packet)
}

// Takes the PID of a row on by one of its packets.
fn follow_in(rows: &mut [Row], row: usize, packet: &[u8; 188]) -> Option<Rule>
    requires { row < length rows.old }
    ensures moves { map phase_of rows.new ≡ slice_set (map phase_of rows.old) row (advance (slice_index_or (map phase_of rows.old) row unstarted) packet.now) }
    ensures answers { numbered result ≡ offence (slice_index_or (map phase_of rows.old) row unstarted) (advance (slice_index_or (map phase_of rows.old) row unstarted) packet.now) }
{
    rows[row].follow(packet)
}

impl Watch for Sections {
    ghost finding = { λ w. sections_from (entries_of w.sheet) (map phase_of w.rows) };

    ghost fresh = { λ s. sections_finding (entries_of s) };

    ghost rounds = { λ s. sections_law (entries_of s) (round_of s) s.whole.0 };

    fn make(sheet: &Sheet) -> Sections {
        Sections {
            sheet: *sheet,
            rows: [Row::new(); 16],
        }
    }

    fn observe(&mut self, place: u64, packet: &[u8; 188]) -> Option<Rule> {
        let row = section_row(&self.sheet, packet)?;
        follow_in(&mut self.rows, row, packet)
    }
}

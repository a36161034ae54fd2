ghost use Rattle.std.specs.Prelude.{◌≡◌, ℕ, ◌+◌, ◌-◌, ◌*◌, ◌%◌, ◌<◌, length, IfSome, if◌then◌else◌, Some, None};
ghost use Rattle.model.specs.Clock.{clock_finding, carries_pcr, too_far, off_rate, judged};
ghost use Rattle.model.specs.Entries.{row_of};
ghost use Rattle.model.specs.Packet.{pid};
ghost use Rattle.model.specs.Rules.{numbered};
ghost use Rattle.model.specs.Sheets.{entries_of, rate_of, round_of};
ghost use Rattle.watch.specs.Marks.{placed_of, recalled, clock_from};
ghost use Rattle.laws.proofs.ClockLaw.{clock_law};

use crate::mark::Mark;
use crate::sound::sound_row;
use crate::watch::Watch;
use model::clock::CLOCK_VALUES;
use model::entry::Kind;
use model::rule::Rule;
use model::sheet::Sheet;
use packet::header;

// Rules 26 and 27: the clock of a PID. It keeps the last clock value of each, in the order of the sheet: no heap, so as many places as
// a sheet has entries at most.
#[derive(Drop)]
pub struct Clock {
    sheet: Sheet,
    marks: [Option<Mark>; 16],
    ghost long: { length marks ≡ 16 },
}

// The ticks from one clock value to another.
fn elapsed(from: u64, to: u64) -> u64
    ensures { result ≡ (to + 2576980377600 - from) % 2576980377600 }
{
    if from <= to {
        (to - from) % CLOCK_VALUES
    } else {
        CLOCK_VALUES.saturating_sub(from - to)
    }
}

// Rule 26.
fn is_too_far(last: Mark, here: Mark) -> bool
    ensures { result ≡ too_far (placed_of last) (placed_of here) }
{
    elapsed(last.value, here.value) > 2_700_000
        || here.place <= last.place
        || here.place - last.place > 10_000
}

// Rule 27.
fn is_off_rate(rate: u32, last: Mark, here: Mark) -> bool
    ensures { result ≡ off_rate rate (placed_of last) (placed_of here) }
{
    let rate = u128::from(rate);
    let ticks = u128::from(elapsed(last.value, here.value));
    let bytes = 188 * u128::from(here.place.saturating_sub(last.place));
    bytes.saturating_sub(1) * 2_700_000_000_000 > rate * (100_003 * ticks + 2_700_000)
        || rate * (99_997 * ticks) > (bytes + 1) * 2_700_000_000_000 + rate * 2_700_000
}

// What is found at a clock value, which is then kept as the last one.
fn judge(rate: u32, kept: &mut Option<Mark>, here: Mark) -> Option<Rule>
    ensures found { numbered result ≡ judged rate (recalled kept.old) (placed_of here) }
    ensures keeps { kept.new ≡ Some here }
{
    let last = *kept;
    *kept = Some(here);
    match last {
        Some(last) if is_too_far(last, here) => Some(Rule::ClockGap),
        Some(last) if is_off_rate(rate, last, here) => Some(Rule::ClockRate),
        _ => None,
    }
}

// The row of a packet that carries a clock value, as `section_row` for sections.
fn clock_row(sheet: &Sheet, packet: &[u8; 188]) -> Option<usize>
    ensures row { (place : ℕ) → result ≡ (if carries_pcr (entries_of sheet.now) (pid packet.now) (record { place = place; bytes = packet.now }) then row_of (entries_of sheet.now) (pid packet.now) else None) }
    ensures fits { IfSome result (λ i. i < 16) }
{
    if !header::has_pcr(packet) {
        return None;
    }
    sound_row(sheet, Kind::Clock, packet)
}

impl Watch for Clock {
    ghost finding = { λ w. clock_from (entries_of w.sheet) (rate_of w.sheet) w.marks };

    ghost fresh = { λ s. clock_finding (entries_of s) (rate_of s) };

    ghost rounds = { λ s. clock_law (entries_of s) (round_of s) (rate_of s) s.whole.0 };

    fn make(sheet: &Sheet) -> Clock {
        Clock {
            sheet: *sheet,
            marks: [None; 16],
        }
    }

    fn observe(&mut self, place: u64, packet: &[u8; 188]) -> Option<Rule> {
        let row = clock_row(&self.sheet, packet)?;
        let value = header::pcr(packet);
        let here = Mark { place, value };
        judge(self.sheet.rate(), &mut self.marks[row], here)
    }
}

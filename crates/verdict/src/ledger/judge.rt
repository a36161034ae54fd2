ghost use Rattle.std.specs.Prelude.{◌≡◌, ℕ, ◌<◌, not, List, [], if◌then◌else◌, Some, None, slice_index, slice_index_or};
ghost use Rattle.model.specs.declared.rule.Rule.TheVariants.{Continuity};
ghost use Rattle.model.specs.Breaches.{all_clocked};
ghost use Rattle.model.specs.Packet.{Bytes};
ghost use Rattle.model.specs.Runs.{same};
ghost use Rattle.model.specs.Sheets.{entries_of};
ghost use Rattle.verdict.specs.declared.ledger.Row.{Row as R};
ghost use Rattle.verdict.specs.Ledgers.{Knows, Judges, copy_by, right_by, noted_by, lacks};

use crate::ledger::{Judged, Ledger, Row, Tallies};
use model::entry::{Entry, Kind};
use model::rule::Rule;
use model::sheet::Sheet;
use packet::form::form;
use packet::header::{continuity_counter, has_payload, has_pcr, pid};

// `==`, tied to the definition of a copy.
fn same_bytes(a: &[u8; 188], b: &[u8; 188]) -> bool
    ensures { result ≡ same a.now b.now }
{
    *a == *b
}

fn lacks_clock(entry: &Entry, row: &Row) -> bool
    ensures { result ≡ lacks entry.now row.now }
{
    entry.kind == Kind::Clock && !row.clocked
}

impl Row {
    // Whether a packet is a copy.
    fn is_copy(&self, packet: &[u8; 188]) -> bool
        ensures { result ≡ copy_by self.now packet.now }
    {
        match self.last {
            Some(last) => same_bytes(&last, packet) && has_payload(&last) && !self.copied,
            None => false,
        }
    }

    // Whether its counter is right.
    fn is_right(&self, packet: &[u8; 188], copy: bool) -> bool
        requires { copy ≡ copy_by self.now packet.now }
        ensures { result ≡ right_by self.now packet.now }
    {
        match self.last {
            Some(last) => {
                if has_payload(packet) {
                    continuity_counter(packet) == (continuity_counter(&last) + 1) % 16 || copy
                } else {
                    continuity_counter(packet) == continuity_counter(&last)
                }
            }
            None => true,
        }
    }

    // Judges the counter of a sound packet, and notes the packet.
    fn note(&mut self, packet: &[u8; 188]) -> Judged
        ensures judged { result ≡ record { rule = (if right_by self.old packet.now then None else Some Continuity); observed = not (copy_by self.old packet.now) } }
        ensures noted { self.new ≡ noted_by self.old packet.now }
    {
        let copy = self.is_copy(packet);
        let right = self.is_right(packet, copy);
        self.last = Some(*packet);
        self.copied = copy;
        if has_payload(packet) && !copy {
            self.tally = self.tally.wrapping_add(1) % 16;
        }
        self.clocked = self.clocked || has_pcr(packet);
        Judged {
            rule: if right { None } else { Some(Rule::Continuity) },
            observed: !copy,
        }
    }
}

impl Ledger {
    // The ledger before the first packet.
    pub fn new(sheet: &Sheet) -> Ledger
        ensures sheet { result.sheet ≡ sheet.now }
        ensures knows { Knows (entries_of sheet.now) [] result.rows }
    {
        let row = Row {
            last: None,
            copied: false,
            tally: 0,
            clocked: false,
        };
        Ledger {
            sheet: *sheet,
            rows: [row; 16],
        }
    }

    pub(crate) fn sheet(&self) -> &Sheet
        ensures { result.now ≡ self.now.sheet }
    {
        &self.sheet
    }

    // Judges a packet by form and continuity, and notes it in the row of its PID.
    pub fn judge(&mut self, packet: &[u8; 188]) -> Judged
        ensures same { self.new.sheet ≡ self.old.sheet }
        ensures judges { (before : List Bytes) → Knows (entries_of self.old.sheet) before self.old.rows → Judges (entries_of self.old.sheet) before packet.now result self.new.rows }
    {
        if let Some(rule) = form(&self.sheet, packet) {
            return Judged {
                rule: Some(rule),
                observed: false,
            };
        }
        match self.sheet.find(pid(packet)) {
            Some(listed) => self.rows[listed.place].note(packet),
            None => Judged {
                rule: None,
                observed: false,
            },
        }
    }

    // Whether each PID of the clock kind had a clock value.
    pub fn all_clocked(&self) -> bool
        ensures { (before : List Bytes) → Knows (entries_of self.now.sheet) before self.now.rows → result ≡ all_clocked (entries_of self.now.sheet) (entries_of self.now.sheet) before }
    {
        // a `for` and no `zip`, through which the check knows too little of the rows
        for (i, entry) in self.sheet.entries().iter().enumerate() {
            if lacks_clock(entry, &self.rows[i]) {
                return false;
            }
        }
        true
    }

    pub fn tallies(&self) -> Tallies
        ensures { (i : ℕ) (row : R) → i < 16 → slice_index result i ≡ (slice_index_or self.now.rows i row).tally }
    {
        self.rows.map(|row| row.tally)
    }
}

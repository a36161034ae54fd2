ghost use Rattle.std.specs.Prelude.{◌+◌, ◌≤◌, Some, IfOk};
ghost use Rattle.model.specs.Refusals.{refusal_number};
ghost use Rattle.model.specs.Report.{refused_line, reel_line, verdict_line};
ghost use Rattle.model.specs.Rules.{rule_number};
ghost use Rattle.report.specs.Checks.{told};
ghost use Rattle.report.specs.Pens.{Room, Wrote};
ghost use Rattle.verdict.specs.Verdicts.{breach_of};

use crate::checking::Checked;
use crate::pen::Pen;
use model::refusal::Refusal;
use verdict::verdict::{Breach, Verdict};

#[tactic(auto, using(crate::proofs::Spelling::digits))]
impl Pen<'_> {
    // The line of a refusal.
    pub fn refused(&mut self, refusal: Refusal)
        requires { Room self.old 11 }
        ensures { Wrote self.old (refused_line (refusal_number refusal)) self.new }
    {
        self.text("REFUSED ");
        self.decimal(u64::from(refusal));
        self.text("\n");
    }

    // The line of a reel. That a short file has at most 999 packets is asked here and in `report`, and said by its check: a type of such
    // numbers would be no plainer.
    pub fn reel(&mut self, packets: usize, entries: usize)
        requires { (Room self.old 12) × ((packets ≤ 999) × (entries ≤ 16)) }
        ensures writes { Wrote self.old (reel_line packets entries) self.new }
        ensures short { self.new.at ≤ self.old.at + 12 }
    {
        self.text("REEL ");
        self.decimal(packets as u64);
        self.text(" ");
        self.decimal(entries as u64);
        self.text("\n");
    }

    // The line of a breach.
    fn breach(&mut self, breach: Breach)
        requires { Room self.old 50 }
        ensures { Wrote self.old (verdict_line (Some (record { round = breach.round; packet = breach.packet; rule = rule_number breach.rule }))) self.new }
    {
        self.text("BREACH ");
        self.decimal(u64::from(breach.round));
        self.text(" ");
        self.decimal(breach.packet as u64);
        self.text(" ");
        self.decimal(u64::from(u32::from(breach.rule)));
        self.text("\n");
    }

    // The line of the check.
    pub fn verdict(&mut self, verdict: Verdict)
        requires { Room self.old 50 }
        ensures { Wrote self.old (verdict_line (breach_of verdict)) self.new }
    {
        match verdict {
            Ok(()) => self.text("APPROVED\n"),
            Err(breach) => self.breach(breach),
        }
    }

    // The report.
    pub fn report(&mut self, checked: Result<Checked, Refusal>)
        requires { (Room self.old 64) × IfOk checked (λ found. found.contents.count ≤ 999) }
        ensures { Wrote self.old (told checked) self.new }
    {
        match checked {
            Ok(Checked { contents, verdict }) => {
                self.reel(contents.count, contents.sheet.entries().len());
                self.verdict(verdict);
            }
            Err(refusal) => self.refused(refusal),
        }
    }
}

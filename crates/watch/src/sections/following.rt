ghost use Rattle.std.specs.Prelude.{◌≡◌};
ghost use Rattle.model.specs.Rules.{numbered};
ghost use Rattle.model.specs.Sections as spec;
ghost use Rattle.watch.specs.Phases.{phase_of};

use crate::sections::judging::{advance, offence};
use crate::sections::progress::Stage;
use crate::sections::row::Row;
use crate::sections::section::Section;
use model::rule::Rule;

impl Row {
    pub fn new() -> Row
        ensures { phase_of result ≡ spec.unstarted }
    {
        Row {
            stage: Ok(Stage::Unstarted),
            section: Section::new(),
        }
    }

    // Takes a PID on by one of its packets and answers the offence in it, if any.
    pub fn follow(&mut self, packet: &[u8; 188]) -> Option<Rule>
        ensures moves { phase_of self.new ≡ spec.advance (phase_of self.old) packet.now }
        ensures answers { numbered result ≡ spec.offence (phase_of self.old) (spec.advance (phase_of self.old) packet.now) }
    {
        let before = self.stage;
        self.stage = advance(before, &mut self.section, packet);
        offence(before, self.stage)
    }
}

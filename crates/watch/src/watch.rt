ghost use Rattle.std.specs.Prelude.{◌≡◌, List, [], ◌∷◌};
ghost use Rattle.model.specs.declared.sheet.Sheet.{Sheet};
ghost use Rattle.model.specs.Runs.{Placed};
ghost use Rattle.model.specs.Watches.{Finding, RoundLaw};
ghost use Rattle.model.specs.Sheets.{entries_of, round_of};
ghost use Rattle.model.specs.Rules.{numbered};

use model::rule::Rule;
use model::sheet::Sheet;

// Observes the packets of a run, in order, and may find at one that a rule is broken.
pub trait Watch {
    // what it finds at the end of a list of packets still to come
    ghost finding: { Self → Finding };

    // the same, of one made for a sheet
    ghost fresh: { Sheet → Finding };

    fn make(sheet: &Sheet) -> Self
        ensures { (xs : List Placed) (x : Placed) → finding result xs x ≡ fresh sheet.now xs x };

    // Answers what is found at this packet, which then stands before all that are still to come.
    fn observe(&mut self, place: u64, packet: &[u8; 188]) -> Option<Rule>
        ensures answers { numbered result ≡ finding self.old [] (record { place = place; bytes = packet.now }) }
        ensures learns { (xs : List Placed) (x : Placed) → finding self.new xs x ≡ finding self.old ((record { place = place; bytes = packet.now }) ∷ xs) x };

    // what two rounds of a reel do not show, no round does
    ghost rounds: { (s : Sheet) → RoundLaw (entries_of s) (round_of s) (fresh s) };
}

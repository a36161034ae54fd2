ghost use Rattle.std.specs.Prelude.{◌≡◌, ◌<◌, length, OnOk};
ghost use Rattle.model.specs.Runs.{Packets};
ghost use Rattle.model.specs.Watches.{Whole};
ghost use Rattle.model.specs.Refusals.{outcome};
ghost use Rattle.model.specs.Reels.{fetched, filled};

use model::refusal::Refusal;

// A store of packets. It means a list of 1 to 1,000,000,000 packets of 188 bytes.
pub trait Reel {
    ghost packets: { Self → Packets };

    // How many packets there are.
    fn count(&self) -> usize
        ensures { result ≡ length (packets self.now) };

    // Copies the packet of a place into a buffer of 188 bytes. Who asks below the count, with that size, lets the answer go: a function that
    // answers the packet alone would have to require both.
    fn fetch(&mut self, place: usize, buffer: &mut [u8]) -> Result<(), Refusal>
        ensures keeps { packets self.new ≡ packets self.old }
        ensures answers { outcome (λ u. u) result ≡ fetched (packets self.old) place (length buffer.old) }
        ensures writes { buffer.new ≡ filled (packets self.old) place buffer.old };

    ghost whole: { (s : Self) → Whole (packets s) };
}

// Whether one of so many packets may be fetched from a place into a buffer of this size, or the refusal.
pub fn allow_fetch(count: usize, place: usize, size: usize) -> Result<(), Refusal>
    ensures answers { (ps : Packets) → length ps ≡ count → outcome (λ u. u) result ≡ fetched ps place size }
    ensures within { OnOk result ((size ≡ 188) × (place < count)) }
{
    if size != 188 {
        Err(Refusal::Buffer)
    } else if place >= count {
        Err(Refusal::PastEnd)
    } else {
        Ok(())
    }
}

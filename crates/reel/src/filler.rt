ghost use Rattle.std.specs.Prelude.{◌≡◌, ◌≤◌, [], ◌∷◌, length};
ghost use Rattle.model.specs.File.{bad_number};
ghost use Rattle.model.specs.Reels.{fillers, filler_packet};
ghost use Rattle.model.specs.Refusals.{outcome};
ghost use Rattle.model.specs.Tests.{first_broken, unless};
ghost use Rattle.laws.proofs.ReelLaws.{fillers_whole};

use crate::reel::{Reel, allow_fetch};
use model::count::is_bad_number;
use model::refusal::Refusal;

// A given number of null packets.
#[derive(Drop)]
pub struct Filler {
    size: usize,
    ghost within: { (1 ≤ size) × (size ≤ 1000000000) },
}

impl Filler {
    pub fn new(size: usize) -> Result<Filler, Refusal>
        ensures { outcome (λ f. fillers f.size) result ≡ unless (first_broken ((3, bad_number size) ∷ [])) (fillers size) }
    {
        if is_bad_number(size) {
            return Err(Refusal::Count);
        }
        Ok(Filler { size })
    }
}

// Writes a null packet.
fn write_filler(buffer: &mut [u8])
    requires { length buffer.old ≡ 188 }
    ensures { buffer.new ≡ filler_packet }
{
    buffer.fill(255);
    buffer[0] = 0x47;
    buffer[1] = 0x1F;
    buffer[2] = 0xFF;
    buffer[3] = 0x10;
}

impl Reel for Filler {
    ghost packets = { λ s. fillers s.size };

    ghost whole = { λ s. fillers_whole s.size s.within.0 s.within.1 };

    fn count(&self) -> usize {
        self.size
    }

    fn fetch(&mut self, place: usize, buffer: &mut [u8]) -> Result<(), Refusal> {
        allow_fetch(self.size, place, buffer.len())?;
        write_filler(buffer);
        Ok(())
    }
}

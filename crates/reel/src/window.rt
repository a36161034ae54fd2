ghost use Rattle.std.specs.Prelude.{◌≡◌, ◌+◌, ◌≤◌, length};
ghost use Rattle.model.specs.Reels.{window};
ghost use Rattle.laws.proofs.ReelLaws.{window_whole};

use crate::reel::{Reel, allow_fetch};
use model::refusal::Refusal;

// Some packets in a row of another reel.
#[derive(Drop)]
pub struct Window<R: Reel> {
    below: R,
    start: usize,
    size: usize,
    ghost some: { 1 ≤ size },
    ghost within: { start + size ≤ length (R.Reel.packets below) },
}

impl<R: Reel> Window<R> {
    ghost use Rattle.reel.specs.Windows.{windowed, window_made};

    // Refuses where no packet is asked for or the end is passed, and hands the reel back.
    pub fn new(below: R, start: usize, size: usize) -> Result<Window<R>, (Refusal, R)>
        ensures { window_made result ≡ windowed start size below (length (R.Reel.packets below)) }
    {
        let n = below.count();
        if size >= 1 && size <= n && start <= n - size {
            Ok(Window { below, start, size })
        } else {
            Err((Refusal::Extent, below))
        }
    }
}

impl<R: Reel> Reel for Window<R> {
    ghost packets = { λ w. window w.start w.size (R.Reel.packets w.below) };

    ghost whole = { λ s. window_whole s.start s.size (R.Reel.packets s.below) (R.Reel.whole s.below) };

    fn count(&self) -> usize {
        self.size
    }

    fn fetch(&mut self, place: usize, buffer: &mut [u8]) -> Result<(), Refusal> {
        allow_fetch(self.size, place, buffer.len())?;
        self.below.fetch(self.start + place, buffer)
    }
}

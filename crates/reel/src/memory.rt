ghost use Rattle.std.specs.Prelude.{◌≡◌, false};
ghost use Rattle.model.specs.Reels.{held, bad_bytes};
ghost use Rattle.reel.specs.Cuts.{held_whole};

use crate::bytes::Bytes;
use crate::cutting::{fetch_in, is_bad_bytes};
use crate::reel::Reel;
use model::refusal::Refusal;

// Packets in memory.
#[derive(Drop)]
pub struct Memory<T: Bytes> {
    store: T,
    ghost good: { bad_bytes (T.Bytes.list store) ≡ false },
}

impl<T: Bytes> Memory<T> {
    ghost use Rattle.reel.specs.Memories.{memory_made, memory_of};

    // Refuses bytes that are not a whole number of packets, none, or too many, and hands them back.
    pub fn new(store: T) -> Result<Memory<T>, (Refusal, T)>
        ensures { memory_made T.Bytes.list result ≡ memory_of T.Bytes.list store }
    {
        if is_bad_bytes(store.as_bytes()) {
            return Err((Refusal::Count, store));
        }
        Ok(Memory { store })
    }
}

impl<T: Bytes> Reel for Memory<T> {
    ghost packets = { λ m. held (T.Bytes.list m.store) };

    ghost whole = { λ s. held_whole (T.Bytes.list s.store) };

    fn count(&self) -> usize {
        self.store.as_bytes().len() / 188
    }

    fn fetch(&mut self, place: usize, buffer: &mut [u8]) -> Result<(), Refusal> {
        fetch_in(self.store.as_bytes(), place, buffer)
    }
}

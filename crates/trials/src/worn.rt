ghost use Rattle.std.specs.Prelude.{◌≡◌, ◌^◌, ◌<◌};
ghost use Rattle.trials.specs.Worn.{worn_lawful, worn_of};

use store::reading::ReadingStore;
use store::refusal::Refusal;

/// A store of a tester's own, with one record of one byte, that was read as often as the tester says.
#[derive(Drop)]
pub struct Worn {
    tally: u32,
    ghost wraps: { tally < 2 ^ 32 },
}

impl Worn {
    pub fn new(tally: u32) -> Worn
        ensures { result.tally ≡ tally }
    {
        Worn { tally }
    }
}

// Kept: its own tests of a fetch, since those of the product's stores are inner to their crate.
impl ReadingStore for Worn {
    ghost meaning = { λ s. worn_of s.tally };

    ghost lawful = { λ s. worn_lawful s.tally s.wraps };

    fn width(&self) -> usize {
        1
    }

    fn held(&self) -> u16 {
        1
    }

    fn capacity(&self) -> u16 {
        1
    }

    fn tally(&self) -> u32 {
        self.tally
    }

    fn fetch(&mut self, number: u16, buffer: &mut [u8]) -> Result<(), Refusal> {
        if buffer.len() != 1 {
            return Err(Refusal::KeyLength);
        }
        if number > 0 {
            return Err(Refusal::NotHeld);
        }
        buffer.copy_from_slice(&[7]);
        self.tally = self.tally.wrapping_add(1);
        Ok(())
    }
}

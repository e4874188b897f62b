ghost use Rattle.std.specs.Prelude.{◌≡◌, length};
ghost use Rattle.store.specs.Meaning.{Fetched, Lawful, Meaning};

use crate::refusal::Refusal;

/// A record that has to be fetched, and that the store does not hold.
#[derive(Clone, Copy, Debug, PartialEq, Eq)]
pub struct Missing {
    pub number: u16,
}

/// A store that keys are read from.
pub trait ReadingStore {
    // what the store means
    ghost meaning: { Self → Meaning };

    // and that this is lawful
    ghost lawful: { (s : Self) → Lawful (meaning s) };

    /// The bytes of a key.
    fn width(&self) -> usize
        ensures { result ≡ (meaning self.now).width };

    /// How many records it holds.
    fn held(&self) -> u16
        ensures { result ≡ length (meaning self.now).keys };

    /// How many records it can hold.
    fn capacity(&self) -> u16
        ensures { result ≡ (meaning self.now).capacity };

    /// How many keys were fetched from it, modulo 2^32.
    fn tally(&self) -> u32
        ensures { result ≡ (meaning self.now).tally };

    /// Copies the key of a record into the buffer.
    fn fetch(&mut self, number: u16, buffer: &mut [u8]) -> Result<(), Refusal>
        ensures { Fetched (meaning self.old) number buffer.old result (meaning self.new) buffer.new (self.new ≡ self.old) };
}

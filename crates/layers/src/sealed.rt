ghost use Rattle.std.specs.Prelude.{◌≡◌};
ghost use Rattle.layers.specs.Seals.{sealed, sealed_lawful};

use store::filing::FilingStore;
use store::reading::ReadingStore;
use store::refusal::Refusal;

/// A store that is full as it stands: what any store below holds, and no room for more. So a store that is only read from serves
/// where one that files is asked for. Width, keys and tally are those below.
#[derive(Drop)]
pub struct Sealed<S> {
    below: S,
}

impl<S> Sealed<S> {
    /// The store below, sealed.
    pub fn new(below: S) -> Sealed<S>
        ensures { result.below ≡ below }
    {
        Sealed { below }
    }

    /// Takes the seal off.
    pub fn into_below(self) -> S
        ensures { result ≡ self.below }
    {
        self.below
    }
}

// Kept: what the store below tells is passed on call by call, as a layer does; a trait for that would be longer than the calls.
impl<S: ReadingStore> ReadingStore for Sealed<S> {
    ghost meaning = { λ s. sealed (S.ReadingStore.meaning s.below) };

    ghost lawful = { λ s. sealed_lawful (S.ReadingStore.meaning s.below) (S.ReadingStore.lawful s.below) };

    fn width(&self) -> usize {
        self.below.width()
    }

    fn held(&self) -> u16 {
        self.below.held()
    }

    fn capacity(&self) -> u16 {
        self.held()
    }

    fn tally(&self) -> u32 {
        self.below.tally()
    }

    fn fetch(&mut self, number: u16, buffer: &mut [u8]) -> Result<(), Refusal> {
        self.below.fetch(number, buffer)
    }
}

impl<S: ReadingStore> FilingStore for Sealed<S> {
    fn append(&mut self, key: &[u8]) -> Result<u16, Refusal> {
        if key.len() != self.below.width() {
            return Err(Refusal::KeyLength);
        }
        Err(Refusal::StoreFull)
    }
}

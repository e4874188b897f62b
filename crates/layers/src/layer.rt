ghost use Rattle.std.specs.Prelude.{◌≡◌, ℕ, List};
ghost use Rattle.layers.specs.LayerLaw.{shown_lawful};
ghost use Rattle.layers.specs.Layers.{KeepsKeys, shown};

use store::reading::ReadingStore;
use store::refusal::Refusal;

/// A way to show a key: another key of the same width.
pub trait KeyMap {
    // how a key is shown
    ghost shows: { Self → List ℕ → List ℕ };

    // that it is shown as a key of its width
    ghost keeps: { (m : Self) → KeepsKeys (shows m) };

    /// Puts the key that is shown in the place of the key.
    fn show(&self, key: &mut [u8])
        ensures { key.new ≡ shows self.now key.old };
}

/// A store that shows each key of the store below by a map. Width, capacity, number held and tally are those below.
#[derive(Drop)]
pub struct Layer<M, S> {
    pub(crate) map: M,
    pub(crate) below: S,
}

impl<M, S> Layer<M, S> {
    /// The store below, shown by this map.
    pub fn new(map: M, below: S) -> Layer<M, S>
        ensures { (result.map ≡ map) × (result.below ≡ below) }
    {
        Layer { map, below }
    }
}

impl<M: Drop, S> Layer<M, S> {
    /// Takes the layer off.
    pub fn into_below(self) -> S
        ensures { result ≡ self.below }
    {
        self.below
    }
}

impl<M: KeyMap, S: ReadingStore> ReadingStore for Layer<M, S> {
    ghost meaning = { λ l. shown (M.KeyMap.shows l.map) (S.ReadingStore.meaning l.below) };

    ghost lawful = { λ l. shown_lawful (M.KeyMap.shows l.map) (M.KeyMap.keeps l.map) (S.ReadingStore.meaning l.below) (S.ReadingStore.lawful l.below) };

    fn width(&self) -> usize {
        self.below.width()
    }

    fn held(&self) -> u16 {
        self.below.held()
    }

    fn capacity(&self) -> u16 {
        self.below.capacity()
    }

    fn tally(&self) -> u32 {
        self.below.tally()
    }

    fn fetch(&mut self, number: u16, buffer: &mut [u8]) -> Result<(), Refusal> {
        self.below.fetch(number, buffer)?;
        self.map.show(buffer);
        Ok(())
    }
}

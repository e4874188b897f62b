ghost use Rattle.std.specs.Prelude.{◌≡◌, ℕ, List};
ghost use Rattle.store.specs.Meaning.{Appended};
ghost use Rattle.layers.specs.LayerLaw.{shown_lawful};
ghost use Rattle.layers.specs.Layers.{shown};
ghost use Rattle.layers.specs.WaysBack.{Hides};

use crate::layer::{KeyMap, Layer};
use keys::key::WIDEST;
use store::filing::FilingStore;
use store::reading::ReadingStore;
use store::refusal::Refusal;

/// A way to show a key that has a way back, by which a layer files.
pub(crate) trait WayBack: KeyMap {
    // the way back
    ghost hides: { Self → List ℕ → List ℕ };

    /// Puts the key that is shown as this one in the place of the key.
    fn hide(&self, key: &mut [u8])
        ensures { key.new ≡ hides self.now key.old };

    // that the way back gives a key that is shown as this one
    ghost undone: { (m : Self) → Hides (Self.KeyMap.shows m) (hides m) };
}

impl<M: WayBack, S: FilingStore> Layer<M, S> {
    /// Files below the key that is shown as this one.
    pub(crate) fn append(&mut self, key: &[u8]) -> Result<u16, Refusal>
        ensures { Appended (shown (M.KeyMap.shows self.old.map) (S.ReadingStore.meaning self.old.below)) key.now result (shown (M.KeyMap.shows self.new.map) (S.ReadingStore.meaning self.new.below)) (self.new ≡ self.old) }
    {
        let width = key.len();
        if width != self.below.width() {
            return Err(Refusal::KeyLength);
        }
        let mut hidden = [0; WIDEST];
        let part = &mut hidden[..width];
        part.copy_from_slice(key);
        self.map.hide(part);
        self.below.append(part)
    }
}

/// A layer as a filing store over a filing one, so that layers that file stand over one another. A type of its own, since a
/// layer's own trait would be seen outside, and an append is a call of a use.
#[derive(Drop)]
pub(crate) struct FilingLayer<M, S> {
    layer: Layer<M, S>,
}

impl<M, S> From<Layer<M, S>> for FilingLayer<M, S> {
    ghost from_gives = { λ layer filing. filing.layer ≡ layer };

    fn from(layer: Layer<M, S>) -> FilingLayer<M, S> {
        FilingLayer { layer }
    }
}

impl<M, S> FilingLayer<M, S> {
    /// The layer again, which only reads.
    pub(crate) fn into_layer(self) -> Layer<M, S>
        ensures { result ≡ self.layer }
    {
        self.layer
    }
}

impl<M: WayBack, S: FilingStore> ReadingStore for FilingLayer<M, S> {
    ghost meaning = { λ f. shown (M.KeyMap.shows f.layer.map) (S.ReadingStore.meaning f.layer.below) };

    ghost lawful = { λ f. shown_lawful (M.KeyMap.shows f.layer.map) (M.KeyMap.keeps f.layer.map) (S.ReadingStore.meaning f.layer.below) (S.ReadingStore.lawful f.layer.below) };

    fn width(&self) -> usize {
        self.layer.width()
    }

    fn held(&self) -> u16 {
        self.layer.held()
    }

    fn capacity(&self) -> u16 {
        self.layer.capacity()
    }

    fn tally(&self) -> u32 {
        self.layer.tally()
    }

    fn fetch(&mut self, number: u16, buffer: &mut [u8]) -> Result<(), Refusal> {
        self.layer.fetch(number, buffer)
    }
}

impl<M: WayBack, S: FilingStore> FilingStore for FilingLayer<M, S> {
    fn append(&mut self, key: &[u8]) -> Result<u16, Refusal> {
        self.layer.append(key)
    }
}

ghost use Rattle.std.specs.Prelude.{◌≡◌, ℕ, ◌↔◌, List};
ghost use Rattle.keys.specs.Bytes.{Key, Smaller};
ghost use Rattle.layers.specs.LayerLaw.{inverted_keeps};
ghost use Rattle.layers.specs.Layers.{inverted};
ghost use Rattle.layers.specs.WayBackLaw.{inverted_hides};

use crate::filing::WayBack;
use crate::layer::{KeyMap, Layer};

/// Every bit inverted, which reverses the order of the keys.
#[derive(Clone, Copy)]
pub struct Inversion;

/// A layer that shows every key inverted: the latest moment of a class then has its smallest key.
pub type NewestFirst<S> = Layer<Inversion, S>;

/// Puts the layer on.
pub fn newest_first<S>(below: S) -> NewestFirst<S>
    ensures { result.below ≡ below }
{
    Layer::new(Inversion, below)
}

impl KeyMap for Inversion {
    ghost shows = { λ _. inverted };

    ghost keeps = { λ _. inverted_keeps };

    fn show(&self, key: &mut [u8])
        ensures shown { key.new ≡ inverted key.old }
        ensures reversed { (w : ℕ) (other : List ℕ) → Key w key.old → Key w other → Smaller key.old other ↔ Smaller (inverted other) key.new }
    {
        for byte in key.iter_mut() {
            *byte = !*byte;
        }
    }
}

impl WayBack for Inversion {
    ghost hides = { λ _. inverted };

    ghost undone = { λ _. inverted_hides };

    fn hide(&self, key: &mut [u8]) {
        self.show(key);
    }
}

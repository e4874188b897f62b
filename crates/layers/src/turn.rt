ghost use Rattle.std.specs.Prelude.{◌≡◌};
ghost use Rattle.layers.specs.LayerLaw.{turned_keeps};
ghost use Rattle.layers.specs.Layers.{turned};
ghost use Rattle.layers.specs.WayBackLaw.{turned_hides};
ghost use Rattle.layers.specs.WaysBack.{turned_back};

use crate::filing::WayBack;
use crate::layer::{KeyMap, Layer};

/// The bytes from a cut on, then those before it; a cut above the width counts as the width.
#[derive(Clone, Copy)]
pub struct Turn {
    pub cut: usize,
}

/// A layer that shows the keys turned at a cut.
pub type Turned<S> = Layer<Turn, S>;

/// Puts the layer on, with the cut before this byte.
pub fn turned_at<S>(cut: usize, below: S) -> Turned<S>
    ensures { (result.map.cut ≡ cut) × (result.below ≡ below) }
{
    Layer::new(Turn { cut }, below)
}

impl KeyMap for Turn {
    ghost shows = { λ t. turned t.cut };

    ghost keeps = { λ t. turned_keeps t.cut };

    fn show(&self, key: &mut [u8])
        ensures { key.new ≡ turned self.now.cut key.old }
    {
        let cut = self.cut.min(key.len());
        key.rotate_left(cut);
    }
}

impl WayBack for Turn {
    ghost hides = { λ t. turned_back t.cut };

    ghost undone = { λ t. turned_hides t.cut };

    fn hide(&self, key: &mut [u8]) {
        let cut = self.cut.min(key.len());
        key.rotate_right(cut);
    }
}

ghost use Rattle.std.specs.Prelude.{◌≡◌};
ghost use Rattle.layers.specs.Layers.{shown};
ghost use Rattle.layers.specs.ViewLaw.{all_hide, all_keep, viewed_hides, viewed_keeps};
ghost use Rattle.layers.specs.Viewed.{all_hidden, all_shown, nested, unviewed, viewed};

use crate::filing::WayBack;
use crate::layer::{KeyMap, Layer};
use crate::newest::Inversion;
use crate::turn::Turn;
use store::reading::ReadingStore;

/// A layer to put on, chosen at run time.
// Kept: the two kinds are all there are, and boxed maps would take memory for each step.
#[derive(Clone, Copy)]
pub enum View {
    /// Every bit inverted.
    NewestFirst,
    /// Turned at this cut.
    Turned(usize),
}

/// Layers put on one after the other: the first shows the stored key, each next one what the one before it shows.
#[derive(Drop)]
pub struct Views {
    steps: Vec<View>,
}

/// The layers to put on, in this order.
impl From<Vec<View>> for Views {
    ghost from_gives = { λ steps v. v.steps ≡ steps };

    fn from(steps: Vec<View>) -> Views {
        Views { steps }
    }
}

/// A layer that shows the keys as several layers do.
pub type Viewed<S> = Layer<Views, S>;

/// Puts the layers on, the first next to the store: what is shown is what so many layers show, each over the one before.
pub fn viewed_by<S: ReadingStore>(steps: Vec<View>, below: S) -> Viewed<S>
    ensures made { (result.map.steps ≡ steps) × (result.below ≡ below) }
    ensures nested { shown (all_shown result.map.steps.items) (S.ReadingStore.meaning result.below) ≡ nested steps.items (S.ReadingStore.meaning below) }
{
    Layer::new(Views::from(steps), below)
}

impl KeyMap for View {
    ghost shows = { viewed };

    ghost keeps = { viewed_keeps };

    fn show(&self, key: &mut [u8]) {
        match *self {
            View::NewestFirst => Inversion.show(key),
            View::Turned(cut) => Turn { cut }.show(key),
        }
    }
}

impl WayBack for View {
    ghost hides = { unviewed };

    ghost undone = { viewed_hides };

    fn hide(&self, key: &mut [u8]) {
        match *self {
            View::NewestFirst => Inversion.hide(key),
            View::Turned(cut) => Turn { cut }.hide(key),
        }
    }
}

impl KeyMap for Views {
    ghost shows = { λ v. all_shown v.steps.items };

    ghost keeps = { λ v. all_keep v.steps.items };

    fn show(&self, key: &mut [u8]) {
        for view in &self.steps {
            view.show(key);
        }
    }
}

impl WayBack for Views {
    ghost hides = { λ v. all_hidden v.steps.items };

    ghost undone = { λ v. all_hide v.steps.items };

    fn hide(&self, key: &mut [u8]) {
        // Kept: with `rev`, a body that goes first to last is refused for its names, not for what it does.
        let mut left = self.steps.as_slice();
        while let Some((last, before)) = left.split_last() {
            last.hide(key);
            left = before;
        }
    }
}

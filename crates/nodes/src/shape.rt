ghost use Rattle.std.specs.Prelude.{◌≡◌, ◌≤◌, Some, None, MatchResult};
ghost use Rattle.nodes.specs.Shapes.{shape_grounds};
ghost use Rattle.store.specs.Grounds.{first_ground};

use keys::key::WIDEST;
use keys::partial::LONGEST;
use store::refusal::Refusal;

/// The shape of an index: its keys' width in bytes, 1 to 32, and the bits that a partial key keeps, at most 16.
#[derive(Clone, Copy)]
pub struct Shape {
    width: usize,
    partial: u8,
    ghost narrowest: { 1 ≤ width },
    ghost widest: { width ≤ 32 },
    ghost longest: { partial ≤ 16 },
}

impl Shape {
    /// A shape; refused where the width is 0 or above 32, and then where the partial length is above 16.
    pub fn new(width: usize, partial: u8) -> Result<Shape, Refusal>
        ensures { MatchResult result (λ s. (first_ground (shape_grounds width partial) ≡ None) × (s.width ≡ width) × (s.partial ≡ partial)) (λ e. first_ground (shape_grounds width partial) ≡ Some e) }
    {
        if width == 0 || width > WIDEST {
            return Err(Refusal::KeyWidth);
        }
        if partial > LONGEST {
            return Err(Refusal::PartialLength);
        }
        Ok(Shape { width, partial })
    }

    /// The bytes of a key.
    pub fn width(self) -> usize
        ensures { result ≡ self.width }
    {
        self.width
    }

    /// The most bits that a partial key keeps.
    pub fn partial(self) -> u8
        ensures { result ≡ self.partial }
    {
        self.partial
    }
}

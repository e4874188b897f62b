ghost use Rattle.std.specs.Prelude.{◌≡◌, ◌*◌, ◌≤◌, length};
ghost use Rattle.keys.specs.Bits.{bits};
ghost use Rattle.keys.specs.Comparing.{OneWidth};
ghost use Rattle.keys.specs.Digits.{first_gap_of};
ghost use Rattle.keys.specs.Partials.{partial_of};

use keys::comparison::{Comparison, compare};
use keys::partial::{PartialKey, partial_key};
use nodes::node::Entry;
use nodes::shape::Shape;
use search::neighbour::Neighbour;

/// The offset between two keys of one width, or the last place if they are equal.
pub fn first_gap(key: &[u8], other: &[u8]) -> u16
    requires { OneWidth key.now other.now }
    ensures { result ≡ first_gap_of (8 * length key.now) 0 (bits key.now) (bits other.now) }
{
    let last = 8 * key.len() as u16;
    compare(key, other)
        .and_then(Comparison::offset)
        .unwrap_or(last)
}

/// A record with the partial key of its key at an offset; past the key no bits are left.
pub fn entry_at(key: &[u8], at: Neighbour, shape: Shape) -> Entry
    requires some { 1 ≤ length key.now }
    requires few { length key.now ≤ 32 }
    ensures { result ≡ record { number = at.number; partial = partial_of shape.partial key.now at.offset } }
{
    let Neighbour { number, offset } = at;
    let no_bits = PartialKey {
        offset,
        length: 0,
        bits: 0,
    };
    let partial = partial_key(key, offset, shape.partial()).unwrap_or(no_bits);
    Entry { number, partial }
}

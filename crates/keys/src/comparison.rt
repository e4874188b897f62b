ghost use Rattle.std.specs.Prelude.{◌≡◌, length, IfNone, IfSome};
ghost use Rattle.keys.specs.Bytes.{PartsAt};
ghost use Rattle.keys.specs.Comparing.{Compared, offset_of};

use crate::key::WIDEST;
use crate::zeros::leading_zeros;

/// How a key stands to another of its width. The number is their offset: the first bit in which they differ.
// Kept: three answers, like `Ordering`'s; an `Option` of an order and an offset would read no plainer.
#[derive(Clone, Copy, Debug, PartialEq, Eq)]
pub enum Comparison {
    Equal,
    Greater(u16),
    Less(u16),
}

impl Comparison {
    /// The offset, if the two keys differ.
    pub fn offset(self) -> Option<u16>
        ensures { result ≡ offset_of self }
    {
        match self {
            Comparison::Equal => None,
            Comparison::Greater(offset) | Comparison::Less(offset) => Some(offset),
        }
    }
}

// The first byte in which two keys of one width differ.
fn parting_byte(key: &[u8], other: &[u8]) -> Option<usize>
    requires { length key.now ≡ length other.now }
    ensures equal { IfNone result (key.now ≡ other.now) }
    ensures parts { IfSome result (PartsAt key.now other.now) }
{
    key.iter().zip(other).position(|(x, y)| x != y)
}

/// Compares a key with another of its width; none where the two are not keys of one width.
pub fn compare(key: &[u8], other: &[u8]) -> Option<Comparison>
    ensures { Compared key.now other.now result }
{
    let width = key.len();
    if width == 0 || width > WIDEST || other.len() != width {
        return None;
    }
    let Some(i) = parting_byte(key, other) else {
        return Some(Comparison::Equal);
    };
    let (x, y) = (key[i], other[i]);
    let offset = 8 * i as u16 + u16::from(leading_zeros(x ^ y)) + 1;
    Some(if x > y {
        Comparison::Greater(offset)
    } else {
        Comparison::Less(offset)
    })
}

ghost use Rattle.keys.specs.Partials.{PartialGiven};

use crate::key::{WIDEST, byte_after};

/// The most bits that a partial key keeps.
pub const LONGEST: u8 = 16;

/// What a node keeps of a key: its offset to the key before it, and the bits after the offset, the first highest.
#[derive(Clone, Copy, Debug, PartialEq, Eq)]
pub struct PartialKey {
    pub offset: u16,
    pub length: u8,
    pub bits: u16,
}

/// The partial key of a key at an offset, of at most `l` bits; none where the key is none, the offset lies past it, or `l`
/// is above 16.
pub fn partial_key(key: &[u8], offset: u16, l: u8) -> Option<PartialKey>
    ensures { PartialGiven l key.now offset result }
{
    let width = key.len();
    if width == 0 || width > WIDEST || l > LONGEST {
        return None;
    }
    let left = (8 * width as u16).checked_sub(offset)?;
    let length = u16::from(l).min(left) as u8;
    let place = usize::from(offset);
    // as 32 bits, since a partial key of no bits shifts all 16 out
    let after = u32::from(u16::from_be_bytes([byte_after(key, place), byte_after(key, place + 8)]));
    Some(PartialKey {
        offset,
        length,
        bits: (after >> (LONGEST - length)) as u16,
    })
}

use keys::comparison::compare;
use keys::partial::{PartialKey, partial_key};

/// What a node keeps of a key over the one before it, of at most `l` bits; none where that is the same key. The first key
/// lies over the floor: its offset is 0, where its first bit is the 1 in front.
pub fn partial_over(key: &[u8], base: Option<&[u8]>, l: u8) -> Option<PartialKey> {
    let offset = match base {
        Some(base) => compare(key, base)?.offset()?,
        None => 0,
    };
    partial_key(key, offset, l)
}

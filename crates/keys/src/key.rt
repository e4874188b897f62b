ghost use Rattle.std.specs.Prelude.{◌≡◌, suc, slice_index};
ghost use Rattle.keys.specs.Bits.{bits};
ghost use Rattle.keys.specs.Digits.{Above, floor, worth};

/// The most bytes of a key.
pub const WIDEST: usize = 32;

/// The bit of a key at a place: 1 at place 0, so that the floor lies below every key, and 0 past the key's end.
pub fn bit(key: &[u8], place: usize) -> u8
    ensures value { result ≡ bits key.now place }
    ensures above { Above (bits key.now) floor 0 }
{
    let Some(i) = place.checked_sub(1) else {
        return 1;
    };
    key.get(i / 8).map_or(0, |byte| (byte >> (7 - i % 8)) & 1)
}

// A byte of a key, 0 past its end.
fn byte_at(key: &[u8], i: usize) -> u8
    ensures { result ≡ slice_index key.now i }
{
    key.get(i).copied().unwrap_or(0)
}

/// The eight bits of a key right after a place, the first highest: they lie in two bytes at most.
pub fn byte_after(key: &[u8], place: usize) -> u8
    ensures { result ≡ worth 2 (bits key.now) (suc place) 8 }
{
    let i = place / 8;
    let both = u16::from_be_bytes([byte_at(key, i), byte_at(key, i + 1)]);
    ((both >> (8 - place % 8)) % 256) as u8
}

ghost use Rattle.std.specs.Prelude.{◌≡◌, ℕ, ◌<◌, ◌≤◌, ◌++◌, length, drop, replicate, slice_index};

use keys::key::WIDEST;

/// A place for one key of any width: the key stands in front.
#[derive(Clone, Copy)]
pub(crate) struct Row {
    pub(crate) bytes: [u8; WIDEST],
    ghost long: { length bytes ≡ 32 },
    ghost each: { (i : ℕ) → slice_index bytes i < 256 },
}

/// A row with no key yet.
impl Default for Row {
    ghost is_default = { λ row. row.bytes ≡ replicate 32 0 };

    fn default() -> Row {
        Row { bytes: [0; WIDEST] }
    }
}

impl Row {
    /// Puts the key in front; the bytes after it stay.
    pub(crate) fn write(&mut self, key: &[u8])
        requires { length key.now ≤ 32 }
        ensures { self.new.bytes ≡ key.now ++ drop (length key.now) self.old.bytes }
    {
        // Kept: a range without its start gets no proof over a field lent like this.
        self.bytes[0..key.len()].copy_from_slice(key);
    }
}

ghost use Rattle.std.specs.Prelude.{◌≡◌, ℕ, OnOk};
ghost use Rattle.parts.specs.Parts.{BytesWritten, InOrder, Ranks, Written, told_width_of};

use store::refusal::Refusal;

/// A part of a key.
pub trait Part {
    // its width in bytes
    ghost size: { ℕ };

    // the place of a value among all values
    ghost rank: { Self → ℕ };

    // the order of the values
    ghost less: { Self → Self → Type 0 };

    // that ranks fit the width and have that order
    ghost lawful: { Ranks size rank less };

    /// The width in bytes, or 33 where it is above 32.
    // Kept: each part tells its own, since that of a pair is computed from two and no constant can be.
    fn width() -> usize
        ensures { result ≡ told_width_of size };

    /// Writes the rank into a buffer of the part's width, the highest byte first.
    fn write(&self, buffer: &mut [u8]) -> Result<(), Refusal>
        ensures { Written size (rank self.now) buffer.old result buffer.new };
}

/// Writes the bytes of a rank into a buffer of as many bytes.
pub(crate) fn write_rank(rank: &[u8], buffer: &mut [u8]) -> Result<(), Refusal>
    ensures { BytesWritten rank.now buffer.old result buffer.new }
{
    if buffer.len() != rank.len() {
        return Err(Refusal::KeyLength);
    }
    buffer.copy_from_slice(rank);
    Ok(())
}

/// Writes the key of a part into a buffer of its width: the keys have the order of the values.
pub fn write_key<P: Part>(part: &P, buffer: &mut [u8]) -> Result<(), Refusal>
    ensures written { Written P.Part.size (P.Part.rank part.now) buffer.old result buffer.new }
    ensures law { OnOk result (InOrder P.Part.size P.Part.rank P.Part.less part.now buffer.new) }
{
    part.write(buffer)
}

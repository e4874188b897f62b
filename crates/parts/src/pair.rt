ghost use Rattle.std.specs.Prelude.{◌≡◌, ◌+◌, ◌*◌, ◌^◌, ◌⊎◌};
ghost use Rattle.parts.specs.PartLaws.{pair_back, pair_ranks};

use crate::part::Part;
use keys::key::WIDEST;
use store::refusal::Refusal;

/// Two parts, ordered by the first, then the second.
#[derive(Clone, Copy, Debug, PartialEq, Eq)]
pub struct Pair<A, B> {
    pub first: A,
    pub second: B,
}

// What a pair wider than a key tells.
// Kept: a width and not an `Option`, since the trait promises one of every part, 33 where its size is more than 32.
const TOO_WIDE: usize = WIDEST + 1;

impl<A: Part, B: Part> Part for Pair<A, B> {
    ghost size = { A.Part.size + B.Part.size };

    ghost rank = { λ p. A.Part.rank p.first * 256 ^ B.Part.size + B.Part.rank p.second };

    ghost less = { λ p q. A.Part.less p.first q.first ⊎ ((p.first ≡ q.first) × B.Part.less p.second q.second) };

    ghost lawful = { pair_ranks (λ p. p.first) (λ p. p.second) pair_back A.Part.lawful B.Part.lawful };

    fn width() -> usize {
        (A::width() + B::width()).min(TOO_WIDE)
    }

    fn write(&self, buffer: &mut [u8]) -> Result<(), Refusal> {
        let w = A::width();
        let all = w + B::width();
        if all > WIDEST || buffer.len() != all {
            return Err(Refusal::KeyLength);
        }
        let (front, rest) = buffer.split_at_mut(w);
        self.first.write(front)?;
        self.second.write(rest)
    }
}

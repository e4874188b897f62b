ghost use mathlib.Core.HLevel.{is_prop→PathP};
ghost use Rattle.std.proofs.Math.Bridge.{le_prop};
ghost use Rattle.std.specs.Prelude.{◌≡◌, ◌<◌, ◌≤◌};
ghost use Rattle.std.proofs.Common.{lit<, lit≤};
ghost use Rattle.parts.specs.PartLaws.{number_ranks};

use crate::part::{Part, write_rank};
use store::refusal::Refusal;

/// A tariff class, 0 to 255.
#[derive(Clone, Copy, Debug, PartialEq, Eq)]
pub struct Class {
    number: u8,
    ghost fits: { number ≤ 255 },
}

const WIDTH: usize = 1;

/// The class of a number.
// Kept: each part converts by impls of its own types; an impl that a macro of the repository writes is refused.
impl From<u8> for Class {
    ghost from_gives = { λ number class. class.number ≡ number };

    fn from(number: u8) -> Class {
        Class { number }
    }
}

/// The number of a class.
impl From<Class> for u8 {
    ghost from_gives = { λ class number. number ≡ class.number };

    fn from(class: Class) -> u8 {
        class.number
    }
}

impl Part for Class {
    ghost size = { 1 };

    ghost rank = { λ c. c.number };

    ghost less = { λ c d. c.number < d.number };

    ghost lawful = { number_ranks 1 255 (λ c. c.number) (lit≤ tt) (lit< tt) (λ c. c.fits) (λ x y e j. record { number = e j; fits = is_prop→PathP (λ k. e k ≤ 255) (λ k. le_prop) x.fits y.fits j }) };

    fn width() -> usize {
        WIDTH
    }

    fn write(&self, buffer: &mut [u8]) -> Result<(), Refusal> {
        write_rank(&self.number.to_be_bytes(), buffer)
    }
}

ghost use mathlib.Core.HLevel.{is_prop→PathP};
ghost use Rattle.std.proofs.Math.Bridge.{le_prop};
ghost use Rattle.std.specs.Prelude.{◌≡◌, ◌<◌, ◌≤◌, MatchResult};
ghost use Rattle.std.proofs.Common.{lit<, lit≤};
ghost use Rattle.store.specs.declared.refusal.Refusal.TheVariants.{FieldRange};
ghost use Rattle.parts.specs.PartLaws.{number_ranks};

use crate::part::{Part, write_rank};
use store::refusal::Refusal;

/// A minute of a day, 0 to 1439.
#[derive(Clone, Copy, Debug, PartialEq, Eq)]
pub struct Minute {
    number: u16,
    ghost fits: { number ≤ 1439 },
}

const LAST: u16 = 1439;

const WIDTH: usize = 2;

/// The minute of a number; refused above 1439.
// Kept: impls of its own type, as for a class.
impl TryFrom<u16> for Minute {
    type Error = Refusal;

    ghost try_from_gives = { λ number r. MatchResult r (λ m. (number ≤ 1439) × (m.number ≡ number)) (λ e. (1439 < number) × (e ≡ FieldRange)) };

    fn try_from(number: u16) -> Result<Minute, Refusal> {
        if number > LAST {
            return Err(Refusal::FieldRange);
        }
        Ok(Minute { number })
    }
}

/// The number of a minute.
impl From<Minute> for u16 {
    ghost from_gives = { λ minute number. number ≡ minute.number };

    fn from(minute: Minute) -> u16 {
        minute.number
    }
}

impl Part for Minute {
    ghost size = { 2 };

    ghost rank = { λ m. m.number };

    ghost less = { λ m n. m.number < n.number };

    ghost lawful = { number_ranks 2 1439 (λ m. m.number) (lit≤ tt) (lit< tt) (λ m. m.fits) (λ x y e j. record { number = e j; fits = is_prop→PathP (λ k. e k ≤ 1439) (λ k. le_prop) x.fits y.fits j }) };

    fn width() -> usize {
        WIDTH
    }

    fn write(&self, buffer: &mut [u8]) -> Result<(), Refusal> {
        write_rank(&self.number.to_be_bytes(), buffer)
    }
}

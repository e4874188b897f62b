ghost use mathlib.Core.HLevel.{is_prop→PathP};
ghost use Rattle.std.proofs.Math.Bridge.{le_prop};
ghost use Rattle.std.specs.Prelude.{◌≡◌, ◌^◌, ◌<◌, ◌<ℤ◌};
ghost use Rattle.std.specs.Int.Signed.{mag};
ghost use Rattle.parts.specs.Days.{DayCorners, day_rank};
ghost use Rattle.parts.specs.PartLaws.{day_ranks};

use crate::part::{Part, write_rank};
use store::refusal::Refusal;

/// A day, counted from day 0, before it too.
#[derive(Clone, Copy, Debug, PartialEq, Eq)]
pub struct Day {
    number: i32,
    ghost fits: { mag number < 2 ^ 31 },
}

const WIDTH: usize = 4;

/// The day of a number.
// Kept: impls of its own type, as for a class.
impl From<i32> for Day {
    ghost from_gives = { λ number day. day.number ≡ number };

    fn from(number: i32) -> Day {
        Day { number }
    }
}

/// The number of a day.
impl From<Day> for i32 {
    ghost from_gives = { λ day number. number ≡ day.number };

    fn from(day: Day) -> i32 {
        day.number
    }
}

impl Day {
    /// Its place among all days, the first at 0: the number + 2^31.
    pub fn rank(self) -> u32
        ensures value { result ≡ day_rank self.number }
        ensures corners { DayCorners }
    {
        self.number.abs_diff(i32::MIN)
    }
}

impl Part for Day {
    ghost size = { 4 };

    ghost rank = { λ d. day_rank d.number };

    ghost less = { λ d e. d.number <ℤ e.number };

    ghost lawful = { day_ranks (λ d. d.number) (λ d. d.fits) (λ x y e j. record { number = e j; fits = is_prop→PathP (λ k. mag (e k) < 2 ^ 31) (λ k. le_prop) x.fits y.fits j }) };

    fn width() -> usize {
        WIDTH
    }

    fn write(&self, buffer: &mut [u8]) -> Result<(), Refusal> {
        write_rank(&self.rank().to_be_bytes(), buffer)
    }
}

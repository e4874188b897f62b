ghost use Rattle.std.specs.Prelude.{◌≡◌};
ghost use Rattle.parts.specs.Tariffs.{TariffOrder, tariff_bytes};

use crate::class::Class;
use crate::day::Day;
use crate::minute::Minute;
use crate::pair::Pair;
use crate::part::write_key;

/// What a tariff is looked up by: the class, then the day, then the minute.
pub type TariffKey = Pair<Class, Pair<Day, Minute>>;

/// The bytes of a tariff key.
pub const TARIFF_WIDTH: usize = 7;

/// The tariff key's value, part by part.
pub fn tariff(class: Class, day: Day, minute: Minute) -> TariffKey
    ensures { result ≡ record { first = class; second = record { first = day; second = minute } } }
{
    Pair {
        first: class,
        second: Pair {
            first: day,
            second: minute,
        },
    }
}

/// The tariff key as bytes: the class, the day's rank and the minute, one after the other. Keys have the order of labels.
pub fn tariff_key(class: Class, day: Day, minute: Minute) -> [u8; TARIFF_WIDTH]
    ensures bytes { result ≡ tariff_bytes class day minute }
    ensures order { TariffOrder class day minute result }
{
    let mut key = [0; TARIFF_WIDTH];
    write_key(&tariff(class, day, minute), &mut key).unwrap();
    key
}

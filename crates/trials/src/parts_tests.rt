use keys::comparison::{Comparison, compare};
use parts::class::Class;
use parts::day::Day;
use parts::minute::Minute;
use parts::pair::Pair;
use parts::part::{Part, write_key};
use parts::tariff::tariff_key;
use std::test::Fail;
use store::refusal::Refusal;

// Days and their keys, from the first to the last: both ends, and around zero.
const DAYS: [(i32, [u8; 4]); 5] = [
    (i32::MIN, [0, 0, 0, 0]),
    (-1, [127, 255, 255, 255]),
    (0, [128, 0, 0, 0]),
    (1, [128, 0, 0, 1]),
    (i32::MAX, [255, 255, 255, 255]),
];

// The key of a part, written over other bytes.
fn written<P: Part, const N: usize>(part: &P) -> Result<[u8; N], Refusal> {
    let mut key = [9; N];
    write_key(part, &mut key)?;
    Ok(key)
}

#[test]
fn days_around_zero_and_at_both_ends(rt: HostRuntime) {
    for (day, key) in DAYS {
        assert_eq!(rt; written(&Day::from(day)), Ok(key), "day {day}");
        for (other, other_key) in DAYS {
            let told = match compare(&key, &other_key) {
                Some(Comparison::Greater(_)) => day > other,
                Some(Comparison::Less(_)) => day < other,
                Some(Comparison::Equal) => day == other,
                None => false,
            };
            assert!(rt; told, "day {day} and day {other}");
        }
    }
}

#[test]
fn minutes_and_their_range(rt: HostRuntime) -> Result<(), Fail> {
    assert_eq!(rt; written(&Minute::try_from(1439)?), Ok([5, 159]));
    assert_eq!(rt; Minute::try_from(1440), Err(Refusal::FieldRange));
    assert_eq!(rt; Minute::try_from(65535), Err(Refusal::FieldRange));
    Ok(())
}

#[test]
fn refused_write_leaves_the_buffer(rt: HostRuntime) -> Result<(), Fail> {
    let mut long = [9; 3];
    assert_eq!(rt;
        write_key(&Minute::try_from(0)?, &mut long),
        Err(Refusal::KeyLength)
    );
    assert_eq!(rt; long, [9; 3]);
    let mut none = [];
    assert_eq!(rt;
        write_key(&Class::from(1), &mut none),
        Err(Refusal::KeyLength)
    );
    Ok(())
}

#[test]
fn pair_of_pairs(rt: HostRuntime) -> Result<(), Fail> {
    let outer = Pair {
        first: Pair {
            first: Class::from(1),
            second: Minute::try_from(2)?,
        },
        second: Pair {
            first: Day::from(-1),
            second: Class::from(4),
        },
    };
    assert_eq!(rt; written(&outer), Ok([1, 0, 2, 127, 255, 255, 255, 4]));
    assert_eq!(rt;
        tariff_key(Class::from(2), Day::from(-1), Minute::try_from(1380)?),
        [2, 127, 255, 255, 255, 5, 100]
    );
    Ok(())
}

type Days2 = Pair<Day, Day>;

type Days4 = Pair<Days2, Days2>;

type Days8 = Pair<Days4, Days4>;

type Wide = Pair<Days8, Class>;

type Wider = Pair<Wide, Days8>;

fn eight_days() -> Days8 {
    let two = Pair {
        first: Day::from(0),
        second: Day::from(-1),
    };
    let four = Pair {
        first: two,
        second: two,
    };
    Pair {
        first: four,
        second: four,
    }
}

#[test]
fn pair_of_32_bytes(rt: HostRuntime) -> Result<(), Fail> {
    assert_eq!(rt; Days8::width(), 32);
    let key: [u8; 32] = written(&eight_days())?;
    assert_eq!(rt; key[0], 128);
    assert_eq!(rt; key[31], 255);
    Ok(())
}

#[test]
fn pair_of_33_bytes(rt: HostRuntime) {
    let wide: Wide = Pair {
        first: eight_days(),
        second: Class::from(1),
    };
    let mut key = [9; 33];
    assert_eq!(rt; write_key(&wide, &mut key), Err(Refusal::KeyLength));
    assert_eq!(rt; key[0], 9);
    assert_eq!(rt; key[32], 9);
    let wider: Wider = Pair {
        first: wide,
        second: eight_days(),
    };
    assert_eq!(rt; write_key(&wider, &mut key), Err(Refusal::KeyLength));
    assert_eq!(rt; Wide::width(), 33);
    assert_eq!(rt; Wider::width(), 33);
}

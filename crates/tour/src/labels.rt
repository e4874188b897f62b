use crate::forms::{Hex, Kept};
use crate::parting::partial_over;
use keys::partial::LONGEST;
use parts::class::Class;
use parts::day::Day;
use parts::minute::Minute;
use parts::tariff::{TARIFF_WIDTH, tariff_key};
use std::io;

// A label's key, and the values that it was made of.
#[derive(Clone, Copy, PartialEq, Eq, PartialOrd, Ord)]
struct Label {
    key: [u8; TARIFF_WIDTH],
    class: u8,
    day: i32,
    minute: u16,
}

// Days around zero and at both ends.
const LABELS: [(u8, i32, u16); 7] = [
    (2, 0, 360),
    (3, 0, 0),
    (2, -1, 1380),
    (2, 1, 0),
    (0, i32::MAX, 1439),
    (2, 0, 359),
    (255, i32::MIN, 0),
];

// The labels with their keys, all before one is told. One whose minute is none is left out, and that is told.
fn labels(rt: &(impl Print + AllocGlobal)) -> io::Result<Vec<Label>> {
    let mut labels = Vec::new(rt.alloc());
    for (class, day, minute) in LABELS {
        match Minute::try_from(minute) {
            Ok(moment) => {
                let key = tariff_key(Class::from(class), Day::from(day), moment);
                labels.push(Label {
                    key,
                    class,
                    day,
                    minute,
                })?;
            }
            Err(refusal) => {
                println!(rt; "  minute {minute}: refused on ground {}", refusal.number())?;
            }
        }
    }
    Ok(labels)
}

// A key after the one before it: where they part, and what a node would keep.
fn print_parting(rt: &impl Print, key: &[u8], base: Option<&[u8]>) -> io::Result<()> {
    match partial_over(key, base, LONGEST) {
        Some(partial) => println!(rt; "  {}: {}", Hex(key), Kept(partial)),
        None => println!(rt; "  {}: the key before it again", Hex(key)),
    }
}

/// Labels turned into keys, then sorted.
pub fn print_labels(rt: &(impl Print + AllocGlobal)) -> io::Result<()> {
    println!(rt; "Labels and their keys:")?;
    let mut labels = labels(rt)?;
    for label in &labels {
        let (class, day, minute) = (label.class, label.day, label.minute);
        println!(rt;
            "  class {class}, day {day}, minute {minute}: {}",
            Hex(&label.key)
        )?;
    }
    labels.sort()?;
    println!(rt; "The keys sorted, each against the one before it:")?;
    let mut base: Option<&[u8]> = None;
    for label in &labels {
        print_parting(rt, &label.key, base)?;
        base = Some(&label.key);
    }
    Ok(())
}

use crate::forms::Hex;
use layers::newest::newest_first;
use layers::turn::turned_at;
use std::io;
use store::reading::ReadingStore;
use stores::plan::Plan;

const RECORDS: [u16; 3] = [0, 23, 47];

// Fetches some records, and tells the tally after each.
fn print_fetches<S: ReadingStore>(rt: &impl Print, store: &mut S) -> io::Result<()> {
    for number in RECORDS {
        let mut key = [0; 3];
        match store.fetch(number, &mut key) {
            Ok(()) => println!(rt; "  record {number}: {}, tally {}", Hex(&key), store.tally())?,
            Err(refusal) => {
                println!(rt; "  record {number}: refused on ground {}", refusal.number())?
            }
        }
    }
    Ok(())
}

/// A plan of two classes, as it is, turned, and turned with the newest first.
pub fn print_plan(rt: &impl Print) -> io::Result<()> {
    let mut plan = Plan::new(2);
    let (held, width) = (plan.held(), plan.width());
    println!(rt; "A plan of 2 classes, {held} records of {width} bytes (class, minute):")?;
    print_fetches(rt, &mut plan)?;
    println!(rt; "The same, turned at byte 1 (minute, class):")?;
    let mut turned = turned_at(1, plan);
    print_fetches(rt, &mut turned)?;
    println!(rt; "The same, newest first over that (every bit inverted):")?;
    let mut newest = newest_first(turned);
    print_fetches(rt, &mut newest)?;
    let tally = newest.into_below().into_below().tally();
    println!(rt; "Under both layers the plan itself counts {tally} fetches.")
}

use crate::forms::Hex;
use parts::class::Class;
use parts::day::Day;
use parts::minute::Minute;
use parts::pair::Pair;
use parts::part::write_key;
use std::io;
use store::reading::ReadingStore;
use store::refusal::Refusal;
use stores::plan::Plan;

fn print_outcome<T: Drop>(
    rt: &impl Print,
    what: &str,
    outcome: Result<T, Refusal>,
) -> io::Result<()> {
    match outcome {
        Ok(_) => println!(rt; "  {what}: done"),
        Err(refusal) => {
            let ground = refusal.number();
            println!(rt; "  {what}: refused on ground {ground}, {refusal}")
        }
    }
}

/// Calls that are refused, and what they leave.
pub fn print_refusals(rt: &impl Print) -> io::Result<()> {
    println!(rt; "Refusals, which change nothing:")?;
    let mut plan = Plan::new(1);
    let mut key = [7; 3];
    print_outcome(rt, "a fetch into 2 bytes", plan.fetch(0, &mut key[..2]))?;
    print_outcome(rt, "a fetch of record 24 of 24", plan.fetch(24, &mut key))?;
    let held = Hex(&key);
    let tally = plan.tally();
    println!(rt; "  the buffer still holds {held}, the tally is {tally}")?;
    let part = Pair {
        first: Class::from(9),
        second: Day::from(-1),
    };
    let mut short = [7; 4];
    print_outcome(
        rt,
        "class and day written into 4 bytes",
        write_key(&part, &mut short),
    )?;
    let held = Hex(&short);
    println!(rt; "  the buffer still holds {held}")?;
    print_outcome(rt, "minute 1440", Minute::try_from(1440))
}

use crate::forms::{Compared, Hex, Kept, Placed};
use crate::parting::partial_over;
use keys::comparison::compare;
use nodes::node::Entry;
use nodes::table::NO_ENTRY;
use search::candidate::candidate;
use search::place::settle;
use search::sweep::{Swept, sweep};
use std::io;

// Keys of one byte, in order, of which a node keeps two bits each.
// Kept apart from the entries: they stand for the store, and a node has no keys.
const KEYS: [[u8; 1]; 5] = [[0x20], [0x24], [0x30], [0x60], [0xA0]];

const KEPT: u8 = 2;

// The entries of a node with these keys over the floor.
fn entries() -> [Entry; 5] {
    let mut entries = [NO_ENTRY; 5];
    let mut base: Option<&[u8]> = None;
    for ((number, key), entry) in (0..).zip(&KEYS).zip(&mut entries) {
        if let Some(partial) = partial_over(key, base, KEPT) {
            *entry = Entry { number, partial };
        }
        base = Some(key);
    }
    entries
}

// One search, step by step.
fn print_search(rt: &impl Print, entries: &[Entry; 5], key: &[u8; 1]) -> io::Result<()> {
    println!(rt; "A search for {} in it:", Hex(key))?;
    let Swept { low, high, offset } = sweep(entries, key, 0);
    println!(rt;
        "  by the partial keys it belongs from place {low} (offset {offset}) up to place {high}"
    )?;
    if low >= high {
        return println!(rt; "  no key is fetched");
    }
    let chosen = candidate(entries, key, low, high);
    let fetched = &KEYS[chosen];
    println!(rt;
        "  the candidate is at place {chosen}: {} is fetched",
        Hex(fetched)
    )?;
    let Some(comparison) = compare(key, fetched) else {
        return Ok(());
    };
    println!(rt; "  {}", Compared(comparison))?;
    println!(rt; "  {}", Placed(settle(entries, high, chosen, comparison)))
}

/// A node of five records, and searches in it.
pub fn print_node(rt: &impl Print) -> io::Result<()> {
    let entries = entries();
    println!(rt; "A node of five records, {KEPT} bits kept of each:")?;
    for (entry, key) in entries.iter().zip(&KEYS) {
        let (number, key, kept) = (entry.number, Hex(key), Kept(entry.partial));
        println!(rt; "  record {number}, key {key}: {kept}")?;
    }
    print_search(rt, &entries, &[0x34])?;
    print_search(rt, &entries, &[0x10])?;
    print_search(rt, &entries, &[0x80])
}

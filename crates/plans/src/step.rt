ghost use Rattle.std.specs.Prelude.{◌≡◌, ◌≤◌, length, slice_set};
ghost use Rattle.growth.specs.Growth.{least};
ghost use Rattle.growth.specs.Plans.{next_carry};
ghost use Rattle.plans.specs.Planning.{ItsKey};
ghost use Rattle.plans.specs.Steps.{Nexted, Refilled};
ghost use Rattle.std.specs.List.{insert};
ghost use Rattle.store.specs.Meaning.{key_of};

use crate::entry::{entry_at, first_gap};
use crate::plan::Entering;
use growth::shift::shift_in;
use growth::split::MOVES_UP;
use keys::key::WIDEST;
use nodes::node::Entry;
use nodes::shape::Shape;
use nodes::table::NO_ENTRY;
use search::neighbour::Neighbour;
use store::reading::{Missing, ReadingStore};

/// The entry at a place of a node, as it is once what comes up stands before it, `key` the key of that; or its record, if it is
/// to be fetched and the store lacks it.
pub fn following<S: ReadingStore>(
    entries: &[Entry],
    i: usize,
    up: Neighbour,
    key: &[u8],
    shape: Shape,
    store: &mut S,
) -> Result<Entry, Missing>
    requires wide { length key.now ≡ (S.ReadingStore.meaning store.old).width }
    requires its { key.now ≡ key_of (S.ReadingStore.meaning store.old) up.number }
    ensures { Nexted shape.partial (S.ReadingStore.meaning store.old) up.number up.offset i entries.now result (S.ReadingStore.meaning store.new) }
{
    let Some(&entry) = entries.get(i) else {
        return Ok(NO_ENTRY);
    };
    if entry.partial.offset != up.offset {
        return Ok(entry);
    }
    let number = entry.number;
    let mut buffer = [0; WIDEST];
    let other = &mut buffer[..key.len()];
    store.fetch(number, other).map_err(|_| Missing { number })?;
    let offset = first_gap(key, other);
    Ok(entry_at(other, Neighbour { number, offset }, shape))
}

// The least offset of some entries.
fn least_of(entries: &[Entry]) -> u16
    ensures { result ≡ least entries.now }
{
    entries
        .iter()
        .map(|entry| entry.partial.offset)
        .min()
        .unwrap_or(0)
}

/// What moves up of a full node with one entry more, and the following one as it becomes.
pub fn moved_up(entries: &[Entry; 7], i: usize, entry: Entry, next: Entry) -> Neighbour
    requires { i ≤ 7 }
    ensures number { result.number ≡ (next_carry (insert (slice_set entries.now i next) i entry)).number }
    ensures offset { result.offset ≡ (next_carry (insert (slice_set entries.now i next) i entry)).offset }
    ensures long { length entries.now ≡ 7 }
{
    let mut old = *entries;
    if i < old.len() {
        old[i] = next;
    }
    let mut wide = [NO_ENTRY; 8];
    shift_in(&old, i, entry, &mut wide);
    Neighbour {
        number: wide[MOVES_UP].number,
        offset: least_of(&wide[..=MOVES_UP]),
    }
}

/// The key of a record that moved up: fetched, unless it is the one entered; or the record, if the store lacks it.
pub fn refill<S: ReadingStore>(
    number: u16,
    entering: Entering<'_>,
    key: &mut [u8],
    store: &mut S,
) -> Result<(), Missing>
    requires own { ItsKey (S.ReadingStore.meaning store.old) entering.number entering.key.now }
    requires room { length key.old ≡ (S.ReadingStore.meaning store.old).width }
    ensures { Refilled (S.ReadingStore.meaning store.old) entering.entry.number number result (S.ReadingStore.meaning store.new) key.new }
{
    if number == entering.number {
        key.copy_from_slice(entering.key);
        return Ok(());
    }
    store.fetch(number, key).map_err(|_| Missing { number })
}

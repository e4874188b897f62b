ghost use Rattle.std.specs.Prelude.{◌≡◌, ◌≤◌, length};
ghost use Rattle.descent.specs.Course.{turn};
ghost use Rattle.descent.specs.Reading.{Descends, Readable};
ghost use Rattle.growth.specs.Commits.{tree_at};
ghost use Rattle.keys.specs.Bits.{bits};
ghost use Rattle.search.specs.Seek.{sought};
ghost use Rattle.search.specs.TreeLaw.{fetching};
ghost use Rattle.store.specs.Meaning.{after_reads};

use growth::commit::{Top, node_at};
use growth::path::Waypoint;
use keys::comparison::compare;
use keys::key::WIDEST;
use nodes::node::{Entry, Node};
use search::neighbour::{Neighbour, neighbour_at, record_over, record_under};
use search::place::{Placement, Step, look, settle};
use store::reading::{Missing, ReadingStore};

/// The most levels of a tree.
pub const MOST_LEVELS: usize = 7;

/// How a search ends: at the record of equal key, or in a gap, between the records on its two sides.
// Kept: neither is a failure, so a `Result` would let `?` leave at one of them.
#[derive(Clone, Copy)]
pub enum Ending {
    Found(u16),
    Gap {
        below: Option<Neighbour>,
        above: Option<u16>,
    },
}

/// A search down a tree: how it ended, at which height, and the path that it took. The offset is that of the search key to the
/// key before its place.
#[derive(Clone, Copy)]
pub struct Descent {
    pub ending: Ending,
    pub bottom: u8,
    // Kept: fixed memory, with no heap, for as many levels as a tree can have.
    pub path: [Waypoint; MOST_LEVELS],
    pub offset: u16,
}

// The search of an empty tree.
const NOTHING_PASSED: Descent = Descent {
    ending: Ending::Gap {
        below: None,
        above: None,
    },
    bottom: 0,
    path: [Waypoint { node: 0, place: 0 }; MOST_LEVELS],
    offset: 0,
};

// A search among the entries of one node, with at most one key fetched. `offset` is that of the search key to the node's base.
fn look_through<S: ReadingStore>(
    entries: &[Entry],
    store: &mut S,
    key: &[u8],
    buffer: &mut [u8],
    offset: u16,
) -> Result<Placement, Missing>
    requires width { length key.now ≡ (S.ReadingStore.meaning store.old).width }
    requires room { length buffer.old ≡ (S.ReadingStore.meaning store.old).width }
    ensures to { result ≡ (turn (bits key.now) (fetching (S.ReadingStore.meaning store.old) key.now) entries.now offset).to }
    ensures reads { S.ReadingStore.meaning store.new ≡ after_reads (length (turn (bits key.now) (fetching (S.ReadingStore.meaning store.old) key.now) entries.now offset).fetched) (S.ReadingStore.meaning store.old) }
{
    match look(entries, key, offset) {
        Step::Known { place, offset } => Ok(Placement::Place { place, offset }),
        Step::Ask { high, candidate } => {
            let number = entries[candidate].number;
            store.fetch(number, buffer).map_err(|_| Missing { number })?;
            let comparison = compare(key, buffer).ok_or(Missing { number })?;
            Ok(settle(entries, high, candidate, comparison))
        }
    }
}

/// The search for a key, from the root down, with its path; or the record that it must fetch and the store lacks.
// Kept: that the key is as wide as the store's keys is a fact of both, so no type of one of them says it.
pub fn descend<S: ReadingStore>(
    table: &[Node],
    top: Top,
    store: &mut S,
    key: &[u8],
) -> Result<Descent, Missing>
    requires deep { top.levels ≤ 7 }
    requires readable { Readable table.now top.used top.levels top.root }
    requires width { length key.now ≡ (S.ReadingStore.meaning store.old).width }
    ensures search { Descends (bits key.now) (fetching (S.ReadingStore.meaning store.old) key.now) top.levels (tree_at table.now top) result }
    ensures reads { S.ReadingStore.meaning store.new ≡ after_reads (length (sought (bits key.now) (fetching (S.ReadingStore.meaning store.old) key.now) top.levels (tree_at table.now top)).fetched) (S.ReadingStore.meaning store.old) }
{
    let mut buffer = [0; WIDEST];
    let buffer = &mut buffer[..key.len()];
    let mut at = top.root;
    let (mut below, mut above) = (None, None);
    let mut descent = NOTHING_PASSED;
    // Kept: a level counts the levels under a node and is told as `bottom`; the path is indexed by it only after that.
    for level in (0..top.levels).rev() {
        let n = node_at(table, at);
        let entries = &n.entries[..usize::from(n.count)];
        // Kept: the waypoint is written in both arms, since each has its own place, and only one goes on.
        match look_through(entries, store, key, buffer, descent.offset)? {
            Placement::Found(c) => {
                let place = c as u8;
                descent.path[usize::from(level)] = Waypoint { node: at, place };
                descent.bottom = level;
                descent.ending = Ending::Found(entries[c].number);
                return Ok(descent);
            }
            Placement::Place { place: i, offset } => {
                let place = i as u8;
                descent.path[usize::from(level)] = Waypoint { node: at, place };
                descent.offset = offset;
                below = record_under(entries, i, below);
                above = record_over(entries, i, above);
                at = n.children[i];
            }
        }
    }
    let below = neighbour_at(below, descent.offset);
    descent.ending = Ending::Gap { below, above };
    Ok(descent)
}

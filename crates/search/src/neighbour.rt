ghost use Rattle.std.specs.Prelude.{◌≡◌, ◌≤◌, length};
ghost use Rattle.search.specs.Seek.{neighbour, over_at, under_at};

use nodes::node::Entry;

/// A record, and the offset between its key and one next to it: the search key, or the key before its place.
#[derive(Clone, Copy, Debug, PartialEq, Eq)]
pub struct Neighbour {
    pub number: u16,
    pub offset: u16,
}

/// The record under a place of a node, or the one before the node.
pub fn record_under(entries: &[Entry], place: usize, before: Option<u16>) -> Option<u16>
    requires { place ≤ length entries.now }
    ensures { result ≡ under_at place before entries.now }
{
    entries[..place].last().map(|entry| entry.number).or(before)
}

/// The record over a place of a node, or the one after the node.
pub fn record_over(entries: &[Entry], place: usize, after: Option<u16>) -> Option<u16>
    ensures { result ≡ over_at place entries.now after }
{
    entries.get(place).map(|entry| entry.number).or(after)
}

/// A record as a neighbour, at an offset.
pub fn neighbour_at(number: Option<u16>, offset: u16) -> Option<Neighbour>
    ensures { result ≡ neighbour number offset }
{
    number.map(|number| Neighbour { number, offset })
}

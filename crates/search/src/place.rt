ghost use Rattle.std.specs.Prelude.{◌≡◌, ℕ, suc, ◌-◌, ◌*◌, ◌<◌, ◌≤◌, length};
ghost use Rattle.keys.specs.Bits.{bits};
ghost use Rattle.keys.specs.Digits.{Above, Digits};
ghost use Rattle.search.specs.NodeLaw.{ComparedUpto, InNode, LeadsRight, PlacedUpto, StepInNode, StepsUpto};
ghost use Rattle.search.specs.Parts.{TrueNode, parts_of};
ghost use Rattle.search.specs.Placing.{downward, looked, settled, upward};

use crate::candidate::candidate;
use crate::sweep::sweep;
use keys::comparison::Comparison;
use nodes::node::Entry;

// Kept: neither variant is a failure, so an `Option` or a `Result`, and `?` on it, would mislead.
/// What a look at a node leads to: a known place, with the search key's offset to the key under it; or a candidate to
/// fetch and compare, and the first place whose key is known to be greater.
#[derive(Clone, Copy)]
pub enum Step {
    Known { place: usize, offset: u16 },
    Ask { high: usize, candidate: usize },
}

// Kept: a key found is no failure, nor is a place, so an `Option` or a `Result`, and `?` on it, would mislead.
/// Where the search key stands in a node: at a place, or before it, with its offset to the key under the place.
#[derive(Clone, Copy)]
pub enum Placement {
    Found(usize),
    Place { place: usize, offset: u16 },
}

/// A look at a node's entries, by their partial keys alone. `offset` is that of the search key to the base.
pub fn look(entries: &[Entry], key: &[u8], offset: u16) -> Step
    requires { length key.now ≤ 32 }
    ensures step { result ≡ looked (bits key.now) (parts_of entries.now) (length entries.now) offset }
    ensures within { StepInNode (length entries.now) result }
    ensures offset { offset ≤ 8 * length key.now → StepsUpto (8 * length key.now) result }
    ensures law { (n : ℕ) (k : ℕ → Digits) → TrueNode (length entries.now) k (parts_of entries.now) → Above (bits key.now) (k 0) offset → LeadsRight n (length entries.now) k (parts_of entries.now) (bits key.now) result }
{
    let found = sweep(entries, key, offset);
    if found.low < found.high {
        return Step::Ask {
            high: found.high,
            candidate: candidate(entries, key, found.low, found.high),
        };
    }
    Step::Known {
        place: found.low,
        offset: found.offset,
    }
}

// The first entry after the candidate with an offset not above this one, or the end.
fn place_above(entries: &[Entry], candidate: usize, offset: u16) -> usize
    requires { candidate < length entries.now }
    ensures { result ≡ upward (parts_of entries.now) offset (length entries.now - suc candidate) (suc candidate) }
{
    entries[candidate + 1..]
        .iter()
        .position(|entry| entry.partial.offset <= offset)
        .map_or(entries.len(), |n| candidate + 1 + n)
}

// The last entry up to the candidate with an offset below this one, or the first.
fn place_below(entries: &[Entry], candidate: usize, offset: u16) -> usize
    requires { candidate < length entries.now }
    ensures placed { result ≡ downward (parts_of entries.now) offset candidate }
    ensures within { result ≤ candidate }
{
    entries[..=candidate]
        .iter()
        .rposition(|entry| entry.partial.offset < offset)
        .unwrap_or(0)
}

/// Where the search key stands, by its comparison with the candidate's key.
// Kept: that the candidate lies under `high`, and `high` within the node, is a fact of the node; a type of the two alone cannot say it.
pub fn settle(entries: &[Entry], high: usize, candidate: usize, comparison: Comparison) -> Placement
    requires { (candidate < high) × (high ≤ length entries.now) }
    ensures placed { result ≡ settled (parts_of entries.now) high candidate comparison }
    ensures within { InNode (length entries.now) result }
    ensures offset { (m : ℕ) → ((i : ℕ) → i < length entries.now → (parts_of entries.now).offset i ≤ m) → ComparedUpto m comparison → PlacedUpto m result }
{
    match comparison {
        Comparison::Equal => Placement::Found(candidate),
        Comparison::Greater(offset) => Placement::Place {
            place: place_above(&entries[..high], candidate, offset),
            offset,
        },
        Comparison::Less(offset) => {
            let place = place_below(entries, candidate, offset);
            Placement::Place {
                place,
                offset: entries[place].partial.offset,
            }
        }
    }
}

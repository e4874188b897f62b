ghost use Rattle.std.specs.Prelude.{◌≡◌, ◌<◌, ◌≤◌, length};
ghost use Rattle.keys.specs.Bits.{bits};
ghost use Rattle.search.specs.Parts.{parts_of};
ghost use Rattle.search.specs.Placing.{candidate_of, looked_at};

use keys::key::bit;
use nodes::node::Entry;

// the bit of every key at its own offset
const LEAD: u8 = 1;

// Whether a key of this offset is looked at, one having been passed over.
fn is_looked_at(passed: Option<u16>, offset: u16) -> bool
    ensures { result ≡ looked_at passed offset }
{
    passed.is_none_or(|over| offset <= over)
}

/// The candidate among the open entries, from `low` up to `high`: the one key worth fetching.
pub fn candidate(entries: &[Entry], key: &[u8], low: usize, high: usize) -> usize
    requires { (low < high) × (high ≤ length entries.now) }
    ensures chosen { result ≡ candidate_of (bits key.now) (parts_of entries.now) low high }
    ensures within { result < high }
{
    let mut chosen = low;
    let mut passed = None;
    let first = low + 1;
    for (i, entry) in entries[first..high].iter().enumerate() {
        let offset = entry.partial.offset;
        if is_looked_at(passed, offset) {
            if bit(key, usize::from(offset)) >= LEAD {
                chosen = first + i;
                passed = None;
            } else {
                passed = Some(offset);
            }
        }
    }
    chosen
}

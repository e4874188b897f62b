ghost use Rattle.std.specs.Prelude.{◌≡◌, ◌≤◌, length};
ghost use Rattle.keys.specs.Bits.{bits};
ghost use Rattle.search.specs.Parts.{parts_of};
ghost use Rattle.search.specs.Sweeping.{swept};

use crate::order::{Order, next_order};
use nodes::node::Entry;

/// What a sweep finds: the place after the last key found smaller than the search key, the offset to it, and the first key
/// found greater, or the end.
#[derive(Clone, Copy)]
pub struct Swept {
    pub low: usize,
    pub offset: u16,
    pub high: usize,
}

/// The sweep over a node's entries, from the search key's offset to the base on.
pub fn sweep(entries: &[Entry], key: &[u8], offset: u16) -> Swept
    requires { length key.now ≤ 32 }
    ensures found { result ≡ swept (bits key.now) (parts_of entries.now) (length entries.now) offset }
    ensures within { (result.low ≤ result.high) × (result.high ≤ length entries.now) }
{
    let mut low = 0;
    let mut nearest = offset;
    let mut order = Order::Greater(usize::from(offset));
    for (i, entry) in entries.iter().enumerate() {
        order = next_order(key, order, entry.partial);
        match order {
            Order::Greater(known) => {
                low = i + 1;
                nearest = known as u16;
            }
            Order::Less(_) => return Swept {
                low,
                offset: nearest,
                high: i,
            },
            Order::Open(_) => {}
        }
    }
    Swept {
        low,
        offset: nearest,
        high: entries.len(),
    }
}

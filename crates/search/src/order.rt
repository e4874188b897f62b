ghost use Rattle.std.specs.Prelude.{◌≡◌, ◌+◌, ◌-◌, ◌/◌, ◌%◌, ◌^◌, ◌≤◌, ◌∷◌, slice_index};
ghost use Rattle.keys.specs.Bits.{bits};
ghost use Rattle.search.specs.Parts.{low_bits};
ghost use Rattle.search.specs.Sweeping.{against, offset_of, step};

use keys::key::bit;
use keys::partial::PartialKey;
use std::cmp::Ordering;

// Kept: no value is left out and none is a failure, so neither an `Option` nor an `Ordering` says all three.
/// What is known of the search key against a key: greater or less, with their offset, or open, with the place up to which
/// the two agree.
#[derive(Clone, Copy)]
pub enum Order {
    Greater(usize),
    Less(usize),
    Open(usize),
}

impl Order {
    /// The offset that it carries.
    pub fn offset(self) -> usize
        ensures { result ≡ offset_of self }
    {
        match self {
            Order::Greater(offset) | Order::Less(offset) | Order::Open(offset) => offset,
        }
    }
}

// The bit of a number that has so many bits below it.
fn bit_over(number: u16, below: u8) -> u8
    ensures { result ≡ (number / 2 ^ below) % 2 }
{
    (number.checked_shr(u32::from(below)).unwrap_or(0) & 1) as u8
}

// The bit that a partial key tells of at a place: 1 at its offset, and then the bits kept, the first highest.
fn kept_bit(partial: PartialKey, place: usize) -> u8
    requires { (partial.offset ≤ place) × (place ≤ partial.offset + partial.length) }
    ensures { result ≡ slice_index (1 ∷ low_bits partial.length partial.bits) (place - partial.offset) }
{
    match place - usize::from(partial.offset) {
        0 => 1,
        n => bit_over(partial.bits, partial.length - n as u8),
    }
}

// The key's bits from the offset of a partial key on against a 1 and the bits kept.
fn against_kept(key: &[u8], partial: PartialKey) -> Order
    ensures { result ≡ against (bits key.now) partial.offset (1 ∷ low_bits partial.length partial.bits) }
{
    let offset = usize::from(partial.offset);
    let end = offset + 1 + usize::from(partial.length);
    for place in offset..end {
        match bit(key, place).cmp(&kept_bit(partial, place)) {
            Ordering::Less => return Order::Less(place),
            Ordering::Greater => return Order::Greater(place),
            Ordering::Equal => {}
        }
    }
    Order::Open(end)
}

/// The order to the next key, from the order to the key before it.
pub fn next_order(key: &[u8], order: Order, partial: PartialKey) -> Order
    ensures { result ≡ step (bits key.now) order partial.offset (1 ∷ low_bits partial.length partial.bits) }
{
    let (known, offset) = (order.offset(), usize::from(partial.offset));
    match known.cmp(&offset) {
        Ordering::Less => order,
        Ordering::Greater => Order::Less(offset),
        Ordering::Equal => against_kept(key, partial),
    }
}

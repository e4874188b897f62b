ghost use Rattle.std.specs.Prelude.{◌≡◌, Some};
ghost use Rattle.store.specs.Grounds.{named, number, words};

use std::error::Error;
use std::fmt;

/// Why a call was refused: the fifteen grounds, in the order of their numbers.
#[derive(Clone, Copy, Debug, PartialEq, Eq)]
pub enum Refusal {
    /// The line's letter or length fits neither a label nor a query.
    LineForm,
    /// A field is not blanks, a permitted minus and digits.
    FieldForm,
    /// A class, day or minute is out of range.
    FieldRange,
    /// A width for a shape, card or pocket is 0 or above 32.
    KeyWidth,
    /// A shape's partial length is above 16.
    PartialLength,
    /// The store's width differs from that of the intake or index.
    StoreWidth,
    /// A key or buffer handed in differs from the width in length.
    KeyLength,
    /// The head is longer than the width.
    HeadLength,
    /// The store does not hold the record to fetch, add or enter.
    NotHeld,
    /// The store is at capacity.
    StoreFull,
    /// The search must fetch this record, which the store does not hold.
    SearchMissing(u16),
    /// An added key is not above the last.
    NotAscending,
    /// The key is in the index already, at this record.
    KeyPresent(u16),
    /// Fewer nodes are unused than needed.
    NodesSpent,
    /// A new partial key needs this record, which the store does not hold.
    PartialKeyMissing(u16),
}

impl Refusal {
    /// The ground's number, 1 to 15.
    // Kept: some variants carry a record, so none can be cast to its number.
    pub fn number(self) -> u8
        ensures { result ≡ number self }
    {
        match self {
            Refusal::LineForm => 1,
            Refusal::FieldForm => 2,
            Refusal::FieldRange => 3,
            Refusal::KeyWidth => 4,
            Refusal::PartialLength => 5,
            Refusal::StoreWidth => 6,
            Refusal::KeyLength => 7,
            Refusal::HeadLength => 8,
            Refusal::NotHeld => 9,
            Refusal::StoreFull => 10,
            Refusal::SearchMissing(_) => 11,
            Refusal::NotAscending => 12,
            Refusal::KeyPresent(_) => 13,
            Refusal::NodesSpent => 14,
            Refusal::PartialKeyMissing(_) => 15,
        }
    }

    /// The record that the ground names, if it names one.
    pub fn record(self) -> Option<u16>
        ensures { result ≡ named self }
    {
        match self {
            Refusal::SearchMissing(record)
            | Refusal::KeyPresent(record)
            | Refusal::PartialKeyMissing(record) => Some(record),
            _ => None,
        }
    }
}

/// What the ground says; the record that it names, `record` tells.
impl fmt::Display for Refusal {
    ghost output = { λ e. Some (words e) };

    fn fmt<W: fmt::Write>(&self, f: &mut fmt::Formatter<W>) -> fmt::Result {
        f.write_str(match self {
            Refusal::LineForm => "the line's letter or length fits neither a label nor a query",
            Refusal::FieldForm => "a field is not blanks, a permitted minus and digits",
            Refusal::FieldRange => "a class, day or minute is out of range",
            Refusal::KeyWidth => "a width for a shape, card or pocket is 0 or above 32",
            Refusal::PartialLength => "a shape's partial length is above 16",
            Refusal::StoreWidth => "the store's width differs from that of the intake or index",
            Refusal::KeyLength => "a key or buffer differs from the width in length",
            Refusal::HeadLength => "the head is longer than the width",
            Refusal::NotHeld => "the store does not hold the record",
            Refusal::StoreFull => "the store is at capacity",
            Refusal::SearchMissing(_) =>
                "the search must fetch a record that the store does not hold",
            Refusal::NotAscending => "an added key is not above the last",
            Refusal::KeyPresent(_) => "the key is in the index already",
            Refusal::NodesSpent => "fewer nodes are unused than needed",
            Refusal::PartialKeyMissing(_) =>
                "a new partial key needs a record that the store does not hold",
        })
    }
}

impl Error for Refusal {}

ghost use Rattle.std.specs.Prelude.{◌≡◌, ◌^◌, ◌<◌, ◌≤◌, vec_len, MatchResult};
ghost use Rattle.stores.specs.PocketLaw.{pocket_lawful};
ghost use Rattle.stores.specs.declared.pocket.PocketError.TheVariants.{NoMemory};
ghost use Rattle.stores.specs.Pockets.{Unmade, empty_pocket, pocket_of};

use crate::grounds::{check_append, check_fetch};
use crate::row::Row;
use crate::table::Table;
use keys::key::WIDEST;
use std::alloc::{AllocError, Global};
use store::filing::FilingStore;
use store::reading::ReadingStore;
use store::refusal::Refusal;

/// Up to 64 keys in rows of its own.
#[derive(Drop)]
pub struct Pocket {
    width: usize,
    count: u16,
    tally: u32,
    // Kept: all 64 rows are made at once, so that no append can lack memory.
    table: Table,
    ghost narrowest: { 1 ≤ width },
    ghost widest: { width ≤ 32 },
    ghost room: { count ≤ 64 },
    ghost full: { vec_len table.rows ≡ 64 },
    ghost wraps: { tally < 2 ^ 32 },
}

/// Why no pocket was made.
#[derive(Clone, Copy, Debug, PartialEq, Eq)]
pub enum PocketError {
    /// The width is not one that a key can have.
    Refused(Refusal),
    /// There was no memory for the rows: no ground of a refusal, and the same call may succeed later.
    NoMemory(AllocError),
}

impl From<AllocError> for PocketError {
    ghost from_gives = { λ want e. e ≡ NoMemory want };

    fn from(want: AllocError) -> PocketError {
        PocketError::NoMemory(want)
    }
}

// The rows of a pocket.
const ROWS: u16 = 64;

impl Pocket {
    /// An empty pocket for keys of this width.
    pub fn new(heap: Global, width: usize) -> Result<Pocket, PocketError>
        ensures { MatchResult result (λ p. (1 ≤ width) × (width ≤ 32) × (pocket_of p.width p.table.rows.items p.count p.tally ≡ empty_pocket width)) (Unmade width) }
    {
        if width == 0 || width > WIDEST {
            return Err(PocketError::Refused(Refusal::KeyWidth));
        }
        let rows = vec![in heap; Row::default(); usize::from(ROWS)]?;
        Ok(Pocket {
            width,
            count: 0,
            tally: 0,
            table: Table { rows },
        })
    }
}

impl ReadingStore for Pocket {
    ghost meaning = { λ p. pocket_of p.width p.table.rows.items p.count p.tally };

    ghost lawful = { λ p. pocket_lawful p.width p.table.rows p.count p.tally p.narrowest p.widest p.room p.full p.wraps };

    fn width(&self) -> usize {
        self.width
    }

    fn held(&self) -> u16 {
        self.count
    }

    fn capacity(&self) -> u16 {
        ROWS
    }

    fn tally(&self) -> u32 {
        self.tally
    }

    fn fetch(&mut self, number: u16, buffer: &mut [u8]) -> Result<(), Refusal> {
        check_fetch(self.width, self.count, number, buffer)?;
        let row = &self.table.rows[usize::from(number)];
        buffer.copy_from_slice(&row.bytes[..self.width]);
        self.tally = self.tally.wrapping_add(1);
        Ok(())
    }
}

impl FilingStore for Pocket {
    fn append(&mut self, key: &[u8]) -> Result<u16, Refusal> {
        let number = self.count;
        check_append(self.width, number, self.capacity(), key)?;
        self.table.row(usize::from(number)).write(key);
        self.count = number + 1;
        Ok(number)
    }
}

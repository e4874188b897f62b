ghost use Rattle.std.specs.Prelude.{◌≡◌};
ghost use Rattle.store.specs.Meaning.{Appended};

use crate::reading::ReadingStore;
use crate::refusal::Refusal;

/// A store that also takes keys.
pub trait FilingStore: ReadingStore {
    /// Files the key as the next record, and gives that record's number.
    fn append(&mut self, key: &[u8]) -> Result<u16, Refusal>
        ensures { Appended (Self.ReadingStore.meaning self.old) key.now result (Self.ReadingStore.meaning self.new) (self.new ≡ self.old) };
}

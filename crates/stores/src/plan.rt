ghost use Rattle.std.specs.Prelude.{◌≡◌, ◌^◌, ◌<◌, ◌≤◌, length};
ghost use Rattle.store.specs.Meaning.{Fetched};
ghost use Rattle.stores.specs.PlanLaw.{plan_lawful};
ghost use Rattle.stores.specs.Plans.{plan_of};

use crate::grounds::check_fetch;
use store::reading::ReadingStore;
use store::refusal::Refusal;

/// Computed records: 24 for each class, at each full hour of the day. It only reads, and is full.
#[derive(Drop)]
pub struct Plan {
    classes: u8,
    tally: u32,
    ghost few: { classes ≤ 255 },
    ghost wraps: { tally < 2 ^ 32 },
}

// A class in one byte and a minute in two.
const WIDTH: usize = 3;

// Records of a class, and the minutes between two of them.
const HOURS: u16 = 24;

const MINUTES: u16 = 60;

impl Plan {
    /// A plan of so many classes, with no key fetched yet.
    pub fn new(classes: u8) -> Plan
        ensures { plan_of result.classes result.tally ≡ plan_of classes 0 }
    {
        Plan { classes, tally: 0 }
    }
}

// Kept: each method has a clause of its own by the definition, beside the trait's, so that a weaker `meaning` is refused.
impl ReadingStore for Plan {
    ghost meaning = { λ p. plan_of p.classes p.tally };

    ghost lawful = { λ p. plan_lawful p.classes p.tally p.few p.wraps };

    fn width(&self) -> usize
        ensures { result ≡ (plan_of self.now.classes self.now.tally).width }
    {
        WIDTH
    }

    fn held(&self) -> u16
        ensures { result ≡ length (plan_of self.now.classes self.now.tally).keys }
    {
        HOURS * u16::from(self.classes)
    }

    fn capacity(&self) -> u16
        ensures { result ≡ (plan_of self.now.classes self.now.tally).capacity }
    {
        self.held()
    }

    fn tally(&self) -> u32
        ensures { result ≡ (plan_of self.now.classes self.now.tally).tally }
    {
        self.tally
    }

    fn fetch(&mut self, number: u16, buffer: &mut [u8]) -> Result<(), Refusal>
        ensures { Fetched (plan_of self.old.classes self.old.tally) number buffer.old result (plan_of self.new.classes self.new.tally) buffer.new (self.new ≡ self.old) }
    {
        check_fetch(WIDTH, self.held(), number, buffer)?;
        let [high, low] = (number % HOURS * MINUTES).to_be_bytes();
        buffer.copy_from_slice(&[(number / HOURS) as u8, high, low]);
        self.tally = self.tally.wrapping_add(1);
        Ok(())
    }
}

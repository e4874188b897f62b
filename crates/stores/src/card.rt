ghost use Rattle.std.specs.Prelude.{◌≡◌, ◌*◌, ◌^◌, ◌<◌, ◌≤◌, length, Some, MatchResult};
ghost use Rattle.store.specs.Grounds.{first_ground, width_grounds};
ghost use Rattle.store.specs.Meaning.{Appended, Fetched};
ghost use Rattle.stores.specs.CardLaw.{card_lawful};
ghost use Rattle.stores.specs.Cards.{BytesBefore, card_of, put_at, room_of};

use crate::grounds::{check_append, check_fetch};
use keys::key::WIDEST;
use store::filing::FilingStore;
use store::reading::ReadingStore;
use store::refusal::Refusal;

/// Keys filed one after the other in bytes handed in: record r stands at byte r × width.
#[derive(Drop)]
pub struct Card {
    width: usize,
    // Kept: the bytes are the caller's, handed in whole and handed back, so the count of what is filed stands beside them.
    count: u16,
    tally: u32,
    bytes: Vec<u8>,
    ghost narrowest: { 1 ≤ width },
    ghost widest: { width ≤ 32 },
    ghost room: { count ≤ room_of width (length bytes.items) },
    // of an owned `Vec` nothing else says that it holds bytes
    ghost each: { BytesBefore (count * width) bytes.items },
    ghost wraps: { tally < 2 ^ 32 },
}

/// No card was made: why, and the bytes handed in.
#[derive(Drop, Debug)]
pub struct CardError {
    pub refusal: Refusal,
    pub bytes: Vec<u8>,
}

impl Card {
    /// An empty card over these bytes, which stay as they are until a key is filed over them. A refusal hands them back.
    pub fn new(width: usize, bytes: Vec<u8>) -> Result<Card, CardError>
        ensures { MatchResult result (λ c. (1 ≤ width) × (width ≤ 32) × (card_of c.width c.bytes.items c.count c.tally ≡ card_of width bytes.items 0 0) × (c.bytes ≡ bytes)) (λ e. (first_ground (width_grounds width) ≡ Some e.refusal) × (e.bytes ≡ bytes)) }
    {
        if width == 0 || width > WIDEST {
            return Err(CardError {
                refusal: Refusal::KeyWidth,
                bytes,
            });
        }
        Ok(Card {
            width,
            count: 0,
            tally: 0,
            bytes,
        })
    }

    /// Hands the bytes back, with the keys filed in them.
    pub fn into_bytes(self) -> Vec<u8>
        ensures { result ≡ self.bytes }
    {
        let Card { bytes, .. } = self;
        bytes
    }
}

// Kept: what fetches and appends do stands by the definition too, beside the trait, so that a weaker `meaning` is refused.
impl ReadingStore for Card {
    ghost meaning = { λ c. card_of c.width c.bytes.items c.count c.tally };

    ghost lawful = { λ c. card_lawful c.width c.bytes.items c.count c.tally c.narrowest c.widest c.room c.each c.wraps };

    fn width(&self) -> usize {
        self.width
    }

    fn held(&self) -> u16 {
        self.count
    }

    fn capacity(&self) -> u16 {
        u16::try_from(self.bytes.len() / self.width).unwrap_or(u16::MAX)
    }

    fn tally(&self) -> u32 {
        self.tally
    }

    fn fetch(&mut self, number: u16, buffer: &mut [u8]) -> Result<(), Refusal>
        ensures fetched { Fetched (card_of self.old.width self.old.bytes.items self.old.count self.old.tally) number buffer.old result (card_of self.new.width self.new.bytes.items self.new.count self.new.tally) buffer.new (self.new ≡ self.old) }
        ensures bytes { self.new.bytes ≡ self.old.bytes }
    {
        check_fetch(self.width, self.count, number, buffer)?;
        let start = usize::from(number) * self.width;
        buffer.copy_from_slice(&self.bytes[start..start + self.width]);
        self.tally = self.tally.wrapping_add(1);
        Ok(())
    }
}

impl FilingStore for Card {
    fn append(&mut self, key: &[u8]) -> Result<u16, Refusal>
        ensures appended { Appended (card_of self.old.width self.old.bytes.items self.old.count self.old.tally) key.now result (card_of self.new.width self.new.bytes.items self.new.count self.new.tally) (self.new ≡ self.old) }
        ensures bytes { MatchResult result (λ n. self.new.bytes.items ≡ put_at (n * self.old.width) key.now self.old.bytes.items) (λ _. self.new.bytes ≡ self.old.bytes) }
    {
        let number = self.count;
        check_append(self.width, number, self.capacity(), key)?;
        let place = usize::from(number) * self.width;
        self.bytes[place..place + self.width].copy_from_slice(key);
        self.count = number + 1;
        Ok(number)
    }
}

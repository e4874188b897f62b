ghost use Rattle.std.specs.Prelude.{◌≡◌, ◌≢◌, ◌<◌, length, Some, MatchResult};
ghost use Rattle.store.specs.Grounds.{first_ground};
ghost use Rattle.store.specs.Meaning.{Meaning, append_grounds, fetch_grounds};

use store::refusal::Refusal;

/// Refuses a fetch from a store of this width that holds so many records, as every store does.
pub(crate) fn check_fetch(
    width: usize,
    held: u16,
    number: u16,
    buffer: &[u8],
) -> Result<(), Refusal>
    ensures { MatchResult result (λ _. (length buffer.now ≡ width) × (number < held)) (λ e. (m : Meaning) → m.width ≡ width → length m.keys ≡ held → first_ground (fetch_grounds m number (length buffer.now)) ≡ Some e) }
{
    if buffer.len() != width {
        return Err(Refusal::KeyLength);
    }
    if number >= held {
        return Err(Refusal::NotHeld);
    }
    Ok(())
}

/// Refuses an append to a store of this width that holds so many records, as every store does.
pub(crate) fn check_append(
    width: usize,
    held: u16,
    capacity: u16,
    key: &[u8],
) -> Result<(), Refusal>
    ensures { MatchResult result (λ _. (length key.now ≡ width) × (held ≢ capacity)) (λ e. (m : Meaning) → m.width ≡ width → length m.keys ≡ held → m.capacity ≡ capacity → first_ground (append_grounds m (length key.now)) ≡ Some e) }
{
    if key.len() != width {
        return Err(Refusal::KeyLength);
    }
    if held == capacity {
        return Err(Refusal::StoreFull);
    }
    Ok(())
}

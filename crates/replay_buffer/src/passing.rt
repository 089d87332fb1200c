//! Frames that are held no longer, and frames that are forgotten.

ghost use Rattle.std.specs.Prelude.{◌≡◌, ◌-◌, ◌≤◌, IfSome, ℕ};
ghost use Rattle.replay_buffer.specs.Held.{from_acked, from_least, lesser};
ghost use Rattle.replay_buffer.specs.Stored.{IsPassed, IsStart, IsTrimmed, end_of, held_in};

use crate::store::Store;

// Holds the oldest frames no longer until the rest starts at `low` or later.
fn pass_until(store: &mut Store, low: u64)
    requires { low ≤ end_of store.old }
    ensures held { (hold : ℕ) →
        held_in hold store.new ≡ from_least (held_in hold store.old) low }
    ensures all { IsPassed store.old store.new }
{
    while store.first() < low {
        store.pass_oldest();
    }
}

/// Holds the oldest frames no longer while more than `hold` bytes are held.
pub fn pass_beyond(store: &mut Store, hold: u64)
    ensures held { (most : ℕ) → held_in most store.new ≡
        from_least (held_in most store.old) (end_of store.old - hold) }
    ensures all { IsPassed store.old store.new }
{
    let low = store.end().saturating_sub(hold);
    pass_until(store, low);
}

/// Holds the whole frames no longer that end at or before the position.
pub fn pass_up_to(store: &mut Store, position: u64)
    ensures held { (hold : ℕ) →
        held_in hold store.new ≡ from_acked (held_in hold store.old) position }
    ensures all { IsPassed store.old store.new }
{
    let spot = store.find(position);
    if spot.index > store.passed() {
        store.pass_to(spot);
    }
}

// The lesser of the pin and of the position where the oldest held frame starts.
fn lesser(pin: Option<u64>, first: u64) -> u64
    ensures { result ≡ lesser pin first }
{
    match pin {
        Some(position) => position.min(first),
        None => first,
    }
}

/// Forgets the frames that are held no longer, where they start before the pin.
pub fn forget_unpinned(store: &mut Store, pin: Option<u64>)
    requires { IfSome pin (IsStart store.old) }
    ensures all { IsTrimmed store.old store.new (lesser pin store.old.first) }
    ensures pinned { IfSome pin (IsStart store.new) }
{
    let first = store.first();
    let low = lesser(pin, first);
    if store.floor() == low {
        return;
    }
    if low == first {
        store.forget_passed();
        return;
    }
    while store.floor() < low {
        store.forget_oldest();
    }
}

//! The end that pushes.

ghost use Rattle.std.specs.Prelude.{◌≡◌, ℕ, List, [], ◌∷◌, ◌++◌, map, OnOk, OnErr};
ghost use Rattle.rtrb.specs.Ring.{SameProducer, sent};
ghost use Rattle.ring.specs.Parts.{bytes_of};

use crate::item::{Gone, Item};
use rtrb::{Producer, PushError};
use std::sync::Wait;
use std::thread;

/// Pushes an item. It waits while the ring is full and the other end is there.
pub fn push<R: Wait>(rt: &R, producer: &mut Producer<Item>, item: Item) -> Result<(), Gone>
    ensures ring { SameProducer producer.old producer.new }
    ensures ok { OnOk result (sent producer.new ≡ sent producer.old ++ item ∷ []) }
    ensures err { OnErr result (sent producer.new ≡ sent producer.old) }
{
    for _ in rt.forever() {
        match producer.push(item) {
            Ok(()) => return Ok(()),
            Err(PushError::Full(_)) => {}
        }
        if producer.is_abandoned() {
            return Err(Gone);
        }
        thread::yield_now();
    }
    unreachable!()
}

/// Pushes these bytes, each in turn.
pub fn push_bytes<R: Wait>(rt: &R, producer: &mut Producer<Item>, bytes: &[u8]) -> Result<(), Gone>
    ensures ring { SameProducer producer.old producer.new }
    ensures ok { OnOk result (sent producer.new ≡ sent producer.old ++ bytes_of bytes.now) }
{
    for byte in bytes {
        push(rt, producer, Item::Byte(*byte))?;
    }
    Ok(())
}

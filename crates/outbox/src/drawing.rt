//! Drawing what waits, and dropping it.

ghost use Rattle.std.specs.Prelude.{◌≡◌, ◌≤◌, drop, length, take};
ghost use Rattle.outbox.specs.Waiting.{with_queue};

use crate::outbox::Outbox;

/// Drops the first bytes of what waits.
pub fn drop_front(outbox: &mut Outbox, count: u64)
    requires { count ≤ length outbox.old.queue }
    ensures { outbox.new ≡
        with_queue outbox.old (drop count outbox.old.queue) outbox.new.room.loose }
{
    let mut left = count;
    while left > 0 {
        left -= outbox.drop_some(left);
    }
}

/// Keeps the first bytes of what waits alone.
pub fn truncate(outbox: &mut Outbox, count: u64)
    requires { count ≤ length outbox.old.queue }
    ensures { outbox.new ≡
        with_queue outbox.old (take count outbox.old.queue) outbox.new.room.loose }
{
    let mut left = outbox.len() - count;
    while left > 0 {
        left -= outbox.drop_last(left);
    }
}

/// Moves the first bytes that wait into the buffer, as many as it has room for.
pub fn take_front(outbox: &mut Outbox, buffer: &mut [u8])
    requires { length buffer.old ≤ length outbox.old.queue }
    ensures taken { buffer.new ≡ take (length buffer.old) outbox.old.queue }
    ensures left { outbox.new ≡ with_queue
        outbox.old (drop (length buffer.old) outbox.old.queue) outbox.new.room.loose }
{
    let mut filled = 0;
    while filled < buffer.len() {
        let count = outbox.copy_front(&mut buffer[filled..]);
        drop_front(outbox, count as u64);
        filled += count;
    }
}

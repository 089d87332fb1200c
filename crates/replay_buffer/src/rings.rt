//! Rings of marks: how they grow, and what is read of them.

ghost use Rattle.std.specs.Prelude.{◌≡◌, ◌+◌, ◌-◌, ◌<◌, ◌≤◌, ◌++◌, ◌∷◌, [], ℕ, OnErr, OnOk, drop, length};
ghost use Rattle.replay_buffer.specs.Marked.{mark_at};

use circular_buffer::HeapCircularBuffer;
use rs_wire::OutOfMemory;

/// A ring that grows gets room for this part of what is wanted beyond it, or for a few items more.
const PART: usize = 4;

/// The fewest items that a ring has room for beyond what is wanted, where it grows.
const SOME_ITEMS: usize = 64;

/// Where a frame starts, and where it lies.
#[derive(Debug, Clone, Copy)]
pub struct Mark {
    /// The position, in bytes.
    pub position: u64,
    /// How many bytes lay before it.
    pub offset: usize,
}

/// The capacity of a ring that is to have room for so many items.
fn grown(wanted: usize) -> usize
    ensures { wanted ≤ result }
{
    wanted.saturating_add((wanted / PART).max(SOME_ITEMS))
}

/// Moves the items to memory for so many, which has to hold them.
fn move_over(ring: &mut HeapCircularBuffer<Mark>, capacity: usize) -> Result<(), OutOfMemory>
    requires { length ring.old.items ≤ capacity }
    ensures ok { OnOk result (ring.new ≡ record { items = ring.old.items; capacity = capacity }) }
    ensures err { OnErr result (ring.new ≡ ring.old) }
{
    let mut other = HeapCircularBuffer::with_capacity(*ring.allocator(), capacity)?;
    let (front, back) = ring.as_slices();
    other.fill_from_slice(front);
    other.fill_from_slice(back);
    *ring = other;
    Ok(())
}

/// Makes room for `count` items more. Where there is far more room, some of it is given back.
pub fn make_room(ring: &mut HeapCircularBuffer<Mark>, count: usize) -> Result<(), OutOfMemory>
    ensures items { ring.new.items ≡ ring.old.items }
    ensures room { OnOk result (length ring.new.items + count ≤ ring.new.capacity) }
    ensures err { OnErr result (ring.new ≡ ring.old) }
{
    let wanted = ring.len().checked_add(count).ok_or(OutOfMemory)?;
    let capacity = ring.capacity();
    if wanted > capacity {
        return move_over(ring, grown(wanted));
    }
    if grown(wanted) < capacity / 2 {
        // Where there is no memory for fewer items, the ring stays as it is.
        let _moved = move_over(ring, grown(wanted));
    }
    Ok(())
}

/// How many of the marks, none of which starts below the one before, start at or before `position`.
pub fn count_up_to(marks: &HeapCircularBuffer<Mark>, position: u64) -> usize
    requires { (i j : ℕ) → i ≤ j → j < length marks.now.items →
        (mark_at marks.now.items i).position ≤ (mark_at marks.now.items j).position }
    ensures bound { result ≤ length marks.now.items }
    ensures within { (k : ℕ) → k < result → (mark_at marks.now.items k).position ≤ position }
    ensures after { (k : ℕ) → result ≤ k → k < length marks.now.items →
        position < (mark_at marks.now.items k).position }
{
    let mut high = marks.len();
    let mut step = 1;
    let mut low = high;
    // Mostly it is one of the last.
    while low > 0 && at(marks, low - 1).position > position {
        high = low - 1;
        low = high.saturating_sub(step);
        step = step.saturating_mul(2);
    }
    while low < high {
        let middle = low + (high - low) / 2;
        if at(marks, middle).position <= position {
            low = middle + 1;
        } else {
            high = middle;
        }
    }
    low
}

/// Appends a mark, for which there is room.
pub fn push(marks: &mut HeapCircularBuffer<Mark>, mark: Mark)
    requires { length marks.old.items < marks.old.capacity }
    ensures { marks.new ≡ record marks.old { items = marks.old.items ++ mark ∷ [] } }
{
    let _room = marks.try_push_back(mark);
}

/// Drops the first items.
pub fn drop_front(ring: &mut HeapCircularBuffer<Mark>, count: usize)
    requires { count ≤ length ring.old.items }
    ensures { ring.new ≡ record ring.old { items = drop count ring.old.items } }
{
    let left = ring.len() - count;
    ring.truncate_front(left);
}

/// The mark at the index.
pub fn at(marks: &HeapCircularBuffer<Mark>, index: usize) -> Mark
    requires { index < length marks.now.items }
    ensures { result ≡ mark_at marks.now.items index }
{
    let none = Mark {
        position: 0,
        offset: 0,
    };
    marks.get(index).copied().unwrap_or(none)
}

//! Places in the frames that can be read, and the pin that keeps them.

ghost use Rattle.std.specs.Prelude.{◌≡◌, ◌+◌, ◌-◌, ◌<◌, ◌^◌, ◌≤◌, ◌++◌, [], drop, false, length, take, true, ℕ};
ghost use Rattle.std.specs.VecDeque.{deque_capacity, deque_len};
ghost use Rattle.replay_buffer.specs.Held.{Buffer, IsHeldBoundary, IsReadable, framed_from};
ghost use Rattle.outbox.specs.Spans.{AreSpans, IsLonger, IsPart, IsPinned, Reaches, bytes_from, piece, pieces, span};
ghost use Rattle.outbox.specs.Pins.{Goes};

use replay_buffer::{Place, Replay};
use rs_wire::OutOfMemory;
use std::collections::VecDeque;

/// So many own bytes, and then so many of the frames that can be read.
#[derive(Debug, Clone, Copy)]
pub struct Stretch {
    /// How many own bytes.
    pub own: u64,
    /// Where the bytes of frames begin.
    pub place: Place,
    /// How many of them.
    pub count: u64,
}

/// Makes room for a stretch more.
pub fn make_room(stretches: &mut VecDeque<Stretch>) -> Result<(), OutOfMemory>
    ensures items { stretches.new.items ≡ stretches.old.items }
    ensures len { deque_len stretches.new ≡ deque_len stretches.old }
    ensures capacity { deque_capacity stretches.old ≤ deque_capacity stretches.new }
{
    if stretches.len() < stretches.capacity() {
        return Ok(());
    }
    stretches.reserve(1)?;
    Ok(())
}

/// Pins a held boundary beside what is pinned; alone, where nothing waits.
pub fn pin_at(replay: &mut Replay, alone: bool, position: u64)
    requires { IsHeldBoundary replay.old.held position }
    ensures held { replay.new.held ≡ replay.old.held }
    ensures spare { replay.new.spare ≡ replay.old.spare }
    ensures boundary { IsReadable replay.new position }
    ensures pinned { IsPinned replay.new position }
    ensures bytes { bytes_from replay.new position ≡ framed_from replay.old.held position }
    ensures goes { alone ≡ false → Goes replay.old replay.new }
{
    let floor = replay.floor();
    // It does nothing: it says that the bytes are those that are held.
    let _count = replay.framed_len(position);
    if alone {
        replay.pin(position);
        return;
    }
    replay.pin(floor);
}

/// The place where the bytes of the next frame will begin, pinned. Alone, where nothing waits.
pub fn next_place(replay: &mut Replay, alone: bool) -> Place
    requires { alone ≡ false → (p : ℕ) × IsPinned replay.old p }
    ensures held { replay.new.held ≡ replay.old.held }
    ensures spare { replay.new.spare ≡ replay.old.spare }
    ensures boundary { IsReadable replay.new result.position }
    ensures pinned { IsPinned replay.new result.position }
    ensures end { result.skip ≡ length (bytes_from replay.new result.position) }
    ensures same { alone ≡ false → replay.new ≡ replay.old }
{
    // It does nothing: it says where the frames start that can be read.
    let _floor = replay.floor();
    let position = replay.end();
    if alone {
        replay.pin(position);
        let skip = replay.framed_len(position);
        return Place { position, skip };
    }
    let skip = replay.framed_len(position);
    Place { position, skip }
}

/// The place so many bytes on. It is pinned where it is alone, so that the frames before it need not
/// stay readable.
pub fn advance(replay: &mut Replay, alone: bool, place: Place, count: u64) -> Place
    requires boundary { IsReadable replay.old place.position }
    requires pinned { IsPinned replay.old place.position }
    requires within { place.skip + count ≤ length (bytes_from replay.old place.position) }
    ensures held { replay.new.held ≡ replay.old.held }
    ensures spare { replay.new.spare ≡ replay.old.spare }
    ensures boundary { IsReadable replay.new result.position }
    ensures pinned { IsPinned replay.new result.position }
    ensures inside { result.skip ≤ length (bytes_from replay.new result.position) }
    ensures bytes { drop result.skip (bytes_from replay.new result.position) ≡
        drop (place.skip + count) (bytes_from replay.old place.position) }
    ensures same { alone ≡ false → replay.new ≡ replay.old }
{
    // These two do nothing: they say where the frames start that can be read, and that they lie in
    // memory.
    let _floor = replay.floor();
    let _all = replay.framed_total();
    let next = replay.place_after(place.position, place.skip + count);
    if alone {
        replay.pin(next.position);
    }
    next
}

/// Nothing has to stay readable where nothing waits.
pub fn unpin_where_none(replay: &mut Replay, stretches: &VecDeque<Stretch>)
    ensures held { replay.new.held ≡ replay.old.held }
    ensures spare { replay.new.spare ≡ replay.old.spare }
    ensures each { AreSpans replay.old stretches.now.items →
        AreSpans replay.new stretches.now.items }
    ensures bytes { pieces replay.new stretches.now.items ≡
        pieces replay.old stretches.now.items }
    ensures reaches { Reaches replay.old stretches.now.items →
        Reaches replay.new stretches.now.items }
{
    if stretches.is_empty() {
        replay.unpin();
    }
}

/// Where one stretch is left, the frames before it need not stay readable.
pub fn pin_where_one(replay: &mut Replay, stretches: &VecDeque<Stretch>)
    requires { AreSpans replay.old stretches.now.items }
    ensures held { replay.new.held ≡ replay.old.held }
    ensures spare { replay.new.spare ≡ replay.old.spare }
    ensures each { AreSpans replay.new stretches.now.items }
    ensures bytes { pieces replay.new stretches.now.items ≡
        pieces replay.old stretches.now.items }
    ensures reaches { Reaches replay.old stretches.now.items →
        Reaches replay.new stretches.now.items }
{
    if stretches.len() != 1 {
        return;
    }
    let Some(first) = stretches.front() else {
        return;
    };
    // It does nothing: it says where the frames start that can be read.
    let _floor = replay.floor();
    replay.pin(first.place.position);
}

/// Puts what is left of the first stretch back, where something is.
pub fn put_first(stretches: &mut VecDeque<Stretch>, stretch: Stretch)
    requires room { deque_len stretches.old < deque_capacity stretches.old }
    ensures all { (b : Buffer) → pieces b stretches.new.items ≡
        piece b stretch ++ pieces b stretches.old.items }
    ensures each { (b : Buffer) → AreSpans b stretches.old.items → IsPart b stretch →
        AreSpans b stretches.new.items }
{
    if stretch.own > 0 || stretch.count > 0 {
        stretches.push_front_reserved(stretch);
    }
}

/// Puts what is left of the last stretch back, where something is.
pub fn put_last(stretches: &mut VecDeque<Stretch>, stretch: Stretch)
    requires room { deque_len stretches.old < deque_capacity stretches.old }
    ensures all { (b : Buffer) → pieces b stretches.new.items ≡
        pieces b stretches.old.items ++ piece b stretch }
    ensures each { (b : Buffer) → AreSpans b stretches.old.items → IsPart b stretch →
        AreSpans b stretches.new.items }
{
    if stretch.own > 0 || stretch.count > 0 {
        stretches.push_back_reserved(stretch);
    }
}

/// Copies as many of the held bytes of a stretch as fit to the beginning of the buffer, and answers
/// how many.
pub fn copy_span(replay: &Replay, stretch: Stretch, buffer: &mut [u8]) -> usize
    requires { IsPart replay.now stretch }
    ensures some { 0 < stretch.count → 0 < length buffer.old → 0 < result }
    ensures within { result ≤ length buffer.old }
    ensures bound { result ≤ stretch.count }
    ensures taken { buffer.new ≡ take result (span replay.now stretch) ++ drop result buffer.old }
{
    let count = stretch.count.min(buffer.len() as u64) as usize;
    let _all = replay.copy(
        stretch.place.position,
        stretch.place.skip,
        &mut buffer[..count],
    );
    count
}

/// Lengthens the last stretch by so many bytes of the next frame, where it is known to reach the end
/// of the frames and no own bytes come before these. Answers whether that is so.
pub fn lengthen(
    replay: &Replay,
    stretches: &mut VecDeque<Stretch>,
    reaches: bool,
    before: u64,
    count: u64,
) -> bool
    requires each { AreSpans replay.now stretches.old.items }
    requires reaches { reaches ≡ true → Reaches replay.now stretches.old.items }
    requires room { deque_len stretches.old < deque_capacity stretches.old }
    requires few { count < 2 ^ 63 }
    ensures longer { result ≡ true →
        IsLonger replay.now stretches.old.items stretches.new.items count }
    ensures none { result ≡ true → before ≡ 0 }
    ensures same { result ≡ false → stretches.new.items ≡ stretches.old.items }
    ensures len { deque_len stretches.new ≡ deque_len stretches.old }
    ensures capacity { deque_capacity stretches.new ≡ deque_capacity stretches.old }
{
    if before > 0 {
        return false;
    }
    if !reaches {
        return false;
    }
    // It does nothing: it says that the frames lie in memory.
    let _all = replay.framed_total();
    let Some(last) = stretches.back_mut() else {
        return false;
    };
    last.count += count;
    true
}

//! The table of the open streams.

ghost use Rattle.std.specs.Prelude.{◌≡◌, ◌<◌, ◌≤◌, ◌^◌, ◌+◌, IfOk, IfErr, IfSome, IsOk, OnOk, OnErr, IsSome, IsTrue, Some, None, is_some, false, length, if◌then◌else◌, nat_eq, slice_get, ℕ};
ghost use Rattle.indexmap.specs.IndexMap.{get, spare};
ghost use Rattle.stream_model.specs.declared.stream.Stream.{Stream as Kept};
ghost use Rattle.stream_model.specs.Streams.{one_if};
ghost use Rattle.stream_model.specs.Kept.{is_done, unless_done, FitsCredit};
ghost use Rattle.stream_model.specs.Known.{is_own_parity};
ghost use Rattle.stream_table.specs.Tables.{HasRoom, IsNew, MeansFault, SameIds, SetsAt, bare, highest_by, is_above_in, kept_at, kept_finished, no_streams, own_next, role_of, state_in, with_id};

use crate::TableFault;
use crate::ids::Ids;
use crate::stream::{bare_stream, finish_way, is_over, opener, part};
use indexmap::IndexMap;
use rs_wire::{Kind, OutOfMemory, Side, Way};
use std::alloc::Global;
use std::marker::Model;
use stream_model::{Limits, State, Stream};

// A stream more, for which there is room.
fn put(streams: &mut IndexMap<u32, Stream>, id: u32, stream: Stream)
    requires room { 0 < spare streams.old }
    requires new { get nat_eq streams.old id ≡ None }
    ensures kept { SetsAt streams.old.entries streams.new.entries id (Some stream) }
    ensures live { length streams.new.entries ≡ length streams.old.entries + 1 }
    ensures room { spare streams.old ≤ spare streams.new + 1 }
{
    // With room it can't fail.
    let _ = streams.insert(id, stream);
}

// What is kept of the stream of an id. Where it is the one at `near`, it is found without its hash.
#[inline(always)]
fn look_up(streams: &IndexMap<u32, Stream>, near: usize, id: u32) -> Option<Stream>
    ensures { result ≡ get nat_eq streams.now id }
{
    if let Some((other, stream)) = streams.get_index(near) {
        if *other == id {
            return Some(*stream);
        }
    }
    streams.get(&id).copied()
}

// The index of a stream that is there. Where it is `near`, it is found without the id's hash.
fn index_of(streams: &IndexMap<u32, Stream>, near: usize, id: u32) -> usize
    requires { IsSome (get nat_eq streams.now id) }
    ensures entry { (kept : Kept) × (slice_get streams.now.entries result ≡ Some (id, kept)) }
{
    if let Some((other, _)) = streams.get_index(near) {
        if *other == id {
            return near;
        }
    }
    match streams.get_full(&id) {
        Some((index, _, _)) => index,
        None => near,
    }
}

// A stream that is there stands so from now on. Its index, which is looked for at `near` first.
fn change(streams: &mut IndexMap<u32, Stream>, near: usize, id: u32, stream: Stream) -> usize
    requires { IsSome (get nat_eq streams.old id) }
    ensures kept { SetsAt streams.old.entries streams.new.entries id (Some stream) }
    ensures live { length streams.new.entries ≡ length streams.old.entries }
    ensures room { spare streams.new ≡ spare streams.old }
{
    let index = index_of(streams, near, id);
    if let Some(place) = streams.get_index_mut(index) {
        *place = stream;
    }
    index
}

/// The streams of an end that are open, by id, and the highest id of each end (RSocket 1.0, "Stream
/// Identifiers"). Contracts see the limits, what is kept of each open stream, for how many more
/// there is room, and the highest even and odd id.
///
/// The life of a stream, by its id and its two ways:
///
/// ```text
///   +------------+   skip, or start of a higher id
///   |   above    |----------------------------------------.
///   +------------+                                        |
///         | start                                         v
///         v                                            +------+
///   +------------+   F: either way, R S: reply         |      |
///   | both open  |------------------------------------>|      |
///   +------------+                                     |      |
///      |      |  C: reply                              |      |
///      |      v                                        |      |
///      |  +------------+   C: request                  | over |
///      |  | reply over |------------------------------>|      |
///      |  +------------+                               |      |
///      |  R S C: request                               |      |
///      v                                               |      |
///   +--------------+   R S C: reply                    |      |
///   | request over |---------------------------------->|      |
///   +--------------+                                   +------+
///
///   F    a fire-and-forget     request   the way from the requester to the responder is finished
///   R    a response            reply     the way back is finished
///   S    a stream              start     an id above the highest of its parity is used; `begin`
///   C    a channel                       also enters at a later state, or is over at once
/// ```
///
/// A way is finished by the message that completes it; a responder's CANCEL of a channel finishes
/// the request way; an ERROR, or the requester's CANCEL, finishes both. Only the three open states
/// are in memory. An id stays over for good; 0 is no stream's, and stays above.
#[derive(Debug, Drop)]
pub struct Table {
    // The streams that are not over.
    streams: IndexMap<u32, Stream>,
    // The index of the stream that changed last, which is likely to be looked up next.
    near: usize,
    // The highest ids that were used.
    ids: Ids,
    limits: Limits,
}

impl Model for Table {
    ghost use Rattle.stream_table.specs.Tables.{IsTable, TableOf};
    ghost use Rattle.stream_table.specs.Storage.{table_of};

    ghost Value = { TableOf };

    ghost view = { table_of };

    ghost invariant = { λ t. IsTable (table_of t) };
}

impl Table {
    /// No stream is open, and there is room for one. At most `max_streams` will be open at once,
    /// and this end's last id is `last_id`.
    pub fn new(
        alloc: Global,
        side: Side,
        max_streams: u32,
        last_id: u32,
    ) -> Result<Table, OutOfMemory>
        requires { last_id < 2 ^ 31 }
        ensures empty { IfOk result (λ t. t ≡ no_streams
            (record { side = side; max_streams = max_streams; last_id = last_id }) t.place) }
        ensures place { IfOk result (λ t. 0 < t.place) }
    {
        Ok(Table {
            streams: IndexMap::with_capacity(alloc, 1)?,
            near: 0,
            limits: Limits {
                side,
                max_streams,
                last_id,
            },
            ids: Ids { even: 0, odd: 0 },
        })
    }

    /// The limits of the end.
    pub fn limits(&self) -> Limits
        ensures { result ≡ self.now.limits }
    {
        self.limits
    }

    /// How many streams are open.
    pub fn live(&self) -> u32
        ensures count { result ≡ length self.now.kept }
        ensures within { length self.now.kept ≤ self.now.limits.max_streams }
    {
        self.streams.len() as u32
    }

    /// What is kept of the stream of an id, where it is open.
    #[inline(always)]
    pub fn get(&self, id: u32) -> Option<Stream>
        ensures kept { result ≡ kept_at self.now.kept id }
        ensures not_over { IfSome result (λ f. is_done f ≡ false) }
        ensures credit { IfSome result FitsCredit }
    {
        look_up(&self.streams, self.near, id)
    }

    /// The highest id that was used of those of an end, 0 for none: the client's ids are odd, the
    /// server's even.
    pub fn highest(&self, opener: Side) -> u32
        ensures highest { result ≡ highest_by self.now opener }
        ensures bits { result < 2 ^ 31 }
    {
        self.ids.of(opener)
    }

    /// Whether an id is above all of its parity that were used, or is 0, which is no stream's.
    #[inline(always)]
    pub fn is_above(&self, id: u32) -> bool
        ensures { result ≡ is_above_in self.now id }
    {
        id == 0 || id > self.ids.like(id)
    }

    /// What is known of an id: it is above all that were used, or its stream is open or over.
    pub fn state(&self, id: u32) -> State
        ensures { result ≡ state_in self.now id }
    {
        if self.is_above(id) {
            return State::Above;
        }
        match self.get(id) {
            None => State::Over,
            Some(stream) => State::Live {
                kind: stream.kind,
                opener: opener(self.limits.side, stream.role),
                request_over: stream.request_over,
                reply_over: stream.reply_over,
            },
        }
    }

    /// The id of this end's next stream: 1 or 2 at first, then 2 above its highest. `None` exactly
    /// where that passes the last id.
    pub fn next_id(&self) -> Option<u32>
        ensures next { result ≡ own_next self.now }
        ensures new { IfSome result (IsNew self.now) }
        ensures own { IfSome result (λ id. IsTrue (is_own_parity self.now.limits.side id)) }
    {
        let next = self.ids.after(self.limits.side);
        if next > self.limits.last_id {
            return None;
        }
        Some(next)
    }

    /// Makes room for one stream more: with room, [`Table::start`] takes no memory.
    #[inline(always)]
    pub fn reserve(&mut self) -> Result<(), OutOfMemory>
        ensures room { OnOk result (0 < self.new.place) }
        ensures enough { 0 < self.old.place → IsOk result }
        ensures place { self.old.place ≤ self.new.place }
        ensures same { self.new ≡ record self.old { place = self.new.place } }
    {
        self.streams.reserve(1)?;
        Ok(())
    }

    /// Uses an id without a stream: it is over from now on, as are all below it of its parity on
    /// which no stream is open.
    pub fn skip(&mut self, id: u32)
        requires { id < 2 ^ 31 }
        ensures { self.new ≡ with_id self.old id }
    {
        self.ids.raise(id);
    }

    /// Opens a stream of that kind, both ways of which are open and without credit.
    /// [`TableFault::TooMany`] exactly where as many streams are open as may be.
    pub fn start(&mut self, id: u32, kind: Kind, opener: Side) -> Result<(), TableFault>
        requires new { IsNew self.old id }
        requires parity { IsTrue (is_own_parity opener id) }
        ensures kept { OnOk result (SetsAt self.old.kept self.new.kept id
            (Some (bare (role_of self.old.limits.side opener) kind))) }
        ensures live { OnOk result (length self.new.kept ≡ length self.old.kept + 1) }
        ensures within { OnOk result (length self.old.kept < self.old.limits.max_streams) }
        ensures used { OnOk result (SameIds (with_id self.old id) self.new) }
        ensures fault { IfErr result (MeansFault self.old) }
        ensures same { OnErr result (self.new ≡ record self.old { place = self.new.place }) }
        ensures place { self.old.place ≤ self.new.place + 1 }
    {
        if self.live() >= self.limits.max_streams {
            return Err(TableFault::TooMany(self.limits.max_streams));
        }
        self.reserve()?;
        self.begin(id, bare_stream(part(self.limits.side, opener), kind));
        Ok(())
    }

    /// Opens a stream that stands so from its request on. One that is over at once only uses its
    /// id, and needs no room.
    pub fn begin(&mut self, id: u32, stream: Stream)
        requires new { IsNew self.old id }
        requires room { is_done stream ≡ false → HasRoom self.old }
        requires credit { is_done stream ≡ false → FitsCredit stream }
        ensures kept { SetsAt self.old.kept self.new.kept id (unless_done stream) }
        ensures live { length self.new.kept
            ≡ length self.old.kept + one_if (is_some (unless_done stream)) }
        ensures used { SameIds (with_id self.old id) self.new }
        ensures place { self.old.place
            ≤ self.new.place + one_if (is_some (unless_done stream)) }
    {
        self.ids.raise(id);
        if !is_over(&stream) {
            put(&mut self.streams, id, stream);
        }
    }

    /// The open stream of an id stands so from now on. One that is over is let go.
    #[inline(always)]
    pub fn set(&mut self, id: u32, stream: Stream)
        requires kept { IsSome (kept_at self.old.kept id) }
        requires credit { is_done stream ≡ false → FitsCredit stream }
        ensures kept { SetsAt self.old.kept self.new.kept id (unless_done stream) }
        ensures live { length self.new.kept + 1
            ≡ length self.old.kept + one_if (is_some (unless_done stream)) }
        ensures same { SameIds self.old self.new }
        ensures place { self.old.place ≤ self.new.place }
    {
        if is_over(&stream) {
            self.streams.swap_remove(&id);
        } else {
            self.near = change(&mut self.streams, self.near, id, stream);
        }
    }

    /// A way of the stream of an id is finished. It ends the whole stream where it is the reply way
    /// of a response or a stream, a way of a fire-and-forget, or the second way. Where no stream of
    /// that id is open, nothing changes.
    pub fn finish(&mut self, id: u32, way: Way)
        ensures kept { SetsAt self.old.kept self.new.kept id
            (kept_finished way (kept_at self.old.kept id)) }
        ensures live { length self.new.kept + one_if (is_some (kept_at self.old.kept id))
            ≡ length self.old.kept
            + one_if (is_some (kept_finished way (kept_at self.old.kept id))) }
        ensures same { SameIds self.old self.new }
        ensures place { self.old.place ≤ self.new.place }
    {
        if let Some(stream) = self.get(id) {
            self.set(id, finish_way(stream, way));
        }
    }
}

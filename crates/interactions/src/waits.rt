//! Deliveries that wait to be taken, by stream.

ghost use Rattle.std.specs.Prelude.{◌≡◌, ◌<◌, ◌≤◌, ◌+◌, ◌++◌, ◌∷◌, [], ℕ, OnOk, Some, false, nat_eq};
ghost use Rattle.std.specs.Prelude.{if◌then◌else◌};
ghost use Rattle.std.specs.Option.{option_copied, option_to_list};
ghost use Rattle.indexmap.specs.IndexMap.{get, spare};
ghost use Rattle.interactions.specs.Seen.{front_of};
ghost use Rattle.interactions.specs.Waiting.{waits_at, room_at};

use crate::queue::Queue;
use indexmap::IndexMap;
use rs_wire::{Delivery, OutOfMemory};
use std::alloc::Global;
use std::marker::Model;
use std::mem::replace;

/// The deliveries that wait, by stream. Where nothing waits nothing is kept.
#[derive(Drop)]
pub struct Waits {
    alloc: Global,
    /// The queues of the streams on which something waits.
    queues: IndexMap<u32, Queue<Delivery>>,
    /// The empty queue that the next such stream is given.
    fresh: Queue<Delivery>,
}

impl Model for Waits {
    ghost use Rattle.std.specs.Prelude.{◌≡◌, []};
    ghost use Rattle.indexmap.specs.IndexMap.{spare};
    ghost use Rattle.interactions.specs.Waiting.{WaitsOf};

    ghost Value = { WaitsOf };

    ghost view = { λ w. record {
      queues = w.queues.entries;
      place = spare w.queues;
      fresh = w.fresh;
    } };

    ghost invariant = { λ w. w.fresh.items ≡ [] };
}

// A queue of a stream that has none, where there is a place for it.
fn put(queues: &mut IndexMap<u32, Queue<Delivery>>, stream: u32, queue: Queue<Delivery>)
    requires { 0 < spare queues.old }
    ensures { (s : ℕ) → get nat_eq queues.new s
        ≡ (if nat_eq stream s then Some queue else get nat_eq queues.old s) }
{
    if queues.insert(stream, queue).is_err() {
        return;
    }
}

impl Waits {
    /// Nothing waits.
    pub fn new(alloc: Global) -> Waits
        ensures { (s : ℕ) → waits_at result s ≡ [] }
    {
        Waits {
            alloc,
            queues: IndexMap::new(alloc),
            fresh: Queue::new(alloc),
        }
    }

    /// What waits first on a stream.
    #[inline(always)]
    pub fn front(&self, stream: u32) -> Option<&Delivery>
        ensures { option_copied result ≡ front_of (waits_at self.now stream) }
    {
        match self.queues.get(&stream) {
            None => None,
            Some(queue) => queue.front(),
        }
    }

    /// Makes room for `n` deliveries of a stream.
    #[inline(always)]
    pub fn reserve(&mut self, stream: u32, n: usize) -> Result<(), OutOfMemory>
        ensures waits { (s : ℕ) → waits_at self.new s ≡ waits_at self.old s }
        ensures place { OnOk result (0 < self.new.place) }
        ensures room { OnOk result (n ≤ room_at self.new stream) }
        ensures places { self.old.place ≤ self.new.place }
        ensures keeps { (s : ℕ) → room_at self.old s ≤ room_at self.new s }
    {
        self.queues.reserve(1)?;
        match self.queues.get_mut(&stream) {
            None => self.fresh.reserve(n),
            Some(queue) => queue.reserve(n),
        }
    }

    /// One delivery more waits on a stream, as the last.
    #[inline(always)]
    pub fn push(&mut self, stream: u32, delivery: Delivery)
        requires { 0 < room_at self.old stream }
        ensures waits { (s : ℕ) → waits_at self.new s
            ≡ (if nat_eq stream s then waits_at self.old stream ++ delivery ∷ []
            else waits_at self.old s) }
        ensures room { room_at self.new stream + 1 ≡ room_at self.old stream }
    {
        if let Some(queue) = self.queues.get_mut(&stream) {
            queue.push(delivery);
            return;
        }
        let mut queue = replace(&mut self.fresh, Queue::new(self.alloc));
        queue.push(delivery);
        put(&mut self.queues, stream, queue);
    }

    /// One delivery more waits on a stream, or none.
    #[inline(always)]
    pub fn push_some(&mut self, stream: u32, delivery: Option<Delivery>)
        requires { 0 < room_at self.old stream }
        ensures waits { (s : ℕ) → waits_at self.new s
            ≡ (if nat_eq stream s then waits_at self.old stream ++ option_to_list delivery
            else waits_at self.old s) }
        ensures room { room_at self.old stream ≤ room_at self.new stream + 1 }
    {
        if let Some(delivery) = delivery {
            self.push(stream, delivery);
        }
    }

    /// Drops what waits on a stream.
    pub fn clear(&mut self, stream: u32)
        ensures { (s : ℕ) → waits_at self.new s
            ≡ (if nat_eq stream s then [] else waits_at self.old s) }
    {
        let _ = self.queues.swap_remove(&stream);
    }

    // The queue of a stream on which nothing waits goes, or becomes the fresh one.
    fn let_go(&mut self, stream: u32)
        requires { waits_at self.old stream ≡ [] }
        ensures waits { (s : ℕ) → waits_at self.new s ≡ waits_at self.old s }
        ensures places { self.old.place ≤ self.new.place }
        ensures keeps { 0 < self.old.place → (s : ℕ) → room_at self.old s ≤ room_at self.new s }
    {
        if let Some(queue) = self.queues.swap_remove(&stream) {
            if self.fresh.room() < queue.room() {
                self.fresh = queue;
            }
        }
    }

    /// Takes what waits first on a stream. A queue that is empty then is let go, or becomes the
    /// fresh one where it has more room: so no room is lost.
    #[inline(always)]
    pub fn pop(&mut self, stream: u32) -> Option<Delivery>
        ensures front { result ≡ front_of (waits_at self.old stream) }
        ensures waits { waits_at self.old stream
            ≡ option_to_list result ++ waits_at self.new stream }
        ensures others { (s : ℕ) → nat_eq stream s ≡ false
            → waits_at self.new s ≡ waits_at self.old s }
        ensures places { self.old.place ≤ self.new.place }
        ensures keeps { 0 < self.old.place → (s : ℕ) → room_at self.old s ≤ room_at self.new s }
    {
        let queue = self.queues.get_mut(&stream)?;
        let first = queue.pop();
        if queue.is_empty() {
            self.let_go(stream);
        }
        first
    }
}

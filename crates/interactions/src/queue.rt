//! Items that wait to be taken.

ghost use Rattle.std.specs.Prelude.{◌≡◌, ◌<◌, ◌≤◌, ◌+◌, ◌++◌, ◌∷◌, [], IsTrue, ◌↔◌, OnOk};
ghost use Rattle.std.specs.Option.{option_copied, option_to_list};
ghost use Rattle.interactions.specs.Seen.{front_of};

use rs_wire::OutOfMemory;
use std::alloc::Global;
use std::collections::VecDeque;
use std::marker::Model;

/// Items in their order, with room for some more.
#[derive(Drop)]
pub struct Queue<T: Drop> {
    items: VecDeque<T>,
}

impl<T: Drop> Model for Queue<T> {
    ghost use Rattle.std.specs.Prelude.{◌≡◌, ◌-◌, length};
    ghost use Rattle.std.specs.VecDeque.{deque_len, deque_capacity};
    ghost use Rattle.interactions.specs.Queues.{QueueOf};

    ghost Value = { QueueOf T };

    ghost view = { λ q. record {
      items = q.items.items;
      room = deque_capacity q.items - deque_len q.items;
    } };

    ghost invariant = { λ q. deque_len q.items ≡ length q.items.items };
}

impl<T: Drop> Queue<T> {
    /// Nothing waits.
    pub fn new(alloc: Global) -> Queue<T>
        ensures { result.items ≡ [] }
    {
        Queue {
            items: VecDeque::new(alloc),
        }
    }

    /// Whether nothing waits.
    pub fn is_empty(&self) -> bool
        ensures { IsTrue result ↔ (self.now.items ≡ []) }
    {
        self.items.is_empty()
    }

    /// For how many items more there is room.
    pub fn room(&self) -> usize
        ensures { result ≡ self.now.room }
    {
        self.items.capacity() - self.items.len()
    }

    /// What waits first.
    #[inline(always)]
    pub fn front(&self) -> Option<&T>
        ensures { option_copied result ≡ front_of self.now.items }
    {
        self.items.front()
    }

    /// Makes room for `n` items more.
    #[inline(always)]
    pub fn reserve(&mut self, n: usize) -> Result<(), OutOfMemory>
        ensures items { self.new.items ≡ self.old.items }
        ensures room { OnOk result (n ≤ self.new.room) }
        ensures more { self.old.room ≤ self.new.room }
    {
        self.items.reserve(n)?;
        Ok(())
    }

    /// One item more waits, as the last.
    #[inline(always)]
    pub fn push(&mut self, item: T)
        requires { 0 < self.old.room }
        ensures items { self.new.items ≡ self.old.items ++ item ∷ [] }
        ensures room { self.new.room + 1 ≡ self.old.room }
    {
        self.items.push_back_reserved(item);
    }

    /// One item more waits, or none.
    pub fn push_some(&mut self, item: Option<T>)
        requires { 0 < self.old.room }
        ensures items { self.new.items ≡ self.old.items ++ option_to_list item }
        ensures room { self.old.room ≤ self.new.room + 1 }
    {
        if let Some(item) = item {
            self.push(item);
        }
    }

    /// Takes what waits first.
    #[inline(always)]
    pub fn pop(&mut self) -> Option<T>
        ensures items { self.old.items ≡ option_to_list result ++ self.new.items }
        ensures front { result ≡ front_of self.old.items }
        ensures room { self.old.room ≤ self.new.room }
    {
        self.items.pop_front()
    }
}

//! A clock in memory.

ghost use Rattle.std.specs.Prelude.{◌≡◌, ◌<◌, Contains, Some, vec_len};

use crate::clock::Clock;
use std::marker::Model;
use std::sync::atomic::{AtomicU64, Ordering};

/// A clock in memory, which gives the moments of its list in turn, and the last one again and again.
/// Contracts see the list.
#[derive(Drop)]
pub struct MemClock {
    moments: Vec<u64>,
    // How many moments were asked for.
    asked: AtomicU64,
}

impl Model for MemClock {
    ghost use Rattle.std.specs.Prelude.{◌<◌, List, ℕ, vec_len};

    ghost Value = { List ℕ };

    ghost view = { λ c. c.moments.items };

    ghost invariant = { λ c. 0 < vec_len c.moments };
}

impl MemClock {
    /// A clock of these moments, in milliseconds: at least one.
    pub fn new(moments: Vec<u64>) -> MemClock
        requires { 0 < vec_len moments }
        ensures { result ≡ moments.items }
    {
        MemClock {
            moments,
            asked: AtomicU64::new(0),
        }
    }
}

impl Clock for MemClock {
    ghost use Rattle.std.specs.Prelude.{Some};

    ghost moments = { λ c. Some c };

    fn now(&self) -> u64
        ensures { Contains self.now result }
    {
        let asked = self.asked.fetch_add(1, Ordering::SeqCst) as usize;
        self.moments[asked.min(self.moments.len() - 1)]
    }
}

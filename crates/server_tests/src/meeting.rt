//! Threads that wait for one another, and a handler and a link that do.

use handlers::{Handler, Law, Produced};
use rs_wire::Blob;
use std::alloc::Global;
use std::sync::atomic::{AtomicU64, Ordering};
use std::thread::yield_now;

/// How often a thread looks whether all have come: some seconds.
const LOOKS: u32 = 10_000_000;

/// How many have come, and how many are expected.
#[derive(Drop)]
pub struct Meeting {
    here: AtomicU64,
    all: u64,
    /// How many gave up.
    alone: AtomicU64,
}

impl Meeting {
    /// A meeting of so many threads.
    pub fn new(all: u64) -> Meeting {
        Meeting {
            here: AtomicU64::new(0),
            all,
            alone: AtomicU64::new(0),
        }
    }

    /// Whether all have come.
    pub fn is_full(&self) -> bool {
        self.here.load(Ordering::SeqCst) >= self.all
    }

    /// Comes, and looks until all have come, or gives up.
    pub fn meet(&self) {
        self.here.fetch_add(1, Ordering::SeqCst);
        for _ in 0..LOOKS {
            if self.is_full() {
                return;
            }
            yield_now();
        }
        self.alone.fetch_add(1, Ordering::SeqCst);
    }

    /// Whether all have come, and nobody gave up.
    pub fn went_well(&self) -> bool {
        self.is_full() && self.alone.load(Ordering::SeqCst) == 0
    }
}

/// Echoes, and waits in each call until all calls have come.
#[derive(Drop)]
pub struct MeetingEcho<'a> {
    pub calls: &'a Meeting,
}

impl Handler for MeetingEcho<'_> {
    ghost use Rattle.handlers.specs.declared.law.Law.TheVariants as law;
    ghost use Rattle.handlers.specs.Values.{value};

    ghost gives = { λ _ content index. value law.Echo content index };

    fn call(&self, alloc: Global, content: &Blob, index: u64) -> Produced {
        if index == 0 {
            self.calls.meet();
        }
        Law::Echo.call(alloc, content, index)
    }
}

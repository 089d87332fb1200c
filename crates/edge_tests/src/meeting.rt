//! What the trials serve: links that wait for one another.

ghost use Rattle.std.specs.Prelude.{◌≡◌};

use crew::{Finish, Place, Task};
use std::sync::Wait;
use std::sync::atomic::{AtomicU64, Ordering};
use std::thread;

/// How often a thread looks whether all have come: some seconds.
const LOOKS: u32 = 10_000_000;

/// What all threads share: how many have come, and how many are expected.
#[derive(Drop)]
pub struct Meeting {
    /// How many threads have come.
    pub here: AtomicU64,
    /// How many are expected.
    pub all: u64,
}

impl Meeting {
    /// A meeting of so many threads.
    pub fn new(all: u64) -> Meeting {
        Meeting {
            here: AtomicU64::new(0),
            all,
        }
    }

    // Comes, and looks until all have come. False where they don't.
    fn meet(&self) -> bool {
        self.here.fetch_add(1, Ordering::SeqCst);
        for _ in 0..LOOKS {
            if self.here.load(Ordering::SeqCst) >= self.all {
                return true;
            }
            thread::yield_now();
        }
        false
    }
}

/// A net that hands out so many links, and counts how often it is asked.
#[derive(Drop)]
pub struct Links {
    /// How many are left.
    pub left: u64,
    /// How often it was asked.
    pub asked: u64,
}

/// What became of a place.
#[derive(Clone, Copy, PartialEq)]
pub enum Seat {
    /// Nothing yet.
    Vacant,
    /// No link came.
    Missed,
    /// This link came; after it so many were left.
    Taken(u64),
    /// Its link met all others.
    Met(u64),
    /// Its link waited for the others in vain.
    Alone(u64),
}

impl Place<Links, Meeting> for Seat {
    ghost use Rattle.std.specs.Prelude.{◌≡◌};
    ghost use Rattle.edge_tests.specs.declared.meeting.Seat.TheVariants as seats;

    ghost vacant = { λ meeting p. p ≡ seats.Vacant };

    ghost arrived = { λ meeting p q. Unit {0} };

    ghost served = { λ meeting p q. Unit {0} };

    ghost missed = { λ meeting n m p q. q ≡ seats.Missed };

    ghost accepted = { λ meeting k n m. Unit {0} };

    ghost accepted_none = { λ meeting n. tt };

    ghost accepted_more = { λ meeting j k a b c first rest. tt };

    fn accept(&mut self, net: &mut Links, _shared: &Meeting) -> bool {
        net.asked = net.asked.saturating_add(1);
        if net.left == 0 {
            *self = Seat::Missed;
            return false;
        }
        net.left -= 1;
        *self = Seat::Taken(net.left);
        true
    }

    fn serve<R: Wait>(&mut self, _rt: &R, shared: &Meeting) {
        if let Seat::Taken(left) = *self {
            *self = if shared.meet() {
                Seat::Met(left)
            } else {
                Seat::Alone(left)
            };
        }
    }
}

/// A worker that meets all others, too.
#[derive(Clone, Copy)]
pub struct Worker {
    /// It met them.
    pub met: bool,
}

impl Task<Meeting> for Worker {
    ghost ready = { λ meeting w. Unit {0} };

    ghost done = { λ meeting v w. Unit {0} };

    fn run<R: Wait>(&mut self, _rt: &R, shared: &Meeting) {
        self.met = shared.meet();
    }
}

/// The last task: it counts the places whose link met the others.
#[derive(Drop)]
pub struct Count {
    /// How many did.
    pub met: usize,
}

impl Finish<Seat, Meeting> for Count {
    ghost ready = { λ meeting c seats. Unit {0} };

    ghost done = { λ meeting c seats d others. Unit {0} };

    fn finish<R: Wait>(&mut self, _rt: &R, _shared: &Meeting, places: &mut [Seat]) {
        for place in places.iter() {
            if let Seat::Met(_) = place {
                self.met = self.met.saturating_add(1);
            }
        }
    }
}

//! What is done once all threads are back: workers are taken in, links are put back, and it is said how
//! they were served.

ghost use Rattle.std.specs.Prelude.{◌≡◌, ◌≤◌, ◌+◌, ◌++◌, length, reverse, vec_capacity, vec_len};
ghost use Rattle.std.specs.List.{AllByRecursion};
ghost use Rattle.std.specs.Option.{option_map};
ghost use Rattle.serve_slots.specs.Callers.{AreCallersOf, IsAtSlot, TookIn};
ghost use Rattle.serve_told.specs.Links.{answers_of, lacks_memory, link_in, links_of, some_lack};
ghost use Rattle.serve.specs.Links.{fault_of, some_failed};
ghost use Rattle.serve_threads.specs.Making.{working};

use crate::plan::ServeFault;
use conn::{Caller, Connection};
use outside::{Net, NetFault};
use serve_slots::take_in;
use serve_threads::{Guest, Worker};
use server::Served;
use tape::Tape;

/// Takes in the callers of these workers, the last one first.
pub(crate) fn take_in_workers<T: Tape>(
    connections: &[Connection<T>],
    mains: &mut [Caller<T>],
    workers: &mut Vec<Worker<T>>,
)
    requires of { AreCallersOf connections.now mains.old }
    requires at { AllByRecursion (IsAtSlot connections.now) (working workers.old.items) }
    ensures took { TookIn mains.old (working workers.old.items) mains.new }
    ensures of { AreCallersOf connections.now mains.new }
{
    while let Some(worker) = workers.pop() {
        let Worker { slot, caller } = worker;
        take_in(connections, mains, slot, caller);
    }
}

// Whether memory ran out at a place.
fn lacks_memory<L, T: Tape>(guest: &Guest<L, T>) -> bool
    ensures { result ≡ lacks_memory guest.now }
{
    matches!(guest.missed, Some(NetFault::OutOfMemory))
        || matches!(guest.answer, Some((Served::OutOfMemory, _)))
}

fn some_lack<L, T: Tape>(guests: &[Guest<L, T>]) -> bool
    ensures { result ≡ some_lack guests.now }
{
    match guests.split_first() {
        None => false,
        Some((guest, guests)) => lacks_memory(guest) || some_lack(guests),
    }
}

fn some_failed<L, T: Tape>(guests: &[Guest<L, T>]) -> bool
    ensures { result ≡ some_failed guests.now }
{
    match guests.split_first() {
        None => false,
        Some((guest, guests)) => {
            matches!(guest.missed, Some(NetFault::Failed)) || some_failed(guests)
        }
    }
}

/// Why no list is answered of links that left these places, where memory ran out or the net failed.
pub(crate) fn fault_of<L, T: Tape>(guests: &[Guest<L, T>]) -> Option<ServeFault>
    ensures { result ≡ fault_of guests.now }
{
    if some_lack(guests) {
        Some(ServeFault::OutOfMemory)
    } else if some_failed(guests) {
        Some(ServeFault::Net)
    } else {
        None
    }
}

/// Adds how each link was served, in the order of the places, to a list with room for it.
pub(crate) fn add_answers<L, T: Tape>(guests: &[Guest<L, T>], list: &mut Vec<Served>)
    requires room { vec_len list.old + length guests.now ≤ vec_capacity list.old }
    ensures { list.new.items ≡ list.old.items ++ answers_of guests.now }
{
    let Some((guest, guests)) = guests.split_first() else {
        return;
    };
    if let Some((served, _)) = guest.answer {
        list.push_reserved(served);
    }
    add_answers(guests, list);
}

// Puts a link back, where there is one.
fn put_link<N: Net>(net: &mut N, link: Option<N::Link>)
    requires enough { length (link_in N.Link.shown link) ≤ N.out net.old }
    ensures back { N.back net.new ≡
        option_map (λ was. was ++ link_in N.Link.shown link) (N.back net.old) }
    ensures out { N.out net.new + length (link_in N.Link.shown link) ≡ N.out net.old }
    ensures asked { N.asked net.new ≡ N.asked net.old }
    ensures faults { N.faults net.new ≡ N.faults net.old }
{
    match link {
        Some(link) => net.put_back(link),
        None => {}
    }
}

// Puts the links back of places that stand in reverse order.
fn put_from_last<N: Net, T: Tape>(net: &mut N, guests: &mut Vec<Guest<N::Link, T>>)
where
    N::Link: Drop,
    requires enough { length (links_of N.Link.shown (reverse guests.old.items)) ≤ N.out net.old }
    ensures back { N.back net.new ≡ option_map
        (λ was. was ++ links_of N.Link.shown (reverse guests.old.items)) (N.back net.old) }
    ensures out { N.out net.new + length (links_of N.Link.shown (reverse guests.old.items))
        ≡ N.out net.old }
    ensures asked { N.asked net.new ≡ N.asked net.old }
    ensures faults { N.faults net.new ≡ N.faults net.old }
{
    if let Some(guest) = guests.pop() {
        let Guest { link, .. } = guest;
        put_link(net, link);
        put_from_last(net, guests);
    }
}

/// Puts the links back, in the order of their places.
pub(crate) fn put_links<N: Net, T: Tape>(net: &mut N, guests: Vec<Guest<N::Link, T>>)
where
    N::Link: Drop,
    requires enough { length (links_of N.Link.shown guests.items) ≤ N.out net.old }
    ensures back { N.back net.new ≡ option_map
        (λ was. was ++ links_of N.Link.shown guests.items) (N.back net.old) }
    ensures out { N.out net.new + length (links_of N.Link.shown guests.items) ≡ N.out net.old }
    ensures asked { N.asked net.new ≡ N.asked net.old }
    ensures faults { N.faults net.new ≡ N.faults net.old }
{
    let mut guests = guests;
    guests.reverse();
    put_from_last(net, &mut guests);
}

//! What is done when all links have ended.

ghost use Rattle.std.specs.Prelude.{◌≡◌, ◌≤◌, ◌+◌, [], IfSome, is_some, length};
ghost use Rattle.std.specs.List.{AllByRecursion};
ghost use Rattle.crew.specs.Places.{Pairwise};
ghost use Rattle.pump.specs.Turns.{GoesOn};
ghost use Rattle.server.specs.Attending.{AreRoutedIn, IsHelped, KeepsWork};
ghost use Rattle.serve_slots.specs.Callers.{AreCallersOf, TookIn, all_placed};
ghost use Rattle.serve_threads.specs.Ending.{AllServeRest, CanEnd, Ends, HasEnded, IsEmptied, IsEnding, Swapped, rows_of};
ghost use Rattle.serve_threads.specs.Making.{IsRow};

use crate::guest::Guest;
use crate::shared::Shared;
use crate::worker::work_off;
use conn::{Caller, Connection};
use crew::Finish;
use handlers::{Handler, Routes};
use rs_wire::{Call, Refusal};
use serve_slots::take_in_row;
use std::alloc::Global;
use std::mem;
use std::sync::Wait;
use std::thread::yield_now;
use tape::{Answer, Event, Tape};
use workers::Work;

/// The caller of each connection that takes all others in. First it is the connection's first caller, and
/// at the end that of the link with the same place.
#[derive(Drop)]
pub struct Mains<T: Tape> {
    pub callers: Vec<Caller<T>>,
}

// From this slot on, the caller of each place takes the place of the slot's main one, since what stands
// in its work was got under its number.
fn change_places<L: Drop, T: Tape>(slot: usize, mains: &mut [Caller<T>], guests: &mut [Guest<L, T>])
    requires each { length mains.old ≡ length guests.old }
    requires rows { AllByRecursion (λ p. slot + length mains.old ≤ length p.row.items) guests.old }
    ensures { Swapped slot mains.old guests.old mains.new guests.new }
{
    let Some((main, mains)) = mains.split_first_mut() else {
        return;
    };
    let Some((guest, guests)) = guests.split_first_mut() else {
        return;
    };
    mem::swap(main, &mut guest.row[slot]);
    change_places(slot + 1, mains, guests);
}

/// Takes in the callers of these places.
pub fn take_in_guests<L: Drop, T: Tape>(
    connections: &[Connection<T>],
    mains: &mut [Caller<T>],
    guests: &mut [Guest<L, T>],
)
    requires of { AreCallersOf connections.now mains.old }
    requires rows { AllByRecursion (IsRow connections.now) guests.old }
    ensures took { TookIn mains.old (all_placed (rows_of guests.old)) mains.new }
    ensures of { AreCallersOf connections.now mains.new }
    ensures emptied { Pairwise IsEmptied guests.old guests.new }
{
    let Some((guest, guests)) = guests.split_first_mut() else {
        return;
    };
    take_in_row(connections, mains, &mut guest.row);
    take_in_guests(connections, mains, guests);
}

// Cuts the connection that is live.
fn cut_live<R: Wait, T: Tape>(rt: &R, connection: &Connection<T>, caller: &mut Caller<T>)
    requires of { caller.old.of ≡ connection.now }
    ensures same { caller.new ≡
        record caller.old { front = caller.new.front; note = caller.new.note } }
    ensures goes { GoesOn IsEnding caller.old caller.new.front }
{
    let conn = connection.look(rt, caller).live;
    connection.bring(rt, caller, Event::Cut { conn });
}

// Whether a connection's queue is full.
fn is_full(answer: &Answer) -> bool {
    matches!(answer, Answer::Refused(Refusal::OutFull(_)))
}

// Asks for the end of a session. Whether it was answered: not where memory ran out, and not where the
// queue of a connection is full that could not be cut.
fn ask_end<R: Wait, T: Tape>(rt: &R, connection: &Connection<T>, caller: &mut Caller<T>) -> bool
    requires of { caller.old.of ≡ connection.now }
    ensures same { caller.new ≡
        record caller.old { front = caller.new.front; note = caller.new.note } }
    ensures goes { GoesOn IsEnding caller.old caller.new.front }
{
    let answer = connection.call(rt, caller, &Call::Close);
    if is_full(&answer) {
        cut_live(rt, connection, caller);
        return false;
    }
    answer != Answer::OutOfMemory
}

// Closes a session.
fn close_one<R: Wait, T: Tape>(rt: &R, connection: &Connection<T>, caller: &mut Caller<T>)
    requires of { caller.old.of ≡ connection.now }
    ensures same { caller.new ≡
        record caller.old { front = caller.new.front; note = caller.new.note } }
    ensures goes { GoesOn IsEnding caller.old caller.new.front }
{
    for _ in rt.forever() {
        if ask_end(rt, connection, caller) {
            return;
        }
        yield_now();
    }
}

// Closes each session.
fn close_each<R: Wait, T: Tape>(rt: &R, connections: &[Connection<T>], mains: &mut [Caller<T>])
    requires of { AreCallersOf connections.now mains.old }
    ensures ends { Pairwise Ends mains.old mains.new }
    ensures of { AreCallersOf connections.now mains.new }
{
    let Some((connection, connections)) = connections.split_first() else {
        return;
    };
    let Some((main, mains)) = mains.split_first_mut() else {
        return;
    };
    close_one(rt, connection, main);
    close_each(rt, connections, mains);
}

// Serves the jobs that are left in a work, where there is one.
fn work_off_rest<R: Wait, T: Tape, F: Handler>(
    rt: &R,
    alloc: Global,
    connection: &Connection<T>,
    caller: &mut Caller<T>,
    routes: &Routes<F>,
    jobs: &mut Option<Work>,
)
    requires of { caller.old.of ≡ connection.now }
    requires routed { AreRoutedIn routes.now jobs.old }
    ensures same { caller.new ≡
        record caller.old { front = caller.new.front; note = caller.new.note } }
    ensures goes { GoesOn (IsHelped (is_some jobs.old)) caller.old caller.new.front }
    ensures kept { KeepsWork caller.old.names routes.now caller.old.front caller.new.front jobs.old
        jobs.new }
    ensures empty { IfSome jobs.new (λ work. work ≡ []) }
{
    match jobs {
        Some(work) => work_off(rt, alloc, connection, caller, routes, work),
        None => {}
    }
}

// The same for the work of each place.
fn work_off_each<R: Wait, L: Drop, T: Tape, F: Handler>(
    rt: &R,
    alloc: Global,
    connections: &[Connection<T>],
    mains: &mut [Caller<T>],
    routes: &Routes<F>,
    guests: &mut [Guest<L, T>],
)
    requires of { AreCallersOf connections.now mains.old }
    requires each { length guests.old ≡ length mains.old }
    requires routed { AllByRecursion (λ p. AreRoutedIn routes.now p.work) guests.old }
    ensures { AllServeRest routes.now mains.old guests.old mains.new guests.new }
{
    let Some((connection, connections)) = connections.split_first() else {
        return;
    };
    let Some((main, mains)) = mains.split_first_mut() else {
        return;
    };
    let Some((guest, guests)) = guests.split_first_mut() else {
        return;
    };
    work_off_rest(rt, alloc, connection, main, routes, &mut guest.work);
    work_off_each(rt, alloc, connections, mains, routes, guests);
}

// The callers of all links are taken in, each session is closed, and the jobs that are left are served.
fn end_all<R: Wait, L: Drop, T: Tape, F: Handler>(
    rt: &R,
    alloc: Global,
    connections: &[Connection<T>],
    routes: &Routes<F>,
    mains: &mut [Caller<T>],
    guests: &mut [Guest<L, T>],
)
    requires { CanEnd connections.now routes.now mains.old guests.old }
    ensures { HasEnded routes.now mains.old guests.old mains.new guests.new }
{
    change_places(0, mains, guests);
    take_in_guests(connections, mains, guests);
    close_each(rt, connections, mains);
    work_off_each(rt, alloc, connections, mains, routes, guests);
}

impl<'a, L: Drop, T: Tape, K, F: Handler> Finish<Guest<L, T>, Shared<'a, T, K, F>> for Mains<T> {
    ghost use Rattle.serve_threads.specs.Ending.{CanEnd, HasEnded};

    ghost ready = { λ shared m places. CanEnd shared.connections.now shared.routes.now
        m.callers.items places };

    ghost done = { λ shared m places n left. HasEnded shared.routes.now m.callers.items places
        n.callers.items left };

    fn finish<R: Wait>(
        &mut self,
        rt: &R,
        shared: &Shared<'a, T, K, F>,
        places: &mut [Guest<L, T>],
    ) {
        end_all(
            rt,
            shared.alloc,
            shared.connections,
            shared.routes,
            &mut self.callers,
            places,
        );
    }
}

//! One worker of a connection.

ghost use Rattle.std.specs.Prelude.{◌≡◌, [], IsTrue, true};
ghost use Rattle.conn_shared.specs.Members.{Follows};
ghost use Rattle.pump.specs.Turns.{GoesOn};
ghost use Rattle.server.specs.Attending.{IsHelped};
ghost use Rattle.workers.specs.Serving.{AreRouted, Serving};
ghost use Rattle.serve_threads.specs.Threads.{HasNoMore, IsOver};

use crate::shared::Shared;
use bell::Listener;
use conn::{Caller, Connection};
use crew::Task;
use handlers::{Handler, Routes};
use std::alloc::Global;
use std::sync::Wait;
use std::thread::yield_now;
use tape::Tape;
use workers::{OpenGate, Work, Worked, serve_job};

/// A worker, with its caller of one connection.
#[derive(Drop)]
pub struct Worker<T: Tape> {
    /// The place of the connection.
    pub slot: usize,
    pub caller: Caller<T>,
}

// Whether no more jobs come, and none is left in the work.
fn is_over(worked: &Worked, work: &Work) -> bool
    ensures { IsTrue result → IsOver worked.now work.now }
{
    match worked {
        Worked::NoMore(_) => work.len() == 0,
        _ => false,
    }
}

// Waits until there may be something to do. The bell of the connection tells, but not of bytes that are
// drawn, for which a job may wait.
fn rest<R: Wait, T: Tape>(
    rt: &R,
    connection: &Connection<T>,
    caller: &mut Caller<T>,
    work: &Work,
    worked: &Worked,
    listener: Listener<'_>,
)
    requires of { caller.old.of ≡ connection.now }
    ensures same { caller.new ≡
        record caller.old { front = caller.new.front; note = caller.new.note } }
    ensures follows { Follows caller.old.names caller.old.front caller.new.front }
{
    match worked {
        Worked::Idle => {
            let queued = connection.look(rt, caller).queued;
            if queued == 0 || work.len() == 0 {
                listener.wait(rt);
            } else {
                yield_now();
            }
        }
        Worked::OutOfMemory => yield_now(),
        _ => {}
    }
}

/// Serves jobs until no more come and none is left in the work.
pub(crate) fn work_off<R: Wait, T: Tape, F: Handler>(
    rt: &R,
    alloc: Global,
    connection: &Connection<T>,
    caller: &mut Caller<T>,
    routes: &Routes<F>,
    work: &mut Work,
)
    requires of { caller.old.of ≡ connection.now }
    requires routed { AreRouted routes.now work.old }
    ensures same { caller.new ≡
        record caller.old { front = caller.new.front; note = caller.new.note } }
    ensures goes { GoesOn (IsHelped true) caller.old caller.new.front }
    ensures no_more { HasNoMore connection.now.settings caller.new.front }
    ensures kept { Serving caller.old.names caller.old.front routes.now work.old →
        Serving caller.old.names caller.new.front routes.now [] }
    ensures empty { work.new ≡ [] }
{
    for _ in rt.forever() {
        // Whoever rings after this line is heard.
        let listener = connection.bell().listen();
        let worked = serve_job(rt, alloc, connection, caller, routes, &OpenGate, work);
        if is_over(&worked, work) {
            return;
        }
        rest(rt, connection, caller, work, &worked, listener);
    }
}

impl<'a, T: Tape, K, F: Handler> Task<Shared<'a, T, K, F>> for Worker<T> {
    ghost use Rattle.serve_threads.specs.Threads.{IsDone, IsReady};

    ghost ready = { λ shared w. IsReady shared.settings.now shared.connections.now w };

    ghost done = { λ shared v w. IsDone shared.settings.now shared.routes.now v w };

    fn run<R: Wait>(&mut self, rt: &R, shared: &Shared<'a, T, K, F>) {
        let mut work = Work::new(shared.alloc);
        let connection = &shared.connections[self.slot];
        work_off(
            rt,
            shared.alloc,
            connection,
            &mut self.caller,
            shared.routes,
            &mut work,
        );
    }
}

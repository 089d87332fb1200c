//! How far a job goes on in one call.

ghost use Rattle.std.specs.Prelude.{◌≡◌, ◌≢◌, ◌<◌, ◌≤◌, ◌^◌, None, IfSome, true, false};
ghost use Rattle.workers.specs.declared.going.Going.TheVariants as goings;
ghost use Rattle.workers.specs.Courses.{KeepsWithin};
ghost use Rattle.workers.specs.Serving.{IsRouted};
ghost use Rattle.workers.specs.Causes.{CauseOf};
ghost use Rattle.workers.specs.Going.{HasGone, HasWorked, IsSameJob, WholeOf, left_by};

use crate::gate::Gate;
use crate::job::OpenJob;
use crate::step::{Step, make_step};
use crate::tools::Tools;
use conn::Caller;
use handlers::Handler;
use std::sync::Wait;
use tape::{Answer, Tape};

/// How far a job went on.
#[derive(Drop)]
pub enum Going {
    /// It is done; its replies had this many items.
    Served(u64),
    /// Its next call was refused for now.
    Blocked,
    /// Its replies have as many bytes as were allowed.
    More,
    /// Its next call was answered so, by another refusal or `TapeFull`.
    Stopped(Answer),
    /// There was not enough memory.
    OutOfMemory,
}

// So many bytes are as many as were allowed.
fn is_enough(sent: u64, most: Option<u64>) -> bool
    ensures none { most ≡ None → result ≡ false }
    ensures enough { result ≡ true → IfSome most (λ m. m ≤ sent) }
    ensures fewer { result ≡ false → IfSome most (λ m. (sent < m) × (m < 2 ^ 64)) }
{
    match most {
        None => false,
        Some(most) => sent >= most,
    }
}

/// Goes on with a job until it is done or refused, or its replies have as many bytes as are allowed.
pub fn go_on<R: Wait, T: Tape, F: Handler, G: Gate>(
    rt: &R,
    tools: &Tools<'_, T, F, G>,
    caller: &mut Caller<T>,
    job: &mut OpenJob,
) -> Going
    requires of { caller.old.of ≡ tools.now.connection.now }
    requires routed { IsRouted tools.now.routes.now job.old }
    ensures same { caller.new ≡
        record caller.old { front = caller.new.front; note = caller.new.note } }
    ensures worked { HasWorked caller.old.names caller.old.number caller.old.front
        caller.new.front job.old job.new }
    ensures job { IsSameJob job.old job.new }
    ensures cause { CauseOf tools.now.connection.now.settings tools.now.routes.now
        caller.old.names caller.old.number tools.now.most caller.old.front caller.new.front
        job.new result }
    ensures kept { HasGone caller.old.names tools.now.routes.now caller.old.front
        caller.new.front job.old (left_by result job.new) }
    ensures whole { WholeOf caller.old.names tools.now.routes.now caller.old.front
        caller.new.front job.old result }
    ensures within { IfSome tools.now.most (λ most. KeepsWithin caller.old.names most
        caller.old.front caller.new.front) }
    ensures unbounded { tools.now.most ≡ None → result ≢ goings.More }
{
    let mut sent = 0u64;
    for _ in rt.forever() {
        match make_step(rt, tools, caller, job) {
            Step::Went(bytes) => {
                sent = sent.saturating_add(bytes);
                if is_enough(sent, tools.most) {
                    return Going::More;
                }
            }
            Step::Served(items) => return Going::Served(items),
            Step::Blocked => return Going::Blocked,
            Step::Stopped(answer) => return Going::Stopped(answer),
            Step::OutOfMemory => return Going::OutOfMemory,
        }
    }
    unreachable!()
}

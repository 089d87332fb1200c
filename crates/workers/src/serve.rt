//! One job of a connection is served.

ghost use Rattle.std.specs.Prelude.{◌≡◌, ◌≢◌, ◌<◌, ◌≤◌, ◌+◌, ◌==◌, ℕ, true, None, Some, IfNone, IfSome, length, position, vec_len, vec_capacity};
ghost use Rattle.handlers.specs.Listed.{place as place_of};
ghost use Rattle.workers.specs.declared.going.Going.TheVariants as goings;
ghost use Rattle.workers.specs.declared.worked.Progress.TheVariants as progresses;
ghost use Rattle.workers.specs.declared.worked.Worked.TheVariants as workeds;
ghost use Rattle.workers.specs.Courses.{GoesOn, IsWorkersCall, KeepsWithin, WorksOn, course};
ghost use Rattle.workers.specs.Replies.{name_of};
ghost use Rattle.workers.specs.Serving.{AreRouted, Serving};
ghost use Rattle.workers.specs.Causes.{CauseOfProgress, CauseOfTaking, CauseOfWorked, IsHinderedAt, IsNotMore, IsOfJobs, WaitingOfProgress, WaitingOfWorked, WentAt, WholeOfProgress, WholeOfWorked};
ghost use Rattle.workers.specs.Going.{IsAtWork, IsForgotten, IsPut, IsSettled, progress_of};

use crate::ask::ask;
use crate::gate::Gate;
use crate::going::{Going, go_on};
use crate::job::{OpenJob, Stage};
use crate::outcome::{Found, sort_job};
use crate::tools::Tools;
use crate::work::Work;
use crate::worked::{Progress, Worked};
use conn::{Caller, Connection};
use handlers::{Handler, Routes};
use rs_wire::{Blob, Call, Kind, Message};
use std::alloc::Global;
use std::sync::Wait;
use tape::Tape;

// The route of a request: the name is its metadata, and without metadata it is empty.
fn route_of<F: Handler>(
    alloc: Global,
    routes: &Routes<F>,
    kind: Kind,
    message: &Message,
) -> Option<u32>
    ensures { result ≡ place_of routes.now (name_of message.now) kind }
{
    match &message.metadata {
        Some(name) => routes.find(name, kind),
        None => routes.find(&Blob::from_vec(Vec::new(alloc)), kind),
    }
}

// Goes on with the job at a place.
fn go_at<R: Wait, T: Tape, F: Handler, G: Gate>(
    rt: &R,
    tools: &Tools<'_, T, F, G>,
    caller: &mut Caller<T>,
    jobs: &mut Vec<OpenJob>,
    place: usize,
) -> Going
    requires of { caller.old.of ≡ tools.now.connection.now }
    requires place { place < length jobs.old.items }
    requires routed { AreRouted tools.now.routes.now jobs.old.items }
    ensures same { caller.new ≡
        record caller.old { front = caller.new.front; note = caller.new.note } }
    ensures went { WentAt caller.old.names tools.now.routes.now caller.old.number
        tools.now.connection.now.settings tools.now.most caller.old.front caller.new.front place
        jobs.old.items jobs.new.items result }
    ensures within { IfSome tools.now.most (λ most. KeepsWithin caller.old.names most
        caller.old.front caller.new.front) }
    ensures unbounded { tools.now.most ≡ None → result ≢ goings.More }
{
    go_on(rt, tools, caller, &mut jobs[place])
}

// What is said of the job at a place that went on so. It leaves the work where it is done or stopped.
fn settle(jobs: &mut Vec<OpenJob>, place: usize, stream: u32, going: Going) -> Progress
    requires place { place < length jobs.old.items }
    ensures settled { IsSettled place going jobs.old.items jobs.new.items }
    ensures said { result ≡ progress_of stream going }
{
    match going {
        Going::Served(items) => {
            jobs.remove(place);
            Progress::Worked(Worked::Served { stream, items })
        }
        Going::Stopped(answer) => {
            jobs.remove(place);
            Progress::Worked(Worked::Stopped(answer))
        }
        Going::Blocked => Progress::Worked(Worked::Waiting(stream)),
        Going::More => Progress::More(stream),
        Going::OutOfMemory => Progress::Worked(Worked::OutOfMemory),
    }
}

fn is_blocked(going: &Going) -> bool
    ensures { result ≡ true → going.now ≡ goings.Blocked }
{
    matches!(going, Going::Blocked)
}

// Goes on with the job at a place. None where none of its replies was accepted and it can't go on now.
fn try_job<R: Wait, T: Tape, F: Handler, G: Gate>(
    rt: &R,
    tools: &Tools<'_, T, F, G>,
    caller: &mut Caller<T>,
    jobs: &mut Vec<OpenJob>,
    place: usize,
) -> Option<Progress>
    requires of { caller.old.of ≡ tools.now.connection.now }
    requires place { place < length jobs.old.items }
    requires routed { AreRouted tools.now.routes.now jobs.old.items }
    ensures at_work { IsAtWork tools.now.routes.now caller.old caller.new jobs.old.items
        jobs.new.items }
    ensures cause { IfSome result (λ p. IsOfJobs tools.now.connection.now.settings
        tools.now.routes.now caller.old.names caller.old.number tools.now.most caller.old.front
        caller.new.front jobs.old.items jobs.new.items p) }
    ensures whole { IfSome result (λ p. WholeOfProgress tools.now.connection.now.settings
        tools.now.routes.now caller.old.names caller.old.number caller.old.front
        caller.new.front jobs.old.items jobs.new.items p) }
    ensures quiet { IfNone result (GoesOn IsWorkersCall caller.old.names caller.old.number
        caller.old.front caller.new.front 0) }
    ensures hindered { IfNone result (IsHinderedAt tools.now.connection.now.settings
        tools.now.routes.now caller.old.names caller.old.number caller.old.front caller.new.front
        place jobs.old.items jobs.new.items) }
    ensures within { IfSome tools.now.most (λ most. KeepsWithin caller.old.names most
        caller.old.front caller.new.front) }
    ensures unbounded { tools.now.most ≡ None → IfSome result IsNotMore }
{
    let stream = jobs[place].stream;
    let made = jobs[place].made;
    let going = go_at(rt, tools, caller, jobs, place);
    if is_blocked(&going) && jobs[place].made == made {
        return None;
    }
    Some(settle(jobs, place, stream, going))
}

// The place of the first job of a stream.
fn find(jobs: &[OpenJob], stream: u32) -> Option<usize>
    ensures place { result ≡ position (λ j. j.stream == stream) jobs.now }
    ensures within { IfSome result (λ n. n < length jobs.now) }
{
    jobs.iter().position(|job| job.stream == stream)
}

// Lets go of the job of a stream, where there is one: the peer uses its id anew, so the stream is over.
fn forget(jobs: &mut Vec<OpenJob>, stream: u32)
    ensures forgotten { IsForgotten stream jobs.old.items jobs.new.items }
    ensures fewer { vec_len jobs.new ≤ vec_len jobs.old }
    ensures capacity { vec_capacity jobs.new ≡ vec_capacity jobs.old }
{
    if let Some(place) = find(jobs, stream) {
        jobs.remove(place);
    }
}

// Puts a job that was got into the work, for which there is room.
fn put<F: Handler>(
    alloc: Global,
    routes: &Routes<F>,
    jobs: &mut Vec<OpenJob>,
    stream: u32,
    kind: Kind,
    message: Message,
)
    requires room { vec_len jobs.old + 1 ≤ vec_capacity jobs.old }
    ensures { IsPut routes.now stream kind message jobs.old.items jobs.new.items }
{
    let route = route_of(alloc, routes, kind, &message);
    forget(jobs, stream);
    jobs.push_reserved(OpenJob {
        stream,
        kind,
        message,
        route,
        made: 0,
        stage: Stage::Request,
    });
}

// Goes on with the last job, which was got just now.
fn go_first<R: Wait, T: Tape, F: Handler, G: Gate>(
    rt: &R,
    tools: &Tools<'_, T, F, G>,
    caller: &mut Caller<T>,
    jobs: &mut Vec<OpenJob>,
) -> Progress
    requires of { caller.old.of ≡ tools.now.connection.now }
    requires some { 0 < length jobs.old.items }
    requires routed { AreRouted tools.now.routes.now jobs.old.items }
    ensures at_work { IsAtWork tools.now.routes.now caller.old caller.new jobs.old.items
        jobs.new.items }
    ensures cause { IsOfJobs tools.now.connection.now.settings tools.now.routes.now
        caller.old.names caller.old.number tools.now.most caller.old.front caller.new.front
        jobs.old.items jobs.new.items result }
    ensures whole { WholeOfProgress tools.now.connection.now.settings tools.now.routes.now
        caller.old.names caller.old.number caller.old.front caller.new.front jobs.old.items
        jobs.new.items result }
    ensures within { IfSome tools.now.most (λ most. KeepsWithin caller.old.names most
        caller.old.front caller.new.front) }
    ensures unbounded { tools.now.most ≡ None → IsNotMore result }
{
    let place = jobs.len() - 1;
    let stream = jobs[place].stream;
    let going = go_at(rt, tools, caller, jobs, place);
    settle(jobs, place, stream, going)
}

// Takes a job, and goes on with it.
fn take_job<R: Wait, T: Tape, F: Handler, G: Gate>(
    rt: &R,
    tools: &Tools<'_, T, F, G>,
    caller: &mut Caller<T>,
    jobs: &mut Vec<OpenJob>,
) -> Progress
    requires of { caller.old.of ≡ tools.now.connection.now }
    requires routed { AreRouted tools.now.routes.now jobs.old.items }
    ensures at_work { IsAtWork tools.now.routes.now caller.old caller.new jobs.old.items
        jobs.new.items }
    ensures cause { CauseOfTaking tools.now.connection.now.settings tools.now.routes.now
        caller.old.names caller.old.number tools.now.most caller.old.front caller.new.front
        jobs.old.items jobs.new.items result }
    ensures whole { WholeOfProgress tools.now.connection.now.settings tools.now.routes.now
        caller.old.names caller.old.number caller.old.front caller.new.front jobs.old.items
        jobs.new.items result }
    ensures idle { result ≡ progresses.Worked workeds.Idle →
        jobs.new.items ≡ jobs.old.items }
    ensures still { result ≡ progresses.Worked workeds.Idle → (s : ℕ) →
        course caller.old.names s caller.new.front ≡ course caller.old.names s caller.old.front }
    ensures within { IfSome tools.now.most (λ most. KeepsWithin caller.old.names most
        caller.old.front caller.new.front) }
    ensures unbounded { tools.now.most ≡ None → IsNotMore result }
{
    if jobs.reserve(1).is_err() {
        return Progress::Worked(Worked::OutOfMemory);
    }
    match sort_job(ask(rt, tools.connection, caller, &Call::TakeJob)) {
        Found::Asked {
            stream,
            kind,
            message,
        } => {
            put(tools.alloc, tools.routes, jobs, stream, kind, message);
            go_first(rt, tools, caller, jobs)
        }
        Found::Pushed => Progress::Worked(Worked::Served {
            stream: 0,
            items: 0,
        }),
        Found::NotYet => Progress::Worked(Worked::Idle),
        Found::OutOfMemory => Progress::Worked(Worked::OutOfMemory),
        Found::NoMore(answer) => Progress::Worked(Worked::NoMore(answer)),
    }
}

// Goes on with the first job of which a reply is accepted, or takes one.
fn serve<R: Wait, T: Tape, F: Handler, G: Gate>(
    rt: &R,
    tools: &Tools<'_, T, F, G>,
    caller: &mut Caller<T>,
    jobs: &mut Vec<OpenJob>,
) -> Progress
    requires of { caller.old.of ≡ tools.now.connection.now }
    requires routed { AreRouted tools.now.routes.now jobs.old.items }
    ensures at_work { IsAtWork tools.now.routes.now caller.old caller.new jobs.old.items
        jobs.new.items }
    ensures cause { CauseOfProgress tools.now.connection.now.settings tools.now.routes.now
        caller.old.names caller.old.number tools.now.most caller.old.front caller.new.front
        jobs.old.items jobs.new.items result }
    ensures waits { WaitingOfProgress tools.now.connection.now.settings tools.now.routes.now
        caller.old.names caller.old.number caller.old.front caller.new.front jobs.old.items
        jobs.new.items result }
    ensures whole { WholeOfProgress tools.now.connection.now.settings tools.now.routes.now
        caller.old.names caller.old.number caller.old.front caller.new.front jobs.old.items
        jobs.new.items result }
    ensures within { IfSome tools.now.most (λ most. KeepsWithin caller.old.names most
        caller.old.front caller.new.front) }
    ensures unbounded { tools.now.most ≡ None → IsNotMore result }
{
    let count = jobs.len();
    for place in 0..count {
        if let Some(progress) = try_job(rt, tools, caller, jobs, place) {
            return progress;
        }
    }
    take_job(rt, tools, caller, jobs)
}

/// Goes on with one job: it tries the next reply of each job in the work, in their order, and goes on
/// with the first whose reply is accepted; where there is none, it takes a job of the connection. It
/// waits for turns of the connection, and for no job: see [`Worked::Idle`].
pub fn serve_job<R: Wait, T: Tape, F: Handler, G: Gate>(
    rt: &R,
    alloc: Global,
    connection: &Connection<T>,
    caller: &mut Caller<T>,
    routes: &Routes<F>,
    gate: &G,
    work: &mut Work,
) -> Worked
    requires of { caller.old.of ≡ connection.now }
    requires routed { AreRouted routes.now work.old }
    ensures same { caller.new ≡
        record caller.old { front = caller.new.front; note = caller.new.note } }
    // The caller's entries that are added are a worker's calls under its number.
    ensures works { WorksOn caller.old.names caller.old.number caller.old.front caller.new.front }
    ensures routed { AreRouted routes.now work.new }
    ensures kept { Serving caller.old.names caller.old.front routes.now work.old →
        Serving caller.old.names caller.new.front routes.now work.new }
    ensures cause { CauseOfWorked connection.now.settings routes.now caller.old.names
        caller.old.number caller.old.front caller.new.front work.old work.new result }
    // Nothing was called on the streams of an idle worker's jobs since they were hindered.
    ensures waits { WaitingOfWorked connection.now.settings routes.now caller.old.names
        caller.old.number caller.old.front caller.new.front work.old work.new result }
    ensures whole { WholeOfWorked connection.now.settings routes.now caller.old.names
        caller.old.number caller.old.front caller.new.front work.old work.new result }
{
    let tools = Tools {
        alloc,
        connection,
        routes,
        gate,
        most: None,
    };
    match serve(rt, &tools, caller, &mut work.jobs) {
        Progress::Worked(worked) => worked,
        Progress::More(_) => unreachable!(),
    }
}

/// Works as [`serve_job`] does, but stops once the contents of its replies have `most` bytes in sum,
/// so that other work is not put off for long.
pub fn serve_some<R: Wait, T: Tape, F: Handler, G: Gate>(
    rt: &R,
    alloc: Global,
    connection: &Connection<T>,
    caller: &mut Caller<T>,
    routes: &Routes<F>,
    gate: &G,
    work: &mut Work,
    most: u64,
) -> Progress
    requires of { caller.old.of ≡ connection.now }
    requires routed { AreRouted routes.now work.old }
    ensures same { caller.new ≡
        record caller.old { front = caller.new.front; note = caller.new.note } }
    // The caller's entries that are added are a worker's calls under its number.
    ensures works { WorksOn caller.old.names caller.old.number caller.old.front caller.new.front }
    ensures routed { AreRouted routes.now work.new }
    ensures kept { Serving caller.old.names caller.old.front routes.now work.old →
        Serving caller.old.names caller.new.front routes.now work.new }
    ensures cause { CauseOfProgress connection.now.settings routes.now caller.old.names
        caller.old.number (Some most) caller.old.front caller.new.front work.old work.new result }
    // Nothing was called on the streams of an idle worker's jobs since they were hindered.
    ensures waits { WaitingOfProgress connection.now.settings routes.now caller.old.names
        caller.old.number caller.old.front caller.new.front work.old work.new result }
    ensures whole { WholeOfProgress connection.now.settings routes.now caller.old.names
        caller.old.number caller.old.front caller.new.front work.old work.new result }
    // One reply more is made only while those before it in this call have fewer bytes than these.
    ensures within { KeepsWithin caller.old.names most caller.old.front caller.new.front }
{
    let tools = Tools {
        alloc,
        connection,
        routes,
        gate,
        most: Some(most),
    };
    serve(rt, &tools, caller, &mut work.jobs)
}

//! One step of a job: at most one call.

ghost use Rattle.std.specs.Prelude.{◌≡◌, ◌+◌, ◌≤◌, List, true, is_some};
ghost use Rattle.rs_wire.specs.Calls.{CanBeAsked};
ghost use Rattle.rs_wire.specs.declared.words.Kind.TheVariants as kinds;
ghost use Rattle.handlers.specs.Listed.{Listed};
ghost use Rattle.workers.specs.declared.plan.Plan.TheVariants as plans;
ghost use Rattle.workers.specs.declared.job.Stage.TheVariants as stages;
ghost use Rattle.workers.specs.declared.outcome.Outcome.TheVariants as outcomes;
ghost use Rattle.workers.specs.Replies.{item_of, law_of};
ghost use Rattle.workers.specs.Causes.{CauseOfStep};
ghost use Rattle.workers.specs.Courses.{IsReplyOn, bytes_of};
ghost use Rattle.workers.specs.Serving.{IsRouted};
ghost use Rattle.workers.specs.Going.{Awaits, HasGone, HasRepliedOnce, HasWorked, IsAccepted, IsSameJob, WholeOfStep, left_after, left_by_step, plan_of};

use crate::ask::ask;
use crate::gate::Gate;
use crate::job::{OpenJob, Stage};
use crate::outcome::{Outcome, Taken, judge, sort};
use crate::plan::{Plan, make_plan};
use crate::tools::Tools;
use conn::{Caller, Connection};
use handlers::Handler;
use rs_wire::{Call, Kind};
use std::sync::Wait;
use tape::{Answer, Tape};

/// What a step of a job did.
#[derive(Drop)]
pub enum Step {
    /// The job goes on. Its reply had so many bytes, where one was accepted.
    Went(u64),
    /// The job is done; its replies had this many items.
    Served(u64),
    /// The call was refused for now.
    Blocked,
    /// The call was answered so, by another refusal or `TapeFull`.
    Stopped(Answer),
    /// There was not enough memory.
    OutOfMemory,
}

fn items_in(call: &Call) -> u64
    ensures count { result ≡ item_of call.now }
    ensures one { result ≤ 1 }
{
    match call {
        Call::Next { .. } => 1,
        _ => 0,
    }
}

fn bytes_in(call: &Call) -> u64
    ensures { result ≡ bytes_of call.now }
{
    match call {
        Call::Next { message, .. } => message.content.len() as u64,
        _ => 0,
    }
}

// The next item of a channel is to be taken first.
fn awaits_content(job: &OpenJob) -> bool
    ensures stage { result ≡ true → job.now.stage ≡ stages.Answered }
    ensures kind { result ≡ true → job.now.kind ≡ kinds.Channel }
    ensures route { result ≡ true → is_some job.now.route ≡ true }
{
    match &job.stage {
        Stage::Answered => job.kind == Kind::Channel && job.route.is_some(),
        _ => false,
    }
}

// Takes the next content of a channel.
fn take_content<R: Wait, T: Tape>(
    rt: &R,
    connection: &Connection<T>,
    caller: &mut Caller<T>,
    job: &mut OpenJob,
) -> Step
    requires of { caller.old.of ≡ connection.now }
    ensures same { caller.new ≡
        record caller.old { front = caller.new.front; note = caller.new.note } }
    ensures worked { HasWorked caller.old.names caller.old.number caller.old.front
        caller.new.front job.old job.new }
    ensures job { IsSameJob job.old job.new }
    ensures once { HasRepliedOnce caller.old.names caller.old.front caller.new.front result }
    ensures cause { (routes : List Listed) → Awaits routes job.old → CauseOfStep
        connection.now.settings routes caller.old.names caller.old.number caller.old.front
        caller.new.front job.new result }
    ensures kept { (routes : List Listed) → Awaits routes job.old → HasGone caller.old.names routes
        caller.old.front caller.new.front job.old (left_by_step result job.new) }
    ensures whole { (routes : List Listed) → Awaits routes job.old → WholeOfStep caller.old.names
        routes caller.old.front caller.new.front job.old result }
{
    let call = Call::Take { stream: job.stream };
    match sort(ask(rt, connection, caller, &call)) {
        Taken::Item(content) => {
            job.stage = Stage::Taken(content);
            Step::Went(0)
        }
        Taken::End => {
            job.stage = Stage::Over;
            Step::Went(0)
        }
        Taken::Blocked => Step::Blocked,
        Taken::OutOfMemory => Step::OutOfMemory,
        Taken::Final(answer) => Step::Stopped(answer),
    }
}

// A reply was accepted.
fn accepted(job: &mut OpenJob, call: &Call, last: bool, made: u64) -> Step
    requires { made ≡ job.old.made + 1 }
    ensures job { job.new ≡ record job.old { made = made; stage = stages.Answered } }
    ensures left { left_by_step result job.new ≡ left_after outcomes.Accepted last job.old made }
    ensures accepted { IsAccepted call.now job.old.made last result }
{
    let items = job.made + items_in(call);
    job.made = made;
    job.stage = Stage::Answered;
    if last {
        Step::Served(items)
    } else {
        Step::Went(bytes_in(call))
    }
}

// Makes a reply.
fn say<R: Wait, T: Tape>(
    rt: &R,
    connection: &Connection<T>,
    caller: &mut Caller<T>,
    job: &mut OpenJob,
    call: &Call,
    last: bool,
) -> Step
    requires of { caller.old.of ≡ connection.now }
    requires on { IsReplyOn job.old.stream call.now }
    requires askable { CanBeAsked call.now }
    ensures same { caller.new ≡
        record caller.old { front = caller.new.front; note = caller.new.note } }
    ensures worked { HasWorked caller.old.names caller.old.number caller.old.front
        caller.new.front job.old job.new }
    ensures job { IsSameJob job.old job.new }
    ensures once { HasRepliedOnce caller.old.names caller.old.front caller.new.front result }
    ensures cause { (routes : List Listed) →
        plan_of (law_of routes job.old.kind job.old.message) job.old ≡ plans.Say call.now last →
        CauseOfStep connection.now.settings routes caller.old.names caller.old.number
        caller.old.front caller.new.front job.new result }
    ensures kept { (routes : List Listed) →
        plan_of (law_of routes job.old.kind job.old.message) job.old ≡ plans.Say call.now last →
        HasGone caller.old.names routes caller.old.front caller.new.front job.old
        (left_by_step result job.new) }
    ensures whole { (routes : List Listed) →
        plan_of (law_of routes job.old.kind job.old.message) job.old ≡ plans.Say call.now last →
        WholeOfStep caller.old.names routes caller.old.front caller.new.front job.old result }
{
    // A job of 2^64 - 1 replies can't go on.
    let Some(made) = job.made.checked_add(1) else {
        return Step::OutOfMemory;
    };
    let answer = ask(rt, connection, caller, call);
    match judge(&answer) {
        Outcome::Accepted => accepted(job, call, last, made),
        Outcome::Blocked => Step::Blocked,
        Outcome::OutOfMemory => Step::OutOfMemory,
        Outcome::Final => Step::Stopped(answer),
    }
}

// Makes the next reply, by the handler where there is one.
fn answer<R: Wait, T: Tape, F: Handler, G: Gate>(
    rt: &R,
    tools: &Tools<'_, T, F, G>,
    caller: &mut Caller<T>,
    job: &mut OpenJob,
) -> Step
    requires of { caller.old.of ≡ tools.now.connection.now }
    requires routed { IsRouted tools.now.routes.now job.old }
    ensures same { caller.new ≡
        record caller.old { front = caller.new.front; note = caller.new.note } }
    ensures worked { HasWorked caller.old.names caller.old.number caller.old.front
        caller.new.front job.old job.new }
    ensures job { IsSameJob job.old job.new }
    ensures once { HasRepliedOnce caller.old.names caller.old.front caller.new.front result }
    ensures cause { CauseOfStep tools.now.connection.now.settings tools.now.routes.now
        caller.old.names caller.old.number caller.old.front caller.new.front job.new result }
    ensures kept { HasGone caller.old.names tools.now.routes.now caller.old.front
        caller.new.front job.old (left_by_step result job.new) }
    ensures whole { WholeOfStep caller.old.names tools.now.routes.now caller.old.front
        caller.new.front job.old result }
{
    match make_plan(tools.alloc, tools.routes, job) {
        Plan::Say { call, last } => say(rt, tools.connection, caller, job, &call, last),
        Plan::Skip => {
            job.stage = Stage::Answered;
            Step::Went(0)
        }
        Plan::Nothing => Step::Served(job.made),
        Plan::OutOfMemory => Step::OutOfMemory,
    }
}

/// One step of a job: it takes the next content of a channel, or makes the next reply.
pub fn make_step<R: Wait, T: Tape, F: Handler, G: Gate>(
    rt: &R,
    tools: &Tools<'_, T, F, G>,
    caller: &mut Caller<T>,
    job: &mut OpenJob,
) -> Step
    requires of { caller.old.of ≡ tools.now.connection.now }
    requires routed { IsRouted tools.now.routes.now job.old }
    ensures same { caller.new ≡
        record caller.old { front = caller.new.front; note = caller.new.note } }
    ensures worked { HasWorked caller.old.names caller.old.number caller.old.front
        caller.new.front job.old job.new }
    ensures job { IsSameJob job.old job.new }
    ensures once { HasRepliedOnce caller.old.names caller.old.front caller.new.front result }
    ensures cause { CauseOfStep tools.now.connection.now.settings tools.now.routes.now
        caller.old.names caller.old.number caller.old.front caller.new.front job.new result }
    ensures kept { HasGone caller.old.names tools.now.routes.now caller.old.front
        caller.new.front job.old (left_by_step result job.new) }
    ensures whole { WholeOfStep caller.old.names tools.now.routes.now caller.old.front
        caller.new.front job.old result }
{
    if awaits_content(job) {
        return take_content(rt, tools.connection, caller, job);
    }
    tools.gate.before(job.stream);
    let step = answer(rt, tools, caller, job);
    tools.gate.after(job.stream);
    step
}

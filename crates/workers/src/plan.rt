//! What a job says next.

ghost use Rattle.std.specs.Prelude.{◌≡◌, ◌<◌, ℕ, List, Option, Some, None, IfSome, length, slice_get, true};
ghost use Rattle.rs_wire.specs.declared.call.Call.TheVariants as calls;
ghost use Rattle.handlers.specs.Values.{Shows};
ghost use Rattle.workers.specs.declared.plan.Plan.TheVariants as plans;
ghost use Rattle.workers.specs.Going.{IsPlan, plan_content, plan_item, plan_of, say_end};
ghost use Rattle.workers.specs.Replies.{law_of, plain, response};
ghost use Rattle.workers.specs.Serving.{IsRouted};

use crate::job::{OpenJob, Stage};
use handlers::{Handler, Produced, Routes};
use rs_wire::{Blob, Call, Kind, Message};
use std::alloc::Global;

/// The error code where no route is found (RSocket 1.0, "Error Codes", APPLICATION_ERROR).
const NO_ROUTE: u32 = 0x201;

/// What a job says next.
#[derive(Drop)]
pub enum Plan {
    /// This reply, which may be the last one.
    Say {
        /// The reply.
        call: Call,
        /// No other one follows it.
        last: bool,
    },
    /// No reply to this content of a channel.
    Skip,
    /// No reply at all.
    Nothing,
    /// There was not enough memory.
    OutOfMemory,
}

fn item(stream: u32, content: Blob, complete: bool) -> Call
    ensures { result ≡ calls.Next stream (plain content) complete }
{
    Call::Next {
        stream,
        message: Message {
            metadata: None,
            content,
        },
        complete,
    }
}

fn end(stream: u32) -> Plan
    ensures { result ≡ say_end stream }
{
    Plan::Say {
        call: Call::Done { stream },
        last: true,
    }
}

// The one reply of a response.
fn response(stream: u32, produced: Produced) -> Plan
    ensures { (given : Option (List ℕ)) → Shows given produced →
        IsPlan (plans.Say (response stream given) true) result }
{
    match produced {
        Produced::Item(content) => Plan::Say {
            call: item(stream, content, true),
            last: true,
        },
        Produced::Finish => end(stream),
        Produced::OutOfMemory => Plan::OutOfMemory,
    }
}

// A fire-and-forget has no reply, whatever its handler gives.
fn unanswered(produced: Produced) -> Plan
    ensures { IsPlan plans.Nothing result }
{
    match produced {
        Produced::OutOfMemory => Plan::OutOfMemory,
        _ => Plan::Nothing,
    }
}

// The next item of a stream, or its end.
fn item_or_end(stream: u32, produced: Produced) -> Plan
    ensures { (given : Option (List ℕ)) → Shows given produced →
        IsPlan (plan_item stream given (say_end stream)) result }
{
    match produced {
        Produced::Item(content) => Plan::Say {
            call: item(stream, content, false),
            last: false,
        },
        Produced::Finish => end(stream),
        Produced::OutOfMemory => Plan::OutOfMemory,
    }
}

// The answer to a content of a channel, where there is one.
fn item_or_none(stream: u32, produced: Produced) -> Plan
    ensures { (given : Option (List ℕ)) → Shows given produced →
        IsPlan (plan_item stream given plans.Skip) result }
{
    match produced {
        Produced::Item(content) => Plan::Say {
            call: item(stream, content, false),
            last: false,
        },
        Produced::Finish => Plan::Skip,
        Produced::OutOfMemory => Plan::OutOfMemory,
    }
}

fn on_channel<F: Handler>(alloc: Global, routes: &Routes<F>, route: u32, job: &OpenJob) -> Plan
    requires { route < length routes.now }
    ensures { IfSome (slice_get routes.now route) (λ r. IsPlan
        (plan_content r.law job.now.stream job.now.message.content job.now.stage) result) }
{
    match &job.stage {
        Stage::Request => item_or_none(
            job.stream,
            routes.answer(alloc, route, &job.message.content, 0),
        ),
        Stage::Taken(content) => {
            item_or_none(job.stream, routes.answer(alloc, route, content, 0))
        }
        Stage::Answered => Plan::Skip,
        Stage::Over => end(job.stream),
    }
}

// By the handler of a route.
fn routed<F: Handler>(alloc: Global, routes: &Routes<F>, route: u32, job: &OpenJob) -> Plan
    requires { route < length routes.now }
    ensures { IfSome (slice_get routes.now route)
        (λ r. IsPlan (plan_of (Some r.law) job.now) result) }
{
    let content = &job.message.content;
    match job.kind {
        Kind::Response => response(job.stream, routes.answer(alloc, route, content, 0)),
        Kind::Fnf => unanswered(routes.answer(alloc, route, content, 0)),
        Kind::Stream => item_or_end(job.stream, routes.answer(alloc, route, content, job.made)),
        Kind::Channel => on_channel(alloc, routes, route, job),
    }
}

// Where no route is found.
fn routeless(alloc: Global, job: &OpenJob) -> Plan
    ensures { IsPlan (plan_of None job.now) result }
{
    if job.kind == Kind::Fnf {
        return Plan::Nothing;
    }
    match Blob::from_slice(alloc, b"no route") {
        Ok(content) => Plan::Say {
            call: Call::Fail {
                stream: job.stream,
                code: NO_ROUTE,
                content,
            },
            last: true,
        },
        Err(_) => Plan::OutOfMemory,
    }
}

/// What a job says next, where it does not wait for a content. It asks the handler.
pub fn make_plan<F: Handler>(alloc: Global, routes: &Routes<F>, job: &OpenJob) -> Plan
    requires routed { IsRouted routes.now job.now }
    ensures { IsPlan (plan_of (law_of routes.now job.now.kind job.now.message) job.now) result }
{
    match job.route {
        Some(route) => routed(alloc, routes, route, job),
        None => routeless(alloc, job),
    }
}

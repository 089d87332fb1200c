//! A thread that makes the calls of one end.

ghost use Rattle.std.specs.Prelude.{◌≡◌, [], IfNone, IfSome, Some, length};
ghost use Rattle.rtrb.specs.Ring.{IsPair, SameConsumer, known_free, received, sent};
ghost use Rattle.threaded.specs.Threads.{HasMade};

use crate::part::Part;
use cable_script::Script;
use conn::{Caller, Connection};
use rs_wire::Side;
use starts::{Back, Fact, Giver, Honest, Named, Taker, one_place, take_back, wait_for_work};
use std::alloc::Global;
use std::marker::PhantomData;
use std::snapshot::Snapshot;
use std::sync::Wait;
use std::thread::{PromisedHandle, Scope, Threads};
use tape::Tape;
use threaded_asker::ask_all;

/// What a thread that asks hands back.
#[derive(Drop)]
pub(crate) struct Asked<T: Tape> {
    /// Its caller.
    pub(crate) caller: Caller<T>,
    /// Memory ran out, or the tape was full.
    pub(crate) want: bool,
}

/// The fact that the calls of one end were made.
#[derive(Drop)]
pub(crate) struct Asks<N> {
    side: Side,
    script: Snapshot<Script>,
    of: PhantomData<N>,
}

impl<T: Tape, N: Named<Caller<T>>> Fact<Asked<T>> for Asks<N> {
    ghost use Rattle.std.specs.Prelude.{IfSome};
    ghost use Rattle.threaded.specs.Threads.{HasMade};

    ghost holds = { λ p d. IfSome N.work (λ w.
        HasMade p.side p.script.value.lines w d.caller d.want) };
}

/// What a thread that asks promises.
type Promised<T, N> = Honest<Caller<T>, N, Asks<N>>;

/// A thread that asks, and the ring by which it gets its caller.
#[derive(Drop)]
pub(crate) struct Asking<T: Tape + Drop, N: Named<Caller<T>>> {
    start: Giver<Caller<T>, N>,
    was: Snapshot<Taker<Caller<T>, N>>,
    handle: PromisedHandle<Back<Caller<T>, Asked<T>, N>, Promised<T, N>>,
}

// Makes the calls of one end.
fn make_calls<T: Tape, R: Wait>(
    rt: &R,
    alloc: Global,
    connection: &Connection<T>,
    side: Side,
    script: &Script,
    caller: Caller<T>,
) -> Asked<T>
    requires { caller.of ≡ connection.now }
    ensures { HasMade side script.now.lines caller result.caller result.want }
{
    let mut caller = caller;
    let want = ask_all(rt, alloc, connection, &mut caller, side, script.lines()).is_err();
    Asked { caller, want }
}

// Waits for a caller, and makes the calls of one end by it.
fn wait_and_ask<T: Tape + Drop, N: Named<Caller<T>>, R: Wait>(
    rt: &R,
    connection: &Connection<T>,
    part: Part<'_>,
    waits: Taker<Caller<T>, N>,
) -> Back<Caller<T>, Asked<T>, N>
    requires of { IfSome N.work (λ w. w.of ≡ connection.now) }
    requires fresh { received waits ≡ [] }
    ensures ring { SameConsumer waits result.start }
    ensures none { IfNone result.done (received result.start ≡ []) }
    ensures some { IfSome result.done (λ d. IfSome N.work (λ w.
        HasMade part.entry.side part.entry.script.now.lines w d.caller d.want)) }
{
    let mut start = waits;
    match wait_for_work(rt, &mut start) {
        None => Back { start, done: None },
        Some(caller) => {
            let Part {
                alloc,
                side,
                script,
            } = part;
            let done = Some(make_calls(rt, alloc, connection, side, script, caller));
            Back { start, done }
        }
    }
}

/// Starts a thread that waits for a caller, and then makes the calls of one end. None where it can't be
/// started.
pub(crate) fn start_asking<
    's,
    'e: 's,
    T: Tape + Drop + Send + 'e,
    N: Named<Caller<T>> + Send + Sync + 'e,
    R: Threads + Wait + Sync + 'e,
>(
    scope: &Scope<'s, &'e ()>,
    rt: &'e R,
    alloc: Global,
    connection: &'e Connection<T>,
    side: Side,
    script: &'e Script,
) -> Option<Asking<T, N>>
    requires { IfSome N.work (λ w. w.of ≡ connection.now) }
    ensures pair { IfSome result (λ a. IsPair a.start a.was.value) }
    ensures start { IfSome result (λ a. (sent a.start ≡ []) × (known_free a.start ≡ 1)) }
    ensures was { IfSome result (λ a. a.handle.promise.of.value ≡ a.was.value) }
    ensures side { IfSome result (λ a. a.handle.promise.fact.side ≡ side) }
    ensures script { IfSome result (λ a. a.handle.promise.fact.script.value ≡ script.now) }
{
    let Ok((start, waits)) = one_place::<Caller<T>, N>(alloc) else {
        return None;
    };
    let was = Snapshot::of(&waits);
    let promise = Honest {
        of: Snapshot::of(&waits),
        fact: Asks {
            side,
            script: Snapshot::of(script),
            of: PhantomData,
        },
    };
    let part = Part {
        alloc,
        side,
        script,
    };
    match scope.spawn_with(
        promise,
        move || -> Back<Caller<T>, Asked<T>, N>
            requires { (received waits ≡ []) × IfSome N.work (λ w. w.of ≡ connection.now) }
            ensures { SameConsumer waits result.start
                × IfNone result.done (received result.start ≡ [])
                × IfSome result.done (λ d. IfSome N.work (λ w.
                HasMade part.entry.side part.entry.script.now.lines w d.caller d.want)) }
        { wait_and_ask(rt, connection, part, waits) },
    ) {
        Ok(handle) => Some(Asking { start, was, handle }),
        Err(_) => None,
    }
}

impl<T: Tape + Drop, N: Named<Caller<T>>> Asking<T, N> {
    /// Hands the caller out.
    pub(crate) fn hand(&mut self, caller: Caller<T>)
        requires named { N.work ≡ Some caller }
        requires fresh { sent self.old.start ≡ [] }
        requires room { known_free self.old.start ≡ 1 }
        requires pair { IsPair self.old.start self.old.was.value }
        ensures pair { IsPair self.new.start self.new.was.value }
        ensures one { length (sent self.new.start) ≡ 1 }
        ensures was { self.new.was ≡ self.old.was }
        ensures handle { self.new.handle ≡ self.old.handle }
    {
        self.start.push_reserved(caller);
    }

    /// What the thread hands back. Where it got no caller the calls are made here.
    pub(crate) fn take<R: Threads + Wait>(
        self,
        rt: &R,
        alloc: Global,
        connection: &Connection<T>,
        side: Side,
        script: &Script,
    ) -> Asked<T>
        requires of { IfSome N.work (λ w. w.of ≡ connection.now) }
        requires pair { IsPair self.start self.was.value }
        requires one { length (sent self.start) ≡ 1 }
        requires was { self.handle.promise.of.value ≡ self.was.value }
        requires side { self.handle.promise.fact.side ≡ side }
        requires script { self.handle.promise.fact.script.value ≡ script.now }
        ensures { IfSome N.work (λ w.
            HasMade side script.now.lines w result.caller result.want) }
    {
        let Asking { start, was, handle } = self;
        let back = handle.join(rt);
        match take_back(start, back, was) {
            Ok(asked) => asked,
            Err(caller) => make_calls(rt, alloc, connection, side, script, caller),
        }
    }
}

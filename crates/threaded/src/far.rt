//! A thread that carries for the server.

ghost use Rattle.std.specs.Prelude.{◌≡◌, [], IfErr, IfNone, IfOk, IfSome, Some, length};
ghost use Rattle.rtrb.specs.Ring.{IsPair, SameConsumer, SameProducer, known_free, received, sent};
ghost use Rattle.rs_wire.specs.declared.words.Side.TheVariants.{Server};
ghost use Rattle.threaded_server.specs.Carrying.{IsSound};
ghost use Rattle.threaded.specs.Threads.{FarFollows, IsOn};

use crate::part::Part;
use cable_script::Script;
use conn::{Caller, Connection};
use rs_wire::Side;
use starts::{Back, Fact, Giver, Honest, Named, Taker, one_place, take_back, wait_for_work};
use std::alloc::Global;
use std::marker::PhantomData;
use std::snapshot::Snapshot;
use std::sync::Wait;
use std::thread::{PromisedHandle, Scope, Threads};
use tape::Tape;
use threaded_server::ServerCarrier;

/// What a thread that carries for the server hands back: all that it has, or its caller where it stopped.
pub(crate) type FarBack<T> = Result<ServerCarrier<T>, Caller<T>>;

/// The fact that the server's carrier followed the lines.
#[derive(Drop)]
pub(crate) struct Carries<N> {
    script: Snapshot<Script>,
    of: PhantomData<N>,
}

impl<T: Tape, N: Named<ServerCarrier<T>>> Fact<FarBack<T>> for Carries<N> {
    ghost use Rattle.std.specs.Prelude.{IfErr, IfOk, IfSome};
    ghost use Rattle.rtrb.specs.Ring.{SameConsumer, SameProducer, received, sent};
    ghost use Rattle.threaded_server.specs.Carrying.{IsSound};
    ghost use Rattle.threaded.specs.Threads.{FarFollows, IsOn};

    ghost holds = { λ p d. IfSome N.work (λ w.
        IfErr d (λ k. IsOn w.caller k) × IfOk d (λ c. IsOn w.caller c.caller
        × SameProducer w.out c.out × SameConsumer w.from c.from
        × IsSound w.caller.of.settings c.knows
        × FarFollows p.script.value.lines w.caller c.caller w.knows c.knows
        (sent w.out) (sent c.out) (received w.from) (received c.from))) };
}

/// What a thread that carries for the server promises.
type Promised<T, N> = Honest<ServerCarrier<T>, N, Carries<N>>;

/// A thread that carries for the server, and the ring by which it gets its carrier.
#[derive(Drop)]
pub(crate) struct Carrying<T: Tape + Drop, N: Named<ServerCarrier<T>>> {
    start: Giver<ServerCarrier<T>, N>,
    was: Snapshot<Taker<ServerCarrier<T>, N>>,
    handle: PromisedHandle<Back<ServerCarrier<T>, FarBack<T>, N>, Promised<T, N>>,
}

// Follows the lines. Where it stops it lets its ends of the rings go, so that the other carrier stops.
fn carry_far<T: Tape + Drop, R: Wait>(
    rt: &R,
    alloc: Global,
    server: &Connection<T>,
    script: &Script,
    far: ServerCarrier<T>,
) -> FarBack<T>
    requires of { far.caller.of ≡ server.now }
    requires server { server.now.settings.side ≡ Server }
    requires sound { IsSound server.now.settings far.knows }
    ensures stopped { IfErr result (λ k. IsOn far.caller k) }
    ensures same { IfOk result (λ c. IsOn far.caller c.caller) }
    ensures out { IfOk result (λ c. SameProducer far.out c.out) }
    ensures from { IfOk result (λ c. SameConsumer far.from c.from) }
    ensures sound { IfOk result (λ c. IsSound far.caller.of.settings c.knows) }
    ensures followed { IfOk result (λ c. FarFollows script.now.lines far.caller c.caller
        far.knows c.knows (sent far.out) (sent c.out) (received far.from) (received c.from)) }
{
    let mut far = far;
    match far.carry_all(rt, alloc, server, script.lines()) {
        Ok(()) => Ok(far),
        Err(_) => Err(far.caller),
    }
}

// Waits for a carrier, and follows the lines by it.
fn wait_and_carry<T: Tape + Drop, N: Named<ServerCarrier<T>>, R: Wait>(
    rt: &R,
    server: &Connection<T>,
    part: Part<'_>,
    waits: Taker<ServerCarrier<T>, N>,
) -> Back<ServerCarrier<T>, FarBack<T>, N>
    requires of { IfSome N.work (λ w. w.caller.of ≡ server.now) }
    requires server { server.now.settings.side ≡ Server }
    requires sound { IfSome N.work (λ w. IsSound server.now.settings w.knows) }
    requires fresh { received waits ≡ [] }
    ensures ring { SameConsumer waits result.start }
    ensures none { IfNone result.done (received result.start ≡ []) }
    ensures some { IfSome result.done (λ d. IfSome N.work (λ w.
        IfErr d (λ k. IsOn w.caller k) × IfOk d (λ c. IsOn w.caller c.caller
        × SameProducer w.out c.out × SameConsumer w.from c.from
        × IsSound w.caller.of.settings c.knows
        × FarFollows part.entry.script.now.lines w.caller c.caller w.knows c.knows
        (sent w.out) (sent c.out) (received w.from) (received c.from)))) }
{
    let mut start = waits;
    match wait_for_work(rt, &mut start) {
        None => Back { start, done: None },
        Some(far) => {
            let done = Some(carry_far(rt, part.alloc, server, part.script, far));
            Back { start, done }
        }
    }
}

/// Starts a thread that waits for the server's carrier, and then follows the lines. None where it can't
/// be started.
pub(crate) fn start_carrying<
    's,
    'e: 's,
    T: Tape + Drop + Send + 'e,
    N: Named<ServerCarrier<T>> + Send + Sync + 'e,
    R: Threads + Wait + Sync + 'e,
>(
    scope: &Scope<'s, &'e ()>,
    rt: &'e R,
    alloc: Global,
    server: &'e Connection<T>,
    script: &'e Script,
) -> Option<Carrying<T, N>>
    requires of { IfSome N.work (λ w. w.caller.of ≡ server.now) }
    requires server { server.now.settings.side ≡ Server }
    requires sound { IfSome N.work (λ w. IsSound server.now.settings w.knows) }
    ensures pair { IfSome result (λ a. IsPair a.start a.was.value) }
    ensures start { IfSome result (λ a. (sent a.start ≡ []) × (known_free a.start ≡ 1)) }
    ensures was { IfSome result (λ a. a.handle.promise.of.value ≡ a.was.value) }
    ensures script { IfSome result (λ a. a.handle.promise.fact.script.value ≡ script.now) }
{
    let Ok((start, waits)) = one_place::<ServerCarrier<T>, N>(alloc) else {
        return None;
    };
    let was = Snapshot::of(&waits);
    let promise = Honest {
        of: Snapshot::of(&waits),
        fact: Carries {
            script: Snapshot::of(script),
            of: PhantomData,
        },
    };
    let part = Part {
        alloc,
        side: Side::Server,
        script,
    };
    match scope.spawn_with(
        promise,
        move || -> Back<ServerCarrier<T>, FarBack<T>, N>
            requires { (received waits ≡ []) × IfSome N.work (λ w. w.caller.of ≡ server.now)
                × (server.now.settings.side ≡ Server)
                × IfSome N.work (λ w. IsSound server.now.settings w.knows) }
            ensures { SameConsumer waits result.start
                × IfNone result.done (received result.start ≡ [])
                × IfSome result.done (λ d. IfSome N.work (λ w.
                IfErr d (λ k. IsOn w.caller k) × IfOk d (λ c. IsOn w.caller c.caller
                × SameProducer w.out c.out × SameConsumer w.from c.from
                × IsSound w.caller.of.settings c.knows
                × FarFollows part.entry.script.now.lines w.caller c.caller w.knows c.knows
                (sent w.out) (sent c.out) (received w.from) (received c.from)))) }
        { wait_and_carry(rt, server, part, waits) },
    ) {
        Ok(handle) => Some(Carrying { start, was, handle }),
        Err(_) => None,
    }
}

impl<T: Tape + Drop, N: Named<ServerCarrier<T>>> Carrying<T, N> {
    /// Hands the carrier out.
    pub(crate) fn hand(&mut self, far: ServerCarrier<T>)
        requires named { N.work ≡ Some far }
        requires fresh { sent self.old.start ≡ [] }
        requires room { known_free self.old.start ≡ 1 }
        requires pair { IsPair self.old.start self.old.was.value }
        ensures pair { IsPair self.new.start self.new.was.value }
        ensures one { length (sent self.new.start) ≡ 1 }
        ensures was { self.new.was ≡ self.old.was }
        ensures handle { self.new.handle ≡ self.old.handle }
    {
        self.start.push_reserved(far);
    }

    /// What the thread hands back. Where it got no carrier the lines are followed here.
    pub(crate) fn take<R: Threads + Wait>(
        self,
        rt: &R,
        alloc: Global,
        server: &Connection<T>,
        script: &Script,
    ) -> FarBack<T>
        requires of { IfSome N.work (λ w. w.caller.of ≡ server.now) }
        requires server { server.now.settings.side ≡ Server }
        requires sound { IfSome N.work (λ w. IsSound server.now.settings w.knows) }
        requires pair { IsPair self.start self.was.value }
        requires one { length (sent self.start) ≡ 1 }
        requires was { self.handle.promise.of.value ≡ self.was.value }
        requires script { self.handle.promise.fact.script.value ≡ script.now }
        ensures stopped { IfSome N.work (λ w. IfErr result (λ k. IsOn w.caller k)) }
        ensures same { IfSome N.work (λ w. IfOk result (λ c. IsOn w.caller c.caller)) }
        ensures out { IfSome N.work (λ w. IfOk result (λ c. SameProducer w.out c.out)) }
        ensures from { IfSome N.work (λ w. IfOk result (λ c. SameConsumer w.from c.from)) }
        ensures sound { IfSome N.work (λ w.
            IfOk result (λ c. IsSound w.caller.of.settings c.knows)) }
        ensures followed { IfSome N.work (λ w. IfOk result (λ c. FarFollows script.now.lines
            w.caller c.caller w.knows c.knows (sent w.out) (sent c.out)
            (received w.from) (received c.from))) }
    {
        let Carrying { start, was, handle } = self;
        let back = handle.join(rt);
        match take_back(start, back, was) {
            Ok(back) => back,
            Err(far) => carry_far(rt, alloc, server, script, far),
        }
    }
}

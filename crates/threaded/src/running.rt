//! Threads are started, get their work once all are there, and hand it back.

ghost use Rattle.std.specs.Prelude.{◌≡◌, ◌∷◌, [], IfErr, IfOk, Some};
ghost use Rattle.rtrb.specs.Ring.{IsPair, SameConsumer, SameProducer, received, sent};
ghost use Rattle.rs_wire.specs.declared.settings.Settings.{Settings};
ghost use Rattle.rs_wire.specs.declared.words.Side.TheVariants as sides;
ghost use Rattle.cable_script.specs.declared.line.Line.TheVariants as line;
ghost use Rattle.threaded_client.specs.Carrying.{IsCarrying as IsCarryingNear, IsSound as IsSoundNear};
ghost use Rattle.threaded_server.specs.Carrying.{IsCarrying, IsSound};
ghost use Rattle.threaded.specs.Threads.{AreShared, FarFollows, HasMade, IsOn, NearFollows};

use crate::asking::{Asked, start_asking};
use crate::far::{FarBack, start_carrying};
use crate::near::{NearBack, carry_near};
use cable_script::Script;
use conn::{Caller, Connection};
use ring::{Item, ROOM};
use rs_wire::Side;
use rtrb::{Consumer, Producer, RingBuffer};
use starts::Named;
use std::alloc::Global;
use std::marker::Brand;
use std::sync::Wait;
use std::thread;
use std::thread::{Scope, Threads};
use tape::Tape;
use threaded_client::ClientCarrier;
use threaded_server::ServerCarrier;

/// The callers of the two ends.
#[derive(Drop)]
pub(crate) struct Callers<T: Tape> {
    /// The client's, who carries.
    pub(crate) client_carries: Caller<T>,
    /// The client's, who asks.
    pub(crate) client_asks: Caller<T>,
    /// The server's, who carries.
    pub(crate) server_carries: Caller<T>,
    /// The server's, who asks.
    pub(crate) server_asks: Caller<T>,
}

/// The work of the four threads.
#[derive(Drop)]
struct Work<T: Tape> {
    near: ClientCarrier<T>,
    far: ServerCarrier<T>,
    client_asks: Caller<T>,
    server_asks: Caller<T>,
}

/// What the four threads share.
#[derive(Drop)]
struct Stage<'e, T: Tape> {
    alloc: Global,
    script: &'e Script,
    client: &'e Connection<T>,
    server: &'e Connection<T>,
}

/// What the four threads hand back.
#[derive(Drop)]
pub(crate) struct Returned<T: Tape> {
    /// The carrier of the client.
    pub(crate) near: NearBack<T>,
    /// The carrier of the server.
    pub(crate) far: FarBack<T>,
    /// Who asked at the client.
    pub(crate) client_asked: Asked<T>,
    /// Who asked at the server.
    pub(crate) server_asked: Asked<T>,
}

// Starts three threads more, and hands out the work once all are there. The work comes back where one
// can't be started: then none has acted.
fn run_in<
    's,
    'e: 's,
    T: Tape + Drop + Send + 'e,
    A: Named<Caller<T>> + Send + Sync + 'e,
    B: Named<Caller<T>> + Send + Sync + 'e,
    C: Named<ServerCarrier<T>> + Send + Sync + 'e,
    R: Threads + Wait + Sync + 'e,
>(
    scope: &Scope<'s, &'e ()>,
    rt: &'e R,
    stage: Stage<'e, T>,
    work: Work<T>,
) -> Result<Returned<T>, Work<T>>
    requires asks { A.work ≡ Some work.client_asks }
    requires other { B.work ≡ Some work.server_asks }
    requires carries { C.work ≡ Some work.far }
    requires near_of { work.near.caller.of ≡ stage.client.now }
    requires far_of { work.far.caller.of ≡ stage.server.now }
    requires asks_of { work.client_asks.of ≡ stage.client.now }
    requires other_of { work.server_asks.of ≡ stage.server.now }
    requires client { stage.client.now.settings.side ≡ sides.Client }
    requires server { stage.server.now.settings.side ≡ sides.Server }
    requires near_sound { IsSoundNear stage.client.now.settings work.near.conn work.near.pump }
    requires far_sound { IsSound stage.server.now.settings work.far.knows }
    ensures idle { IfErr result (λ w. w ≡ work) }
    ensures client_asked { IfOk result (λ b. HasMade sides.Client stage.entry.script.now.lines
        work.client_asks b.client_asked.caller b.client_asked.want) }
    ensures server_asked { IfOk result (λ b. HasMade sides.Server stage.entry.script.now.lines
        work.server_asks b.server_asked.caller b.server_asked.want) }
    ensures near_stopped { IfOk result (λ b. IfErr b.near (λ k. IsOn work.near.caller k)) }
    ensures near { IfOk result (λ b. IfOk b.near (λ c. IsOn work.near.caller c.caller
        × SameProducer work.near.out c.out × SameConsumer work.near.from c.from
        × IsSoundNear stage.entry.client.now.settings c.conn c.pump
        × NearFollows (line.Open ∷ stage.entry.script.now.lines) work.near.caller c.caller
        work.near.pump c.pump (sent work.near.out) (sent c.out)
        (received work.near.from) (received c.from))) }
    ensures far_stopped { IfOk result (λ b. IfErr b.far (λ k. IsOn work.far.caller k)) }
    ensures far { IfOk result (λ b. IfOk b.far (λ c. IsOn work.far.caller c.caller
        × SameProducer work.far.out c.out × SameConsumer work.far.from c.from
        × IsSound stage.entry.server.now.settings c.knows
        × FarFollows stage.entry.script.now.lines work.far.caller c.caller
        work.far.knows c.knows (sent work.far.out) (sent c.out)
        (received work.far.from) (received c.from))) }
{
    let Stage {
        alloc,
        script,
        client,
        server,
    } = stage;
    let Some(mut asking) = start_asking::<T, A, R>(scope, rt, alloc, client, Side::Client, script)
    else {
        return Err(work);
    };
    let Some(mut other) = start_asking::<T, B, R>(scope, rt, alloc, server, Side::Server, script)
    else {
        return Err(work);
    };
    let Some(mut carrying) = start_carrying::<T, C, R>(scope, rt, alloc, server, script) else {
        return Err(work);
    };
    let Work {
        mut near,
        far,
        client_asks,
        server_asks,
    } = work;
    let opened = near.open(rt, alloc, client);
    asking.hand(client_asks);
    other.hand(server_asks);
    carrying.hand(far);
    let near = carry_near(rt, alloc, client, script, near, opened);
    let client_asked = asking.take(rt, alloc, client, Side::Client, script);
    let server_asked = other.take(rt, alloc, server, Side::Server, script);
    let far = carrying.take(rt, alloc, server, script);
    Ok(Returned {
        near,
        far,
        client_asked,
        server_asked,
    })
}

// The same in a scope of its own.
fn run_named<
    'e,
    T: Tape + Drop + Send,
    A: Named<Caller<T>> + Send + Sync,
    B: Named<Caller<T>> + Send + Sync,
    C: Named<ServerCarrier<T>> + Send + Sync,
    R: Threads + Wait + Sync,
>(
    rt: &'e R,
    alloc: Global,
    script: &'e Script,
    client: &'e Connection<T>,
    server: &'e Connection<T>,
    work: Work<T>,
) -> Result<Returned<T>, Work<T>>
    requires asks { A.work ≡ Some work.client_asks }
    requires other { B.work ≡ Some work.server_asks }
    requires carries { C.work ≡ Some work.far }
    requires near_of { work.near.caller.of ≡ client.now }
    requires far_of { work.far.caller.of ≡ server.now }
    requires asks_of { work.client_asks.of ≡ client.now }
    requires other_of { work.server_asks.of ≡ server.now }
    requires client { client.now.settings.side ≡ sides.Client }
    requires server { server.now.settings.side ≡ sides.Server }
    requires near_sound { IsSoundNear client.now.settings work.near.conn work.near.pump }
    requires far_sound { IsSound server.now.settings work.far.knows }
    ensures idle { IfErr result (λ w. w ≡ work) }
    ensures client_asked { IfOk result (λ b. HasMade sides.Client script.now.lines
        work.client_asks b.client_asked.caller b.client_asked.want) }
    ensures server_asked { IfOk result (λ b. HasMade sides.Server script.now.lines
        work.server_asks b.server_asked.caller b.server_asked.want) }
    ensures near_stopped { IfOk result (λ b. IfErr b.near (λ k. IsOn work.near.caller k)) }
    ensures near { IfOk result (λ b. IfOk b.near (λ c. IsOn work.near.caller c.caller
        × SameProducer work.near.out c.out × SameConsumer work.near.from c.from
        × IsSoundNear client.now.settings c.conn c.pump
        × NearFollows (line.Open ∷ script.now.lines) work.near.caller c.caller work.near.pump c.pump
        (sent work.near.out) (sent c.out) (received work.near.from) (received c.from))) }
    ensures far_stopped { IfOk result (λ b. IfErr b.far (λ k. IsOn work.far.caller k)) }
    ensures far { IfOk result (λ b. IfOk b.far (λ c. IsOn work.far.caller c.caller
        × SameProducer work.far.out c.out × SameConsumer work.far.from c.from
        × IsSound server.now.settings c.knows
        × FarFollows script.now.lines work.far.caller c.caller work.far.knows c.knows
        (sent work.far.out) (sent c.out) (received work.far.from) (received c.from))) }
{
    let stage = Stage {
        alloc,
        script,
        client,
        server,
    };
    thread::scope(
        thread::scope_env(),
        rt,
        move |scope| -> Result<Returned<T>, Work<T>>
            requires { (A.work ≡ Some work.client_asks) × (B.work ≡ Some work.server_asks)
                × (C.work ≡ Some work.far) × (work.near.caller.of ≡ stage.client.now)
                × (work.far.caller.of ≡ stage.server.now)
                × (work.client_asks.of ≡ stage.client.now)
                × (work.server_asks.of ≡ stage.server.now)
                × (stage.client.now.settings.side ≡ sides.Client)
                × (stage.server.now.settings.side ≡ sides.Server)
                × IsSoundNear stage.client.now.settings work.near.conn work.near.pump
                × IsSound stage.server.now.settings work.far.knows }
            ensures { IfErr result (λ w. w ≡ work)
                × IfOk result (λ b. HasMade sides.Client stage.entry.script.now.lines
                work.client_asks b.client_asked.caller b.client_asked.want)
                × IfOk result (λ b. HasMade sides.Server stage.entry.script.now.lines
                work.server_asks b.server_asked.caller b.server_asked.want)
                × IfOk result (λ b. IfErr b.near (λ k. IsOn work.near.caller k))
                × IfOk result (λ b. IfOk b.near (λ c. IsOn work.near.caller c.caller
                × SameProducer work.near.out c.out × SameConsumer work.near.from c.from
                × IsSoundNear stage.entry.client.now.settings c.conn c.pump
                × NearFollows (line.Open ∷ stage.entry.script.now.lines) work.near.caller c.caller
                work.near.pump c.pump (sent work.near.out) (sent c.out)
                (received work.near.from) (received c.from)))
                × IfOk result (λ b. IfErr b.far (λ k. IsOn work.far.caller k))
                × IfOk result (λ b. IfOk b.far (λ c. IsOn work.far.caller c.caller
                × SameProducer work.far.out c.out × SameConsumer work.far.from c.from
                × IsSound stage.entry.server.now.settings c.knows
                × FarFollows stage.entry.script.now.lines work.far.caller c.caller
                work.far.knows c.knows (sent work.far.out) (sent c.out)
                (received work.far.from) (received c.from))) }
        { run_in::<T, A, B, C, R>(scope, rt, stage, work) },
    )
}

// The callers, where no thread has acted.
fn callers_of<T: Tape + Drop>(work: Work<T>) -> Callers<T>
    ensures client_carries { result.client_carries ≡ work.near.caller }
    ensures client_asks { result.client_asks ≡ work.client_asks }
    ensures server_carries { result.server_carries ≡ work.far.caller }
    ensures server_asks { result.server_asks ≡ work.server_asks }
{
    let Work {
        near,
        far,
        client_asks,
        server_asks,
    } = work;
    let ClientCarrier {
        caller: client_carries,
        ..
    } = near;
    let ServerCarrier {
        caller: server_carries,
        ..
    } = far;
    Callers {
        client_carries,
        client_asks,
        server_carries,
        server_asks,
    }
}

// The carrier of the client, of which nothing happened yet.
fn begin_near<T: Tape>(
    caller: Caller<T>,
    out: Producer<Item>,
    from: Consumer<Item>,
) -> ClientCarrier<T>
    requires caller { caller.front ≡ [] }
    requires out { sent out ≡ [] }
    requires from { received from ≡ [] }
    ensures caller { result.caller ≡ caller }
    ensures out { result.out ≡ out }
    ensures from { result.from ≡ from }
    ensures sound { (g : Settings) → IsSoundNear g result.conn result.pump }
    ensures begun { IsCarryingNear result.caller [] result.pump
        (sent result.out) (received result.from) }
{
    ClientCarrier::new(caller, out, from)
}

// The carrier of the server.
fn begin_far<T: Tape>(
    alloc: Global,
    server: &Connection<T>,
    caller: Caller<T>,
    out: Producer<Item>,
    from: Consumer<Item>,
) -> ServerCarrier<T>
    requires caller { caller.front ≡ [] }
    requires out { sent out ≡ [] }
    requires from { received from ≡ [] }
    ensures caller { result.caller ≡ caller }
    ensures out { result.out ≡ out }
    ensures from { result.from ≡ from }
    ensures sound { IsSound server.now.settings result.knows }
    ensures begun { IsCarrying result.caller [] result.knows
        (sent result.out) (received result.from) }
{
    ServerCarrier::new(alloc, server, caller, out, from)
}

// The work of the four threads: two carriers, with the ends of two rings, and two who ask. The callers
// come back where memory ran out.
fn ready<T: Tape + Drop>(
    alloc: Global,
    server: &Connection<T>,
    callers: Callers<T>,
) -> Result<Work<T>, Callers<T>>
    requires near { callers.client_carries.front ≡ [] }
    requires far { callers.server_carries.front ≡ [] }
    ensures idle { IfErr result (λ c. c ≡ callers) }
    ensures near_caller { IfOk result (λ w. w.near.caller ≡ callers.client_carries) }
    ensures far_caller { IfOk result (λ w. w.far.caller ≡ callers.server_carries) }
    ensures client_asks { IfOk result (λ w. w.client_asks ≡ callers.client_asks) }
    ensures server_asks { IfOk result (λ w. w.server_asks ≡ callers.server_asks) }
    ensures near_sound { IfOk result (λ w. (g : Settings) →
        IsSoundNear g w.near.conn w.near.pump) }
    ensures far_sound { IfOk result (λ w. IsSound server.now.settings w.far.knows) }
    ensures near { IfOk result (λ w. IsCarryingNear w.near.caller [] w.near.pump
        (sent w.near.out) (received w.near.from)) }
    ensures far { IfOk result (λ w. IsCarrying w.far.caller [] w.far.knows
        (sent w.far.out) (received w.far.from)) }

    // The two carriers have the ends of the same rings.
    ensures up { IfOk result (λ w. IsPair w.near.out w.far.from) }
    ensures down { IfOk result (λ w. IsPair w.far.out w.near.from) }
{
    let Ok((up, read_up)) = RingBuffer::<Item>::new(alloc, ROOM) else {
        return Err(callers);
    };
    let Ok((down, read_down)) = RingBuffer::<Item>::new(alloc, ROOM) else {
        return Err(callers);
    };
    let Callers {
        client_carries,
        client_asks,
        server_carries,
        server_asks,
    } = callers;
    let near = begin_near(client_carries, up, read_down);
    let far = begin_far(alloc, server, server_carries, down, read_up);
    Ok(Work {
        near,
        far,
        client_asks,
        server_asks,
    })
}

/// Runs the lines by four threads, this one among them. The callers come back where a thread can't be
/// started, or memory runs out before: then none has acted.
pub(crate) fn run<T: Tape + Drop + Send, R: Threads + Wait + Sync>(
    rt: &R,
    alloc: Global,
    script: &Script,
    client: &Connection<T>,
    server: &Connection<T>,
    callers: Callers<T>,
) -> Result<Returned<T>, Callers<T>>
    requires client_shared { AreShared client.now callers.client_carries callers.client_asks }
    requires server_shared { AreShared server.now callers.server_carries callers.server_asks }
    requires client { client.now.settings.side ≡ sides.Client }
    requires server { server.now.settings.side ≡ sides.Server }
    ensures idle { IfErr result (λ c. c ≡ callers) }
    ensures client_asked { IfOk result (λ b. HasMade sides.Client script.now.lines
        callers.client_asks b.client_asked.caller b.client_asked.want) }
    ensures server_asked { IfOk result (λ b. HasMade sides.Server script.now.lines
        callers.server_asks b.server_asked.caller b.server_asked.want) }
    ensures near_stopped { IfOk result (λ b. IfErr b.near (λ k. IsOn callers.client_carries k)) }
    ensures near_same { IfOk result (λ b.
        IfOk b.near (λ c. IsOn callers.client_carries c.caller)) }
    ensures near_sound { IfOk result (λ b.
        IfOk b.near (λ c. IsSoundNear client.now.settings c.conn c.pump)) }
    ensures near { IfOk result (λ b. IfOk b.near (λ c. IsCarryingNear c.caller
        (line.Open ∷ script.now.lines) c.pump (sent c.out) (received c.from))) }
    ensures far_stopped { IfOk result (λ b. IfErr b.far (λ k. IsOn callers.server_carries k)) }
    ensures far_same { IfOk result (λ b.
        IfOk b.far (λ c. IsOn callers.server_carries c.caller)) }
    ensures far_sound { IfOk result (λ b.
        IfOk b.far (λ c. IsSound server.now.settings c.knows)) }
    ensures far { IfOk result (λ b. IfOk b.far (λ c. IsCarrying c.caller
        script.now.lines c.knows (sent c.out) (received c.from))) }

    // The two carriers have the ends of the same rings.
    ensures up { IfOk result (λ b. IfOk b.near (λ n. IfOk b.far (λ f. IsPair n.out f.from))) }
    ensures down { IfOk result (λ b. IfOk b.near (λ n. IfOk b.far (λ f. IsPair f.out n.from))) }
{
    let work = ready(alloc, server, callers)?;
    match run_named::<T, Brand, Brand, Brand, R>(rt, alloc, script, client, server, work) {
        Ok(returned) => Ok(returned),
        Err(work) => Err(callers_of(work)),
    }
}

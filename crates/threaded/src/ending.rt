//! What the threads handed back is brought to its end.

ghost use Rattle.std.specs.Prelude.{◌≡◌, false, List, IfErr, IfOk, Ok};
ghost use Rattle.rtrb.specs.Ring.{IsPair, received, sent};
ghost use Rattle.rs_wire.specs.Settings.{IsChecked};
ghost use Rattle.rs_wire.specs.declared.words.Side.TheVariants.{Client, Server};
ghost use Rattle.cable_script.specs.declared.line.Line.{Line};
ghost use Rattle.threaded_model.specs.Threaded.{Threaded};
ghost use Rattle.threaded_client.specs.Carrying.{IsSound as IsSoundNear};
ghost use Rattle.threaded_server.specs.Carrying.{IsSound};
ghost use Rattle.threaded.specs.Threads.{AreParts, FarHands, NearHands};

use crate::asking::Asked;
use crate::far::FarBack;
use crate::running::Returned;
use cable::Ran;
use conn::{Caller, Connection};
use ring::Stop;
use session_core::Session;
use std::alloc::Global;
use std::sync::Wait;
use tape::Tape;
use threaded_client::ClientCarrier;
use threaded_drain::{settle, shut, unshare};
use threaded_server::ServerCarrier;

// The session of a connection whose carrier and asker have come back.
fn part<T: Tape + Drop>(
    connection: Connection<T>,
    carrier: Caller<T>,
    asker: Caller<T>,
) -> Session<T>
    requires { AreParts connection carrier asker }
    ensures settings { result.settings ≡ connection.settings }
    ensures tells { result.tells ≡ connection.tells }
{
    unshare(connection, carrier, asker)
}

// The same of the server, whose carrier came back whole, or stopped.
fn part_far<T: Tape + Drop>(server: Connection<T>, far: FarBack<T>, asker: Caller<T>) -> Session<T>
    requires whole { IfOk far (λ c. AreParts server c.caller asker) }
    requires stopped { IfErr far (λ k. AreParts server k asker) }
    ensures settings { result.settings ≡ server.settings }
    ensures tells { result.tells ≡ server.tells }
{
    match far {
        Ok(far) => part(server, far.caller, asker),
        Err(caller) => part(server, caller, asker),
    }
}

// Whether the run has stopped early: an asker ran out of memory, or what was left did not cross.
fn has_stopped(client_want: bool, server_want: bool, settled: &Result<(), Stop>) -> bool
    ensures { result ≡ false →
        (client_want ≡ false) × (server_want ≡ false) × (settled.now ≡ Ok tt) }
{
    client_want || server_want || settled.is_err()
}

// Joins the callers of each end, lets cross what is left, and closes both ends.
fn gather<T: Tape + Drop, R: Wait>(
    rt: &R,
    alloc: Global,
    client: Connection<T>,
    near: ClientCarrier<T>,
    client_asked: Asked<T>,
    server: Connection<T>,
    far: ServerCarrier<T>,
    server_asked: Asked<T>,
) -> Ran<T>
    requires near { AreParts client near.caller client_asked.caller }
    requires far { AreParts server far.caller server_asked.caller }
    requires near_sound { IsSoundNear client.settings near.conn near.pump }
    requires far_sound { IsSound server.settings far.knows }
    requires server { server.settings.side ≡ Server }
    requires up { IsPair near.out far.from }
    requires down { IsPair far.out near.from }
    ensures client_settings { result.client.settings ≡ client.settings }
    ensures client_tells { result.client.tells ≡ client.tells }
    ensures server_settings { result.server.settings ≡ server.settings }
    ensures server_tells { result.server.tells ≡ server.tells }
    ensures played { (lines : List Line) → client.settings.side ≡ Client →
        IsChecked client.settings → IsChecked server.settings →
        NearHands lines client client_asked.caller client_asked.want near.caller near.pump
        (sent near.out) (received near.from) →
        FarHands lines server server_asked.caller server_asked.want far.caller far.knows
        (sent far.out) (received far.from) → result.want ≡ false →
        Threaded client.settings server.settings lines result.client.entries
        result.server.entries }
{
    let mut near = near;
    let mut far = far;
    let client_want = client_asked.want;
    let server_want = server_asked.want;
    client.join(&mut near.caller, client_asked.caller);
    server.join(&mut far.caller, server_asked.caller);
    let settled = settle(rt, alloc, &client, &mut near, &server, &mut far);
    let (client, server) = shut(client, near, server, far);
    client.legal();
    server.legal();
    let want = has_stopped(client_want, server_want, &settled);
    Ran {
        client,
        server,
        want,
    }
}

// The two ends, where the client's carrier came through.
fn finish_near<T: Tape + Drop, R: Wait>(
    rt: &R,
    alloc: Global,
    client: Connection<T>,
    near: ClientCarrier<T>,
    client_asked: Asked<T>,
    server: Connection<T>,
    far: FarBack<T>,
    server_asked: Asked<T>,
) -> Ran<T>
    requires near { AreParts client near.caller client_asked.caller }
    requires near_sound { IsSoundNear client.settings near.conn near.pump }
    requires far { IfOk far (λ c. AreParts server c.caller server_asked.caller) }
    requires far_stopped { IfErr far (λ k. AreParts server k server_asked.caller) }
    requires far_sound { IfOk far (λ c. IsSound server.settings c.knows) }
    requires server { server.settings.side ≡ Server }
    requires up { IfOk far (λ f. IsPair near.out f.from) }
    requires down { IfOk far (λ f. IsPair f.out near.from) }
    ensures client_settings { result.client.settings ≡ client.settings }
    ensures client_tells { result.client.tells ≡ client.tells }
    ensures server_settings { result.server.settings ≡ server.settings }
    ensures server_tells { result.server.tells ≡ server.tells }
    ensures played { (lines : List Line) → client.settings.side ≡ Client →
        IsChecked client.settings → IsChecked server.settings →
        NearHands lines client client_asked.caller client_asked.want near.caller near.pump
        (sent near.out) (received near.from) →
        IfOk far (λ c. FarHands lines server server_asked.caller server_asked.want c.caller
        c.knows (sent c.out) (received c.from)) → result.want ≡ false →
        Threaded client.settings server.settings lines result.client.entries
        result.server.entries }
{
    match far {
        Ok(far) => {
            gather(
                rt,
                alloc,
                client,
                near,
                client_asked,
                server,
                far,
                server_asked,
            )
        }
        Err(caller) => Ran {
            client: part(client, near.caller, client_asked.caller),
            server: part(server, caller, server_asked.caller),
            want: true,
        },
    }
}

/// The two ends after a run by threads: joined and closed, with all that was left crossed, where no
/// thread ran out of memory.
pub(crate) fn finish<T: Tape + Drop, R: Wait>(
    rt: &R,
    alloc: Global,
    client: Connection<T>,
    server: Connection<T>,
    returned: Returned<T>,
) -> Ran<T>
    requires near { IfOk returned.near (λ c.
        AreParts client c.caller returned.client_asked.caller) }
    requires near_stopped { IfErr returned.near (λ k.
        AreParts client k returned.client_asked.caller) }
    requires near_sound { IfOk returned.near (λ c. IsSoundNear client.settings c.conn c.pump) }
    requires far { IfOk returned.far (λ c.
        AreParts server c.caller returned.server_asked.caller) }
    requires far_stopped { IfErr returned.far (λ k.
        AreParts server k returned.server_asked.caller) }
    requires far_sound { IfOk returned.far (λ c. IsSound server.settings c.knows) }
    requires server { server.settings.side ≡ Server }
    requires up { IfOk returned.near (λ n. IfOk returned.far (λ f. IsPair n.out f.from)) }
    requires down { IfOk returned.near (λ n. IfOk returned.far (λ f. IsPair f.out n.from)) }
    ensures client_settings { result.client.settings ≡ client.settings }
    ensures client_tells { result.client.tells ≡ client.tells }
    ensures server_settings { result.server.settings ≡ server.settings }
    ensures server_tells { result.server.tells ≡ server.tells }
    ensures played { (lines : List Line) → client.settings.side ≡ Client →
        IsChecked client.settings → IsChecked server.settings →
        IfOk returned.near (λ c. NearHands lines client returned.client_asked.caller
        returned.client_asked.want c.caller c.pump (sent c.out) (received c.from)) →
        IfOk returned.far (λ c. FarHands lines server returned.server_asked.caller
        returned.server_asked.want c.caller c.knows (sent c.out) (received c.from)) →
        result.want ≡ false → Threaded client.settings server.settings lines
        result.client.entries result.server.entries }
{
    let Returned {
        near,
        far,
        client_asked,
        server_asked,
    } = returned;
    match near {
        Ok(near) => {
            finish_near(
                rt,
                alloc,
                client,
                near,
                client_asked,
                server,
                far,
                server_asked,
            )
        }
        Err(caller) => Ran {
            client: part(client, caller, client_asked.caller),
            server: part_far(server, far, server_asked.caller),
            want: true,
        },
    }
}

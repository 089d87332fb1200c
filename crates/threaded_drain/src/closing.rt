//! Both ends of a script are closed.

ghost use Rattle.std.specs.Prelude.{◌≡◌, ◌+◌, ℕ};
ghost use Rattle.rtrb.specs.Ring.{IsPair, received, sent};
ghost use Rattle.ring.specs.Parts.{IsEnded, IsFinished};
ghost use Rattle.conn_lock.specs.Callers.{all_parts, calls, longer, times};
ghost use Rattle.conn_shared.specs.Lines.{who_of};

use conn::{Caller, Connection};
use ring::compare;
use session_core::Session;
use tape::Tape;
use threaded_client::ClientCarrier;
use threaded_server::ServerCarrier;

/// The session of a connection whose one caller has all parts.
pub fn close<T: Tape + Drop>(connection: Connection<T>, caller: Caller<T>) -> Session<T>
    requires of { caller.of ≡ connection }
    requires all { caller.parts ≡ all_parts }
    ensures entries { result.entries ≡ caller.front }
    ensures settings { result.settings ≡ connection.settings }
    ensures tells { result.tells ≡ connection.tells }

    // Each entry carries one of the caller's names.
    ensures named { (x : ℕ) → times x caller.names ≡ 0 → calls who_of x caller.front ≡ 0 }
{
    match connection.close(caller) {
        Ok(session) => session,
        Err(_) => unreachable!(),
    }
}

/// The session of a connection whose two callers have all parts: its entries are the longer of what the
/// two have seen.
pub fn unshare<T: Tape + Drop>(
    connection: Connection<T>,
    caller: Caller<T>,
    other: Caller<T>,
) -> Session<T>
    requires first { caller.of ≡ connection }
    requires second { other.of ≡ connection }
    requires all { caller.parts + other.parts ≡ all_parts }
    ensures entries { result.entries ≡ longer caller.front other.front }
    ensures settings { result.settings ≡ connection.settings }
    ensures tells { result.tells ≡ connection.tells }
{
    let mut caller = caller;
    connection.join(&mut caller, other);
    close(connection, caller)
}

/// Compares what was read from each ring with what was pushed, and closes both connections: the
/// client's session and the server's.
pub fn shut<T: Tape + Drop>(
    client: Connection<T>,
    near: ClientCarrier<T>,
    server: Connection<T>,
    far: ServerCarrier<T>,
) -> (Session<T>, Session<T>)
    requires near_of { near.caller.of ≡ client }
    requires far_of { far.caller.of ≡ server }
    requires near_all { near.caller.parts ≡ all_parts }
    requires far_all { far.caller.parts ≡ all_parts }
    requires up { IsPair near.out far.from }
    requires down { IsPair far.out near.from }
    ensures client_entries { result.0.entries ≡ near.caller.front }
    ensures client_settings { result.0.settings ≡ client.settings }
    ensures client_tells { result.0.tells ≡ client.tells }
    ensures server_entries { result.1.entries ≡ far.caller.front }
    ensures server_settings { result.1.settings ≡ server.settings }
    ensures server_tells { result.1.tells ≡ server.tells }

    // Each entry carries one of its caller's names.
    ensures client_named { (x : ℕ) → times x near.caller.names ≡ 0 →
        calls who_of x near.caller.front ≡ 0 }
    ensures server_named { (x : ℕ) → times x far.caller.names ≡ 0 →
        calls who_of x far.caller.front ≡ 0 }

    // Where both ends of a ring said that the script is over, all that was pushed was read.
    ensures all_up { IsEnded (sent near.out) → IsFinished (received far.from) →
        received far.from ≡ sent near.out }
    ensures all_down { IsEnded (sent far.out) → IsFinished (received near.from) →
        received near.from ≡ sent far.out }
{
    let ClientCarrier {
        caller: near_caller,
        out: mut up,
        from: mut read_down,
        ..
    } = near;
    let ServerCarrier {
        caller: far_caller,
        out: mut down,
        from: mut read_up,
        ..
    } = far;
    compare(&mut up, &mut read_up);
    compare(&mut down, &mut read_down);
    (close(client, near_caller), close(server, far_caller))
}

//! A session that two callers share.

ghost use Rattle.std.specs.Prelude.{◌≡◌, [], IfErr, IfOk};
ghost use Rattle.conn_shared.specs.Members.{first_member};
ghost use Rattle.threaded.specs.Threads.{AreShared};

use conn::{Caller, Connection};
use rs_wire::OutOfMemory;
use session_core::Session;
use std::alloc::Global;
use std::sync::Wait;
use tape::Tape;
use threaded_drain::close;

/// One end: its connection, the one who carries there, and the one who asks.
#[derive(Drop)]
pub(crate) struct End<T: Tape> {
    /// The connection.
    pub(crate) connection: Connection<T>,
    /// The caller of the carrier.
    pub(crate) carrier: Caller<T>,
    /// The caller of the asker.
    pub(crate) asker: Caller<T>,
}

// Splits the asker off. The session comes back where that was refused.
fn split_off<T: Tape + Drop, R: Wait>(
    rt: &R,
    connection: Connection<T>,
    first: Caller<T>,
) -> Result<End<T>, Session<T>>
    requires { first ≡ first_member connection }
    ensures connection { IfOk result (λ e. e.connection ≡ connection) }
    ensures shared { IfOk result (λ e. AreShared connection e.carrier e.asker) }
    ensures kept { IfErr result (λ s. (s.entries ≡ []) × (s.settings ≡ connection.settings)
        × (s.tells ≡ connection.tells)) }
{
    let mut carrier = first;
    match connection.split(rt, &mut carrier) {
        Ok(asker) => Ok(End {
            connection,
            carrier,
            asker,
        }),
        Err(_) => Err(close(connection, carrier)),
    }
}

/// A session of which nothing happened yet, shared by two callers. It comes back where memory ran out.
pub(crate) fn share<T: Tape + Drop, R: Wait>(
    rt: &R,
    alloc: Global,
    session: Session<T>,
) -> Result<End<T>, Session<T>>
    requires { session.entries ≡ [] }
    ensures settings { IfOk result (λ e. e.connection.settings ≡ session.settings) }
    ensures tells { IfOk result (λ e. e.connection.tells ≡ session.tells) }
    ensures shared { IfOk result (λ e. AreShared e.connection e.carrier e.asker) }
    ensures kept { IfErr result (λ s. (s.entries ≡ []) × (s.settings ≡ session.settings)
        × (s.tells ≡ session.tells)) }
{
    match Connection::new(alloc, session) {
        Ok((connection, first)) => split_off(rt, connection, first),
        Err((session, OutOfMemory)) => Err(session),
    }
}

//! New sessions and connections, with the defaults of their side, or with those and resumption.

ghost use Rattle.std.specs.Prelude.{◌≡◌, IfOk, []};
ghost use Rattle.conn_lock.specs.Callers.{all_parts};

use anyhow::Result;
use conn::{Caller, Connection};
use rs_wire::{Blob, Checked, Settings, Side, check};
use session_core::Session;
use std::alloc::Global;
use tape::{Blank, Tape};

/// The token by which a session is resumed.
const TOKEN: &[u8] = b"tok1";

// The token of a side: a client's, where it agrees to resumption. It stands in SETUP, and a server has
// none of its own.
fn token(side: Side, resumes: bool) -> &'static [u8] {
    match side {
        Side::Client if resumes => TOKEN,
        _ => &[],
    }
}

// The defaults of a side, which agrees to resumption or not.
fn settings(alloc: Global, side: Side, resumes: bool) -> Result<Checked>
    ensures { IfOk result (λ s. s.side ≡ side) }
{
    let token = Blob::from_slice(alloc, token(side, resumes))?;
    let mut settings = Settings::usual(alloc, side)?;
    settings.resume = resumes;
    settings.token = token;
    match check(settings) {
        Ok(settings) => Ok(settings),
        Err((settings, fault)) => {
            drop(settings);
            Err(fault.into())
        }
    }
}

/// A session at which nothing happened yet, with a tape that only counts what happens.
pub fn new_session(alloc: Global, side: Side, resumes: bool) -> Result<Session<Blank>>
    ensures side { IfOk result (λ s. s.settings.side ≡ side) }
    ensures entries { IfOk result (λ s. s.entries ≡ []) }
{
    match Session::new(alloc, settings(alloc, side, resumes)?, Blank::new()) {
        Ok(session) => Ok(session),
        Err((_, error)) => Err(error.into()),
    }
}

/// One that its callers share, and the first of them.
pub fn new_connection(
    alloc: Global,
    side: Side,
    resumes: bool,
) -> Result<(Connection<Blank>, Caller<Blank>)>
    ensures of { IfOk result (λ r. r.1.of ≡ r.0) }
    ensures whole { IfOk result (λ r. r.1.parts ≡ all_parts) }
    ensures side { IfOk result (λ r. r.0.settings.side ≡ side) }
{
    match Connection::new(alloc, new_session(alloc, side, resumes)?) {
        Ok(made) => Ok(made),
        Err((session, error)) => {
            session.into_tape();
            Err(error.into())
        }
    }
}

/// How many entries a session has, once its one caller closes it. Each connection ends so: one that is
/// let go is dear to prove.
pub fn close(connection: Connection<Blank>, caller: Caller<Blank>) -> u64
    requires of { caller.of ≡ connection }
    requires whole { caller.parts ≡ all_parts }
{
    match connection.close(caller) {
        Ok(session) => session.into_tape().count(),
        Err(_) => unreachable!(),
    }
}

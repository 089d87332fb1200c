//! The session of a call, of which nothing happened yet.

ghost use Rattle.std.specs.Prelude.{◌≡◌, ◌+◌, [], IfErr, IfOk, OnErr, OnOk, is_some};
ghost use Rattle.rs_wire.specs.Settings.{IsChecked};
ghost use Rattle.session_core.specs.Seen.{told_by};
ghost use Rattle.conn_shared.specs.Members.{first_member};
ghost use Rattle.rsocket_call.specs.Called.{settings_for, token_of};
ghost use Rattle.rsocket_call.specs.Ended.{GotSome};

use command_line::CallTask;
use conn::{Caller, Connection};
use rs_wire::{Blob, Checked, OutOfMemory, Settings, Side, check};
use session_core::Session;
use std::alloc::Global;
use tape::{Shelf, Tape};

// The token of a session that resumes, and no byte where it does not.
fn token(alloc: Global, task: &CallTask) -> Result<Blob, OutOfMemory>
    ensures { IfOk result (λ b. b ≡ token_of task.now.token) }
{
    match &task.token {
        Some(token) => token.copy(alloc),
        None => Ok(Blob::from_vec(Vec::new(alloc))),
    }
}

// The settings of the client of a call. They are right, as the words are; out of memory where not.
fn settings(alloc: Global, task: &CallTask) -> Result<Checked, OutOfMemory>
    ensures is { IfOk result (λ s. s ≡ settings_for task.now) }
    ensures checked { IfOk result (λ s. IsChecked s) }
{
    let mut settings = Settings::usual(alloc, Side::Client)?;
    settings.lease = task.lease;
    settings.resume = task.token.is_some();
    settings.token = token(alloc, task)?;
    match check(settings) {
        Ok(settings) => Ok(settings),
        Err(_) => Err(OutOfMemory),
    }
}

// The session, which is shared from now on; or its tape.
fn share<T: Tape>(
    alloc: Global,
    settings: Checked,
    tape: T,
) -> Result<(Connection<T>, Caller<T>), T>
    requires checked { IsChecked settings }
    requires empty { T.count tape ≡ 0 }
    ensures settings { IfOk result (λ r. r.0.settings ≡ settings) }
    ensures tells { IfOk result (λ r. r.0.tells ≡ is_some (T.told tape)) }
    ensures first { IfOk result (λ r. r.1 ≡ first_member r.0) }
    ensures back { IfErr result (λ t. T.told t ≡ told_by (is_some (T.told tape)) []) }
{
    match Session::new(alloc, settings, tape) {
        Err((tape, OutOfMemory)) => Err(tape),
        Ok(session) => match Connection::new(alloc, session) {
            Ok(made) => Ok(made),
            Err((session, OutOfMemory)) => Err(session.into_tape()),
        },
    }
}

/// A client's connection, on a tape of the shelf, and its caller, which has all parts of it. Where
/// memory runs out, as many tapes are lent as before.
pub fn connect<H: Shelf>(
    alloc: Global,
    task: &CallTask,
    shelf: &mut H,
) -> Result<(Connection<H::Tape>, Caller<H::Tape>), OutOfMemory>
    ensures settings { IfOk result (λ r. r.0.settings ≡ settings_for task.now) }
    ensures tells { IfOk result (λ r. r.0.tells ≡ is_some H.fresh) }
    ensures first { IfOk result (λ r. r.1 ≡ first_member r.0) }
    ensures back { OnOk result (H.back shelf.new ≡ H.back shelf.old) }
    ensures lent { OnOk result (H.lent shelf.new ≡ H.lent shelf.old + 1) }
    ensures err { OnErr result (H.lent shelf.new ≡ H.lent shelf.old) }
    ensures got { OnErr result (GotSome (settings_for task.now) H.fresh
        (H.back shelf.old) (H.back shelf.new)) }
{
    let settings = settings(alloc, task)?;
    let tape = shelf.lend(Side::Client)?;
    match share(alloc, settings, tape) {
        Ok(made) => Ok(made),
        Err(tape) => {
            shelf.put_back(tape);
            Err(OutOfMemory)
        }
    }
}

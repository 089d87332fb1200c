//! A connection: a shared session with its bell.

ghost use Rattle.std.specs.Prelude.{◌≡◌, ◌≤◌, [], IfErr, IfOk};
ghost use Rattle.conn_shared.specs.Members.{first_member};

use crate::caller::Caller;
use bell::Bell;
use conn_shared::SharedSession;
use rs_wire::OutOfMemory;
use session_core::Session;
use std::alloc::Global;
use std::marker::Model;
use std::sync::Arc;
use tape::{Answer, Tape};

/// A session that threads share by reference. Contracts see which connection it is, its settings, and
/// whether the tape of its session shows its entries.
#[derive(Drop)]
pub struct Connection<T: Tape> {
    /// The session under its lock.
    pub(crate) shared: SharedSession<T>,
    /// How many bytes a frame that comes may have, of the session's settings.
    pub(crate) max_in: u32,
    /// Whether this end takes part in resumption, of the session's settings.
    pub(crate) resume: bool,
    /// It rings after each turn that left an entry for which somebody may wait. The link that hears
    /// it owns it, too.
    pub(crate) bell: Arc<Bell>,
}

impl<T: Tape> Model for Connection<T> {
    ghost use Rattle.std.specs.Prelude.{◌≡◌};
    ghost use Rattle.rs_wire.specs.Settings.{IsIn};
    ghost use Rattle.conn_shared.specs.Members.{SharedId};

    ghost Value = { SharedId };

    ghost view = { λ c. c.shared };

    ghost invariant = { λ c.
        (c.max_in ≡ c.shared.settings.max_in) × IsIn 64 c.max_in 16777215 ×
        (c.resume ≡ c.shared.settings.resume) };
}

impl<T: Tape> Connection<T> {
    /// A connection round a session of which nothing happened yet, and its first caller, with the
    /// number 0 and all 2^62 parts. The session comes back where there was no memory.
    pub fn new(
        alloc: Global,
        session: Session<T>,
    ) -> Result<(Connection<T>, Caller<T>), (Session<T>, OutOfMemory)>
        requires { session.entries ≡ [] }
        ensures settings { IfOk result (λ r. r.0.settings ≡ session.settings) }
        ensures tells { IfOk result (λ r. r.0.tells ≡ session.tells) }
        ensures first { IfOk result (λ r. r.1 ≡ first_member r.0) }
        ensures kept { IfErr result (λ r. r.0 ≡ session) }
    {
        let max_in = session.settings().settings().max_in;
        let resume = session.settings().settings().resume;
        let Ok(bell) = Arc::new(alloc, Bell::new()) else {
            return Err((session, OutOfMemory));
        };
        let (shared, member) = SharedSession::new(alloc, session)?;
        Ok((
            Connection {
                shared,
                max_in,
                resume,
                bell,
            },
            Caller {
                member: Some(member),
            },
        ))
    }

    /// How many bytes a frame that comes may have, from 64 to 16,777,215.
    pub fn max_in(&self) -> u32
        ensures value { result ≡ self.now.settings.max_in }
        ensures range { (64 ≤ result) × (result ≤ 16777215) }
    {
        self.max_in
    }

    /// Whether this end takes part in resumption, by its settings. A server's session is resumed
    /// only where its client asked for that in its SETUP, too (RSocket 1.0, "Resuming Operation").
    pub fn resumes(&self) -> bool
        ensures { result ≡ self.now.settings.resume }
    {
        self.resume
    }

    /// The bell, for a link to hear. It rings after each step, whoever made it, that left an entry
    /// other than a draw, a quiet moment or a refused call: there may be something to draw then.
    pub fn bell(&self) -> &Arc<Bell> {
        &self.bell
    }

    /// Rings where others may wait for what an event so answered left: also where the connection is
    /// parted or the peer counts as dead. Nobody waits for a draw, for a moment alone, or for a call
    /// that was refused, which changes nothing.
    #[inline(always)]
    pub(crate) fn announce(&self, answer: &Answer) {
        match answer {
            Answer::Drawn(_) | Answer::Quiet | Answer::Refused(_) => {}
            answer => {
                if answer.leaves_entry() {
                    self.bell.ring();
                }
            }
        }
    }
}

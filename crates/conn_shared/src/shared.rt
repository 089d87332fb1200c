//! A session that its members share.

ghost use Rattle.std.specs.Prelude.{◌≡◌, [], IfErr, IfOk};
ghost use Rattle.conn_shared.specs.Members.{first_member};

use crate::member::Member;
use crate::stored::Stored;
use conn_lock::Lock;
use rs_wire::OutOfMemory;
use session_core::Session;
use std::alloc::Global;
use std::marker::Model;
use std::snapshot::Snapshot;
use tape::Tape;

/// A session that its members share by reference. Contracts see which one it is, its settings, and
/// whether its tape shows its entries.
#[derive(Drop)]
pub struct SharedSession<T: Tape> {
    pub(crate) lock: Lock<Stored<T>>,
    /// Where a call is copied that can't be answered from its own parts.
    pub(crate) alloc: Global,
    /// The session as it was when it began, for contracts alone.
    pub(crate) began: Snapshot<Session<T>>,
}

impl<T: Tape> Model for SharedSession<T> {
    ghost use Rattle.conn_shared.specs.Members.{SharedId};

    ghost Value = { SharedId };

    ghost view = { λ s. record {
      lock = s.lock;
      settings = s.began.value.settings;
      tells = s.began.value.tells;
    } };
}

impl<T: Tape> SharedSession<T> {
    /// A session of which nothing happened yet, to be shared, and its first member, with the number 0
    /// and all 2^62 parts. The session comes back where there was no memory.
    pub fn new(
        alloc: Global,
        session: Session<T>,
    ) -> Result<(SharedSession<T>, Member<T>), (Session<T>, OutOfMemory)>
        requires { session.entries ≡ [] }
        ensures settings { IfOk result (λ r. r.0.settings ≡ session.settings) }
        ensures tells { IfOk result (λ r. r.0.tells ≡ session.tells) }
        ensures first { IfOk result (λ r. r.1 ≡ first_member r.0) }
        ensures kept { IfErr result (λ r. r.0 ≡ session) }
    {
        let began = Snapshot::of(&session);
        session.legal();
        let stored = match Stored::new(alloc, session) {
            Ok(stored) => stored,
            Err(session) => return Err((session, OutOfMemory)),
        };
        match Lock::new(alloc, stored) {
            Err((stored, why)) => Err((stored.into_session(), why)),
            Ok((lock, seat)) => {
                let shared = SharedSession { lock, alloc, began };
                Ok((shared, Member { seat }))
            }
        }
    }
}

//! The connections of new sessions.

ghost use Rattle.std.specs.Prelude.{◌≡◌, ◌+◌, ◌≤◌, [], ◌∷◌, ◌++◌, IfErr, OnErr, OnOk, length, vec_len, vec_capacity};
ghost use Rattle.conn_shared.specs.Members.{SharedId, first_member};
ghost use Rattle.serve_slots.specs.Callers.{AreFirst, HaveSettings};
ghost use Rattle.serve_slots.specs.Tapes.{AreUnused};

use conn::{Caller, Connection};
use rs_wire::{Checked, OutOfMemory, Side};
use session_core::Session;
use std::alloc::Global;
use tape::{Shelf, Tape};

// Makes the connection of the next slot, for which there is room. The tape comes back where memory
// runs out.
fn add_slot<T: Tape + Drop>(
    alloc: Global,
    settings: &Checked,
    tape: T,
    connections: &mut Vec<Connection<T>>,
    mains: &mut Vec<Caller<T>>,
) -> Result<(), T>
    requires empty { T.count tape ≡ 0 }
    requires connections { vec_len connections.old + 1 ≤ vec_capacity connections.old }
    requires mains { vec_len mains.old + 1 ≤ vec_capacity mains.old }
    ensures added { OnOk result ((id : SharedId) × (id.settings ≡ settings.now)
        × (connections.new.items ≡ connections.old.items ++ id ∷ [])
        × (mains.new.items ≡ mains.old.items ++ first_member id ∷ [])) }
    ensures empty { IfErr result (λ t. T.count t ≡ 0) }
    ensures same { OnErr result ((connections.new.items ≡ connections.old.items)
        × (mains.new.items ≡ mains.old.items)) }
    ensures connections { vec_capacity connections.new ≡ vec_capacity connections.old }
    ensures mains { vec_capacity mains.new ≡ vec_capacity mains.old }
{
    let Ok(settings) = settings.copy(alloc) else {
        return Err(tape);
    };
    let session = match Session::new(alloc, settings, tape) {
        Ok(session) => session,
        Err((tape, _)) => return Err(tape),
    };
    match Connection::new(alloc, session) {
        Ok((connection, main)) => {
            connections.push_reserved(connection);
            mains.push_reserved(main);
            Ok(())
        }
        Err((session, _)) => Err(session.into_tape()),
    }
}

/// Makes the connections of so many slots, each round a session with a tape of the shelf. Where memory
/// runs out those made so far stay, and a tape that none has is put back unused.
pub fn make_slots<H: Shelf>(
    alloc: Global,
    shelf: &mut H,
    settings: &Checked,
    many: usize,
    connections: &mut Vec<Connection<H::Tape>>,
    mains: &mut Vec<Caller<H::Tape>>,
) -> Result<(), OutOfMemory>
where
    H::Tape: Drop,
    requires connections { connections.old.items ≡ [] }
    requires mains { mains.old.items ≡ [] }
    ensures first { AreFirst connections.new.items mains.new.items }
    ensures settings { HaveSettings settings.now connections.new.items }
    ensures each { OnOk result (length connections.new.items ≡ many) }
    ensures few { length connections.new.items ≤ many }
    ensures lent { H.lent shelf.new ≡ H.lent shelf.old + length connections.new.items }
    ensures back { OnOk result (H.back shelf.new ≡ H.back shelf.old) }
    ensures unused { OnErr result (AreUnused (H.back shelf.old) (H.back shelf.new)) }
{
    connections.reserve(many)?;
    mains.reserve(many)?;
    for _ in 0..many {
        let tape = shelf.lend(Side::Server)?;
        if let Err(tape) = add_slot(alloc, settings, tape, connections, mains) {
            shelf.put_back(tape);
            return Err(OutOfMemory);
        }
    }
    Ok(())
}

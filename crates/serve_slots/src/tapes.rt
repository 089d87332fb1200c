//! The end of the sessions.

ghost use Rattle.std.specs.Prelude.{◌≡◌, ◌<◌, ◌≤◌, ◌+◌, ◌++◌, ◌∷◌, [], IfSome, length, reverse};
ghost use Rattle.std.specs.List.{AllByRecursion};
ghost use Rattle.serve_slots.specs.Callers.{AreCallersOf};
ghost use Rattle.serve_slots.specs.Tapes.{GotBackAs, HasAll, IsWhole, fronts_of};

use conn::{Caller, Connection};
use tape::Shelf;

// Closes the session of a slot, whose caller has all parts, and puts its tape back.
fn put_tape<H: Shelf>(shelf: &mut H, connection: Connection<H::Tape>, main: Caller<H::Tape>)
where
    H::Tape: Drop,
    requires of { main.of ≡ connection }
    requires parts { HasAll main }
    requires lent { 0 < H.lent shelf.old }
    ensures back { GotBackAs (main.front ∷ []) (H.back shelf.old) (H.back shelf.new) }
    ensures whole { IsWhole main }
    ensures lent { H.lent shelf.new + 1 ≡ H.lent shelf.old }
{
    main.legal();
    match connection.close(main) {
        Ok(session) => shelf.put_back(session.into_tape()),
        Err(_) => unreachable!(),
    }
}

// Puts the tapes back, that of the last slot first.
fn put_from_last<H: Shelf>(
    shelf: &mut H,
    connections: &mut Vec<Connection<H::Tape>>,
    mains: &mut Vec<Caller<H::Tape>>,
)
where
    H::Tape: Drop,
    requires of { AreCallersOf (reverse connections.old.items) (reverse mains.old.items) }
    requires parts { AllByRecursion HasAll (reverse mains.old.items) }
    requires lent { length (reverse mains.old.items) ≤ H.lent shelf.old }
    ensures back { GotBackAs (fronts_of (reverse mains.old.items)) (H.back shelf.old)
        (H.back shelf.new) }
    ensures whole { AllByRecursion IsWhole (reverse mains.old.items) }
    ensures lent { H.lent shelf.new + length (reverse mains.old.items) ≡ H.lent shelf.old }
{
    if let Some(connection) = connections.pop()
        && let Some(main) = mains.pop()
    {
        put_tape(shelf, connection, main);
        put_from_last(shelf, connections, mains);
    }
}

/// Closes each session, whose main caller has all parts, and puts the tapes back in the order of the
/// slots.
pub fn put_tapes<H: Shelf>(
    shelf: &mut H,
    connections: Vec<Connection<H::Tape>>,
    mains: Vec<Caller<H::Tape>>,
)
where
    H::Tape: Drop,
    requires of { AreCallersOf connections.items mains.items }
    requires parts { AllByRecursion HasAll mains.items }
    requires lent { length mains.items ≤ H.lent shelf.old }
    ensures back { GotBackAs (fronts_of mains.items) (H.back shelf.old) (H.back shelf.new) }
    // The entries of each tape are legal, and all are its main caller's, or of those it took in.
    ensures whole { AllByRecursion IsWhole mains.items }
    ensures lent { H.lent shelf.new + length mains.items ≡ H.lent shelf.old }
{
    let mut connections = connections;
    let mut mains = mains;
    connections.reverse();
    mains.reverse();
    put_from_last(shelf, &mut connections, &mut mains);
}

//! An opened connection, served to its end.

ghost use Rattle.std.specs.Prelude.{◌≡◌, ◌≢◌, ◌<◌, ◌^◌, ◌++◌, List, is_some};
ghost use Rattle.tape.specs.declared.entry.Entry.{Entry};
ghost use Rattle.outside.specs.Links.{NoneFell};
ghost use Rattle.session_model.specs.Legal.{Legal};
ghost use Rattle.rs_frame.specs.declared.frame.Frame.{Frame as Head};
ghost use Rattle.link_model.specs.Carrying.{Carried, IsAlone, IsFresh};
ghost use Rattle.link_model.specs.Leaving.{Left};
ghost use Rattle.link_laws.specs.Opened.{IsJustOpened};
ghost use Rattle.link_laws.specs.Staying.{IsHeld};
ghost use Rattle.pump.specs.Moves.{HasGrown};
ghost use Rattle.pump.specs.Turns.{GoesOn};
ghost use Rattle.server.specs.Attending.{AreFewTicks, AreRoutedIn, IsCut, KeepsWork};
ghost use Rattle.server.specs.Running.{AttendsSo, EndedFor, Leases, Ran, ended_by};

use crate::attending::attend;
use crate::host::{Begun, Host};
use crate::lost::{cut, note_dead};
use conn::{Caller, Connection};
use handlers::Handler;
use outside::{Clock, Link};
use pump::{Pump, Turned};
use rs_chunk::Reader;
use rs_wire::{Amount, Call};
use std::sync::Wait;
use tape::{Answer, Event, Tape};
use workers::Work;

/// How long a lease lasts that a server grants after an opening, in milliseconds.
pub(crate) const LEASE_MS: u32 = 60_000;

// What ends a connection at once whose lease was answered so.
fn ended_by(answer: &Answer) -> Option<Turned>
    ensures { result ≡ ended_by answer.now }
{
    match answer {
        Answer::TapeFull => Some(Turned::TapeFull),
        Answer::OutOfMemory => Some(Turned::OutOfMemory),
        _ => None,
    }
}

// Lets the client make this many requests, where it asked for leases: it is refused, and nothing is
// lost, where it did not. What ends the connection at once.
fn grant_lease<R: Wait, T: Tape>(
    rt: &R,
    connection: &Connection<T>,
    caller: &mut Caller<T>,
    grant: Option<Amount>,
) -> Option<Turned>
    requires of { caller.old.of ≡ connection.now }
    ensures same { caller.new ≡
        record caller.old { front = caller.new.front; note = caller.new.note } }
    ensures leases { Leases connection.now.settings grant caller.old caller.new.front result }
{
    let count = grant?;
    let ttl = Amount::of(LEASE_MS)?;
    let lease = Call::Lease {
        ttl,
        count,
        metadata: None,
    };
    let answer = connection.bring(rt, caller, Event::Asked(lease));
    let ended = ended_by(&answer);
    drop(answer);
    ended
}

// Grants, and moves bytes until the link or the session ends.
fn run<R: Wait, L: Link, T: Tape, K: Clock, F: Handler>(
    rt: &R,
    host: &Host<'_, T, K, F>,
    begun: &Begun<'_, T>,
    caller: &mut Caller<T>,
    link: &mut L,
    reader: Reader,
    jobs: &mut Option<Work>,
) -> Turned
    requires of { caller.old.of ≡ begun.now.connection.now }
    requires limit { reader.max_in ≡ begun.now.connection.now.settings.max_in }
    requires short { reader.max_in < 2 ^ 24 }
    requires routed { AreRoutedIn host.now.routes.now jobs.old }
    requires fresh { IsFresh begun.now.connection.now.settings caller.old.front (L.shown link.old)
        begun.now.conn reader.bytes }
    ensures same { caller.new ≡
        record caller.old { front = caller.new.front; note = caller.new.note } }
    ensures ran { Ran begun.now.connection.now.settings (K.moments host.now.clock.now)
        (is_some jobs.old) host.now.grant caller.old caller.new (L.shown link.old)
        (L.shown link.new) begun.now.conn result }
    ensures taken { HasGrown (L.shown link.old).taken (L.shown link.new).taken }
    ensures work { KeepsWork caller.old.names host.now.routes.now caller.old.front caller.new.front
        jobs.old jobs.new }
    ensures routed { AreRoutedIn host.now.routes.now jobs.new }
    ensures counted { NoneFell (L.shown link.old).counts (L.shown link.new).counts }
{
    if let Some(turned) = grant_lease(rt, begun.connection, caller, host.grant) {
        return turned;
    }
    link.hear(rt, begun.connection.bell());
    match Pump::new(host.alloc, begun.conn, reader) {
        Ok(mut pump) => attend(rt, host, begun.connection, caller, link, &mut pump, jobs),
        Err(_) => Turned::OutOfMemory,
    }
}

// What a connection comes to whose cut was answered so.
fn after_cut(answer: &Answer, turned: Turned) -> Turned
    ensures result { result ≢ Turned.OutOfMemory → result ≡ turned }
    ensures want { turned ≡ Turned.OutOfMemory → result ≡ Turned.OutOfMemory }
{
    match answer {
        Answer::OutOfMemory => Turned::OutOfMemory,
        _ => turned,
    }
}

// Ends the connection, which came to this.
fn finish<R: Wait, T: Tape, K: Clock, F: Handler>(
    rt: &R,
    host: &Host<'_, T, K, F>,
    begun: &Begun<'_, T>,
    caller: &mut Caller<T>,
    turned: Turned,
) -> Turned
    requires of { caller.old.of ≡ begun.now.connection.now }
    ensures same { caller.new ≡
        record caller.old { front = caller.new.front; note = caller.new.note } }
    ensures goes { GoesOn (IsCut begun.now.conn) caller.old caller.new.front }
    ensures result { result ≢ Turned.OutOfMemory → result ≡ turned }
    ensures want { turned ≡ Turned.OutOfMemory → result ≡ Turned.OutOfMemory }
{
    if let Turned::Dead(_) = turned {
        note_dead(rt, host, begun, caller);
        return turned;
    }
    let answer = cut(rt, host, begun, caller);
    let ended = after_cut(&answer, turned);
    drop(answer);
    ended
}

/// Serves a link whose connection this caller just opened, to its end: it grants the requests, moves
/// bytes, and answers jobs where there is a work for them; then it cuts the connection. A connection
/// whose peer counts as dead is not cut. The table notes since when the session has no connection.
/// It answers what its pump came to, or `OutOfMemory` where the lease, the pump or the cut found
/// none.
pub(crate) fn serve_opened<R: Wait, L: Link, T: Tape, K: Clock, F: Handler>(
    rt: &R,
    host: &Host<'_, T, K, F>,
    begun: &Begun<'_, T>,
    caller: &mut Caller<T>,
    link: &mut L,
    reader: Reader,
    jobs: &mut Option<Work>,
) -> Turned
    requires of { caller.old.of ≡ begun.now.connection.now }
    requires limit { reader.max_in ≡ begun.now.connection.now.settings.max_in }
    requires short { reader.max_in < 2 ^ 24 }
    requires routed { AreRoutedIn host.now.routes.now jobs.old }
    requires fresh { IsFresh begun.now.connection.now.settings caller.old.front (L.shown link.old)
        begun.now.conn reader.bytes }
    ensures same { caller.new ≡
        record caller.old { front = caller.new.front; note = caller.new.note } }
    ensures legal { Legal begun.now.connection.now.settings caller.new.front }

    // The lease, what attends the connection, and its cut.
    ensures attends { AttendsSo begun.now.connection.now.settings (K.moments host.now.clock.now)
        (is_some jobs.old) host.now.grant begun.now.conn caller.old caller.new.front result }

    // Its link is carried, if its caller alone moves bytes of it.
    ensures carried { IsAlone begun.now.conn caller.new.number caller.new.front →
        Carried begun.now.connection.now.settings caller.new.front (L.shown link.new)
        begun.now.conn }

    // Its link may be left, if this caller alone also ends the connection.
    ensures left { (first : Head) →
        IsJustOpened begun.now.connection.now.settings caller.old.front begun.now.conn first →
        IsHeld begun.now.conn caller.new.number caller.new.front → result ≢ Turned.OutOfMemory →
        Left begun.now.connection.now.settings caller.new.front (L.shown link.new) begun.now.conn }
    ensures cause { EndedFor begun.now.connection.now.settings (K.moments host.now.clock.now)
        begun.now.conn caller.old caller.new.front (L.shown link.new) result }
    ensures ticks { IsAlone begun.now.conn caller.new.number caller.new.front →
        (more : List Entry) → caller.new.front ≡ more ++ caller.old.front →
        AreFewTicks caller.new.names more (L.shown link.new) }
    ensures taken { HasGrown (L.shown link.old).taken (L.shown link.new).taken }
    ensures work { KeepsWork caller.old.names host.now.routes.now caller.old.front caller.new.front
        jobs.old jobs.new }
    ensures routed { AreRoutedIn host.now.routes.now jobs.new }
    ensures counted { NoneFell (L.shown link.old).counts (L.shown link.new).counts }
{
    let turned = run(rt, host, begun, caller, link, reader, jobs);
    let turned = finish(rt, host, begun, caller, turned);
    caller.number();
    caller.legal();
    turned
}

//! One link, served to its end.

ghost use Rattle.std.specs.Prelude.{◌≡◌, ◌≢◌, ◌<◌, [], IfSome, is_some, length};
ghost use Rattle.rs_wire.specs.declared.words.Side.TheVariants.{Server};
ghost use Rattle.outside.specs.Links.{IsNew, NoneFell};
ghost use Rattle.pump.specs.Moves.{HasGrown};
ghost use Rattle.server.specs.Attended.{IsFirstOf, OpenedAt, ServesAt};
ghost use Rattle.server.specs.Attending.{AreRoutedIn};
ghost use Rattle.server.specs.Opening.{AreBack, AreOf};
ghost use Rattle.server.specs.Serving.{Adds, IsCarried, IsLeft, IsUnopened};
ghost use Rattle.server.specs.Serving.{KeepsServing, LeavesUnbegun, ServedFor, ServedSo};
ghost use Rattle.server.specs.Serving.{is_resume, may_resume, unbegun_by};
ghost use Rattle.server.specs.declared.served.Served.TheVariants as served;

use crate::first::{First, take_first};
use crate::host::{Begun, Host};
use crate::one_link::serve_opened;
use crate::opening::{Wish, open, wish_of};
use crate::refusing::{bad, refused};
use crate::served::{Served, served_by};
use conn::{Caller, Connection};
use handlers::{Handler, Routes};
use outside::{Clock, Link};
use pump::Turned;
use rs_chunk::Reader;
use rs_frame::Frame;
use rs_wire::{Amount, Checked};
use session_table::Sessions;
use std::alloc::Global;
use std::sync::{Mutex, Wait};
use tape::{Answer, Tape};
use workers::Work;

// Serves a link whose connection the caller at this place just opened, to its end.
fn serve_at<R: Wait, L: Link, T: Tape, K: Clock, F: Handler>(
    rt: &R,
    host: &Host<'_, T, K, F>,
    at: u32,
    conn: u64,
    callers: &mut [Caller<T>],
    link: &mut L,
    reader: Reader,
    jobs: &mut Option<Work>,
) -> Turned
    requires place { at < length host.now.connections.now }
    requires of { AreOf host.now.settings.now host.now.connections.now callers.old }
    requires server { host.now.settings.now.side ≡ Server }
    requires limit { reader.max_in ≡ host.now.settings.now.max_in }
    requires routed { AreRoutedIn host.now.routes.now jobs.old }
    requires opened { OpenedAt host.now.settings.now.max_in at conn callers.old (L.shown link.old)
        reader.bytes }
    ensures back { AreBack callers.old callers.new }
    ensures serves { ServesAt host.now.settings.now (K.moments host.now.clock.now)
        (is_some jobs.old) host.now.grant host.now.routes.now jobs.old jobs.new at conn callers.old
        callers.new (L.shown link.new) result }
    ensures routed { AreRoutedIn host.now.routes.now jobs.new }
    ensures taken { HasGrown (L.shown link.old).taken (L.shown link.new).taken }
    ensures counted { NoneFell (L.shown link.old).counts (L.shown link.new).counts }
{
    host.settings.settings();
    let place = at as usize;
    let connections = host.connections;
    let connection = &connections[place];
    let caller = &mut callers[place];
    caller.legal();
    let begun = Begun {
        at,
        connection,
        conn,
    };
    serve_opened(rt, host, &begun, caller, link, reader, jobs)
}

// Serves a link whose first bytes are no whole frame.
fn unbegun<R: Wait, L: Link>(rt: &R, alloc: Global, link: &mut L, first: &First) -> Served
    ensures says { result ≢ served.OutOfMemory → result ≡ unbegun_by first.now }
    ensures gives { LeavesUnbegun first.now (L.shown link.old) (L.shown link.new) result }
    ensures counted { NoneFell (L.shown link.old).counts (L.shown link.new).counts }
{
    match first {
        First::Bad(rule) => bad(rt, alloc, link, *rule),
        First::NoFirst(now) => Served::NoFirst(*now),
        First::End => Served::End,
        First::LinkFault => Served::LinkFault,
        _ => Served::OutOfMemory,
    }
}

// Whether the session that is asked for may be resumed.
fn may_resume(wish: &Wish) -> bool
    ensures { result ≡ may_resume wish.now }
{
    !matches!(wish, Wish::Begin)
}

fn is_resume(wish: &Wish) -> bool
    ensures { result ≡ is_resume wish.now }
{
    matches!(wish, Wish::Resume(_))
}

// Serves a link by its first frame, which the reader has in front.
fn serve_first<R: Wait, L: Link, T: Tape, K: Clock, F: Handler>(
    rt: &R,
    host: &Host<'_, T, K, F>,
    callers: &mut [Caller<T>],
    link: &mut L,
    mut reader: Reader,
    frame: Frame,
    jobs: &mut Option<Work>,
) -> (Served, Option<(u32, u64)>)
    requires place { host.now.slot < length host.now.connections.now }
    requires of { AreOf host.now.settings.now host.now.connections.now callers.old }
    requires server { host.now.settings.now.side ≡ Server }
    requires idle { IfSome jobs.old (λ work. work ≡ []) }
    requires limit { reader.max_in ≡ host.now.settings.now.max_in }
    requires first { IsFirstOf frame reader.bytes reader.max_in (L.shown link.old) }
    ensures serves { ServedSo host.now.settings.now (K.moments host.now.clock.now)
        (is_some jobs.old) host.now.grant host.now.slot host.now.routes.now callers.old callers.new
        jobs.old jobs.new (L.shown link.new) result }
    ensures routed { AreRoutedIn host.now.routes.now jobs.new }
    ensures counted { NoneFell (L.shown link.old).counts (L.shown link.new).counts }
{
    let Ok(wish) = wish_of(host.alloc, &frame) else {
        drop(frame);
        return (Served::OutOfMemory, None);
    };
    let resumes = may_resume(&wish);
    let resuming = is_resume(&wish);
    reader.pass();
    let Ok(opening) = open(rt, host, callers, frame, wish) else {
        return (Served::OutOfMemory, None);
    };
    let at = opening.slot;
    match opening.answer {
        Answer::Opened(conn) => {
            drop(opening.answer);
            let turned = serve_at(rt, host, at, conn, callers, link, reader, jobs);
            (served_by(turned, resumes), Some((at, conn)))
        }
        answer => (refused(rt, host.alloc, link, resuming, answer), None),
    }
}

/// Serves a link to its end: the session that its first frame asks for is opened by the caller of a
/// slot, or the link is turned away with the reason. What crosses is carried, and the jobs of the
/// connection are answered where there is a work for them (RSocket 1.0, "Setup" and "Resuming
/// Operation").
///
/// It answers how the link was served, and where a connection was opened its slot and its number.
/// A session that may be resumed is in the table from its opening on. Where requests are granted,
/// the client gets a lease of so many at once.
pub fn serve_connection<R: Wait, L: Link, K: Clock, T: Tape, F: Handler>(
    rt: &R,
    alloc: Global,
    link: &mut L,
    clock: &K,
    slot: u32,
    connections: &[Connection<T>],
    callers: &mut [Caller<T>],
    table: &Mutex<Sessions>,
    settings: &Checked,
    routes: &Routes<F>,
    grant: Option<Amount>,
    jobs: &mut Option<Work>,
) -> (Served, Option<(u32, u64)>)
    requires new { IsNew (L.shown link.old) }
    requires place { slot < length connections.now }
    requires of { AreOf settings.now connections.now callers.old }
    requires server { settings.now.side ≡ Server }
    requires idle { IfSome jobs.old (λ work. work ≡ []) }

    // Each caller comes back with its names and parts.
    ensures same { AreBack callers.old callers.new }

    // At one caller a tick, an opening by the first frame, and what attends it; at the others
    // nothing.
    ensures added { Adds settings.now (K.moments clock.now) (is_some jobs.old) grant slot
        callers.old callers.new (L.shown link.new) result }

    // Where a connection was opened its link is carried, and left for a reason ..
    ensures carried { IsCarried settings.now callers.new (L.shown link.new) result }
    ensures left { IsLeft settings.now callers.new (L.shown link.new) result }

    // .. and where none was, there is a reason too.
    ensures unopened { IsUnopened settings.now (K.moments clock.now) callers.new
        (L.shown link.new) result }

    // Each result has its cause.
    ensures cause { ServedFor settings.now (K.moments clock.now) slot callers.old callers.new
        (L.shown link.new) result }
    ensures work { KeepsServing routes.now callers.old callers.new jobs.old jobs.new result }
    // The routes of the jobs left are those that are found for them.
    ensures routed { AreRoutedIn routes.now jobs.new }
    ensures counted { NoneFell (L.shown link.old).counts (L.shown link.new).counts }
{
    let most = settings.settings().max_in;
    let lifetime = settings.settings().lifetime_ms;
    let host = Host {
        alloc,
        clock,
        slot,
        connections,
        table,
        settings,
        routes,
        grant,
    };
    let mut reader = Reader::new(alloc, most);
    match take_first(rt, alloc, link, clock, &mut reader, lifetime) {
        First::Frame(frame) => serve_first(rt, &host, callers, link, reader, frame, jobs),
        first => {
            let served = unbegun(rt, alloc, link, &first);
            drop(first);
            (served, None)
        }
    }
}

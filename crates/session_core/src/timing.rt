//! How the timer of the live connection goes on by an event and its answer (RSocket 1.0, "KEEPALIVE
//! Frame").

ghost use Rattle.std.specs.Prelude.{◌≡◌};
ghost use Rattle.rs_wire.specs.Settings.{IsChecked};
ghost use Rattle.rs_frame.specs.Spelling.{IsStream};
ghost use Rattle.session_model.specs.Moments.{interval_by, lifetime_by, moment_with};
ghost use Rattle.session_core.specs.Timing.{begun_at, ticked_to, times_after};

use crate::judge::is_live;
use keepalive::Timer;
use rs_frame::Setup;
use rs_wire::{Amount, Settings, Side};
use session_model::LAST_MOMENT;
use tape::{Answer, Event};

/// The moment of a tick, in milliseconds: one below the moment before it counts as that, and one
/// above 2^62 as 2^62.
pub fn later(before: u64, now: u64) -> u64
    ensures { result ≡ moment_with before (Event.Tick now) }
{
    before.max(now.min(LAST_MOMENT))
}

// Milliseconds between two KEEPALIVEs: as the SETUP says that a server accepted, and as a client is
// set.
fn interval(settings: &Settings, setup: &Option<Setup>) -> Amount
    requires { IsStream settings.now.keepalive_ms }
    ensures { result ≡ interval_by settings.now setup.now }
{
    match setup {
        Some(setup) => setup.keepalive,
        None => Amount::of(settings.keepalive_ms).unwrap(),
    }
}

// Milliseconds without an arrival after which the peer counts as dead, likewise.
fn lifetime(settings: &Settings, setup: &Option<Setup>) -> Amount
    requires { IsStream settings.now.lifetime_ms }
    ensures { result ≡ lifetime_by settings.now setup.now }
{
    match setup {
        Some(setup) => setup.lifetime,
        None => Amount::of(settings.lifetime_ms).unwrap(),
    }
}

/// The timer of a connection that is opened at a moment.
pub fn begun_at(settings: &Settings, setup: &Option<Setup>, now: u64) -> Timer
    requires { IsChecked settings.now }
    ensures { result ≡ begun_at settings.now setup.now now }
{
    let sends = matches!(settings.side, Side::Client);
    let interval = interval(settings, setup);
    Timer::new(interval, lifetime(settings, setup), now, sends)
}

/// Takes the moment of a tick; a KEEPALIVE may be sent at it.
pub fn tick(timer: &mut Timer, now: u64, answer: &Answer)
    ensures { timer.new ≡ ticked_to now answer.now timer.old }
{
    let _due = timer.tick(later(timer.moment(), now));
    if let Answer::Sent = answer {
        timer.sent();
    }
}

/// Passes the time of an event and its answer, where `setup` is the SETUP that was accepted then,
/// and `live` the connection that was live before.
pub fn pass(
    timer: &mut Timer,
    settings: &Settings,
    setup: &Option<Setup>,
    live: u64,
    event: &Event,
    answer: &Answer,
)
    requires { IsChecked settings.now }
    ensures { timer.new ≡ times_after settings.now setup.now live answer.now event.now timer.old }
{
    match (answer, event) {
        (Answer::Opened(_), _) => *timer = begun_at(settings, setup, timer.moment()),
        (_, Event::Tick { now }) => tick(timer, *now, answer),
        (_, Event::Came { conn, .. }) if is_live(live, *conn) => timer.came(),
        _ => {}
    }
}

//! The answer to a tick (RSocket 1.0, "KEEPALIVE Frame").

ghost use Rattle.std.specs.Prelude.{◌≡◌, ◌≢◌, ◌<◌, ◌≤◌, ◌==◌, ◌||◌, ℕ, [], ◌∷◌, IfSome, None, is_some, max, not, true};
ghost use Rattle.rs_wire.specs.declared.settings.Settings.{Settings};
ghost use Rattle.keepalive.specs.Times.{due_at};
ghost use Rattle.session_model.specs.Answers.{asks_alive, find_full, to_due, to_tick};
ghost use Rattle.session_core.specs.Fits.{facts_of};

use crate::asked::find_full;
use crate::sizes::keepalive_size;
use crate::state::State;
use crate::timing::later;
use keepalive::Due;
use rs_wire::Checked;
use tape::Answer;

// Whether the queue has room for a KEEPALIVE that asks for an answer.
fn finds_place(settings: &Checked, state: &State) -> bool
    ensures { result ≡ not (find_full settings.now (facts_of state.now)
        (asks_alive settings.now (facts_of state.now) ∷ [])) }
{
    !find_full(settings, state, keepalive_size())
}

// The answer where this is due. A KEEPALIVE is sent where the connection carries and the queue has
// room for it.
fn to_due(settings: &Checked, state: &State, due: Due) -> Answer
    ensures { result ≡ to_due settings.now (facts_of state.now) due }
{
    match due {
        Due::Dead(last) => Answer::Dead(last),
        Due::Send if state.carrying && finds_place(settings, state) => Answer::Sent,
        Due::Send | Due::Nothing => Answer::Quiet,
    }
}

// Whether a tick takes its moment and does nothing else: without a live connection, and once the
// session is closed.
fn is_idle(state: &State) -> bool
    ensures { result ≡ ((state.now.live == 0) || is_some state.now.closed) }
{
    state.live == 0 || state.closed.is_some()
}

/// The answer to a tick. Without a live connection, and once the session is closed, the moment is
/// taken and nothing else is done.
pub fn to_tick(settings: &Checked, state: &State, now: u64) -> Answer
    ensures { result ≡ to_tick settings.now (facts_of state.now) now }
{
    if is_idle(state) {
        return Answer::Quiet;
    }
    let now = later(state.timer.moment(), now);
    to_due(settings, state, state.timer.due(now))
}

/// Whether a tick takes its moment and does nothing else, since nothing is due at it.
#[inline(always)]
pub fn is_quiet(state: &State, now: u64) -> bool
    ensures { result ≡ true →
        (g : Settings) → to_tick g (facts_of state.now) now ≡ Answer.Quiet }
{
    if is_idle(state) {
        return true;
    }
    let now = later(state.timer.moment(), now);
    matches!(state.timer.due(now), Due::Nothing)
}

/// The first moment, in milliseconds, at which something is due as things stand. `None` where a
/// tick takes its moment and does nothing else.
pub fn next_due(state: &State) -> Option<u128>
    ensures some { is_some result ≡ not ((state.now.live == 0) || is_some state.now.closed) }
    ensures none { result ≡ None → (g : Settings) (now : ℕ) →
        to_tick g (facts_of state.now) now ≡ Answer.Quiet }
    ensures before { (g : Settings) → IfSome result (λ t. (now : ℕ) →
        max state.now.timer.moment now < t →
        to_tick g (facts_of state.now) now ≡ Answer.Quiet) }
    ensures from { IfSome result (λ t. (now : ℕ) → t ≤ now →
        due_at state.now.timer now ≢ Due.Nothing) }
{
    if is_idle(state) {
        return None;
    }
    Some(state.timer.next_due())
}

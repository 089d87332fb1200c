//! What a turn of a pump comes to.

ghost use Rattle.std.specs.Prelude.{◌≡◌, None, false, true};
ghost use Rattle.pump.specs.Parts.{BreaksFor, OverFor, RulesOutOf, SumsUp, is_fine};
ghost use Rattle.pump.specs.Turns.{ended_by, is_early, is_last};
ghost use Rattle.pump.specs.Runs.{lulls_in};
ghost use Rattle.pump.specs.Moves.{given_in, taken_in};

use crate::bringing::Brought;
use crate::incoming::Took;
use crate::outgoing::Gave;
use conn::Looked;
use rs_wire::Cause;

/// What a turn of a pump came to. After `Moved`, `Busy` and `Lull` the pump goes on; after any
/// other it is not used again.
#[derive(Clone, Copy, Debug, PartialEq, Eq)]
pub enum Turned {
    /// Bytes moved, or a frame came that had waited.
    Moved {
        /// How many bytes were given, at most 16,384.
        given: u32,
        /// How many bytes were taken, at most 16,384.
        taken: u32,
    },
    /// A frame, or a length above the limit, waits in front until fewer bytes than these are
    /// queued.
    Busy(u64),
    /// The session is closed for this cause, and all its bytes are given.
    Over(Cause),
    /// Another connection is the live one, whose number this is; 0 for none.
    Displaced(u64),
    /// Nothing moved, and nothing came for now.
    Lull,
    /// The peer sends no more.
    End,
    /// The link failed.
    LinkFault,
    /// The peer counts as dead, from which nothing came since this moment, in milliseconds (RSocket
    /// 1.0, "KEEPALIVE Frame").
    Dead(u64),
    /// The tape has 2^63 entries.
    TapeFull,
    /// There was not enough memory.
    OutOfMemory,
}

/// What ends a turn at once.
pub(crate) fn ended_by(brought: Brought) -> Option<Turned>
    ensures { result ≡ ended_by brought }
{
    match brought {
        Brought::Displaced(live) => Some(Turned::Displaced(live)),
        Brought::Dead(last) => Some(Turned::Dead(last)),
        Brought::TapeFull => Some(Turned::TapeFull),
        Brought::OutOfMemory => Some(Turned::OutOfMemory),
        _ => None,
    }
}

fn given_in(gave: Gave) -> u32
    ensures { result ≡ given_in gave }
{
    match gave {
        Gave::Count(count) => count,
        _ => 0,
    }
}

fn taken_in(took: Took) -> u32
    ensures { result ≡ taken_in took }
{
    match took {
        Took::Count(count) => count,
        _ => 0,
    }
}

// What ends a turn once the frames taken have come.
fn broken_by(gave: Gave, took: Took) -> Option<Turned>
    ensures { BreaksFor gave took result }
{
    if gave == Gave::Failed {
        return Some(Turned::LinkFault);
    }
    match took {
        Took::OutOfMemory => Some(Turned::OutOfMemory),
        Took::Failed => Some(Turned::LinkFault),
        Took::End => Some(Turned::End),
        _ => None,
    }
}

// The session is closed, and no byte is left.
fn over_by(looked: Looked, left: usize) -> Option<Turned>
    ensures { OverFor looked left result }
{
    let cause = looked.cause?;
    if looked.queued != 0 || left != 0 {
        return None;
    }
    Some(Turned::Over(cause))
}

/// What the parts of a turn come to, in this order: an end at once, a broken link, a session that
/// is over, a frame that waits, what moved.
pub(crate) fn sum_up(gave: Gave, took: Took, heard: Brought, looked: Looked, left: usize) -> Turned
    ensures sum { SumsUp gave took heard looked left result }
    ensures fine { is_last result ≡ false → is_fine gave took ≡ true }
    ensures heard { is_early result ≡ false → ended_by heard ≡ None }
    ensures order { RulesOutOf looked left heard result }
{
    if let Some(turned) = ended_by(heard) {
        return turned;
    }
    if let Some(turned) = broken_by(gave, took) {
        return turned;
    }
    if let Some(turned) = over_by(looked, left) {
        return turned;
    }
    if let Brought::Busy(queued) = heard {
        return Turned::Busy(queued);
    }
    let given = given_in(gave);
    let taken = taken_in(took);
    if given == 0 && taken == 0 && heard == Brought::Nothing {
        return Turned::Lull;
    }
    Turned::Moved { given, taken }
}

/// After it a pump is not used again.
pub(crate) fn is_last(turned: Turned) -> bool
    ensures { result ≡ is_last turned }
{
    !matches!(
        turned,
        Turned::Moved { given: _, taken: _ } | Turned::Busy(_) | Turned::Lull
    )
}

pub(crate) fn lulls_in(turned: Turned) -> u64
    ensures { result ≡ lulls_in turned }
{
    match turned {
        Turned::Lull => 1,
        _ => 0,
    }
}

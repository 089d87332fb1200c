//! Rounds by one thread, until nothing is left.

ghost use Rattle.std.specs.Prelude.{◌≡◌, ◌⊎◌, List, true, IfOk, IfSome, OnOk};
ghost use Rattle.rs_wire.specs.declared.settings.Settings.{Settings};
ghost use Rattle.rs_wire.specs.declared.words.Side.TheVariants.{Server};
ghost use Rattle.tape.specs.declared.entry.Entry.{Entry};
ghost use Rattle.session_model.specs.Life.{live};
ghost use Rattle.session_model.specs.Frames.{queued};
ghost use Rattle.rtrb.specs.Ring.{SameConsumer, SameProducer, received, sent};
ghost use Rattle.pump.specs.Turns.{GoesOn, IsEmptied};
ghost use Rattle.threaded_client.specs.Carrying.{IsAny, IsSound as IsSoundNear};
ghost use Rattle.threaded_server.specs.Carrying.{IsEmptiedOn, IsSound, KeepsOn};
ghost use Rattle.threaded_drain.specs.Ending.{FarEnds, IsClosedBy, NearEnds, NearGoes};
ghost use Rattle.threaded_drain.specs.Resting.{IsAtRest};

use crate::resting::is_done;
use conn::{Connection, Looked};
use ring::{ROOM, Stop};
use std::alloc::Global;
use std::sync::Wait;
use tape::Tape;
use threaded_client::ClientCarrier;
use threaded_server::ServerCarrier;

/// The most bytes of one piece: with its mark it fits into an empty ring, so no push waits.
const PIECE: u64 = ROOM as u64 - 1;

/// What is seen of an end just now.
#[derive(Clone, Copy)]
struct Seen {
    /// Nothing that can come stands in front.
    heard: bool,
    /// What its session is like.
    looked: Looked,
}

// Brings what stands in front at the client once more, and looks at its session.
fn see_near<T: Tape, R: Wait>(
    rt: &R,
    client: &Connection<T>,
    near: &mut ClientCarrier<T>,
) -> Result<Seen, Stop>
    requires of { near.old.caller.of ≡ client.now }
    requires sound { IsSoundNear client.now.settings near.old.conn near.old.pump }
    ensures same { near.new.caller ≡ record near.old.caller {
      front = near.new.caller.front;
      note = near.new.caller.note;
    } }
    ensures out { SameProducer near.old.out near.new.out }
    ensures from { SameConsumer near.old.from near.new.from }
    ensures sound { OnOk result
        (IsSoundNear client.now.settings near.new.conn near.new.pump) }
    ensures goes { OnOk result (GoesOn IsAny near.old.caller near.new.caller.front) }
    ensures kept { OnOk result (NearGoes near.old.caller near.new.caller near.old.pump near.new.pump
        (sent near.old.out) (sent near.new.out) (received near.old.from) (received near.new.from)) }
    ensures heard { IfOk result (λ s. s.heard ≡ true →
        IfSome near.new.pump (λ b. IsEmptied b)) }
    ensures live { IfOk result (λ s. s.looked.live ≡ live near.new.caller.front) }
    ensures queued { IfOk result (λ s.
        s.looked.queued ≡ queued client.now.settings near.new.caller.front) }
{
    let heard = near.heard(rt, client)?;
    let looked = client.look(rt, &mut near.caller);
    Ok(Seen { heard, looked })
}

// The same of the server.
fn see_far<T: Tape, R: Wait>(
    rt: &R,
    server: &Connection<T>,
    far: &mut ServerCarrier<T>,
) -> Result<Seen, Stop>
    requires of { far.old.caller.of ≡ server.now }
    requires sound { IsSound server.now.settings far.old.knows }
    ensures same { far.new.caller ≡ record far.old.caller {
      front = far.new.caller.front;
      note = far.new.caller.note;
    } }
    ensures out { SameProducer far.old.out far.new.out }
    ensures from { SameConsumer far.old.from far.new.from }
    ensures sound { OnOk result (IsSound server.now.settings far.new.knows) }
    ensures goes { OnOk result (GoesOn IsAny far.old.caller far.new.caller.front) }
    ensures kept { OnOk result (KeepsOn 0 0 far.old.caller far.new.caller
        far.old.knows far.new.knows (sent far.old.out) (sent far.new.out)
        (received far.old.from) (received far.new.from)) }
    ensures heard { IfOk result (λ s. s.heard ≡ true → IsEmptiedOn far.new.knows) }
    ensures live { IfOk result (λ s. s.looked.live ≡ live far.new.caller.front) }
    ensures queued { IfOk result (λ s.
        s.looked.queued ≡ queued server.now.settings far.new.caller.front) }
{
    let heard = far.heard(rt, server)?;
    let looked = server.look(rt, &mut far.caller);
    Ok(Seen { heard, looked })
}

// Whether the connection that joins the ends is the client's live one, and all is done there.
fn is_done_on<T: Tape>(
    near: &ClientCarrier<T>,
    at: &Seen,
    far: &ServerCarrier<T>,
    there: &Seen,
) -> bool
    ensures { (g h : Settings) (C S : List Entry) → result ≡ true →
        IsSoundNear g near.now.conn near.now.pump →
        at.now.looked.live ≡ live C → at.now.looked.queued ≡ queued g C →
        there.now.looked.live ≡ live S → there.now.looked.queued ≡ queued h S →
        (at.now.heard ≡ true → IfSome near.now.pump (λ b. IsEmptied b)) →
        (there.now.heard ≡ true → IsEmptiedOn far.now.knows) →
        IsAtRest g h C S near.now.pump far.now.knows }
{
    near.pump.is_some()
        && at.looked.live == near.conn
        && at.looked.queued == 0
        && is_done(&far.knows, &there.looked, at.heard, there.heard)
}

// Whether nothing is left to cross.
fn is_settled<T: Tape, R: Wait>(
    rt: &R,
    client: &Connection<T>,
    near: &mut ClientCarrier<T>,
    server: &Connection<T>,
    far: &mut ServerCarrier<T>,
) -> Result<bool, Stop>
    requires near_of { near.old.caller.of ≡ client.now }
    requires far_of { far.old.caller.of ≡ server.now }
    requires near_sound { IsSoundNear client.now.settings near.old.conn near.old.pump }
    requires far_sound { IsSound server.now.settings far.old.knows }
    ensures near_same { near.new.caller ≡ record near.old.caller {
      front = near.new.caller.front;
      note = near.new.caller.note;
    } }
    ensures far_same { far.new.caller ≡ record far.old.caller {
      front = far.new.caller.front;
      note = far.new.caller.note;
    } }
    ensures near_out { SameProducer near.old.out near.new.out }
    ensures near_from { SameConsumer near.old.from near.new.from }
    ensures far_out { SameProducer far.old.out far.new.out }
    ensures far_from { SameConsumer far.old.from far.new.from }
    ensures near_sound { OnOk result
        (IsSoundNear client.now.settings near.new.conn near.new.pump) }
    ensures far_sound { OnOk result (IsSound server.now.settings far.new.knows) }
    ensures near_goes { OnOk result (GoesOn IsAny near.old.caller near.new.caller.front) }
    ensures far_goes { OnOk result (GoesOn IsAny far.old.caller far.new.caller.front) }
    ensures near_kept { OnOk result (NearGoes near.old.caller near.new.caller
        near.old.pump near.new.pump (sent near.old.out) (sent near.new.out)
        (received near.old.from) (received near.new.from)) }
    ensures far_kept { OnOk result (KeepsOn 0 0 far.old.caller far.new.caller
        far.old.knows far.new.knows (sent far.old.out) (sent far.new.out)
        (received far.old.from) (received far.new.from)) }
    ensures at_rest { IfOk result (λ all. all ≡ true →
        IsAtRest client.now.settings server.now.settings near.new.caller.front
        far.new.caller.front near.new.pump far.new.knows) }
{
    let at = see_near(rt, client, near)?;
    let there = see_far(rt, server, far)?;
    if at.looked.live == 0 {
        return Ok(true);
    }
    Ok(is_done_on(near, &at, far, &there))
}

// A round, of at most one piece each way.
fn round<T: Tape, R: Wait>(
    rt: &R,
    alloc: Global,
    client: &Connection<T>,
    near: &mut ClientCarrier<T>,
    server: &Connection<T>,
    far: &mut ServerCarrier<T>,
) -> Result<(), Stop>
    requires near_of { near.old.caller.of ≡ client.now }
    requires far_of { far.old.caller.of ≡ server.now }
    requires server { server.now.settings.side ≡ Server }
    requires near_sound { IsSoundNear client.now.settings near.old.conn near.old.pump }
    requires far_sound { IsSound server.now.settings far.old.knows }
    ensures near_same { near.new.caller ≡ record near.old.caller {
      front = near.new.caller.front;
      note = near.new.caller.note;
    } }
    ensures far_same { far.new.caller ≡ record far.old.caller {
      front = far.new.caller.front;
      note = far.new.caller.note;
    } }
    ensures near_out { SameProducer near.old.out near.new.out }
    ensures near_from { SameConsumer near.old.from near.new.from }
    ensures far_out { SameProducer far.old.out far.new.out }
    ensures far_from { SameConsumer far.old.from far.new.from }
    ensures near_sound { OnOk result
        (IsSoundNear client.now.settings near.new.conn near.new.pump) }
    ensures far_sound { OnOk result (IsSound server.now.settings far.new.knows) }
    ensures near_goes { OnOk result (GoesOn IsAny near.old.caller near.new.caller.front) }
    ensures far_goes { OnOk result (GoesOn IsAny far.old.caller far.new.caller.front) }
    ensures near_kept { OnOk result (NearGoes near.old.caller near.new.caller
        near.old.pump near.new.pump (sent near.old.out) (sent near.new.out)
        (received near.old.from) (received near.new.from)) }
    ensures far_kept { OnOk result (KeepsOn 0 0 far.old.caller far.new.caller
        far.old.knows far.new.knows (sent far.old.out) (sent far.new.out)
        (received far.old.from) (received far.new.from)) }
{
    near.up(rt, client, PIECE)?;
    near.step(rt, false)?;
    far.up(rt, alloc, server)?;
    far.down(rt, server, PIECE)?;
    far.step(rt, false)?;
    near.down(rt, alloc, client)?;
    Ok(())
}

// Both ends say that the script is over, and read that the other does.
fn end<T: Tape, R: Wait>(
    rt: &R,
    alloc: Global,
    near: &mut ClientCarrier<T>,
    far: &mut ServerCarrier<T>,
) -> Result<(), Stop>
    ensures near_caller { near.new.caller ≡ near.old.caller }
    ensures near_conn { near.new.conn ≡ near.old.conn }
    ensures near_pump { near.new.pump ≡ near.old.pump }
    ensures far_caller { far.new.caller ≡ far.old.caller }
    ensures far_knows { far.new.knows ≡ far.old.knows }
    ensures near_out { SameProducer near.old.out near.new.out }
    ensures near_from { SameConsumer near.old.from near.new.from }
    ensures far_out { SameProducer far.old.out far.new.out }
    ensures far_from { SameConsumer far.old.from far.new.from }
    ensures near_sent { OnOk result (IsClosedBy (sent near.old.out) (sent near.new.out)) }
    ensures near_received { OnOk result
        (IsClosedBy (received near.old.from) (received near.new.from)) }
    ensures far_sent { OnOk result (IsClosedBy (sent far.old.out) (sent far.new.out)) }
    ensures far_received { OnOk result
        (IsClosedBy (received far.old.from) (received far.new.from)) }
{
    near.end(rt)?;
    far.end(rt)?;
    near.finish(rt, alloc)?;
    far.finish(rt, alloc)
}

/// Rounds until nothing is left to cross; then both ends say that the script is over. Where memory
/// runs out, or a tape is full, it stops, and of what was kept nothing is promised.
pub fn settle<T: Tape, R: Wait>(
    rt: &R,
    alloc: Global,
    client: &Connection<T>,
    near: &mut ClientCarrier<T>,
    server: &Connection<T>,
    far: &mut ServerCarrier<T>,
) -> Result<(), Stop>
    requires near_of { near.old.caller.of ≡ client.now }
    requires far_of { far.old.caller.of ≡ server.now }
    requires server { server.now.settings.side ≡ Server }
    requires near_sound { IsSoundNear client.now.settings near.old.conn near.old.pump }
    requires far_sound { IsSound server.now.settings far.old.knows }
    ensures near_same { near.new.caller ≡ record near.old.caller {
      front = near.new.caller.front;
      note = near.new.caller.note;
    } }
    ensures far_same { far.new.caller ≡ record far.old.caller {
      front = far.new.caller.front;
      note = far.new.caller.note;
    } }
    ensures near_out { SameProducer near.old.out near.new.out }
    ensures near_from { SameConsumer near.old.from near.new.from }
    ensures far_out { SameProducer far.old.out far.new.out }
    ensures far_from { SameConsumer far.old.from far.new.from }
    ensures near_sound { OnOk result
        (IsSoundNear client.now.settings near.new.conn near.new.pump) }
    ensures far_sound { OnOk result (IsSound server.now.settings far.new.knows) }
    ensures near_goes { OnOk result (GoesOn IsAny near.old.caller near.new.caller.front) }
    ensures far_goes { OnOk result (GoesOn IsAny far.old.caller far.new.caller.front) }

    // What the carriers kept they keep, up to the marks of the end ..
    ensures near_ends { OnOk result (NearEnds near.old.caller near.new.caller
        near.old.pump near.new.pump (sent near.old.out) (sent near.new.out)
        (received near.old.from) (received near.new.from)) }
    ensures far_ends { OnOk result (FarEnds far.old.caller far.new.caller
        far.old.knows far.new.knows (sent far.old.out) (sent far.new.out)
        (received far.old.from) (received far.new.from)) }

    // .. and nothing is left to cross.
    ensures at_rest { OnOk result (IsAtRest client.now.settings server.now.settings
        near.new.caller.front far.new.caller.front near.new.pump far.new.knows) }
{
    for _ in rt.forever() {
        if is_settled(rt, client, near, server, far)? {
            end(rt, alloc, near, far)?;
            return Ok(());
        }
        round(rt, alloc, client, near, server, far)?;
    }
    unreachable!()
}

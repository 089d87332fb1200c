//! Laws of resumption at one end (RSocket 1.0, "Resuming Operation"), whatever its peer sends.

ghost use Rattle.std.specs.Prelude.{◌≡◌, ◌≤◌, ◌+◌, ◌-◌, ◌++◌, ◌↔◌};
ghost use Rattle.std.specs.Prelude.{Bool, true, ℕ, List, ◌∷◌, Option, Some};
ghost use Rattle.rs_wire.specs.declared.words.Side.TheVariants.{Server};
ghost use Rattle.rs_wire.specs.declared.fault.Gone.{Gone};
ghost use Rattle.rs_wire.specs.Settings.{IsChecked, out_limit_of};
ghost use Rattle.rs_wire.specs.declared.settings.Settings.{Settings};
ghost use Rattle.rs_frame.specs.declared.frame.Frame.{Frame};
ghost use Rattle.rs_frame.specs.declared.frame.Frame.TheVariants as frame;
ghost use Rattle.rs_frame.specs.declared.frame.Resume.{Resume};
ghost use Rattle.rs_frame.specs.Spelling.{length_of};
ghost use Rattle.tape.specs.declared.answer.Answer.TheVariants as answer;
ghost use Rattle.tape.specs.declared.entry.Entry.{Entry};
ghost use Rattle.tape.specs.declared.event.Event.TheVariants as event;
ghost use Rattle.position.specs.Boundaries.{IsBoundary, acked, frames_from, pos};
ghost use Rattle.session_model.specs.Answers.{answer_to};
ghost use Rattle.session_model.specs.Frames.{due, first, made, queued};
ghost use Rattle.session_model.specs.Legal.{Legal};
ghost use Rattle.session_model.specs.Life.{begun, closed, live, openings, resumption_agreed, told};
ghost use Rattle.session_model.specs.declared.numbers.TheConstants.{ANSWER_ROOM};
ghost use Rattle.session_laws.specs.Resumption.{CanGoOn, CanResume, IsResumeAlone, IsWaiting};
ghost use Rattle.session_laws.specs.Resumption.{refused_resume};
ghost use Rattle.session_laws.specs.Streams.{IsLawful};

/// The position that the peer told, what of the frames made is acknowledged by it, and the position
/// from which they are held never fall.
pub fn positions_never_fall()
    ensures told { (g : Settings) (more past : List Entry) → told g past ≤ told g (more ++ past) }
    ensures acked { (g : Settings) (more past : List Entry) →
        acked (made g past) (told g past)
        ≤ acked (made g (more ++ past)) (told g (more ++ past)) }
    ensures first { (g : Settings) (more past : List Entry) →
        first g past ≤ first g (more ++ past) }
{}

/// The frames are held from a boundary on, not before what is acknowledged, and have no more bytes
/// than may be held; their boundaries are those of the frames made from there on. The peer never
/// tells a position past the frames made: such a resumption is refused, and such a KEEPALIVE closes
/// the session (RSocket 1.0, "KEEPALIVE Frame").
pub fn held_frames_follow_a_boundary()
    ensures boundary { (g : Settings) (past : List Entry) →
        IsBoundary (made g past) (first g past) }
    ensures boundaries { (g : Settings) (past : List Entry) (p : ℕ) → first g past ≤ p →
        IsBoundary (made g past) p
        ↔ IsBoundary (frames_from (made g past) (first g past)) (p - first g past) }
    ensures acked { (g : Settings) (past : List Entry) →
        acked (made g past) (told g past) ≤ first g past }
    ensures hold { (g : Settings) (past : List Entry) →
        pos (frames_from (made g past) (first g past)) ≤ g.hold }
    ensures told { (g : Settings) (past : List Entry) →
        Legal g past → told g past ≤ pos (made g past) }
{}

/// A server accepts a RESUME exactly where both ends hold what the other has not handled, on a
/// session that is not closed, for version 1 and the session's token. Such a session is begun, and
/// agreed to resumption. No first frame comes to a client, so `accepted` leaves it out.
pub fn resume_is_accepted_where_both_ends_hold()
    ensures accepted { (g : Settings) (past : List Entry) (r : Resume) (taken : Bool) →
        g.side ≡ Server →
        (answer_to g past (event.Open (Some (frame.Resume r)) taken)
        ≡ answer.Opened (openings past + 1))
        ↔ CanResume g past r }
    ensures begun { (g : Settings) (past : List Entry) (r : Resume) →
        CanResume g past r → begun past ≡ true }
    ensures agreed { (g : Settings) (past : List Entry) (r : Resume) →
        g.side ≡ Server → CanResume g past r → resumption_agreed g past ≡ true }
{}

/// A RESUME that is refused leaves the session as it is: the live connection with all that is due
/// on it, and whether and why it is closed.
pub fn a_refused_resume_changes_nothing()
    ensures live { (past : List Entry) (who : ℕ) (f : Option Frame) (taken : Bool) (why : Gone) →
        live (refused_resume who f taken why ∷ past) ≡ live past }
    ensures due { (g : Settings) (past : List Entry) (who : ℕ) (f : Option Frame) (taken : Bool)
        (why : Gone) (c : ℕ) →
        due g (refused_resume who f taken why ∷ past) c ≡ due g past c }
    ensures closed { (g : Settings) (past : List Entry) (who : ℕ) (f : Option Frame) (taken : Bool)
        (why : Gone) →
        closed g (refused_resume who f taken why ∷ past) ≡ closed g past }
{}

/// A client handles a RESUME_OK exactly where it waits for it on the live connection of a session
/// that is not closed, and holds what the server has not handled. Such a session agreed to
/// resumption.
pub fn resume_ok_is_handled_where_the_client_holds()
    ensures handled { (g : Settings) (past : List Entry) (conn position : ℕ) →
        IsChecked g → IsLawful g past →
        (answer_to g past (event.Came conn (frame.ResumeOk position)) ≡ answer.Handled)
        ↔ CanGoOn g past conn position }
    ensures agreed { (g : Settings) (past : List Entry) (conn position : ℕ) → Legal g past →
        CanGoOn g past conn position → resumption_agreed g past ≡ true }
{}

/// A connection that waits for RESUME_OK has its RESUME in the queue at most, so the queue has room
/// for what answers a frame.
pub fn resume_ok_always_finds_room()
    ensures due { (g : Settings) (past : List Entry) → IsLawful g past → IsWaiting g past →
        IsResumeAlone g (due g past (live past)) }
    ensures room { (g : Settings) (past : List Entry) (position : ℕ) →
        IsChecked g → IsLawful g past → IsWaiting g past →
        queued g past + length_of (frame.ResumeOk position) + ANSWER_ROOM ≤ out_limit_of g }
{}

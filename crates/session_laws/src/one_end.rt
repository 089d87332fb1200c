//! Laws of the entries of one end, the newest first.

ghost use Rattle.std.specs.Prelude.{◌≡◌, ◌≤◌, ◌+◌, ◌++◌, ℕ, IfSome, List, length, Some, false};
ghost use Rattle.std.specs.List.{AllByRecursion};
ghost use Rattle.rs_wire.specs.declared.fault.Cause.{Cause};
ghost use Rattle.rs_wire.specs.Settings.{IsChecked, out_limit_of};
ghost use Rattle.rs_wire.specs.declared.settings.Settings.{Settings};
ghost use Rattle.rs_frame.specs.Spelling.{IsSpellable};
ghost use Rattle.rs_frame.specs.Framed.{framed_all};
ghost use Rattle.tape.specs.declared.answer.Answer.{Answer};
ghost use Rattle.tape.specs.declared.entry.Entry.{Entry};
ghost use Rattle.session_model.specs.Life.{closed, leases_agreed, live, resumption_agreed};
ghost use Rattle.session_model.specs.Lists.{IsPrefix};
ghost use Rattle.session_model.specs.Frames.{came, drawn, due, handled, made};
ghost use Rattle.session_model.specs.Frames.{queued, refusal, seen};
ghost use Rattle.session_model.specs.Legal.{Fair, Legal};
ghost use Rattle.session_laws.specs.Fragments.{FitsMtu};
ghost use Rattle.session_laws.specs.Marks.{got, sent};
ghost use Rattle.session_laws.specs.Streams.{IsLawful};

/// A closed session stays closed, for the cause that closed it first.
pub fn closed_stays_closed()
    ensures stays { (g : Settings) (more past : List Entry) (why : Cause) →
        closed g past ≡ Some why → closed g (more ++ past) ≡ Some why }
{}

/// What an end made and what it handled only grow: further entries append to them (RSocket 1.0,
/// "Resuming Operation", counts both).
pub fn frames_only_grow()
    ensures made { (g : Settings) (more past : List Entry) →
        IsPrefix (made g past) (made g (more ++ past)) }
    ensures handled { (more past : List Entry) → IsPrefix (handled past) (handled (more ++ past)) }
{}

/// The frames seen are those made and those handled, each kind in its order.
pub fn seen_is_made_and_handled()
    ensures made { (g : Settings) (past : List Entry) → sent (seen g past) ≡ made g past }
    ensures handled { (g : Settings) (past : List Entry) → got (seen g past) ≡ handled past }
{}

/// The bytes queued on the live connection are those due there, framed, less those drawn. So no
/// more is drawn on a connection than is due there.
pub fn queued_is_what_is_left()
    ensures exact { (g : Settings) (past : List Entry) → Legal g past →
        drawn past (live past) + queued g past ≡ length (framed_all (due g past (live past))) }
    ensures never_past { (g : Settings) (past : List Entry) (c : ℕ) → Legal g past →
        drawn past c ≤ length (framed_all (due g past c)) }
{}

/// The queue never has more bytes than its limit, whatever the peer sends and callers ask: a call
/// that finds no room is refused, and what comes waits until there is room for its answer.
pub fn the_queue_stays_within_its_limit()
    ensures { (g : Settings) (past : List Entry) → IsChecked g → IsLawful g past →
        queued g past ≤ out_limit_of g }
{}

/// An end whose settings have no resumption agrees to none, and likewise leases: a server refuses
/// a SETUP that asks for them (RSocket 1.0, "SETUP Frame").
pub fn nothing_more_is_agreed()
    ensures resumption { (g : Settings) (past : List Entry) → Legal g past →
        g.resume ≡ false → resumption_agreed g past ≡ false }
    ensures leases { (g : Settings) (past : List Entry) → Legal g past →
        g.lease ≡ false → leases_agreed g past ≡ false }
{}

/// Every frame that an end makes or owes has its fields in range and a length below 2^24
/// bytes, so it can be written (RSocket 1.0, "Framing Format"), where its caller asks for what can
/// be asked; so is the ERROR that refuses a connection. What comes is so by the conditions of its
/// events.
pub fn frames_are_spellable()
    ensures made { (g : Settings) (past : List Entry) →
        IsChecked g → Legal g past → Fair g past → AllByRecursion IsSpellable (made g past) }
    ensures due { (g : Settings) (past : List Entry) (c : ℕ) →
        IsChecked g → Legal g past → Fair g past → AllByRecursion IsSpellable (due g past c) }
    ensures refusal { (a : Answer) → IfSome (refusal a) IsSpellable }
    ensures came { (g : Settings) (past : List Entry) (c : ℕ) →
        Fair g past → AllByRecursion IsSpellable (came past c) }
{}

/// No request or payload that an end made is longer than its mtu, where that sets a limit: longer
/// ones go out in fragments (RSocket 1.0, "Fragmentation and Reassembly").
pub fn no_fragment_is_longer_than_the_mtu()
    ensures { (g : Settings) (past : List Entry) → 64 ≤ g.mtu →
        AllByRecursion (FitsMtu g.mtu) (made g past) }
{}

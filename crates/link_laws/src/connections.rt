//! Laws of one connection. Entries stand newest first: `base` is what there was, and `more` came
//! after it.

ghost use Rattle.std.specs.Prelude.{◌≡◌, ◌++◌, ◌∷◌, ◌⊎◌, ℕ, List, Bool, Some, None, false, true};
ghost use Rattle.std.specs.List.{AllByRecursion};
ghost use Rattle.rs_wire.specs.declared.fault.Cause.{Cause};
ghost use Rattle.rs_wire.specs.declared.fault.Cause.TheVariants as cause;
ghost use Rattle.rs_wire.specs.declared.settings.Settings.{Settings};
ghost use Rattle.rs_frame.specs.declared.frame.Frame.{Frame};
ghost use Rattle.tape.specs.Told.{entry_of};
ghost use Rattle.tape.specs.declared.answer.Answer.TheVariants as answer;
ghost use Rattle.tape.specs.declared.entry.Entry.{Entry};
ghost use Rattle.tape.specs.declared.event.Event.TheVariants as event;
ghost use Rattle.session_model.specs.Legal.{Legal};
ghost use Rattle.session_model.specs.Life.{closed, is_live, live};
ghost use Rattle.link_model.specs.Leaving.{ClosedOn, ComesInTime, displaced, parted};
ghost use Rattle.link_laws.specs.Opened.{IsJustOpened};
ghost use Rattle.link_laws.specs.Staying.{IsHeld, StaysOn, ends};

/// Right after a server accepted an opening the connection is live, its first frame is all that
/// came, nothing was drawn, and the session is not closed.
pub fn a_just_opened_connection_is_fresh()
    ensures { (g : Settings) (before : List Entry) (who c : ℕ) (first : Frame) (taken : Bool) →
        Legal g (entry_of who (event.Open (Some first) taken) (answer.Opened c) ∷ before) →
        IsJustOpened g (entry_of who (event.Open (Some first) taken) (answer.Opened c) ∷ before)
        c first }
{}

/// A connection that its own caller alone moves and ends, and that this caller doesn't end, is
/// ended by nobody.
pub fn a_held_connection_stays()
    ensures { (c number : ℕ) (more : List Entry) → IsHeld c number more →
        AllByRecursion (λ (x : Entry). x.who ≡ number → ends c x.event ≡ false) more →
        StaysOn c more }
{}

/// A connection that nobody ends is live, until a later opening takes its place or its peer counts
/// as dead.
pub fn a_connection_stays_or_is_displaced()
    ensures live { (g : Settings) (c : ℕ) (more base : List Entry) →
        Legal g (more ++ base) → StaysOn c more → is_live (live base) c ≡ true →
        (is_live (live (more ++ base)) c ≡ true) ⊎ (displaced (more ++ base) c ≡ true) }
    ensures parted { (g : Settings) (c : ℕ) (more base : List Entry) →
        Legal g (more ++ base) → StaysOn c more → parted base c ≡ false →
        parted (more ++ base) c ≡ true → displaced (more ++ base) c ≡ true }
    ensures dead { (g : Settings) (c last : ℕ) (x : Entry) (more base : List Entry) →
        x.answer ≡ answer.Dead last → Legal g (more ++ base) → StaysOn c more →
        is_live (live base) c ≡ true → displaced (x ∷ more ++ base) c ≡ true }
{}

/// Frames come in time on a connection that nobody ends and no other displaced: it is not parted
/// yet, and no caller closed the session.
pub fn frames_come_in_time()
    ensures { (g : Settings) (c : ℕ) (more base : List Entry) →
        Legal g (more ++ base) → StaysOn c more → parted base c ≡ false →
        closed g base ≡ None → displaced (more ++ base) c ≡ false →
        ComesInTime g base c → ComesInTime g (more ++ base) c }
{}

/// A session that is closed while nobody ends its connection was closed on that connection, for a
/// cause other than a caller's close and than a cut, or the connection was displaced.
pub fn a_closed_session_closed_on_the_connection()
    ensures { (g : Settings) (c : ℕ) (more base : List Entry) (why : Cause) →
        Legal g (more ++ base) → StaysOn c more → is_live (live base) c ≡ true →
        closed g base ≡ None → closed g (more ++ base) ≡ Some why →
        (displaced (more ++ base) c ≡ true) ⊎ ClosedOn g (more ++ base) c }
{}

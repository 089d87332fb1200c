//! Laws of a client with entries C and a server with entries S, whose bytes crossed.

ghost use Rattle.std.specs.Prelude.{◌≡◌, ℕ, List};
ghost use Rattle.rs_wire.specs.declared.settings.Settings.{Settings};
ghost use Rattle.tape.specs.declared.entry.Entry.{Entry};
ghost use Rattle.session_model.specs.Lists.{IsPrefix};
ghost use Rattle.position.specs.Boundaries.{IsBoundary, pos};
ghost use Rattle.session_model.specs.Frames.{handled, made};
ghost use Rattle.session_laws.specs.Ends.{AreDrained, AreJoined};

/// What an end has handled is a prefix of what the other made, over all connections of the session,
/// in whatever pieces the bytes came, however many are lost or still under way, and however often
/// the session was resumed: every frame in its order, none left out, none twice and none that was
/// never made.
pub fn handled_begins_made()
    ensures up { (g h : Settings) (C S : List Entry) (pair : ℕ → ℕ) →
        AreJoined g h C S pair → IsPrefix (handled S) (made g C) }
    ensures down { (g h : Settings) (C S : List Entry) (pair : ℕ → ℕ) →
        AreJoined g h C S pair → IsPrefix (handled C) (made h S) }
{}

/// The position up to which an end has handled lies between two frames that the other made, before
/// the first or after the last, and never inside one (RSocket 1.0, "Resuming Operation").
pub fn handled_is_a_boundary()
    ensures up { (g h : Settings) (C S : List Entry) (pair : ℕ → ℕ) →
        AreJoined g h C S pair → IsBoundary (made g C) (pos (handled S)) }
    ensures down { (g h : Settings) (C S : List Entry) (pair : ℕ → ℕ) →
        AreJoined g h C S pair → IsBoundary (made h S) (pos (handled C)) }
{}

/// Where all that was due came on a connection that is live at both ends, and neither end is
/// closed, each end has handled all that the other made. On a connection that resumes, the client
/// has its RESUME_OK then.
pub fn drained_is_equal()
    ensures up { (g h : Settings) (C S : List Entry) (pair : ℕ → ℕ) (d : ℕ) →
        AreJoined g h C S pair → AreDrained g h C S (pair d) d → handled S ≡ made g C }
    ensures down { (g h : Settings) (C S : List Entry) (pair : ℕ → ℕ) (d : ℕ) →
        AreJoined g h C S pair → AreDrained g h C S (pair d) d → handled C ≡ made h S }
{}

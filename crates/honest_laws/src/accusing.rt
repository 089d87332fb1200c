//! The law of a client with entries C and a server with entries S, whose bytes crossed.

ghost use Rattle.std.specs.Prelude.{◌≡◌, ◌≤◌, ◌++◌, ℕ, List};
ghost use Rattle.position.specs.Boundaries.{acked, pos};
ghost use Rattle.session_model.specs.Frames.{first, handled, made};
ghost use Rattle.session_model.specs.Life.{told};
ghost use Rattle.session_laws.specs.Resumption.{IsHeldFrom};
ghost use Rattle.rs_wire.specs.declared.settings.Settings.{Settings};
ghost use Rattle.tape.specs.declared.entry.Entry.{Entry};
ghost use Rattle.session_laws.specs.Ends.{AreJoined};
ghost use Rattle.honest_laws.specs.Accusing.{AccusesNobody};

/// Neither end accuses the other: no entry is answered by a Violation of a rule that depends on no
/// limits (RSocket 1.0, "Frame Header Format", "Setup", "Stream Identifiers", "REQUEST_N Frame" and
/// "KEEPALIVE Frame"). Nothing is asked of the settings of the two ends but that each passed its
/// own check, nor of the order of what happens at one end and at the other.
pub fn honest_ends_accuse_nobody()
    ensures client { (g h : Settings) (C S : List Entry) (pair : ℕ → ℕ) →
        AreJoined g h C S pair → AccusesNobody C }
    ensures server { (g h : Settings) (C S : List Entry) (pair : ℕ → ℕ) →
        AreJoined g h C S pair → AccusesNobody S }
{}

/// An end is never told more than its peer has handled (RSocket 1.0, "Resuming Operation").
pub fn what_is_told_was_handled()
    ensures server { (g h : Settings) (C S : List Entry) (pair : ℕ → ℕ) →
        AreJoined g h C S pair → told h S ≤ pos (handled C) }
    ensures client { (g h : Settings) (C S : List Entry) (pair : ℕ → ℕ) →
        AreJoined g h C S pair → told g C ≤ pos (handled S) }
{}

/// Where an end holds all that is not acknowledged, it holds what its peer has not handled, so no
/// resumption is refused for a position. `on` speaks of a RESUME_OK that the server gave after the
/// entries `older`, of a client that was told no more by then than it tells.
pub fn what_is_not_handled_is_held()
    ensures server { (g h : Settings) (C S : List Entry) (pair : ℕ → ℕ) →
        AreJoined g h C S pair → first h S ≡ acked (made h S) (told h S) →
        IsHeldFrom h S (pos (handled C)) }
    ensures client { (g h : Settings) (C S : List Entry) (pair : ℕ → ℕ) →
        AreJoined g h C S pair → first g C ≡ acked (made g C) (told g C) →
        first g C ≤ pos (handled S) }
    ensures on { (g h : Settings) (C newer older : List Entry) (pair : ℕ → ℕ) →
        AreJoined g h C (newer ++ older) pair → first g C ≡ acked (made g C) (told g C) →
        told g C ≤ pos (handled older) → IsHeldFrom g C (pos (handled older)) }
{}

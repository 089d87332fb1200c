//! What is held, seen from the list of all frames made.

ghost use Rattle.std.specs.Prelude.{◌≡◌, ◌≤◌, ◌↔◌, ℕ, List};
ghost use Rattle.rs_frame.specs.declared.frame.Frame.{Frame};
ghost use Rattle.rs_frame.specs.Framed.{framed_all};
ghost use Rattle.position.specs.Boundaries.{IsBoundary, frames_from, pos};
ghost use Rattle.replay_buffer.specs.Held.{Held, IsHeldBoundary, IsHeldOf, end_of, framed_from};

/// What holds of what is held of the frames made (RSocket 1.0, "Resuming Operation"). The call
/// does nothing; its clauses are the laws.
pub fn held_of_made()
    // The held boundaries are those of the frames made that are not below the first one held.
    ensures boundaries { (made : List Frame) (told : ℕ) (h : Held) (p : ℕ) →
        IsHeldOf made told h → IsHeldBoundary h p ↔ (IsBoundary made p × (h.first ≤ p)) }
    // What is held from a position on is what was made from there on.
    ensures frames { (made : List Frame) (told : ℕ) (h : Held) (p : ℕ) →
        IsHeldOf made told h → h.first ≤ p → framed_from h p ≡ framed_all (frames_from made p) }
    // The newest frame held is the newest one made.
    ensures end { (made : List Frame) (told : ℕ) (h : Held) →
        IsHeldOf made told h → end_of h ≡ pos made }
    // Nothing else is held of these frames.
    ensures only { (made : List Frame) (told : ℕ) (h g : Held) →
        IsHeldOf made told h → IsHeldOf made told g → h.hold ≡ g.hold → h ≡ g }
{}

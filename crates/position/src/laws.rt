//! Laws of positions.

ghost use Rattle.std.specs.Prelude.{◌≡◌, ◌+◌, ◌-◌, ◌≤◌, ◌↔◌, ◌++◌, IsTrue, ℕ, List, take, drop};
ghost use Rattle.rs_frame.specs.declared.frame.Frame.{Frame};
ghost use Rattle.position.specs.Boundaries.{pos, is_boundary, IsBoundary, acked, least_boundary, first, frames_from};

/// What holds of the positions of all frames. The call does nothing; its clauses are the laws.
pub fn boundary_laws()
    // Positions add up.
    ensures sum { (fs gs : List Frame) → pos (fs ++ gs) ≡ pos fs + pos gs }
    // The test says where there is a boundary.
    ensures test { (fs : List Frame) (p : ℕ) → IsTrue (is_boundary fs p) ↔ IsBoundary fs p }
    // What is acknowledged is the greatest boundary that is not above what the peer has.
    ensures acked_boundary { (fs : List Frame) (told : ℕ) → IsBoundary fs (acked fs told) }
    ensures acked_at_most { (fs : List Frame) (told : ℕ) → acked fs told ≤ told }
    ensures acked_greatest { (fs : List Frame) (told b : ℕ) →
        IsBoundary fs b → b ≤ told → b ≤ acked fs told }
    // The least boundary from a position on, where the frames reach it.
    ensures least_boundary { (fs : List Frame) (low : ℕ) → IsBoundary fs (least_boundary fs low) }
    ensures least_at_least { (fs : List Frame) (low : ℕ) →
        low ≤ pos fs → low ≤ least_boundary fs low }
    ensures least_least { (fs : List Frame) (low b : ℕ) →
        IsBoundary fs b → low ≤ b → least_boundary fs low ≤ b }
    // What is held starts at a boundary, not before what is acknowledged, and has no more than
    // `hold` bytes.
    ensures first_boundary { (fs : List Frame) (told hold : ℕ) →
        IsBoundary fs (first fs told hold) }
    ensures first_after_acked { (fs : List Frame) (told hold : ℕ) →
        acked fs told ≤ first fs told hold }
    ensures first_within_hold { (fs : List Frame) (told hold : ℕ) →
        pos fs - hold ≤ first fs told hold }
    // The frames from a boundary on are all but those before it.
    ensures frames_from { (fs : List Frame) (p : ℕ) → IsBoundary fs p →
        (n : ℕ) × (pos (take n fs) ≡ p) × (frames_from fs p ≡ drop n fs) }
    ensures rest { (fs : List Frame) (p : ℕ) → IsBoundary fs p →
        p + pos (frames_from fs p) ≡ pos fs }
{}

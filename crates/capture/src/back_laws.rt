//! Laws of the lines of captures.

ghost use Rattle.std.specs.Prelude.{◌≡◌, ℕ, ◌≤◌, List, length};
ghost use Rattle.std.specs.List.{AllByRecursion};
ghost use Rattle.rs_frame.specs.declared.frame.Frame.{Frame};
ghost use Rattle.capture.specs.declared.TheConstants.{MOST_CAPTURE};
ghost use Rattle.capture.specs.Captured.{all_lines};
ghost use Rattle.capture.specs.Text.{IsFrame, IsTextOf, IsWrongLine};

/// What holds of every text. The call does nothing; its clauses are the laws.
pub fn text_laws()
    // A text is that of one list of frames.
    ensures one_text { (text : List ℕ) (fs gs : List Frame) → IsTextOf text fs →
        IsTextOf text gs → fs ≡ gs }
    // A text of frames has no wrong line.
    ensures either_text { (text : List ℕ) (fs : List Frame) (number : ℕ) (before : List Frame) →
        IsTextOf text fs → ¬ (IsWrongLine text number before) }
    // The first wrong line has one number, after the lines of one list of frames.
    ensures one_line { (text : List ℕ) (p q : ℕ) (fs gs : List Frame) →
        IsWrongLine text p fs → IsWrongLine text q gs → (p ≡ q) × (fs ≡ gs) }
    // The lines of frames are a text of them.
    ensures lines { (frames : List Frame) → AllByRecursion IsFrame frames →
        length (all_lines frames) ≤ MOST_CAPTURE → IsTextOf (all_lines frames) frames }
{}

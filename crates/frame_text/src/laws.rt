//! Laws of lines.

ghost use Rattle.std.specs.Prelude.{◌≡◌};
ghost use Rattle.rs_frame.specs.Spelling.{FieldsFit};
ghost use Rattle.rs_frame.specs.declared.frame.Frame.{Frame};
ghost use Rattle.frame_text.specs.Lines.{HasBytes, line_of};
ghost use Rattle.frame_text.specs.Reading.{words_of};

/// What holds of every line. The call does nothing; its clauses are the laws.
pub fn line_laws()
    // A line is that of at most one frame.
    ensures one { (f g : Frame) → FieldsFit f → HasBytes f → FieldsFit g → HasBytes g →
        line_of f ≡ line_of g → f ≡ g }
    // Every word of a frame's line is right.
    ensures right { (f : Frame) → FieldsFit f → HasBytes f → words_of (line_of f) ≡ Ok tt }
{}

//! Laws of scripts.

ghost use Rattle.std.specs.Prelude.{◌≡◌, ℕ, false, List};
ghost use Rattle.plain_text.specs.Lines.{lines_of};
ghost use Rattle.cable_script.specs.declared.line.Line.{Line};
ghost use Rattle.cable_script.specs.Line.{IsLine, text_of};
ghost use Rattle.cable_script.specs.Scripted.{Scripted};
ghost use Rattle.cable_script.specs.Script.{IsFirstWrong, IsScript, is_passed};

/// What holds of all lines. It does nothing: its contract is the law.
pub fn line_laws()
    // A text is that of one line.
    ensures one { (a b : Line) → IsLine a → IsLine b → text_of a ≡ text_of b → a ≡ b }

    // No line is passed over.
    ensures spoken { (l : Line) → IsLine l → is_passed (text_of l) ≡ false }
{}

/// What holds of all scripts. It does nothing: its contract is the law.
pub fn script_laws()
    // A text is that of one script.
    ensures one { (text : List ℕ) (a b : Scripted) → IsScript text a → IsScript text b → a ≡ b }

    // Each line of a script is right where it stands.
    ensures right { (text : List ℕ) (a : Scripted) (number : ℕ) → IsScript text a →
        ¬ (IsFirstWrong (lines_of text) number) }

    // The first wrong line has one number.
    ensures number { (lines : List (List ℕ)) (m n : ℕ) → IsFirstWrong lines m →
        IsFirstWrong lines n → m ≡ n }
{}

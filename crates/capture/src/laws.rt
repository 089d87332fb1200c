//! Laws of captures.

ghost use Rattle.std.specs.Prelude.{◌≡◌, ◌≤◌, ℕ, List, length};
ghost use Rattle.std.specs.List.{AllByRecursion};
ghost use Rattle.rs_frame.specs.declared.frame.Frame.{Frame};
ghost use Rattle.rs_frame.specs.Spelling.{IsSpellable};
ghost use Rattle.rs_frame.specs.Framed.{framed_all};
ghost use Rattle.capture.specs.declared.TheConstants.{MOST_CAPTURE};
ghost use Rattle.capture.specs.Captured.{IsBadAt, IsCapture};
ghost use Rattle.capture.specs.declared.lines.BadFrame.{BadFrame};

/// What holds of all bytes. The call does nothing; its clauses are the laws.
pub fn capture_laws()
    // A capture is of one list of frames.
    ensures one { (bytes : List ℕ) (fs gs : List Frame) → IsCapture bytes fs →
        IsCapture bytes gs → fs ≡ gs }
    // A capture has no frame that can't be read.
    ensures either { (bytes : List ℕ) (place : ℕ) (bad : BadFrame) (fs gs : List Frame) →
        IsCapture bytes fs → IsBadAt bytes place bad gs → ⊥ }
    // The first frame that can't be read stands at one place, after one list of frames, and one
    // thing is wrong with it.
    ensures one_place { (bytes : List ℕ) (p q : ℕ) (a b : BadFrame) (fs gs : List Frame) →
        IsBadAt bytes p a fs → IsBadAt bytes q b gs → (p ≡ q) × (a ≡ b) × (fs ≡ gs) }
    // The canonical bytes of frames, each after its length, are a capture of them.
    ensures framed { (frames : List Frame) →
        AllByRecursion IsSpellable frames → length (framed_all frames) ≤ MOST_CAPTURE →
        IsCapture (framed_all frames) frames }
{}

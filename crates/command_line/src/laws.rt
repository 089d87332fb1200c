//! Laws of the words.

ghost use Rattle.std.specs.Prelude.{◌≡◌, ◌↔◌, ◌∷◌, [], ℕ, List, codes, false, true};
ghost use Rattle.command_line.specs.Calls.{AsksCall};
ghost use Rattle.command_line.specs.Loads.{AsksLoad};
ghost use Rattle.command_line.specs.Serves.{AsksServe, IsInRange};
ghost use Rattle.command_line.specs.Words.{AreJust, Asks};
ghost use Rattle.command_line.specs.declared.call_task.CallTask.{CallTask};
ghost use Rattle.command_line.specs.declared.serve_task.ServeTask.{ServeTask};
ghost use Rattle.command_line.specs.declared.task.Task.{Task};
ghost use Rattle.command_line.specs.declared.task.Task.TheVariants.{Cable, Frames};

/// What the words of each task are. The call does nothing; its clauses are the laws.
pub fn words_laws()
    // Words ask for at most one task.
    ensures one { (words : List (List ℕ)) (a b : Task) → Asks words a → Asks words b → a ≡ b }
    // And for one call, for one large run, and for one server, whose numbers are in range.
    ensures one_call { (words : List (List ℕ)) (a b : CallTask) →
        AsksCall words a → AsksCall words b → a ≡ b }
    ensures one_load { (words : List (List ℕ)) (a b : ℕ) →
        AsksLoad words a → AsksLoad words b → a ≡ b }
    ensures one_server { (words : List (List ℕ)) (a b : ServeTask) →
        AsksServe words a → AsksServe words b → a ≡ b }
    ensures in_range { (words : List (List ℕ)) (t : ServeTask) → AsksServe words t → IsInRange t }
    // And for one of these alone.
    ensures apart { (words : List (List ℕ)) (task : Task) (t : CallTask) →
        Asks words task → AsksCall words t → ⊥ }
    ensures apart_of_load { (words : List (List ℕ)) (task : Task) (seed : ℕ) →
        Asks words task → AsksLoad words seed → ⊥ }
    ensures call_or_load { (words : List (List ℕ)) (t : CallTask) (seed : ℕ) →
        AsksCall words t → AsksLoad words seed → ⊥ }
    ensures apart_of_server { (words : List (List ℕ)) (task : Task) (s : ServeTask) →
        Asks words task → AsksServe words s → ⊥ }
    ensures call_or_serve { (words : List (List ℕ)) (t : CallTask) (s : ServeTask) →
        AsksCall words t → AsksServe words s → ⊥ }
    ensures load_or_serve { (words : List (List ℕ)) (seed : ℕ) (s : ServeTask) →
        AsksLoad words seed → AsksServe words s → ⊥ }
    // Each task's words, written out.
    ensures cable { (words : List (List ℕ)) → Asks words (Cable false) ↔
        AreJust words (codes "cable" ∷ []) }
    ensures cable_threads { (words : List (List ℕ)) → Asks words (Cable true) ↔
        AreJust words (codes "cable" ∷ codes "--threads" ∷ []) }
    ensures frames { (words : List (List ℕ)) → Asks words (Frames false) ↔
        AreJust words (codes "frames" ∷ []) }
    ensures frames_back { (words : List (List ℕ)) → Asks words (Frames true) ↔
        AreJust words (codes "frames" ∷ codes "--back" ∷ []) }
{}

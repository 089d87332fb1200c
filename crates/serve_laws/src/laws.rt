//! Laws of what a server leaves behind. Entries stand newest first.

ghost use Rattle.std.specs.Prelude.{◌≡◌, ◌<◌, ◌++◌, ℕ, List, [], ◌∷◌, Option, Some, length};
ghost use Rattle.std.specs.Prelude.{slice_get};
ghost use Rattle.rs_wire.specs.declared.call.Call.{Call};
ghost use Rattle.rs_wire.specs.declared.settings.Settings.{Settings};
ghost use Rattle.outside.specs.Links.{Shown};
ghost use Rattle.tape.specs.declared.answer.Answer.{Answer};
ghost use Rattle.tape.specs.declared.entry.Entry.{Entry};
ghost use Rattle.tape.specs.declared.event.Event.{Event};
ghost use Rattle.session_laws.specs.Streams.{IsLawful};
ghost use Rattle.conn_lock.specs.Callers.{IsOthers, calls, times};
ghost use Rattle.conn_shared.specs.Calls.{IsCalled};
ghost use Rattle.conn_shared.specs.Lines.{who_of};
ghost use Rattle.conn_shared.specs.Members.{Follows, Knowledge};
ghost use Rattle.handlers.specs.Listed.{Listed};
ghost use Rattle.workers.specs.Courses.{WorksOn};
ghost use Rattle.serve_model.specs.Names.{AreNamed, GoesOnBy};
ghost use Rattle.serve_laws.specs.Knowing.{IsEndingEvent, IsWorkersEvent, KnowsAt, KnowsJobs};
ghost use Rattle.serve_laws.specs.Knowing.{KnowsOwn, KnowsRow, KnowsSlot, KnowsWork, WasTakenIn};
ghost use Rattle.serve_laws.specs.Links.{IsServedLink};
ghost use Rattle.serve_laws.specs.Tapes.{AreServed, IsServersTape, number_at};

/// What the callers of links know of their own entries at one slot goes on when one takes in another.
pub fn callers_are_taken_in()
    // A caller that did nothing knows nothing that could be wrong.
    ensures new { (moments : Option (List ℕ)) (lease : Option Call) (rows : List (List ℕ)) (i : ℕ)
        (names : List ℕ) (front : List Entry) → IsOthers who_of names front →
        KnowsOwn moments lease rows i names front }
    ensures of_link { (g : Settings) (moments : Option (List ℕ)) (lease : Option Call)
        (fronts : List (List Entry)) (rows : List (List ℕ)) (k i n : ℕ) (front : List Entry)
        (link : Shown) → number_at rows k i ≡ Some n →
        KnowsAt g moments lease fronts k i n front link →
        KnowsOwn moments lease rows i (n ∷ []) front }
    ensures joined { (moments : Option (List ℕ)) (lease : Option Call) (rows : List (List ℕ))
        (i : ℕ) (a b : List ℕ) (x y list : List Entry) → Follows a x list → Follows b y list →
        KnowsOwn moments lease rows i a x → KnowsOwn moments lease rows i b y →
        KnowsOwn moments lease rows i (a ++ b) list }
    // Where each entry carries one of the names, all are named.
    ensures named { (names : List ℕ) (past : List Entry) →
        ((n : ℕ) → times n names ≡ 0 → calls who_of n past ≡ 0) → AreNamed names past }
{}

/// What workers know goes on when they are taken in.
pub fn workers_are_taken_in()
    ensures none { (routes : List Listed) (front : List Entry) → KnowsWork routes [] front }
    ensures joined { (routes : List Listed) (a b : List ℕ) (x y list : List Entry) →
        Follows a x list → Follows b y list → KnowsWork routes a x → KnowsWork routes b y →
        KnowsWork routes (a ++ b) list }
{}

/// What the last caller of a slot adds: calls of its own, and those of a worker.
pub fn own_calls_end_a_slot()
    ensures call { (g : Settings) (me : Knowledge) (e : Event) (a : Answer) (new : List Entry) →
        IsEndingEvent e → IsCalled g me e a new →
        GoesOnBy me.names (λ x. IsEndingEvent x.event) me.front new }
    ensures works { (names : List ℕ) (number : ℕ) (old new : List Entry) →
        WorksOn names number old new → GoesOnBy names (λ x. IsWorkersEvent x.event) old new }
    ensures ends { (names : List ℕ) (number : ℕ) (old new : List Entry) →
        WorksOn names number old new → GoesOnBy names (λ x. IsEndingEvent x.event) old new }
    ensures others { (names : List ℕ) (old new : List Entry) → Follows names old new →
        GoesOnBy names (λ x. IsEndingEvent x.event) old new }
    ensures both { (names : List ℕ) (a b c : List Entry) →
        GoesOnBy names (λ x. IsEndingEvent x.event) a b →
        GoesOnBy names (λ x. IsEndingEvent x.event) b c →
        GoesOnBy names (λ x. IsEndingEvent x.event) a c }
{}

/// Once all callers of a slot are taken in its tape is a server's.
pub fn a_tape_is_a_servers()
    ensures { (g : Settings) (moments : Option (List ℕ)) (lease : Option Call)
        (rows : List (List ℕ)) (i : ℕ) (names workers : List ℕ) (mid past : List Entry) →
        KnowsSlot g moments lease rows i names workers mid past →
        IsServersTape g moments lease rows i past }
{}

/// And its jobs are served.
pub fn all_jobs_are_served()
    ensures { (g : Settings) (routes : List Listed) (names workers : List ℕ) (n : ℕ)
        (past : List Entry) → IsLawful g past → AreNamed (names ++ workers) past →
        KnowsJobs g routes names workers n past → AreServed g routes past }
{}

/// Once all callers of all slots are taken in, each link is served.
pub fn a_link_is_served()
    ensures { (g : Settings) (moments : Option (List ℕ)) (lease : Option Call)
        (rows : List (List ℕ)) (k : ℕ) (row : List ℕ) (fronts tapes : List (List Entry))
        (link : Shown) → length fronts ≡ length tapes →
        ((i n : ℕ) (front past : List Entry) → slice_get row i ≡ Some n →
        slice_get fronts i ≡ Some front → slice_get tapes i ≡ Some past →
        WasTakenIn g moments lease rows i n front past) →
        KnowsRow g moments lease k row fronts link →
        IsServedLink g moments lease tapes k row link }
{}

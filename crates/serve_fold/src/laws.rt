//! Laws of callers that are taken in one after another. Entries stand newest first.

ghost use Rattle.std.specs.Prelude.{◌≡◌, ◌<◌, ℕ, Bool, List, [], ◌∷◌, Option, Some, IfSome, is_some};
ghost use Rattle.std.specs.Prelude.{slice_get};
ghost use Rattle.std.specs.List.{AllByRecursion};
ghost use Rattle.rs_wire.specs.declared.call.Call.{Call};
ghost use Rattle.rs_wire.specs.declared.settings.Settings.{Settings};
ghost use Rattle.session_model.specs.Legal.{Fair, Legal};
ghost use Rattle.conn_lock.specs.Callers.{calls, times};
ghost use Rattle.conn_shared.specs.Lines.{who_of};
ghost use Rattle.conn_shared.specs.Members.{Follows, Knowledge};
ghost use Rattle.handlers.specs.Listed.{Listed};
ghost use Rattle.workers.specs.declared.job.OpenJob.{OpenJob};
ghost use Rattle.workers.specs.Courses.{IsNoWork};
ghost use Rattle.workers.specs.Serving.{Serving};
ghost use Rattle.server.specs.Attending.{KeepsWork};
ghost use Rattle.serve_model.specs.Names.{Under};
ghost use Rattle.serve_slots.specs.Callers.{JoinedAll, Placed, TookIn, at_slot};
ghost use Rattle.serve_laws.specs.Knowing.{HasNoMore, KnowsJobs, KnowsOwn, KnowsSlot, KnowsWork};
ghost use Rattle.serve_laws.specs.Tapes.{number_at};
ghost use Rattle.serve_fold.specs.Slots.{EndsSlot, jobs_in, names_in};

/// At each slot its callers were taken in, in their order, and what they know of their own entries goes
/// on.
pub fn callers_of_a_slot_are_taken_in()
    ensures slot { (olds : List Knowledge) (others : List Placed) (news : List Knowledge)
        (slot : ℕ) (m : Knowledge) → TookIn olds others news → slice_get olds slot ≡ Some m →
        (n : Knowledge) × (slice_get news slot ≡ Some n) × JoinedAll m (at_slot slot others) n }
    ensures each { (m : Knowledge) (ks : List Knowledge) (n : Knowledge) (i : ℕ) (k : Knowledge) →
        JoinedAll m ks n → slice_get ks i ≡ Some k → Follows k.names k.front n.front }
    ensures own { (moments : Option (List ℕ)) (lease : Option Call) (rows : List (List ℕ))
        (slot : ℕ) (m : Knowledge) (ks : List Knowledge) (n : Knowledge) → JoinedAll m ks n →
        KnowsOwn moments lease rows slot m.names m.front →
        AllByRecursion (λ (k : Knowledge). KnowsOwn moments lease rows slot k.names k.front) ks →
        KnowsOwn moments lease rows slot n.names n.front }
{}

/// Once the last caller of a slot has taken in all others, what is known of them is known of the slot:
/// of its list, and of its jobs. The callers of other links than its own have made no call of a worker.
pub fn a_slot_is_known()
    ensures list { (helps : Bool) (own : Knowledge) (others workers : List Knowledge)
        (mid closed rest last : Knowledge) (g : Settings) (moments : Option (List ℕ))
        (lease : Option Call) (rows : List (List ℕ)) (i : ℕ) (routes : List Listed) →
        EndsSlot helps own others workers mid closed rest last →
        Legal g last.front → Fair g last.front →
        ((x : ℕ) → times x last.names ≡ 0 → calls who_of x last.front ≡ 0) →
        KnowsOwn moments lease rows i own.names own.front →
        AllByRecursion (λ (k : Knowledge). KnowsOwn moments lease rows i k.names k.front) others →
        AllByRecursion (λ (k : Knowledge). KnowsWork routes k.names k.front) workers →
        ((k l n : ℕ) → number_at rows k i ≡ Some n → number_at rows l i ≡ Some n → k ≡ l) →
        KnowsSlot g moments lease rows i mid.names (names_in workers) mid.front last.front }
    ensures jobs { (helps : Bool) (own : Knowledge) (others workers : List Knowledge)
        (mid closed rest last : Knowledge) (g : Settings) (routes : List Listed)
        (was now : Option (List OpenJob)) (j : ℕ) (worker : Knowledge) →
        EndsSlot helps own others workers mid closed rest last →
        own.names ≡ own.number ∷ [] → helps ≡ is_some was →
        KeepsWork closed.names routes closed.front rest.front was now →
        IfSome now (λ work. work ≡ []) → Serving own.names own.front routes (jobs_in was) →
        AllByRecursion (λ (k : Knowledge). Under k.names (λ x. IsNoWork x.event) k.front) others →
        AllByRecursion (λ (k : Knowledge). KnowsWork routes k.names k.front) workers →
        slice_get workers j ≡ Some worker → HasNoMore g worker.front →
        KnowsJobs g routes mid.names (names_in workers) own.number last.front }
{}

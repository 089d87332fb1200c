//! The law of a server whose threads have ended. Entries stand newest first.

ghost use Rattle.std.specs.Prelude.{◌≡◌, ◌≤◌, ◌+◌, ◌-◌, ◌^◌, ◌++◌, ◌⊎◌, ℕ, Bool, false, List, Option, length};
ghost use Rattle.std.specs.List.{AllByRecursion};
ghost use Rattle.std.specs.Option.{option_map};
ghost use Rattle.rs_wire.specs.declared.settings.Settings.{Settings};
ghost use Rattle.outside.specs.Links.{Shown};
ghost use Rattle.outside.specs.declared.net.Ask.{Ask};
ghost use Rattle.outside.specs.declared.net.Ask.TheVariants as ask;
ghost use Rattle.tape.specs.declared.entry.Entry.{Entry};
ghost use Rattle.conn_shared.specs.Members.{Knowledge, SharedId};
ghost use Rattle.crew.specs.Places.{Pairwise};
ghost use Rattle.handlers.specs.Listed.{Listed};
ghost use Rattle.server.specs.declared.served.Served.{Served};
ghost use Rattle.serve_slots.specs.Callers.{AreCallersOf, TookIn};
ghost use Rattle.serve_slots.specs.Tapes.{GotBackAs, IsWhole, fronts_of};
ghost use Rattle.serve_laws.specs.Serving.{HasServed};
ghost use Rattle.serve_links.specs.Callers.{lease_of};
ghost use Rattle.serve_threads.specs.Asking.{repeated};
ghost use Rattle.serve_threads.specs.Ending.{HaveCome};
ghost use Rattle.serve_threads.specs.Making.{AreInOrder, HaveWorkers, working};
ghost use Rattle.serve_threads.specs.Threads.{IsDone, IsNewCaller, IsReady, IsVacant};
ghost use Rattle.serve_threads.specs.declared.guest.Guest.{Guest};
ghost use Rattle.serve_threads.specs.declared.worker.Worker.{Worker};
ghost use Rattle.serve_told.specs.Answers.{AreAnswered};
ghost use Rattle.serve_told.specs.Links.{answers_of, links_of, some_lack};
ghost use Rattle.serve_told.specs.Told.{Tells};

/// Links came to the places that were made, and were served with workers beside; all was ended over
/// the places, and the last caller of each slot took the workers in. Where memory did not run out,
/// and the tape of each slot is all that its last caller has seen, the tapes are a server's, all
/// their jobs are served, and each link is served as its answer says. N is the net, L a link, T a tape.
pub fn the_threads_tell<N, L, T>()
    ensures { (shown : L → Shown) (g : Settings) (ids : List SharedId)
        (moments : Option (List ℕ)) (grant : Option ℕ) (routes : List Listed)
        (asked : N → Option (List Ask)) (back : N → Option (List Shown)) (out faults : N → ℕ)
        (ws : Bool) (n m : N) (mains : List Knowledge) (places : List (Guest L T))
        (mains' : List Knowledge) (places' : List (Guest L T)) (workers workers' : List (Worker T))
        (lasts : List Knowledge) → AllByRecursion IsNewCaller mains →
        AllByRecursion (IsVacant g ids) places → length places ≡ length ids →
        AreInOrder 0 places → AllByRecursion (IsReady g ids) workers →
        HaveWorkers (length ids) workers →
        HaveCome shown g moments grant routes asked back out faults ws n m mains places mains'
        places' → Pairwise (IsDone g routes) workers workers' →
        TookIn mains' (working workers') lasts → AreCallersOf ids lasts →
        some_lack places' ≡ false → AllByRecursion IsWhole lasts →
        Tells g moments grant routes (links_of shown places') (answers_of places') lasts }
{}

/// And where the tapes and the links are put back, and the net was asked for links alone, the
/// server has served, and each answer is that of its link.
pub fn a_server_that_tells_has_served()
    ensures { (g : Settings) (moments : Option (List ℕ)) (grant : Option ℕ) (ws : Bool)
        (many : ℕ) (routes : List Listed) (links : List Shown) (answers : List Served)
        (lasts : List Knowledge)
        (shelf shelf' : List (Option (List Entry))) (asked asked' : Option (List Ask))
        (back back' : Option (List Shown)) (out out' : ℕ) →
        Tells g moments grant routes links answers lasts → length lasts ≡ many →
        GotBackAs (fronts_of lasts) shelf shelf' → (accepts : ℕ) →
        (length links ≤ accepts) × (accepts ≤ many) →
        asked' ≡ option_map (λ was. was ++ repeated accepts (ask.Accept ws)) asked →
        back' ≡ option_map (λ was. was ++ links) back →
        (out' ≡ out) ⊎ (2 ^ 64 - 1 ≤ out + many) →
        (has : HasServed g (lease_of grant) ws many routes moments links shelf shelf' asked asked'
        back back' out out') × AreAnswered g moments grant has.tapes has.rows links answers }
{}

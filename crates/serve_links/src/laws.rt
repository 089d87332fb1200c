//! The law of a link that was served. Entries stand newest first.

ghost use Rattle.std.specs.Prelude.{◌≡◌, ◌≢◌, ℕ, Bool, true, false, List, [], ◌∷◌, Option, Some, slice_get};
ghost use Rattle.std.specs.List.{AllByRecursion};
ghost use Rattle.rs_wire.specs.declared.settings.Settings.{Settings};
ghost use Rattle.outside.specs.Links.{Shown};
ghost use Rattle.tape.specs.declared.entry.Entry.{Entry};
ghost use Rattle.session_model.specs.Legal.{Legal};
ghost use Rattle.conn_shared.specs.Members.{Knowledge};
ghost use Rattle.server.specs.Opening.{AreBack, fronts};
ghost use Rattle.server.specs.Serving.{Adds, IsCarried, IsLeft, IsUnopened};
ghost use Rattle.server.specs.declared.served.Served.{Served};
ghost use Rattle.server.specs.declared.served.Served.TheVariants as served;
ghost use Rattle.workers.specs.Courses.{IsNoWork};
ghost use Rattle.serve_model.specs.Names.{Under};
ghost use Rattle.serve_laws.specs.Knowing.{KnowsRow};
ghost use Rattle.serve_links.specs.Callers.{IsNewCaller, lease_of, numbers};

/// What serving a link came to, said of each of its callers by what it has seen. Before it they have
/// made no entry, and memory was there.
pub fn a_link_is_known()
    ensures { (g : Settings) (moments : Option (List ℕ)) (helps : Bool) (grant : Option ℕ)
        (k : ℕ) (olds news : List Knowledge) (link : Shown) (s : Served) (opened : Option (ℕ × ℕ)) →
        AllByRecursion IsNewCaller olds → AreBack olds news → s ≢ served.OutOfMemory →
        Adds g moments helps grant k olds news link (s, opened) →
        IsCarried g news link (s, opened) → IsLeft g news link (s, opened) →
        IsUnopened g moments news link (s, opened) →
        KnowsRow g moments (lease_of grant) k (numbers news) (fronts news) link }
{}

/// Jobs are served with a link only where there is no resumption, and then at its own slot alone: at
/// the others its callers make no call of a worker.
pub fn a_link_works_at_its_own_slot()
    ensures { (g : Settings) (moments : Option (List ℕ)) (helps : Bool) (grant : Option ℕ)
        (k : ℕ) (olds news : List Knowledge) (link : Shown) (s : Served) (opened : Option (ℕ × ℕ))
        (i n : ℕ) (front : List Entry) →
        AllByRecursion IsNewCaller olds → AreBack olds news →
        AllByRecursion (λ (me : Knowledge). Legal g me.front) news →
        (helps ≡ true → g.resume ≡ false) → s ≢ served.OutOfMemory →
        Adds g moments helps grant k olds news link (s, opened) →
        (helps ≡ true → i ≢ k) → slice_get (numbers news) i ≡ Some n → slice_get (fronts news) i ≡ Some front →
        Under (n ∷ []) (λ x. IsNoWork x.event) front }
{}

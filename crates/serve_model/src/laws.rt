//! Laws of what a server's callers know of their own entries. Entries stand newest first: `more` came
//! after the others.

ghost use Rattle.std.specs.Prelude.{◌≡◌, ◌<◌, ◌++◌, ℕ, false, Option, List, [], ◌∷◌};
ghost use Rattle.std.specs.List.{AllByRecursion};
ghost use Rattle.rs_wire.specs.declared.call.Call.{Call};
ghost use Rattle.rs_wire.specs.declared.call.Call.TheVariants as call;
ghost use Rattle.rs_wire.specs.declared.fault.Refusal.{Refusal};
ghost use Rattle.rs_wire.specs.declared.settings.Settings.{Settings};
ghost use Rattle.outside.specs.Links.{Shown};
ghost use Rattle.tape.specs.declared.answer.Answer.TheVariants as answer;
ghost use Rattle.tape.specs.declared.entry.Entry.{Entry};
ghost use Rattle.tape.specs.declared.event.Event.TheVariants as event;
ghost use Rattle.stream_model.specs.Streams.{jobs};
ghost use Rattle.session_model.specs.Answers.{answer_to};
ghost use Rattle.session_model.specs.Legal.{Legal};
ghost use Rattle.session_model.specs.Streams.{words};
ghost use Rattle.session_laws.specs.Jobs.{jobs_got};
ghost use Rattle.session_laws.specs.Streams.{IsLawful};
ghost use Rattle.link_model.specs.Carrying.{IsAlone};
ghost use Rattle.serve_model.specs.Counts.{accepted_by, opened_by, opens_by, since_open};
ghost use Rattle.serve_model.specs.Links.{IsLinked, KnowsLink};
ghost use Rattle.serve_model.specs.Names.{GoesOnBy, Under};
ghost use Rattle.serve_model.specs.Order.{HasNoClose, IsHandledByOwner, IsOwn, IsQuiet};
ghost use Rattle.serve_model.specs.Order.{OpensFirst, is_opening};

/// What a caller knows of the link whose connection it opened holds of the whole tape.
pub fn a_link_is_known_when_all_are_taken_in()
    ensures { (g : Settings) (lease : Option Call) (n c : ℕ) (front past : List Entry)
        (link : Shown) → Legal g past → AllByRecursion (IsOwn past) past →
        AllByRecursion (IsHandledByOwner past) front → HasNoClose front →
        0 < opened_by n c front → GoesOnBy (n ∷ []) (λ x. IsQuiet x.event) front past →
        KnowsLink g lease n c front link → IsLinked g lease n c past link }
{}

/// Where TakeJob was refused all jobs were got, whatever entries follow.
pub fn all_jobs_were_got_where_none_is_left()
    ensures { (g : Settings) (more before : List Entry) (why : Refusal) →
        IsLawful g (more ++ before) →
        answer_to g before (event.Asked call.TakeJob) ≡ answer.Refused why →
        jobs_got (more ++ before) ≡ jobs g.max_streams (words g (more ++ before)) }
{}

/// Where all openings stand first, and no Close before them, nothing is opened after a Close.
pub fn openings_stand_before_the_first_close()
    ensures { (more past : List Entry) →
        AllByRecursion (λ (x : Entry). is_opening x.event ≡ false) more → HasNoClose past →
        OpensFirst (more ++ past) }
{}

/// Who handles a connection by what was known earlier has opened it by what is known later.
pub fn connections_are_handled_by_those_who_opened_them()
    ensures grows { (names : List ℕ) (old more past : List Entry) →
        Under names (IsHandledByOwner old) past → Under names (IsHandledByOwner (more ++ old)) past }
    ensures alone { (g : Settings) (n c : ℕ) (past : List Entry) → Legal g past →
        0 < opened_by n c past → AllByRecursion (IsOwn past) past → IsAlone c n past }
{}

/// The counts of a caller go on where it opens nothing more.
pub fn counts_stay_where_nothing_is_opened()
    ensures opens { (n : ℕ) (more past : List Entry) →
        Under (n ∷ []) (λ x. is_opening x.event ≡ false) more →
        opens_by n (more ++ past) ≡ opens_by n past }
    ensures accepted { (n : ℕ) (more past : List Entry) →
        Under (n ∷ []) (λ x. is_opening x.event ≡ false) more →
        accepted_by n (more ++ past) ≡ accepted_by n past }
    ensures opened { (n c : ℕ) (more past : List Entry) →
        Under (n ∷ []) (λ x. is_opening x.event ≡ false) more →
        opened_by n c (more ++ past) ≡ opened_by n c past }
    ensures since { (n : ℕ) (more past : List Entry) →
        Under (n ∷ []) (λ x. is_opening x.event ≡ false) more →
        since_open n (more ++ past) ≡ more ++ since_open n past }
{}

//! Laws of the openings of one end (RSocket 1.0, "Setup" and "Resuming Operation"), whatever its peer
//! sends.

ghost use Rattle.std.specs.Prelude.{◌≡◌, ◌≢◌, ◌≤◌, ◌++◌, ℕ, Bool, false, List, Some};
ghost use Rattle.rs_wire.specs.declared.settings.Settings.{Settings};
ghost use Rattle.rs_frame.specs.declared.frame.Frame.TheVariants as frame;
ghost use Rattle.rs_frame.specs.declared.frame.Resume.{Resume};
ghost use Rattle.rs_frame.specs.declared.frame.Setup.{Setup};
ghost use Rattle.tape.specs.declared.answer.Answer.TheVariants as answer;
ghost use Rattle.tape.specs.declared.entry.Entry.{Entry};
ghost use Rattle.tape.specs.declared.event.Event.TheVariants as event;
ghost use Rattle.session_model.specs.Answers.{answer_to};
ghost use Rattle.session_model.specs.Legal.{Legal};
ghost use Rattle.session_model.specs.Life.{setup};
ghost use Rattle.session_laws.specs.Openings.{times_opened};

/// No two openings are accepted under one number: each connection has a number of its own.
pub fn an_opening_is_accepted_once()
    ensures { (g : Settings) (past : List Entry) (c : ℕ) → Legal g past →
        times_opened past c ≤ 1 }
{}

/// The SETUP that a server accepted stays the one of the session, whatever comes later.
pub fn the_accepted_setup_stays()
    ensures { (more past : List Entry) (accepted : Setup) →
        setup past ≡ Some accepted → setup (more ++ past) ≡ Some accepted }
{}

/// An end whose settings have no resumption accepts no RESUME.
pub fn no_resume_is_accepted_where_none_is_agreed()
    ensures { (g : Settings) (past : List Entry) (r : Resume) (taken : Bool) (c : ℕ) →
        Legal g past → g.resume ≡ false →
        answer_to g past (event.Open (Some (frame.Resume r)) taken) ≢ answer.Opened c }
{}

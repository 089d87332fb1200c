//! A law of the answers.

ghost use Rattle.rs_wire.specs.declared.settings.Settings.{Settings};
ghost use Rattle.tape.specs.declared.event.Event.{Event};
ghost use Rattle.session_model.specs.Answers.{Facts, answer_by};
ghost use Rattle.session_model.specs.Means.{Means};

/// Every answer has its meaning. It does nothing: its contract is the law.
pub fn answers_have_their_meaning()
    ensures { (g : Settings) (t : Facts) (e : Event) → Means g t e (answer_by g t e) }
{}

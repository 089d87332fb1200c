//! The answers to RESUME and RESUME_OK (RSocket 1.0, "Resuming Operation").

ghost use Rattle.std.specs.Prelude.{◌≡◌, ◌+◌, Some};
ghost use Rattle.session_model.specs.Answers.{gone_with, handled_unless_gone, ok_gone, opened_unless_gone, resume_gone};
ghost use Rattle.session_core.specs.Fits.{HasRoom, facts_of};
ghost use Rattle.session_core.specs.Kept.{has_boundary};

use crate::state::State;
use resume_core::{judge_ok, judge_resume};
use rs_frame::{Resume, Setup};
use rs_wire::{Blob, Gone};
use tape::Answer;

// Whether a held frame begins or ends at the position.
fn has_boundary(state: &State, position: u64) -> bool
    ensures { result ≡ has_boundary state.now.outbox.held position }
{
    state.outbox.is_boundary(position)
}

// The first thing that is wrong with a RESUME, where the session resumes by this token.
fn gone_with(state: &State, resume: &Resume, token: &Blob) -> Option<Gone>
    ensures { result ≡ gone_with (facts_of state.now) resume.now (Some token.now) }
{
    let first = state.outbox.first();
    let made = state.made.position;
    let boundary = has_boundary(state, resume.server_position);
    let handled = state.handled.position;
    match judge_resume(resume, token, first, made, boundary, handled) {
        Ok(()) => None,
        Err(gone) => Some(gone),
    }
}

// The first thing that is wrong with a RESUME. A session that is not begun, or whose SETUP had no
// token, is resumed by none.
fn resume_gone(state: &State, resume: &Resume) -> Option<Gone>
    ensures { result ≡ resume_gone (facts_of state.now) resume.now }
{
    match &state.setup {
        Some(
            Setup {
                resume: Some(token),
                ..
            },
        ) => gone_with(state, resume, token),
        _ => Some(Gone::Token),
    }
}

/// The answer to a RESUME, on a session that is not closed.
pub fn to_resume(state: &State, resume: &Resume) -> Answer
    requires { HasRoom state.now }
    ensures { let t = facts_of state.now in
        result ≡ opened_unless_gone (resume_gone t resume.now) (t.openings + 1) }
{
    match resume_gone(state, resume) {
        Some(gone) => Answer::ResumeRefused(gone),
        None => Answer::Opened(state.openings + 1),
    }
}

/// The answer to the RESUME_OK that a client waits for.
pub fn to_resume_ok(state: &State, position: u64) -> Answer
    ensures { result ≡ handled_unless_gone (ok_gone (facts_of state.now) position) }
{
    let first = state.outbox.first();
    let boundary = has_boundary(state, position);
    match judge_ok(position, first, state.made.position, boundary) {
        Ok(()) => Answer::Handled,
        Err(gone) => Answer::ResumeRefused(gone),
    }
}

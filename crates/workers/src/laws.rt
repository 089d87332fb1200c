//! What a worker keeps, where it makes no call.

ghost use Rattle.std.specs.Prelude.{◌≡◌, ◌<◌, ◌⊎◌, ◌++◌, ℕ, List, [], ◌∷◌};
ghost use Rattle.tape.specs.declared.entry.Entry.{Entry};
ghost use Rattle.conn_lock.specs.Callers.{IsOthers, times};
ghost use Rattle.conn_shared.specs.Lines.{who_of};
ghost use Rattle.conn_shared.specs.Members.{Follows};
ghost use Rattle.handlers.specs.Listed.{Listed};
ghost use Rattle.workers.specs.declared.job.OpenJob.{OpenJob};
ghost use Rattle.workers.specs.Courses.{IsNoWork, Under, course, no_course};
ghost use Rattle.workers.specs.Serving.{Serving};

/// With no job in its work, what a worker keeps holds of a caller none of whose names any entry
/// carries, as of the first caller of a new connection and of one that was just split off. It does
/// nothing: its contract is the law.
pub fn a_worker_begins()
    ensures { (names : List ℕ) (past : List Entry) (routes : List Listed) →
        IsOthers who_of names past → Serving names past routes [] }
{}

/// What a worker keeps goes on over entries of others, and over those under its own names that are
/// no calls of a worker, as draws, ticks and frames that came. It does nothing: its contract is the
/// law.
pub fn a_worker_waits()
    ensures { (names : List ℕ) (past more : List Entry) (routes : List Listed)
        (work : List OpenJob) → Under names (λ x. IsNoWork x.event) more →
        Serving names past routes work → Serving names (more ++ past) routes work }
{}

/// What a worker keeps goes on where it takes in a caller that worked on nothing: both fronts went
/// on to one list by entries of others alone. It does nothing: its contract is the law.
pub fn serving_joined()
    ensures { (own joined : List ℕ) (front other list : List Entry) (routes : List Listed)
        (work : List OpenJob) → Follows own front list → Follows joined other list →
        Under joined (λ x. IsNoWork x.event) other → Serving own front routes work →
        Serving (own ++ joined) list routes work }
{}

/// Where all calls of a worker under these names carry one of them, the course of each stream is
/// that of this name alone. It does nothing: its contract is the law.
pub fn course_of_one()
    ensures { (names : List ℕ) (name stream : ℕ) (past : List Entry) →
        Under names (λ x. IsNoWork x.event ⊎ (x.who ≡ name)) past → 0 < times name names →
        course names stream past ≡ course (name ∷ []) stream past }
{}

/// Where these names made no call of a worker, no stream has a course. It does nothing: its contract
/// is the law.
pub fn course_of_none()
    ensures { (names : List ℕ) (stream : ℕ) (past : List Entry) →
        Under names (λ x. IsNoWork x.event) past → course names stream past ≡ no_course }
{}

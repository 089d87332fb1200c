//! Laws of what handlers give and of how routes are found.

ghost use Rattle.std.specs.Prelude.{◌≡◌, ◌≤◌, ℕ, List, Some, None, slice_get};
ghost use Rattle.rs_wire.specs.declared.words.Kind.{Kind};
ghost use Rattle.handlers.specs.Listed.{IsFor, Listed, place};
ghost use Rattle.handlers.specs.Values.{value};
ghost use Rattle.handlers.specs.declared.law.Law.{Law};

/// What finishes at an index gives no item at a later one. It does nothing: its contract is the
/// law.
#[tactic(auto, using(crate::proofs::Final::finish_stays))]
pub fn a_finish_is_final()
    ensures { (law : Law) (content : List ℕ) (i j : ℕ) →
        i ≤ j → value law content i ≡ None → value law content j ≡ None }
{}

/// A route has the name and the kind by which it is found, and where none is found none has them.
/// It does nothing: its contract is the law.
#[tactic(auto, using(crate::proofs::Finding::found_is_for, crate::proofs::Finding::none_is_for))]
pub fn routes_are_found_by_name_and_kind()
    ensures found { (routes : List Listed) (name : List ℕ) (kind : Kind) (n : ℕ) (route : Listed) →
        place routes name kind ≡ Some n → slice_get routes n ≡ Some route → IsFor name kind route }
    ensures none { (routes : List Listed) (name : List ℕ) (kind : Kind) (n : ℕ) (route : Listed) →
        place routes name kind ≡ None → slice_get routes n ≡ Some route →
        ¬ (IsFor name kind route) }
{}

//! Laws of the streams of an end whose rules were kept.

ghost use Rattle.std.specs.Prelude.{ℕ, List, ◌∷◌};
ghost use Rattle.stream_model.specs.Marks.{Mark};
ghost use Rattle.stream_model.specs.Fair.{Fair};
ghost use Rattle.stream_model.specs.Laws.{EachStream, GrantedWithin, LiveWithin, OverForGood};

/// Of each stream: no more items were sent than granted, and a response carries one at most. What was
/// taken is a prefix of what was delivered, which has one end at most, as its last. Until this end itself
/// ends the way that it receives, all items of that way are delivered, in their order, and an end exactly
/// where the way is over; after it nothing waits. It does nothing: its contract is the law.
pub fn each_stream_keeps_its_laws()
    ensures { (most : ℕ) (seen : List Mark) → Fair most seen → EachStream most seen }
{}

/// A way that is over stays over. It does nothing: its contract is the law.
pub fn over_is_for_good()
    ensures { (most : ℕ) (seen : List Mark) (m : Mark) → Fair most (m ∷ seen) →
        OverForGood most seen m }
{}

/// No more streams are open than may be. It does nothing: its contract is the law.
pub fn streams_find_their_places()
    ensures { (most : ℕ) (seen : List Mark) → Fair most seen → LiveWithin most seen }
{}

/// On each way of a stream at most 2^31 items were granted for each mark. It does nothing: its contract
/// is the law.
pub fn grants_are_few()
    ensures { (most : ℕ) (seen : List Mark) → Fair most seen → GrantedWithin most seen }
{}

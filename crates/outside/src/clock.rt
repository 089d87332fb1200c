//! A clock.

ghost use Rattle.std.specs.Prelude.{ℕ, List, Option, Contains, IfSome};

/// A clock. A moment is a number of milliseconds from a start of the clock's own.
pub trait Clock {
    /// The moments that the clock may give, fixed when it is made. A clock that does not show them
    /// has `None`.
    ghost moments: { Self → Option (List ℕ) };

    /// The moment now.
    fn now(&self) -> u64
        ensures { IfSome (moments self.now) (λ told. Contains told result) };
}

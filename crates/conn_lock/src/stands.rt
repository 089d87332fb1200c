//! A value that represents a list.

ghost use Rattle.std.specs.Prelude.{ℕ, List};

/// A value that represents a list of entries, each with the number of the caller that made it.
///
/// The trait has no call. Its impl says which list a value represents and which number an entry
/// carries, and the contracts of the lock speak of that list alone.
pub trait Stands {
    /// What the list is of. It is plain data, and the lock never looks at it.
    type Entry;

    // The list that the value represents.
    ghost list: { Self → List Self.Entry };

    // The number of the caller that made the entry.
    ghost number: { Self.Entry → ℕ };
}

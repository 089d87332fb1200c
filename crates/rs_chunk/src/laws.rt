//! Laws of frames in a stream.

ghost use Rattle.std.specs.Prelude.{◌≡◌, ℕ, List};
ghost use Rattle.rs_chunk.specs.Stream.{Reads};

/// What holds of all bytes. It does nothing: its contract is the law.
pub fn stream_laws()
    // However bytes are read as frames and a rest, they are read in one way.
    ensures one_way { (bytes : List ℕ) (fs gs : List (List ℕ)) (r s : List ℕ) →
        Reads bytes fs r → Reads bytes gs s → (fs ≡ gs) × (r ≡ s) }
{}

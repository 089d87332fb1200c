//! What splitting and joining keep.

ghost use Rattle.std.specs.Prelude.{◌≡◌, ◌≢◌, ◌<◌, ◌≤◌, ℕ, Bool, true, false, List, [], ◌∷◌, ◌++◌, length, map, replicate, ◌+◌, All, Ok};
ghost use Rattle.rs_wire.specs.Message.{size_of};
ghost use Rattle.rs_frame.specs.declared.frame.Frame.{Frame};
ghost use Rattle.rs_frame.specs.Spelling.{IsSpellable, length_of, stream_of};
ghost use Rattle.fragment.specs.Splitting.{IsSplittable, IsMtu, IsNextKept, EachButLast, carried_by, follows_of, complete_of, first_fragment, rest_after, split_of};
ghost use Rattle.fragment.specs.Joining.{Gathered, empty_glue, part_of, join, joined, answers};

use crate::glue::Glued;

/// The laws of splitting and joining; its contract is all that it says (RSocket 1.0,
/// "Fragmentation and Reassembly"). They are about every mtu of 64 or more, and of 0 where no
/// limit is said.
pub fn fragment_laws()
    // A frame that fits is its own one fragment.
    ensures fits { (f : Frame) (mtu : ℕ) → length_of f ≤ mtu → split_of f mtu ≡ f ∷ [] }
    // A longer one is its first fragment, and then the fragments of the rest.
    ensures cut { (f : Frame) (mtu : ℕ) → IsSplittable f → 64 ≤ mtu → mtu < length_of f →
        split_of f mtu ≡ first_fragment mtu f ∷ split_of (rest_after mtu f) mtu }
    // Every fragment can be spelled.
    ensures spellable { (f : Frame) (mtu : ℕ) → IsSpellable f → IsSplittable f → IsMtu mtu →
        All IsSpellable (split_of f mtu) }
    // All are of the stream.
    ensures stream { (f : Frame) (mtu : ℕ) → IsSplittable f → IsMtu mtu →
        All (λ g. stream_of g ≡ stream_of f) (split_of f mtu) }
    // None is longer than the mtu.
    ensures short { (f : Frame) (mtu : ℕ) → IsSplittable f → 64 ≤ mtu →
        All (λ g. length_of g ≤ mtu) (split_of f mtu) }
    // Each but the last is exactly as long, and has F and no C.
    ensures full { (f : Frame) (mtu : ℕ) → IsSplittable f → 64 ≤ mtu →
        EachButLast (λ g. (length_of g ≡ mtu) × (follows_of g ≡ true) × (complete_of g ≡ false))
        (split_of f mtu) }
    // Joined they have what the whole carried, and its C.
    ensures message { (f : Frame) (mtu : ℕ) → IsSplittable f → IsMtu mtu →
        (joined (map part_of (split_of f mtu))).message ≡ carried_by f }
    ensures complete { (f : Frame) (mtu : ℕ) → IsSplittable f → IsMtu mtu →
        (joined (map part_of (split_of f mtu))).complete ≡ complete_of f }
    // And the N of a payload.
    ensures next { (f : Frame) (mtu : ℕ) → IsSplittable f → IsMtu mtu →
        IsNextKept f (joined (map part_of (split_of f mtu))).next }
    // Joining grows at the end as parts come.
    ensures grows { (parts : List Gathered) (part : Gathered) →
        joined (parts ++ part ∷ []) ≡ join (joined parts) part }
    // Pushed in turn into an empty glue that takes the whole, each but the last gives Part,
    // and the last gives the message, with its C and, for a payload, its N.
    ensures glued { (f : Frame) (mtu max_payload : ℕ) → IsSplittable f → IsMtu mtu →
        size_of (carried_by f) ≤ max_payload →
        (k : ℕ) × (next : Bool) × (length (split_of f mtu) ≡ k + 1) × IsNextKept f next
        × (answers (empty_glue max_payload) (split_of f mtu)
        ≡ replicate k (Ok Glued.Part)
        ++ (Ok (Glued.Whole (carried_by f) (complete_of f) next) ∷ [])) }
{}

//! The slices of a message, which its segments carry.

ghost use Rattle.std.specs.Prelude.{◌≡◌, ℕ, ◌+◌, ◌*◌, ◌%◌, ◌<◌, ◌≤◌, List, length, Option, None, slice_index_or};
ghost use Rattle.transport_segments.specs.Segment.{id_of, offset_of, payload_of, segment_text, size_of};
ghost use Rattle.transport_segments.specs.Parts.{slice_at};
ghost use Rattle.transport_segments.specs.Places.{IsLeastMissing, IsThere};
ghost use Rattle.transport_segments.specs.Kept.{Reassembly};
ghost use Rattle.transport_segments.specs.Reassembly.{opened, places_after};
ghost use Rattle.proof_messages.specs.Slices.{AddsSlice, InSlices, IsSlice, KeepsSlices, missing_to};

/// Each segment of a message carries one slice of it. Where what is kept came in slices, so it does with one more, of whatever message: that slice has come
/// then, and no other. So the first byte that is missing begins a slice; and with each slice that was missing one less is.
pub fn messages_come_in_slices()
    ensures carried { (message : List ℕ) (session place : ℕ) → 1 ≤ length message → length message ≤ 512 → 39 * place < length message →
        IsSlice place (segment_text (session % 16) (length message) (39 * place) (slice_at message place)) }
    ensures adds { (kept : Reassembly) (segment : List ℕ) (place : ℕ) → KeepsSlices kept → IsSlice place segment →
        offset_of segment + length (payload_of segment) ≤ size_of segment →
        AddsSlice place (opened kept (id_of segment) (size_of segment)) (places_after kept segment) }
    ensures opened { (kept : Reassembly) (id size : ℕ) → KeepsSlices kept → length (opened kept id size) ≡ size }
    ensures begins { (places : List (Option ℕ)) (at : ℕ) → InSlices places → IsLeastMissing places at → (k : ℕ) × (at ≡ 39 * k) }
    ensures no_more { (old new : List (Option ℕ)) → ((k : ℕ) → IsThere old (39 * k) → IsThere new (39 * k)) → (count : ℕ) →
        missing_to new count ≤ missing_to old count }
    ensures one_less { (old new : List (Option ℕ)) → ((k : ℕ) → IsThere old (39 * k) → IsThere new (39 * k)) → (place : ℕ) → IsThere new (39 * place) →
        slice_index_or old (39 * place) None ≡ None → (count : ℕ) → place < count → missing_to new count + 1 ≤ missing_to old count }
{}

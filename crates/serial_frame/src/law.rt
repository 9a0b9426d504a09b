//! Laws of the definitions, each the contract of a function that does nothing.

ghost use Rattle.std.specs.Prelude.{◌≡◌, ◌≢◌, ℕ, List, [], ◌∷◌, ◌<◌, ◌≤◌, length, slice_index, slice_set};
ghost use Rattle.serial_frame.specs.Frame.{FrameParts};
ghost use Rattle.serial_frame.specs.Items.{unit_text};
ghost use Rattle.serial_frame.specs.Stream.{Signal, Reads, Splits, Rest};
ghost use Rattle.serial_frame.specs.declared.item.Item.{Item};

use crate::{Item, Refusal, Unit};

/// A stream of bytes and ticks is split in one way.
pub fn one_splitting()
    ensures { (stream : List Signal) (items others : List Item) (rest end : Rest) →
        Splits stream items rest → Splits stream others end → (items ≡ others) × (rest ≡ end) }
{}

/// Bytes are read in one way.
pub fn one_reading()
    ensures { (bytes : List ℕ) (items others : List Item) (rest end : List ℕ) →
        Reads bytes items rest → Reads bytes others end → (items ≡ others) × (rest ≡ end) }
{}

/// A frame with one byte from the type to the checksum changed is refused for its checksum, and nothing else is
/// found in it.
pub fn one_byte_changed()
    ensures { (f : FrameParts) (i b : ℕ) → length f.body ≤ 252 → 2 ≤ i → i < length (unit_text (Unit.Framed f)) →
        b ≢ slice_index (unit_text (Unit.Framed f)) i →
        (want : ℕ) × (got : ℕ) × Reads (slice_set (unit_text (Unit.Framed f)) i b) (Item.Refused (Refusal.BadSum want got) ∷ []) [] }
{}

//! What the lines of a store give, as a law.

ghost use Rattle.std.specs.Prelude.{◌≡◌, ℕ, List};
ghost use Rattle.file_keeper.specs.Lines.{IsSplit};

/// Bytes are split into lines and an end in one way.
pub fn bytes_have_one_split()
    ensures lines { (bytes : List ℕ) (lines others : List (List ℕ)) (torn end : List ℕ) → IsSplit bytes lines torn → IsSplit bytes others end → lines ≡ others }
    ensures end { (bytes : List ℕ) (lines others : List (List ℕ)) (torn end : List ℕ) → IsSplit bytes lines torn → IsSplit bytes others end → torn ≡ end }
{}

//! A law of the field of 256 elements (FIPS 197, section 4).

ghost use Rattle.std.specs.Prelude.{◌≡◌, ℕ, ◌<◌};
ghost use Rattle.aes_block.specs.Field.{product, inverse};

/// Each byte but 0 has an inverse: the product of the two is 1.
pub fn inverses_exist()
    ensures { (a : ℕ) → 0 < a → a < 256 → product a (inverse a) ≡ 1 }
{}

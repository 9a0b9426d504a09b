//! What the law of the order in which the chip brings payloads says of worked transcripts.

ghost use Rattle.std.specs.Prelude.{true, false, List, ◌∷◌, []};
ghost use Rattle.proof_chip.specs.Bringing.{BringsInOrder};
ghost use Rattle.proof_chip.specs.WorkedBringing.{with_firsts, brought_in_order, brought_backwards, brought_twice};

/// Two payloads that were heard are brought in that order, or the first is written again; they may not be brought the other way round, and none in two frames.
pub fn worked_bringing()
    ensures in_order { BringsInOrder (with_firsts (true ∷ true ∷ [])) brought_in_order }
    ensures copied { BringsInOrder (with_firsts (true ∷ false ∷ [])) brought_twice }
    ensures backwards { BringsInOrder (with_firsts (true ∷ true ∷ [])) brought_backwards → ⊥ }
    ensures twice { BringsInOrder (with_firsts (true ∷ true ∷ [])) brought_twice → ⊥ }
{}

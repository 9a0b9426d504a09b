//! Records that were worked by hand.

ghost use Rattle.std.specs.Prelude.{◌≡◌, Some, None, [], ◌∷◌};
ghost use Rattle.host_keep.specs.declared.record.Record.TheVariants as records;
ghost use Rattle.host_keep.specs.Kept.{first_kept, kept_of, confirmed_of};
ghost use Rattle.host_keep.specs.Legal.{first_illegal};
ghost use Rattle.host_keep.specs.Worked.{switch, exchange, overtaken, hurried, cancelled_twice, two_nonces, counted_twice, two_live, unknown_node};

/// Which of these records may not stand where they do, and what is confirmed after an exchange.
pub fn worked_records()
    ensures exchange { first_illegal first_kept exchange ≡ None }
    ensures confirmed { confirmed_of
        (kept_of exchange) 2 switch ≡ Some 255 }
    ensures overtaken { first_illegal first_kept overtaken ≡ Some 2 }
    ensures hurried { first_illegal first_kept hurried ≡ Some 3 }
    ensures cancelled_twice { first_illegal
        first_kept cancelled_twice ≡ Some 2 }
    ensures two_nonces { first_illegal first_kept two_nonces ≡ None }
    ensures counted_twice { first_illegal
        first_kept counted_twice ≡ Some 2 }
    ensures two_live { first_illegal first_kept two_live ≡ Some 1 }
    ensures unknown_node { first_illegal first_kept unknown_node ≡ Some 1 }
    ensures controller { first_illegal first_kept
        (records.Joined 1 ∷ []) ≡ Some 0 }
    ensures joined_twice { first_illegal first_kept
        (records.Joined 2 ∷ []) ≡ Some 0 }
{}

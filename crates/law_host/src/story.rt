//! A host from records that no host of this program left.

ghost use Rattle.std.specs.Prelude.{◌++◌, map};
ghost use Rattle.host_keep.specs.RecordText.{record_text};
ghost use Rattle.law_host.specs.Heard.{heeds_alone, heeds_from};
ghost use Rattle.law_host.specs.Story.{StartsOver};
ghost use Rattle.law_host.specs.Worked.{after_counted, counted_nonces, counted_records, second_nonce, second_taken};
ghost use Rattle.law_time.specs.Choice.{SendsInTurn};

/// From records of a nonce that no entry tells a host starts over, after the story of the others, and it takes the next nonce in its turn.
pub fn worked_story()
    ensures starts { StartsOver (map record_text counted_records) after_counted counted_nonces }
    ensures turn { SendsInTurn (heeds_from counted_nonces (λ past carried. second_nonce)) (after_counted.before ++ second_taken) }
{}

/// By entries alone that nonce is not the next.
pub fn rejected_story()
    ensures { SendsInTurn (heeds_alone (λ past carried. second_nonce)) (after_counted.before ++ second_taken) → ⊥ }
{}

//! What the law of values that are shown says of worked transcripts, and of others with one thing wrong.

ghost use Rattle.std.specs.Prelude.{◌∷◌, [], true};
ghost use Rattle.law_host.specs.HostLegal.{ShowsValues};
ghost use Rattle.law_host.specs.Worked.{values_left_out, values_otherwise, values_shown, values_unasked};
ghost use Rattle.law_time.specs.law_transcript.Lists.{EachAfter};
ghost use Rattle.law_time.specs.law_transcript.Nodes.{always, listing_of};
ghost use Rattle.law_time.specs.law_transcript.Worked.{plain_exchange, the_switch};
ghost use Rattle.law_time.specs.law_wire.Serial.{ended};

/// Where a line asks for the values of a node, the one that the plain exchange confirmed is shown.
pub fn worked_shown_values()
    ensures { EachAfter (ShowsValues (always (listing_of (the_switch ∷ [])))) plain_exchange (ended true values_shown) }
{}

/// Neither is another value shown, nor none, nor one that no line asks for.
pub fn rejected_shown_values()
    ensures otherwise { EachAfter (ShowsValues (always (listing_of (the_switch ∷ [])))) plain_exchange (ended true values_otherwise) → ⊥ }
    ensures left_out { EachAfter (ShowsValues (always (listing_of (the_switch ∷ [])))) plain_exchange (ended true values_left_out) → ⊥ }
    ensures unasked { EachAfter (ShowsValues (always (listing_of (the_switch ∷ [])))) plain_exchange (ended true values_unasked) → ⊥ }
{}

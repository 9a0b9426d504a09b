//! What a host hears of worked transcripts, and which classes it knows by them.

ghost use Rattle.std.specs.Prelude.{◌≡◌, ◌∷◌, []};
ghost use Rattle.law_time.specs.law_transcript.Commands.{classes_for};
ghost use Rattle.law_host.specs.Heard.{heard_by_host, listing_heard};
ghost use Rattle.law_host.specs.Worked.{informed_twice, mixed, mixed_heard, plain_heard};
ghost use Rattle.law_time.specs.law_transcript.Nodes.{host_list, listing_of};
ghost use Rattle.law_time.specs.law_transcript.Worked.{plain_exchange, sealed_exchange, sleeping_node, the_lock, the_sensor};

/// A host hears the lines, answers, units and notes of a run, and units of the chip as they came; not what is of the air, of devices or of the
/// chip alone. In `sim` a node listed in its interview what its device lists. Where two interviews heard different lists, a command that was accepted
/// between them goes by the first, and what comes later by the second.
pub fn worked_heard()
    ensures plain { heard_by_host plain_exchange ≡ plain_heard }
    ensures mixed { heard_by_host mixed ≡ mixed_heard }
    ensures sensor { listing_heard (heard_by_host sleeping_node) 5 ≡ listing_of (the_sensor ∷ []) 5 }
    ensures lock { listing_heard (heard_by_host sealed_exchange) 4 ≡ listing_of (the_lock ∷ []) 4 }
    ensures before { classes_for listing_heard informed_twice 5 1 ≡ 0x31 ∷ 0x80 ∷ 0x84 ∷ 0x6C ∷ [] }
    ensures later { host_list listing_heard informed_twice 5 ≡ 0x84 ∷ 0x55 ∷ 0x6C ∷ [] }
{}

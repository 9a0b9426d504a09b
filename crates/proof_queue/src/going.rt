//! What the law that requests go by the queue says of worked transcripts, and of others with one thing wrong.

ghost use Rattle.std.specs.Prelude.{[], ◌∷◌};
ghost use Rattle.law_transcript.specs.Worked.{sealed_exchange, sleeping_node, the_lock, the_sensor, the_switch};
ghost use Rattle.law_time.specs.Heeds.{heeds_of};
ghost use Rattle.law_time.specs.WorkedQueue.{silent_attempt};
ghost use Rattle.law_time.specs.WorkedWaits.{answered_errands, the_other_switch, woken_before_restart};
ghost use Rattle.law_time.specs.WrongChoice.{set_repeated};
ghost use Rattle.law_time.specs.WrongQueue.{aborted_unasked, sent_before_abort, sent_before_report};
ghost use Rattle.law_time.specs.WrongRequests.{sent_out_of_turn, sent_unasked};
ghost use Rattle.law_time.specs.WrongTurns.{probed_out_of_turn};
ghost use Rattle.proof_queue.specs.Turn.{GoesByQueue};

/// What lines, an interview and nodes ask for keeps the law, and so do an abort and No More Information; which part of a session is next is not looked at, so a
/// Set that comes again in place of the next attempt does, too.
pub fn worked_going()
    ensures lines { GoesByQueue (heeds_of (the_switch ∷ [])) answered_errands }
    ensures interviews { GoesByQueue (heeds_of (the_sensor ∷ the_other_switch ∷ [])) woken_before_restart }
    ensures nonces { GoesByQueue (heeds_of (the_lock ∷ [])) sealed_exchange }
    ensures abort { GoesByQueue (heeds_of (the_switch ∷ [])) silent_attempt }
    ensures no_more { GoesByQueue (heeds_of (the_sensor ∷ [])) sleeping_node }
    ensures set { GoesByQueue (heeds_of (the_switch ∷ [])) set_repeated }
{}

/// It is broken where a question comes before an earlier one, also before another one of a `probe`, or is asked for by no line, where a Nonce Get comes before
/// a Nonce Report, a Get before an abort that is owed, and by an abort that is not.
pub fn rejected_going()
    ensures out_of_turn { GoesByQueue (heeds_of (the_switch ∷ [])) sent_out_of_turn → ⊥ }
    ensures probed { GoesByQueue (heeds_of (the_switch ∷ [])) probed_out_of_turn → ⊥ }
    ensures unasked { GoesByQueue (heeds_of (the_switch ∷ [])) sent_unasked → ⊥ }
    ensures before_report { GoesByQueue (heeds_of (the_lock ∷ [])) sent_before_report → ⊥ }
    ensures before_abort { GoesByQueue (heeds_of (the_switch ∷ [])) sent_before_abort → ⊥ }
    ensures aborted { GoesByQueue (heeds_of (the_switch ∷ [])) aborted_unasked → ⊥ }
{}

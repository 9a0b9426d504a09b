//! What the law of nonces says of worked transcripts, and of others with one thing wrong.

ghost use Rattle.law_time.specs.Heeds.{heeds_of};
ghost use Rattle.std.specs.Prelude.{◌∷◌, [], true};
ghost use Rattle.law_host.specs.Notes.{NotesWhatHappens, first_start};
ghost use Rattle.law_host.specs.Worked.{
  after_counting,
  after_nonce_asked,
  after_nonce_given,
  asked_anew,
  ended_sealed,
  first_given,
  given_live,
  given_new,
  given_otherwise,
  given_skipped,
  given_spent,
  given_unspent,
  live_over_restart,
  new_over_restart,
  nonce_again,
  other_given,
  sealed_left_out,
  sealed_over_restart,
  unopened,
  unopened_left_out,
};
ghost use Rattle.law_time.specs.law_transcript.Worked.{network_key, sealed_exchange, the_lock};

/// In worked transcripts the host uses nonces as it should: a message is sealed for the nonce that came for it, the live nonce is given again, over
/// a restart too, and a report opens for it, also where it was given before the host started. Where one of two records of a report is not kept,
/// both are legal: that the nonce is given again, and that the next is. After a restart the next nonce after the 256th counts, by its first byte. What
/// opens to nothing is not read.
pub fn worked_nonces()
    ensures sealed { NotesWhatHappens network_key (heeds_of (the_lock ∷ [])) first_start true sealed_exchange }
    ensures anew { NotesWhatHappens network_key (heeds_of (the_lock ∷ [])) first_start true asked_anew }
    ensures live { NotesWhatHappens network_key (heeds_of (the_lock ∷ [])) first_start true given_live }
    ensures over_restart { NotesWhatHappens network_key (heeds_of (the_lock ∷ [])) first_start true live_over_restart }
    ensures unspent { NotesWhatHappens network_key (heeds_of (the_lock ∷ [])) first_start true given_unspent }
    ensures kept { NotesWhatHappens network_key (heeds_of (the_lock ∷ [])) after_nonce_given true ended_sealed }
    ensures spent { NotesWhatHappens network_key (heeds_of (the_lock ∷ [])) first_start true given_spent }
    ensures counted { NotesWhatHappens network_key (heeds_of (the_lock ∷ [])) (after_counting 256) true (sealed_over_restart first_given) }
    ensures unopened { NotesWhatHappens network_key (heeds_of (the_lock ∷ [])) after_nonce_asked true unopened }
{}

/// Each of these breaks the law by one entry: an attempt is sealed for the nonce of the one before, a node is given a new nonce while one is live,
/// over a restart too, or another nonce with its number, and the first one has the number of the second; a message is sealed for the first of two nonces
/// that the host counted before a restart, or for another nonce than the one given, of which the first byte is the same; and what was sealed for the live
/// nonce is left out, whether it opens to a report or to nothing.
pub fn rejected_nonces()
    ensures again { NotesWhatHappens network_key (heeds_of (the_lock ∷ [])) first_start true nonce_again → ⊥ }
    ensures new { NotesWhatHappens network_key (heeds_of (the_lock ∷ [])) first_start true given_new → ⊥ }
    ensures over_restart { NotesWhatHappens network_key (heeds_of (the_lock ∷ [])) first_start true new_over_restart → ⊥ }
    ensures other { NotesWhatHappens network_key (heeds_of (the_lock ∷ [])) first_start true given_otherwise → ⊥ }
    ensures skipped { NotesWhatHappens network_key (heeds_of (the_lock ∷ [])) first_start true given_skipped → ⊥ }
    ensures uncounted { NotesWhatHappens network_key (heeds_of (the_lock ∷ [])) (after_counting 2) true (sealed_over_restart first_given) → ⊥ }
    ensures for_other { NotesWhatHappens network_key (heeds_of (the_lock ∷ [])) (after_counting 1) true (sealed_over_restart other_given) → ⊥ }
    ensures unopened { NotesWhatHappens network_key (heeds_of (the_lock ∷ [])) after_nonce_asked true unopened_left_out → ⊥ }
    ensures opened { NotesWhatHappens network_key (heeds_of (the_lock ∷ [])) after_nonce_asked true sealed_left_out → ⊥ }
{}

//! By which messages a host goes, and what that makes of turns.

ghost use Rattle.std.specs.Prelude.{◌≡◌, ◌∷◌, []};
ghost use Rattle.host_heard.specs.declared.told.Told.TheVariants as told;
ghost use Rattle.law_host.specs.Heard.{heeds_alone};
ghost use Rattle.law_host.specs.Worked.{
  after_begun,
  after_lock_begun,
  after_nonce_given,
  after_plug,
  all_kept,
  asked_sealed,
  by_get,
  by_nothing,
  by_segment,
  by_work,
  first_kept,
  given_beside_unkept,
  given_sealed,
  gone_by,
  nonce_and_report,
  opens_to_get,
  other_told,
  second_kept,
  segment_asked,
  work_told,
  working_openly,
};
ghost use Rattle.law_time.specs.Choice.{SendsInTurn};
ghost use Rattle.law_time.specs.Heeds.{heeds_of};
ghost use Rattle.law_time.specs.law_transcript.Worked.{the_lock, the_plug, the_switch};

/// Of two messages in a payload a host goes by that of which the record was kept. It goes by a report that its session is at work, but not where it is
/// of another session or told openly by a lock; by what asks for a segment of its session; and by a sealed Nonce Get, but not where no nonce is live.
pub fn worked_heedings()
    ensures first { gone_by (the_switch ∷ []) after_begun nonce_and_report first_kept ≡ by_get }
    ensures second { gone_by (the_switch ∷ []) after_begun nonce_and_report second_kept ≡ by_nothing }
    ensures working { gone_by (the_switch ∷ []) after_begun work_told all_kept ≡ by_work }
    ensures other { gone_by (the_switch ∷ []) after_begun other_told all_kept ≡ by_nothing }
    ensures openly { gone_by (the_lock ∷ []) after_lock_begun working_openly all_kept ≡ by_nothing }
    ensures segment { gone_by (the_plug ∷ []) after_plug segment_asked all_kept ≡ by_segment }
    ensures sealed { gone_by (the_lock ∷ []) after_nonce_given asked_sealed opens_to_get ≡ by_get }
    ensures unopened { gone_by (the_lock ∷ []) after_lock_begun asked_sealed opens_to_get ≡ by_nothing }
{}

/// A host alone that goes by a Nonce Get gives its nonce, where the keeper fails for another message of the payload, and where it is sealed.
pub fn worked_heeds()
    ensures beside { SendsInTurn (heeds_alone (λ past carried. told.NonceGet ∷ [])) given_beside_unkept }
    ensures sealed { SendsInTurn (heeds_alone (λ past carried. told.NonceGet ∷ [])) given_sealed }
{}

/// One that does not go by it gives none, and nor does one among devices, which send no such payload.
pub fn rejected_heeds()
    ensures beside { SendsInTurn (heeds_alone (λ past carried. [])) given_beside_unkept → ⊥ }
    ensures among { SendsInTurn (heeds_of (the_switch ∷ [])) given_beside_unkept → ⊥ }
    ensures sealed { SendsInTurn (heeds_of (the_lock ∷ [])) given_sealed → ⊥ }
{}

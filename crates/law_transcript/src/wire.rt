//! What the laws of units and payloads say of worked transcripts, and of others with one thing wrong.

ghost use Rattle.std.specs.Prelude.{[], ◌∷◌};
ghost use Rattle.law_transcript.specs.Nodes.{always, listing_of};
ghost use Rattle.law_transcript.specs.Carrying.{CarriesUnits, BringsWhatWasHeard};
ghost use Rattle.law_transcript.specs.Payloads.{SendsWhatIsDue, BeginsWithUnit};
ghost use Rattle.law_transcript.specs.Worked.{
  plain_exchange,
  repeated_exchange,
  lossy_exchange,
  cancelled_order,
  restarted_host,
  sleeping_node,
  sealed_exchange,
  long_message,
  the_switch,
  the_sensor,
  the_lock,
  the_plug,
  network_key,
};
ghost use Rattle.law_transcript.specs.WorkedCases.{
  aired_as_changed,
  set_asked,
  get_asked,
  nonces_counted,
  nonces_wrapped,
  nonce_asked_sealed,
  nonce_given_sealed,
  sent_by_old_list,
  set_by_old_list,
  the_dimmer,
};
ghost use Rattle.law_transcript.specs.WorkedWrongWire.{
  aired_unasked,
  aired_twice,
  aired_backwards,
  aired_elsewhere,
  aired_for_lost,
  aired_as_written,
  aired_as_garbled,
  brought_unheard,
  brought_otherwise,
  brought_of_another,
  brought_back,
  begun_silently,
  begun_elsewhere,
  begun_emptily,
};
ghost use Rattle.law_transcript.specs.WorkedWrongPayloads.{
  sent_otherwise,
  sent_earlier,
  sent_unbegun,
  sent_by_new_list,
  sealed_unasked,
  sent_openly,
  sealed_for_none,
  sealed_for_longer,
  sealed_otherwise,
  sealed_longer,
  sent_whole,
  cut_otherwise,
  cut_of_another,
  cut_past_end,
  nonce_unasked,
  nonce_of_another,
  nonce_of_another_sealed,
  nonce_for_nothing,
  nonce_otherwise,
  nonce_shorter,
  set_unasked,
  set_by_new_list,
  set_otherwise,
  set_of_another,
  set_refused,
  get_unasked,
};

/// In worked transcripts the controller's frames are those that units asked for, as these arrived: one that was changed asks for what it became where its
/// checksum is right.
pub fn worked_units()
    ensures plain { CarriesUnits plain_exchange }
    ensures repeated { CarriesUnits repeated_exchange }
    ensures lossy { CarriesUnits lossy_exchange }
    ensures cancelled { CarriesUnits cancelled_order }
    ensures restarted { CarriesUnits restarted_host }
    ensures sleeping { CarriesUnits sleeping_node }
    ensures sealed { CarriesUnits sealed_exchange }
    ensures cut { CarriesUnits long_message }
    ensures changed { CarriesUnits aired_as_changed }
{}

/// In worked transcripts the chip brings what was heard.
pub fn worked_bringing()
    ensures plain { BringsWhatWasHeard plain_exchange }
    ensures repeated { BringsWhatWasHeard repeated_exchange }
    ensures lossy { BringsWhatWasHeard lossy_exchange }
    ensures cancelled { BringsWhatWasHeard cancelled_order }
    ensures restarted { BringsWhatWasHeard restarted_host }
    ensures sleeping { BringsWhatWasHeard sleeping_node }
    ensures sealed { BringsWhatWasHeard sealed_exchange }
    ensures cut { BringsWhatWasHeard long_message }
{}

/// In worked transcripts after each session that begins stands its unit.
pub fn worked_begins()
    ensures plain { BeginsWithUnit plain_exchange }
    ensures repeated { BeginsWithUnit repeated_exchange }
    ensures lossy { BeginsWithUnit lossy_exchange }
    ensures cancelled { BeginsWithUnit cancelled_order }
    ensures restarted { BeginsWithUnit restarted_host }
    ensures sleeping { BeginsWithUnit sleeping_node }
    ensures sealed { BeginsWithUnit sealed_exchange }
    ensures cut { BeginsWithUnit long_message }
{}

/// In worked transcripts the host sends what is due: messages of sessions, segments of them, sealed ones and what these ask for, No More Information, the
/// Set or Get of a line, and a message or a Set by the classes that were known when its command was accepted or its line was said. A node asks for a nonce,
/// and gives one, openly or in a message that it sealed.
pub fn worked_payloads()
    ensures plain { SendsWhatIsDue (always (listing_of (the_switch ∷ []))) [] plain_exchange }
    ensures repeated { SendsWhatIsDue (always (listing_of (the_switch ∷ []))) [] repeated_exchange }
    ensures lossy { SendsWhatIsDue (always (listing_of (the_switch ∷ []))) [] lossy_exchange }
    ensures cancelled { SendsWhatIsDue (always (listing_of (the_switch ∷ []))) [] cancelled_order }
    ensures restarted { SendsWhatIsDue (always (listing_of (the_switch ∷ []))) [] restarted_host }
    ensures sleeping { SendsWhatIsDue (always (listing_of (the_sensor ∷ []))) [] sleeping_node }
    ensures sealed { SendsWhatIsDue (always (listing_of (the_lock ∷ []))) network_key sealed_exchange }
    ensures cut { SendsWhatIsDue (always (listing_of (the_plug ∷ []))) [] long_message }
    ensures set { SendsWhatIsDue (always (listing_of (the_switch ∷ []))) [] set_asked }
    ensures get { SendsWhatIsDue (always (listing_of (the_switch ∷ []))) [] get_asked }
    ensures old_list { SendsWhatIsDue (always (listing_of (the_dimmer ∷ []))) [] sent_by_old_list }
    ensures nonces { SendsWhatIsDue (always (listing_of (the_lock ∷ []))) network_key nonces_counted }
    ensures wrapped { SendsWhatIsDue (always (listing_of (the_lock ∷ []))) network_key nonces_wrapped }
    ensures asked_sealed { SendsWhatIsDue (always (listing_of (the_lock ∷ []))) network_key nonce_asked_sealed }
    ensures given_sealed { SendsWhatIsDue (always (listing_of (the_lock ∷ []))) network_key nonce_given_sealed }
    ensures set_old_list { SendsWhatIsDue (always (listing_of (the_dimmer ∷ []))) [] set_by_old_list }
{}

/// Each of these breaks one part of the law of what is sent: the message of another session, of an earlier one, before one begins, or by
/// the classes that came to be known later; one that is sealed though its node lists no Security 0, or not though it does, sealed for no
/// nonce that was given or for one of nine bytes, with another byte, or under a longer nonce; one that is not cut though its node lists
/// Transport Service, a segment with another byte, of another session, or after the end; a Nonce Report that nobody asked for, or another
/// node, openly or sealed, or for a message that seals nothing, of seven bytes, or another payload in its place; and a Set that no line asked
/// for, or one that was refused, with another value, for another node, or by classes that came to be known later, and such a Get.
pub fn rejected_payloads()
    ensures otherwise { SendsWhatIsDue (always (listing_of (the_switch ∷ []))) [] sent_otherwise → ⊥ }
    ensures earlier { SendsWhatIsDue (always (listing_of (the_switch ∷ []))) [] sent_earlier → ⊥ }
    ensures new_list { SendsWhatIsDue (always (listing_of (the_dimmer ∷ []))) [] sent_by_new_list → ⊥ }
    ensures unbegun { SendsWhatIsDue (always (listing_of (the_switch ∷ []))) [] sent_unbegun → ⊥ }
    ensures sealed_unasked { SendsWhatIsDue (always (listing_of (the_switch ∷ []))) network_key sealed_unasked → ⊥ }
    ensures openly { SendsWhatIsDue (always (listing_of (the_lock ∷ []))) network_key sent_openly → ⊥ }
    ensures for_none { SendsWhatIsDue (always (listing_of (the_lock ∷ []))) network_key sealed_for_none → ⊥ }
    ensures for_longer { SendsWhatIsDue (always (listing_of (the_lock ∷ []))) network_key sealed_for_longer → ⊥ }
    ensures sealed_otherwise { SendsWhatIsDue (always (listing_of (the_lock ∷ []))) network_key sealed_otherwise → ⊥ }
    ensures longer { SendsWhatIsDue (always (listing_of (the_lock ∷ []))) network_key sealed_longer → ⊥ }
    ensures whole { SendsWhatIsDue (always (listing_of (the_plug ∷ []))) [] sent_whole → ⊥ }
    ensures cut_otherwise { SendsWhatIsDue (always (listing_of (the_plug ∷ []))) [] cut_otherwise → ⊥ }
    ensures cut_of_another { SendsWhatIsDue (always (listing_of (the_plug ∷ []))) [] cut_of_another → ⊥ }
    ensures past_end { SendsWhatIsDue (always (listing_of (the_plug ∷ []))) [] cut_past_end → ⊥ }
    ensures nonce_unasked { SendsWhatIsDue (always (listing_of (the_lock ∷ []))) network_key nonce_unasked → ⊥ }
    ensures nonce_of_another { SendsWhatIsDue (always (listing_of (the_lock ∷ []))) network_key nonce_of_another → ⊥ }
    ensures nonce_of_another_sealed { SendsWhatIsDue (always (listing_of (the_lock ∷ []))) network_key nonce_of_another_sealed → ⊥ }
    ensures nonce_for_nothing { SendsWhatIsDue (always (listing_of (the_lock ∷ []))) network_key nonce_for_nothing → ⊥ }
    ensures nonce_otherwise { SendsWhatIsDue (always (listing_of (the_lock ∷ []))) network_key nonce_otherwise → ⊥ }
    ensures nonce_shorter { SendsWhatIsDue (always (listing_of (the_lock ∷ []))) network_key nonce_shorter → ⊥ }
    ensures set_unasked { SendsWhatIsDue (always (listing_of (the_switch ∷ []))) [] set_unasked → ⊥ }
    ensures set_otherwise { SendsWhatIsDue (always (listing_of (the_switch ∷ []))) [] set_otherwise → ⊥ }
    ensures set_new_list { SendsWhatIsDue (always (listing_of (the_dimmer ∷ []))) [] set_by_new_list → ⊥ }
    ensures set_of_another { SendsWhatIsDue (always (listing_of (the_switch ∷ []))) [] set_of_another → ⊥ }
    ensures set_refused { SendsWhatIsDue (always (listing_of (the_switch ∷ []))) [] set_refused → ⊥ }
    ensures get_unasked { SendsWhatIsDue (always (listing_of (the_switch ∷ []))) [] get_unasked → ⊥ }
{}

/// Each of these breaks one part of the laws: a frame that no unit asked for, for another node, twice for one unit, in another order, for a unit that was
/// lost, as one was before it was changed, or as it became with a wrong checksum; a payload brought that was not heard, or another, or of another node, or
/// that the controller sent; and a session that begins without its unit, with one for another node, or one that sends nothing.
pub fn rejected_wire()
    ensures aired { CarriesUnits aired_unasked → ⊥ }
    ensures aired_elsewhere { CarriesUnits aired_elsewhere → ⊥ }
    ensures lost { CarriesUnits aired_for_lost → ⊥ }
    ensures written { CarriesUnits aired_as_written → ⊥ }
    ensures garbled { CarriesUnits aired_as_garbled → ⊥ }
    ensures twice { CarriesUnits aired_twice → ⊥ }
    ensures backwards { CarriesUnits aired_backwards → ⊥ }
    ensures brought { BringsWhatWasHeard brought_unheard → ⊥ }
    ensures brought_otherwise { BringsWhatWasHeard brought_otherwise → ⊥ }
    ensures brought_of_another { BringsWhatWasHeard brought_of_another → ⊥ }
    ensures brought_back { BringsWhatWasHeard brought_back → ⊥ }
    ensures silently { BeginsWithUnit begun_silently → ⊥ }
    ensures elsewhere { BeginsWithUnit begun_elsewhere → ⊥ }
    ensures emptily { BeginsWithUnit begun_emptily → ⊥ }
{}

//! What the laws of fates, of repeats and of forgotten links say of worked transcripts, and of others with one thing wrong.

ghost use Rattle.std.specs.Prelude.{[], ◌∷◌};
ghost use Rattle.law_transcript.specs.Worked.{
  cancelled_order,
  long_message,
  lossy_exchange,
  plain_exchange,
  repeated_exchange,
  restarted_host,
  sealed_exchange,
  sleeping_node,
  the_lock,
  the_plug,
  the_sensor,
  the_switch,
};
ghost use Rattle.law_transcript.specs.WorkedDevices.{the_keyed_lock};
ghost use Rattle.law_wire.specs.Arriving.{MeetsWhatIsDue, RepeatsWhatIsAsked, ForgetsDeadHops};
ghost use Rattle.law_wire.specs.Worked.{rerouted, cut_off, asleep, heard_twice, the_switches};
ghost use Rattle.law_wire.specs.WorkedWrong.{
  heard_again_in_sleep,
  lost_for_nothing,
  unheard_for_nothing,
  unheard_at_home,
  heard_over_nothing,
  heard_without_a_way,
  heard_in_sleep,
  heard_though_lost,
  not_repeated,
  not_forgotten,
  forgotten_otherwise,
  forgotten_freely,
};

/// In worked transcripts each frame has the fate that is due: it is heard where its way is live and somebody is awake there, lost by a
/// mark or where a device has no way, and unheard over a dead link or by a device that sleeps.
pub fn worked_arrivals()
    ensures plain { MeetsWhatIsDue (the_switch ∷ []) plain_exchange }
    ensures lossy { MeetsWhatIsDue (the_switch ∷ []) lossy_exchange }
    ensures rerouted { MeetsWhatIsDue the_switches rerouted }
    ensures cut_off { MeetsWhatIsDue (the_switch ∷ []) cut_off }
    ensures asleep { MeetsWhatIsDue (the_sensor ∷ []) asleep }
    ensures twice { MeetsWhatIsDue (the_switch ∷ []) heard_twice }
    ensures repeated { MeetsWhatIsDue (the_switch ∷ []) repeated_exchange }
    ensures cancelled { MeetsWhatIsDue (the_switch ∷ []) cancelled_order }
    ensures restarted { MeetsWhatIsDue (the_switch ∷ []) restarted_host }
    ensures sleeping { MeetsWhatIsDue (the_sensor ∷ []) sleeping_node }
    ensures sealed { MeetsWhatIsDue (the_keyed_lock ∷ []) sealed_exchange }
    ensures cut { MeetsWhatIsDue (the_plug ∷ []) long_message }
{}

/// In worked transcripts a frame is heard again where a line repeats it.
pub fn worked_repeats()
    ensures plain { RepeatsWhatIsAsked (the_switch ∷ []) plain_exchange }
    ensures twice { RepeatsWhatIsAsked (the_switch ∷ []) heard_twice }
    ensures repeated { RepeatsWhatIsAsked (the_switch ∷ []) repeated_exchange }
    ensures lossy { RepeatsWhatIsAsked (the_switch ∷ []) lossy_exchange }
    ensures cancelled { RepeatsWhatIsAsked (the_switch ∷ []) cancelled_order }
    ensures restarted { RepeatsWhatIsAsked (the_switch ∷ []) restarted_host }
    ensures sleeping { RepeatsWhatIsAsked (the_sensor ∷ []) sleeping_node }
    ensures sealed { RepeatsWhatIsAsked (the_lock ∷ []) sealed_exchange }
    ensures cut { RepeatsWhatIsAsked (the_plug ∷ []) long_message }
{}

/// In worked transcripts the chip forgets the first dead link on the way of a frame that was not heard, and nothing else.
pub fn worked_forgetting()
    ensures plain { ForgetsDeadHops plain_exchange }
    ensures rerouted { ForgetsDeadHops rerouted }
    ensures asleep { ForgetsDeadHops asleep }
    ensures repeated { ForgetsDeadHops repeated_exchange }
    ensures lossy { ForgetsDeadHops lossy_exchange }
    ensures cancelled { ForgetsDeadHops cancelled_order }
    ensures restarted { ForgetsDeadHops restarted_host }
    ensures sleeping { ForgetsDeadHops sleeping_node }
    ensures sealed { ForgetsDeadHops sealed_exchange }
    ensures cut { ForgetsDeadHops long_message }
{}

/// Each of these breaks one part of the laws: a frame that is lost or unheard for no reason, from either side; one that is heard over a
/// dead link, without a way, by a device that sleeps, also when it is repeated, or with a mark; a repeat that nobody hears; and a dead hop
/// that is not forgotten, or another one that is.
pub fn rejected_arrivals()
    ensures lost { MeetsWhatIsDue (the_switch ∷ []) lost_for_nothing → ⊥ }
    ensures unheard { MeetsWhatIsDue (the_switch ∷ []) unheard_for_nothing → ⊥ }
    ensures home { MeetsWhatIsDue (the_switch ∷ []) unheard_at_home → ⊥ }
    ensures over { MeetsWhatIsDue the_switches heard_over_nothing → ⊥ }
    ensures way { MeetsWhatIsDue (the_switch ∷ []) heard_without_a_way → ⊥ }
    ensures sleep { MeetsWhatIsDue (the_sensor ∷ []) heard_in_sleep → ⊥ }
    ensures marked { MeetsWhatIsDue (the_switch ∷ []) heard_though_lost → ⊥ }
    ensures repeated { RepeatsWhatIsAsked (the_switch ∷ []) not_repeated → ⊥ }
    ensures kept { ForgetsDeadHops not_forgotten → ⊥ }
    ensures other { ForgetsDeadHops forgotten_otherwise → ⊥ }
    ensures freely { ForgetsDeadHops forgotten_freely → ⊥ }
    ensures again_in_sleep { MeetsWhatIsDue (the_sensor ∷ []) heard_again_in_sleep → ⊥ }
{}

//! What the law of routes says of worked transcripts, and of others with one thing wrong.

ghost use Rattle.std.specs.Prelude.{[], ◌∷◌, codes};
ghost use Rattle.law_transcript.specs.Worked.{
  cancelled_order,
  long_message,
  lossy_exchange,
  plain_exchange,
  repeated_exchange,
  restarted_host,
  sealed_exchange,
  sleeping_node,
  the_lock,
  the_plug,
  the_sensor,
  the_switch,
};
ghost use Rattle.zw_text.specs.declared.entry.Entry.TheVariants.{Said};
ghost use Rattle.route_table.specs.Walk.{Walk};
ghost use Rattle.law_wire.specs.Networks.{air_network};
ghost use Rattle.law_wire.specs.Reach.{CanBeReached};
ghost use Rattle.law_wire.specs.Routes.{GoesByRoute, MayGo};
ghost use Rattle.law_wire.specs.Worked.{moved_away, not_learned, over_two, rerouted, the_switches};
ghost use Rattle.law_wire.specs.WorkedWrong.{shows_a_way, detoured, second_choice, straight_home, from_a_stranger};
ghost use Rattle.law_wire.specs.WorkedAir.{
  after_two,
  beside,
  between_two,
  going_over,
  home_from,
  in_a_row,
  linked_late,
  near,
  other_sensor,
  other_switch,
  switches_in_a_row,
};

/// In worked transcripts each frame goes over the route of its moment: a direct one, and one of two over a repeater, before and
/// after the chip has forgotten a link of it.
pub fn worked_routes()
    ensures plain { GoesByRoute (the_switch ∷ []) plain_exchange }
    ensures rerouted { GoesByRoute the_switches rerouted }
    ensures repeated { GoesByRoute (the_switch ∷ []) repeated_exchange }
    ensures lossy { GoesByRoute (the_switch ∷ []) lossy_exchange }
    ensures cancelled { GoesByRoute (the_switch ∷ []) cancelled_order }
    ensures restarted { GoesByRoute (the_switch ∷ []) restarted_host }
    ensures sleeping { GoesByRoute (the_sensor ∷ []) sleeping_node }
    ensures sealed { GoesByRoute (the_lock ∷ []) sealed_exchange }
    ensures cut { GoesByRoute (the_plug ∷ []) long_message }
{}

/// Each of these breaks one part of the law: a frame of the controller over no walk, or over a walk that is not the first; a frame of a
/// device over no walk, of a node that is not joined, or of one without a way that shows repeaters.
pub fn rejected_routes()
    ensures detoured { GoesByRoute (the_switch ∷ []) detoured → ⊥ }
    ensures second { GoesByRoute the_switches second_choice → ⊥ }
    ensures straight { GoesByRoute the_switches straight_home → ⊥ }
    ensures stranger { GoesByRoute (the_switch ∷ []) from_a_stranger → ⊥ }
    ensures shown { GoesByRoute (the_switch ∷ []) shows_a_way → ⊥ }
{}

/// A node can be reached directly, and over a repeater. The one that moved away, which cannot, has a way over another node.
pub fn worked_reach()
    ensures plain { CanBeReached (the_switch ∷ []) [] 2 }
    ensures over_one { CanBeReached the_switches over_two 10 }
    ensures other_way { Walk (air_network the_switches moved_away) 2 (10 ∷ []) }
{}

/// A node cannot be reached where no link leads to it, where the one that did is dead, where the chip has not learned the link by which it could be,
/// nor where the chip's route to it has a link that is not live, though it could be reached over another node.
pub fn rejected_reach()
    ensures apart { CanBeReached (the_switch ∷ []) [] 5 → ⊥ }
    ensures dead { CanBeReached (the_switch ∷ []) (Said (codes "unlink 1 2") ∷ []) 2 → ⊥ }
    ensures not_learned { CanBeReached (the_switch ∷ the_sensor ∷ []) not_learned 5 → ⊥ }
    ensures moved_away { CanBeReached the_switches moved_away 2 → ⊥ }
{}

/// A frame goes over a node that listens where there is no direct link, and one of a device over a link that the chip has not learned.
pub fn worked_walks()
    ensures beside { MayGo (other_switch ∷ []) beside (going_over (10 ∷ []) 2) }
    ensures late { MayGo (other_switch ∷ []) linked_late (home_from 10 (2 ∷ [])) }
{}

/// Each of these breaks one part of the law: a frame of the controller goes over a node that does not listen, over no link, over five
/// repeaters, and over a repeater where there is a direct link; a frame of a device over a route that is not the first, over its route the
/// wrong way round, and as if it had none where the chip does not know its link.
pub fn rejected_walks()
    ensures sensor { MayGo (other_sensor ∷ []) beside (going_over (10 ∷ []) 2) → ⊥ }
    ensures unlinked { MayGo (other_switch ∷ []) over_two (going_over [] 10) → ⊥ }
    ensures far { MayGo switches_in_a_row in_a_row (going_over (2 ∷ 3 ∷ 4 ∷ 5 ∷ 6 ∷ []) 7) → ⊥ }
    ensures longer { MayGo (other_switch ∷ []) near (going_over (2 ∷ []) 10) → ⊥ }
    ensures second_home { MayGo the_switches between_two (home_from 10 (18 ∷ [])) → ⊥ }
    ensures turned { MayGo the_switches after_two (home_from 18 (2 ∷ 10 ∷ [])) → ⊥ }
    ensures late { MayGo (other_switch ∷ []) linked_late (home_from 10 []) → ⊥ }
{}

//! What the networks of the air and of the chip's table are after some lines.

ghost use Rattle.std.specs.Prelude.{◌≡◌, ◌∷◌, [], codes, true, false};
ghost use Rattle.law_transcript.specs.device_stack.State.{fresh};
ghost use Rattle.law_transcript.specs.device_kinds.declared.kind.Kind.TheVariants.{Sensor};
ghost use Rattle.route_table.specs.Network.{link_of};
ghost use Rattle.law_wire.specs.Networks.{air_links, are_linked, chip_links, repeaters};
ghost use Rattle.law_wire.specs.Worked.{not_learned, the_switches};
ghost use Rattle.law_wire.specs.WorkedAir.{other_sensor};
ghost use Rattle.zw_text.specs.declared.entry.Entry.TheVariants.{Forget, Refused, Said};
ghost use Rattle.zw_text.specs.declared.entry.Refusal.TheVariants.{AlreadyJoined};

/// The controller and node 2 are linked at first. A line links two nodes, and one takes that link away and no other, whichever end is named
/// first; a node has no link to itself.
pub fn worked_air_links()
    ensures first { air_links [] ≡ link_of 1 2 ∷ [] }
    ensures set { are_linked (air_links (Said (codes "link 1 5") ∷ [])) 5 1 ≡ true }
    ensures cut { air_links (Said (codes "unlink 1 2") ∷ []) ≡ [] }
    ensures turned { air_links (Said (codes "unlink 2 1") ∷ []) ≡ [] }
    ensures same_start { air_links (Said (codes "unlink 1 5") ∷ []) ≡ link_of 1 2 ∷ [] }
    ensures same_end { are_linked (air_links (Said (codes "link 1 5") ∷ Said (codes "unlink 2 5") ∷ [])) 1 5 ≡ true }
    ensures itself { are_linked (air_links (Said (codes "link 2 2") ∷ [])) 2 2 ≡ false }
    ensures other_line { air_links (Said (codes "join 5") ∷ []) ≡ link_of 1 2 ∷ [] }
{}

/// The chip learns the links of a node when it joins, to nodes that it knows then, and at `discover` those of all that it knows, dead ones
/// too. A line that is refused teaches it nothing, a link that is cut stays in its table, and one that it forgets does not.
pub fn worked_table()
    ensures first { chip_links [] ≡ link_of 1 2 ∷ [] }
    ensures joins { are_linked (chip_links (Said (codes "link 1 5") ∷ Said (codes "join 5") ∷ [])) 1 5 ≡ true }
    ensures apart { are_linked (chip_links (Said (codes "link 1 5") ∷ [])) 1 5 ≡ false }
    ensures early { are_linked (chip_links (not_learned)) 1 5 ≡ false }
    ensures unknown { are_linked (chip_links (Said (codes "link 5 10") ∷ Said (codes "join 5") ∷ [])) 5 10 ≡ false }
    ensures known { are_linked (chip_links (Said (codes "link 2 5") ∷ Said (codes "join 5") ∷ [])) 2 5 ≡ true }
    ensures joins_again { are_linked
        (chip_links (Said (codes "link 1 5") ∷ Said (codes "join 5") ∷ Said (codes "unlink 1 5") ∷ Said (codes "join 5") ∷ [])) 1 5 ≡ false }
    ensures refused { are_linked (chip_links
        (Said (codes "link 1 5") ∷ Said (codes "join 5") ∷ Said (codes "unlink 1 5") ∷ Said (codes "join 5") ∷ Refused AlreadyJoined ∷ [])) 1 5 ≡ true }
    ensures discovers { are_linked (chip_links (Said (codes "join 5") ∷ Said (codes "link 1 5") ∷ Said (codes "discover") ∷ [])) 1 5 ≡ true }
    ensures discovers_dead { are_linked (chip_links (Said (codes "unlink 1 2") ∷ Said (codes "discover") ∷ [])) 1 2 ≡ false }
    ensures discovers_known { are_linked (chip_links (Said (codes "link 1 5") ∷ Said (codes "discover") ∷ [])) 1 5 ≡ false }
    ensures cut { are_linked (chip_links (Said (codes "unlink 1 2") ∷ [])) 1 2 ≡ true }
    ensures forgets { chip_links (Forget 1 2 ∷ []) ≡ [] }
    ensures forgets_another { are_linked (chip_links (Forget 1 5 ∷ [])) 1 2 ≡ true }
{}

/// A joined node repeats where its device listens; the one that is joined from the start does so whatever its device is, and one without a device does not.
pub fn worked_repeaters()
    ensures first { repeaters the_switches [] ≡ 2 ∷ [] }
    ensures joins { repeaters the_switches (Said (codes "join 10") ∷ []) ≡ 2 ∷ 10 ∷ [] }
    ensures sensor { repeaters (other_sensor ∷ []) (Said (codes "join 10") ∷ []) ≡ 2 ∷ [] }
    ensures nobody { repeaters [] (Said (codes "join 10") ∷ []) ≡ 2 ∷ [] }
    ensures first_sensor { repeaters (fresh 2 Sensor [] ∷ []) [] ≡ 2 ∷ [] }
{}

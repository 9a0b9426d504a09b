//! Which frame the chip may write after a short past, and which it may not.

ghost use Rattle.std.specs.Prelude.{◌≡◌, ◌∷◌, ◌++◌, [], codes, replicate, true, false};
ghost use Rattle.law_wire.specs.Given.{capability_of, function_mask, response_frame};
ghost use Rattle.law_wire.specs.Results.{ack_marks, has_failed};
ghost use Rattle.law_wire.specs.Worked.{the_switches};
ghost use Rattle.law_wire.specs.WorkedAir.{a_tick, arriving, coming_home, going_out};
ghost use Rattle.law_wire.specs.WorkedChip.{
  MayTell,
  aborting,
  another_heard,
  asking_five,
  asking_home,
  asks,
  beside_another,
  called_back,
  cut_after_tick,
  cut_short,
  first_heard,
  five_asked,
  heard_home,
  heard_once_more,
  heard_there,
  home_asked,
  informing,
  lost_on_its_way,
  not_informing,
  over_and_done,
  passing,
  refused_and_called,
  refused_whole,
  refusing,
  reported,
  switching_again,
  telling_home,
  tells,
  to_a_stranger,
  two_heard,
  unheard_there,
  with_payload_of,
  withdrawing,
  withdrawn,
  withdrawn_without,
  without_a_way,
};
ghost use Rattle.law_wire.specs.WorkedCourses.{request, response, switching_on, taking_it};
ghost use Rattle.law_transcript.specs.Worked.{the_sensor, the_switch};
ghost use Rattle.zw_text.specs.declared.entry.Entry.TheVariants.{Heard, Lost, Said};
ghost use Rattle.chip_functions.specs.declared.response.Response.TheVariants as answers;

/// The chip takes a SendData of 46 bytes, one after another that was aborted, and one in the tick after the last; it refuses one to a node that has not joined.
pub fn worked_taken()
    ensures stranger { MayTell (the_switch ∷ []) (to_a_stranger ∷ []) (asks to_a_stranger) (refusing) }
    ensures fits { MayTell (the_switch ∷ []) (with_payload_of 46 ∷ []) (asks (with_payload_of 46)) (taking_it) }
    ensures aborted { MayTell (the_switch ∷ []) (switching_on ∷ withdrawing ∷ switching_again ∷ []) (withdrawn ++ asks switching_again) (taking_it) }
    ensures later { MayTell (the_switch ∷ []) (switching_on ∷ switching_again ∷ []) (over_and_done ++ asks switching_again) (taking_it) }
{}

/// Each of these breaks one part of the law: the chip answers a request that it refused with NAK, what is a response, and what it cannot
/// read; takes a SendData to a node that has not joined, one that is too long, or one after another that another request stands after; and
/// refuses one after an abort, or in a later tick.
pub fn rejected_taken()
    ensures nak { MayTell (the_switch ∷ []) (switching_on ∷ []) refused_whole (taking_it) → ⊥ }
    ensures response { MayTell (the_switch ∷ []) (taking_it ∷ []) (asks taking_it) (taking_it) → ⊥ }
    ensures unread { MayTell (the_switch ∷ []) (cut_short ∷ []) (asks cut_short) (refusing) → ⊥ }
    ensures stranger { MayTell (the_switch ∷ []) (to_a_stranger ∷ []) (asks to_a_stranger) (taking_it) → ⊥ }
    ensures long { MayTell (the_switch ∷ []) (with_payload_of 47 ∷ []) (asks (with_payload_of 47)) (taking_it) → ⊥ }
    ensures busy { MayTell (the_switch ∷ []) (switching_on ∷ asking_home ∷ switching_again ∷ [])
        (home_asked ++ tells telling_home ++ asks switching_again) (taking_it) → ⊥ }
    ensures aborted { MayTell (the_switch ∷ []) (switching_on ∷ withdrawing ∷ switching_again ∷ []) (withdrawn ++ asks switching_again) (refusing) → ⊥ }
    ensures later { MayTell (the_switch ∷ []) (switching_on ∷ switching_again ∷ []) (over_and_done ++ asks switching_again) (refusing) → ⊥ }
{}

/// A SendData is called back as acknowledged where its own frame is heard and no mark takes the acknowledgement, with NO_ACK where one
/// does, with FAIL where it is aborted, and with NOROUTE, after the fates of the next tick, where it has no frame.
pub fn worked_callbacks()
    ensures heard { MayTell (the_switch ∷ []) (switching_on ∷ []) heard_there (called_back 1 0) }
    ensures unacknowledged { MayTell (the_switch ∷ []) (switching_on ∷ []) (Said (codes "loseack 1") ∷ heard_there) (called_back 1 1) }
    ensures lost { MayTell (the_switch ∷ []) (switching_on ∷ []) lost_on_its_way (called_back 1 1) }
    ensures unheard { MayTell (the_switch ∷ []) (switching_on ∷ []) unheard_there (called_back 1 1) }
    ensures aborted { MayTell (the_switch ∷ []) (switching_on ∷ withdrawing ∷ []) aborting (called_back 1 2) }
    ensures own { MayTell (the_switch ∷ []) (switching_on ∷ withdrawing ∷ switching_again ∷ []) (first_heard ++ Heard 2 ∷ []) (called_back 2 0) }
    ensures nowhere { MayTell (the_switch ∷ []) (switching_on ∷ []) another_heard (called_back 1 4) }
{}

/// Each of these breaks one part of the law: a SendData is called back as acknowledged though its acknowledgement, or its frame, was lost,
/// or its frame was not heard, or it was aborted; one of another number is; one is called back after the fate of an aborted one, after that
/// of a device's frame, and once more where its frame is repeated; an abort has a response, and a callback where nothing is under way, or
/// no more; and NOROUTE comes too early, before the fates of its tick, twice, in a later tick too, of a SendData that was refused, of one
/// that has a frame, or of one that was aborted.
pub fn rejected_callbacks()
    ensures unacknowledged { MayTell (the_switch ∷ []) (switching_on ∷ []) (Said (codes "loseack 1") ∷ heard_there) (called_back 1 0) → ⊥ }
    ensures lost { MayTell (the_switch ∷ []) (switching_on ∷ []) lost_on_its_way (called_back 1 0) → ⊥ }
    ensures unheard { MayTell (the_switch ∷ []) (switching_on ∷ []) unheard_there (called_back 1 0) → ⊥ }
    ensures aborted { MayTell (the_switch ∷ []) (switching_on ∷ withdrawing ∷ []) aborting (called_back 1 0) → ⊥ }
    ensures number { MayTell (the_switch ∷ []) (switching_on ∷ []) heard_there (called_back 2 0) → ⊥ }
    ensures another { MayTell (the_switch ∷ []) (switching_on ∷ withdrawing ∷ switching_again ∷ []) first_heard (called_back 2 0) → ⊥ }
    ensures device { MayTell (the_switch ∷ []) (switching_on ∷ []) another_heard (called_back 1 0) → ⊥ }
    ensures repeated { MayTell (the_switch ∷ []) (switching_on ∷ []) heard_once_more (called_back 1 0) → ⊥ }
    ensures response { MayTell (the_switch ∷ []) (switching_on ∷ withdrawing ∷ []) aborting (response 0x16 (codes "01")) → ⊥ }
    ensures nothing { MayTell (the_switch ∷ []) (withdrawing ∷ []) (asks withdrawing) (called_back 1 2) → ⊥ }
    ensures over { MayTell (the_switch ∷ []) (switching_on ∷ withdrawing ∷ []) (over_and_done ++ asks withdrawing) (called_back 1 2) → ⊥ }
    ensures early { MayTell (the_switch ∷ []) (switching_on ∷ []) without_a_way (called_back 1 4) → ⊥ }
    ensures before { MayTell (the_switch ∷ []) (switching_on ∷ []) beside_another (called_back 1 4) → ⊥ }
    ensures twice { MayTell (the_switch ∷ []) (switching_on ∷ switching_again ∷ []) refused_and_called (called_back 1 4) → ⊥ }
    ensures refused { MayTell (the_switch ∷ []) (switching_on ∷ switching_again ∷ []) refused_and_called (called_back 2 4) → ⊥ }
    ensures sent { MayTell (the_switch ∷ []) (switching_on ∷ []) over_and_done (called_back 1 4) → ⊥ }
    ensures withdrawn { MayTell (the_switch ∷ []) (switching_on ∷ withdrawing ∷ []) withdrawn_without (called_back 1 4) → ⊥ }
    ensures later { MayTell (the_switch ∷ []) (switching_on ∷ []) (without_a_way ++ a_tick 1 ++ tells (called_back 1 4) ++ a_tick 2) (called_back 1 4) → ⊥ }
{}

/// The chip answers each question: which nodes there are, which functions it knows, its version, its home id, whether a node listens, that
/// it asks a node for its information, whether a node failed, and the neighbours that its table has.
pub fn worked_responses()
    ensures nodes { MayTell (the_switch ∷ []) (request 0x02 [] ∷ []) (asks (request 0x02 [])) (response_frame (answers.GetInitData 5 0 (1 ∷ 2 ∷ []) 7 0)) }
    ensures functions { MayTell (the_switch ∷ []) (request 0x07 [] ∷ []) (asks (request 0x07 []))
        (response_frame (answers.GetCapabilities 1 0 0 0 0 function_mask)) }
    ensures version { MayTell (the_switch ∷ []) (request 0x15 [] ∷ []) (asks (request 0x15 []))
        (response_frame (answers.GetVersion (codes "Z-Wave 0.00" ++ 0 ∷ []) 1)) }
    ensures home { MayTell (the_switch ∷ []) (request 0x20 [] ∷ []) (asks (request 0x20 [])) (telling_home) }
    ensures listens { MayTell (the_switch ∷ []) (request 0x41 (codes "02") ∷ []) (asks (request 0x41 (codes "02")))
        (response_frame (answers.GetNodeProtocolInfo 128 0 0 4 0 0)) }
    ensures asks { MayTell (the_switch ∷ []) (request 0x60 (codes "02") ∷ []) (asks (request 0x60 (codes "02"))) (response 0x60 (codes "01")) }
    ensures failed { MayTell (the_switch ∷ []) (switching_on ∷ request 0x62 (codes "02") ∷ [])
        (unheard_there ++ tells (called_back 1 1) ++ asks (request 0x62 (codes "02"))) (response 0x62 (codes "01")) }
    ensures neighbours { MayTell (the_switch ∷ []) (request 0x80 (codes "02000000") ∷ [])
        (Said (codes "unlink 1 2") ∷ asks (request 0x80 (codes "02000000"))) (response_frame (answers.GetRoutingInfo (1 ∷ []))) }
{}

/// Each of these breaks one part of the law: the chip tells of a node that has not joined, leaves out one that has, or itself; tells of
/// other functions, of another version, of another home id; that a node that listens does not; that it asks nobody; that a node did not
/// fail which did; and the neighbours of the air, which it has not learned.
pub fn rejected_responses()
    ensures stranger { MayTell (the_switch ∷ []) (request 0x02 [] ∷ []) (asks (request 0x02 []))
        (response_frame (answers.GetInitData 5 0 (1 ∷ 2 ∷ 5 ∷ []) 7 0)) → ⊥ }
    ensures missing { MayTell (the_switch ∷ []) (request 0x02 [] ∷ []) (asks (request 0x02 [])) (response_frame (answers.GetInitData 5 0 (1 ∷ []) 7 0)) → ⊥ }
    ensures controller { MayTell (the_switch ∷ []) (request 0x02 [] ∷ []) (asks (request 0x02 [])) (response_frame (answers.GetInitData 5 0 (2 ∷ []) 7 0)) → ⊥ }
    ensures functions { MayTell (the_switch ∷ []) (request 0x07 [] ∷ []) (asks (request 0x07 []))
        (response_frame (answers.GetCapabilities 1 0 0 0 0 (replicate 32 0))) → ⊥ }
    ensures version { MayTell (the_switch ∷ []) (request 0x15 [] ∷ []) (asks (request 0x15 []))
        (response_frame (answers.GetVersion (codes "Z-Wave 0.01" ++ 0 ∷ []) 1)) → ⊥ }
    ensures home { MayTell (the_switch ∷ []) (request 0x20 [] ∷ []) (asks (request 0x20 [])) (response 0x20 (codes "0000000201")) → ⊥ }
    ensures listens { MayTell (the_switch ∷ []) (request 0x41 (codes "02") ∷ []) (asks (request 0x41 (codes "02")))
        (response_frame (answers.GetNodeProtocolInfo 0 0 0 4 0 0)) → ⊥ }
    ensures asks { MayTell (the_switch ∷ []) (request 0x60 (codes "02") ∷ []) (asks (request 0x60 (codes "02"))) (response 0x60 (codes "00")) → ⊥ }
    ensures failed { MayTell (the_switch ∷ []) (switching_on ∷ request 0x62 (codes "02") ∷ [])
        (unheard_there ++ tells (called_back 1 1) ++ asks (request 0x62 (codes "02"))) (response 0x62 (codes "00")) → ⊥ }
    ensures neighbours { MayTell (the_switch ∷ []) (request 0x80 (codes "02000000") ∷ [])
        (Said (codes "unlink 1 2") ∷ asks (request 0x80 (codes "02000000"))) (response_frame (answers.GetRoutingInfo [])) → ⊥ }
{}

/// The chip brings what it hears with its sender, also where it is repeated, and the information of a node that it asked for, also where
/// the next line cuts the node's link.
pub fn worked_notices()
    ensures brings { MayTell (the_switch ∷ []) ([]) heard_home (reported 255) }
    ensures informs { MayTell (the_sensor ∷ []) (asking_five ∷ []) five_asked (informing) }
    ensures informs_still { MayTell (the_sensor ∷ []) (asking_five ∷ []) cut_after_tick (informing) }
    ensures brings_again { MayTell (the_switch ∷ []) [] (heard_home ++ tells (reported 255) ++ Said (codes "repeat 1") ∷ Heard 1 ∷ []) (reported 255) }
{}

/// Each of these breaks one part of the law: the chip brings its own frame, what it hears from another sender, once more what it brought,
/// and what was lost; information that nobody asked for, another class list, another node's; none, where the next line cuts the node's
/// link; and it leaves out a frame though none was dropped.
pub fn rejected_notices()
    ensures own { MayTell (the_switch ∷ []) (switching_on ∷ []) heard_there (request 0x04 (codes "0001076C0101032501FF")) → ⊥ }
    ensures sender { MayTell (the_switch ∷ []) ([]) heard_home (request 0x04 (codes "0003032503FF")) → ⊥ }
    ensures unasked { MayTell (the_sensor ∷ []) ([]) (a_tick 1) (informing) → ⊥ }
    ensures classes { MayTell (the_sensor ∷ []) (asking_five ∷ []) five_asked (request 0x49 (codes "84050704000031808425")) → ⊥ }
    ensures node { MayTell (the_sensor ∷ []) (asking_five ∷ []) five_asked (request 0x49 (codes "8406070400003180846C")) → ⊥ }
    ensures still { MayTell (the_sensor ∷ []) (asking_five ∷ []) cut_after_tick (not_informing) → ⊥ }
    ensures left_out { MayTell (the_switch ∷ []) ([]) two_heard (reported 0) → ⊥ }
    ensures again { MayTell (the_switch ∷ []) [] (heard_home ++ tells (reported 255)) (reported 255) → ⊥ }
    ensures lost { MayTell (the_switch ∷ []) [] (coming_home 1 255 ∷ (a_tick 1 ++ Lost 1 ∷ [])) (reported 255) → ⊥ }
{}

/// A node failed where the last callback for it is NO_ACK or NOROUTE.
pub fn worked_failures()
    ensures none { has_failed (passing ([])) [] 2 ≡ false }
    ensures unheard { has_failed (passing (switching_on ∷ [])) unheard_there 2 ≡ true }
    ensures nowhere { has_failed (passing (switching_on ∷ [])) (without_a_way ++ a_tick 1) 2 ≡ true }
    ensures heard { has_failed (passing (switching_on ∷ [])) heard_there 2 ≡ false }
    ensures aborted { has_failed (passing (switching_on ∷ withdrawing ∷ [])) aborting 2 ≡ false }
    ensures other { has_failed (passing (switching_on ∷ [])) unheard_there 5 ≡ false }
    ensures last { has_failed (passing (switching_on ∷ switching_again ∷ []))
        (unheard_there ++ asks switching_again ++ going_out 2 ∷ (a_tick 2 ++ Heard 2 ∷ [])) 2 ≡ false }
{}

/// The controller listens, and a joined node whose device does.
pub fn worked_capabilities()
    ensures controller { capability_of [] [] 1 ≡ 128 }
    ensures switch { capability_of the_switches (Said (codes "join 10") ∷ []) 10 ≡ 128 }
    ensures stranger { capability_of the_switches [] 10 ≡ 0 }
    ensures sensor { capability_of (the_sensor ∷ []) (Said (codes "join 5") ∷ []) 5 ≡ 0 }
{}

/// A line asks for as many lost acknowledgements as it says. A frame of the controller that is heard in its tick uses one up; one that is
/// lost, one of a device and one that is repeated do not.
pub fn worked_ack_marks()
    ensures asked { ack_marks (Said (codes "loseack 2") ∷ []) ≡ 2 }
    ensures used { ack_marks (Said (codes "loseack 2") ∷ (arriving ++ Heard 1 ∷ [])) ≡ 1 }
    ensures lost { ack_marks (Said (codes "loseack 2") ∷ (arriving ++ Lost 1 ∷ [])) ≡ 2 }
    ensures home { ack_marks (Said (codes "loseack 2") ∷ coming_home 1 255 ∷ (a_tick 1 ++ Heard 1 ∷ [])) ≡ 2 }
    ensures repeated { ack_marks (arriving ++ Heard 1 ∷ Said (codes "loseack 2") ∷ Said (codes "repeat 1") ∷ Heard 1 ∷ []) ≡ 2 }
{}

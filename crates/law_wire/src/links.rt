//! What the laws of the serial link and of the chip as a whole say of worked transcripts, and of others with one thing wrong.

ghost use Rattle.std.specs.Prelude.{[], ◌∷◌, false, true};
ghost use Rattle.law_transcript.specs.Worked.{
  plain_exchange,
  repeated_exchange,
  lossy_exchange,
  cancelled_order,
  restarted_host,
  sleeping_node,
  sealed_exchange,
  long_message,
  the_switch,
  the_sensor,
  the_lock,
  the_plug,
};
ghost use Rattle.law_wire.specs.Links.{KeepsLinks};
ghost use Rattle.law_wire.specs.Answering.{ServesHost};
ghost use Rattle.law_wire.specs.WorkedLinks.{acknowledged, unanswered, refused_by_host, copied_in, overrun_alone};
ghost use Rattle.law_wire.specs.WorkedWrong.{
  spoken_over,
  host_spoke_over,
  host_answered_nothing,
  answered_nothing,
  answered_over_restart,
  refused_restart,
  kept_to_itself,
  collided_at_once,
};
ghost use Rattle.law_wire.specs.WorkedAir.{going_out};
ghost use Rattle.law_wire.specs.WorkedMarks.{a_call};
ghost use Rattle.zw_text.specs.declared.entry.Entry.TheVariants.{ChipFull};

/// In worked transcripts both sides of the serial link obey its rules, up to their end; so they do where a frame is acknowledged, where its
/// acknowledgement is lost and the copy comes in the sixteenth tick after it, and where the host answers over a restart that is refused.
pub fn worked_links()
    ensures plain { KeepsLinks true plain_exchange }
    ensures repeated { KeepsLinks true repeated_exchange }
    ensures lossy { KeepsLinks true lossy_exchange }
    ensures cancelled { KeepsLinks true cancelled_order }
    ensures restarted { KeepsLinks true restarted_host }
    ensures sleeping { KeepsLinks true sleeping_node }
    ensures sealed { KeepsLinks true sealed_exchange }
    ensures cut { KeepsLinks true long_message }
    ensures acknowledged { KeepsLinks true acknowledged }
    ensures copied { KeepsLinks false (copied_in (16 ∷ 42 ∷ 78 ∷ [])) }
    ensures refused { KeepsLinks false refused_restart }
{}

/// In worked transcripts the chip serves the host, up to their end.
pub fn worked_service()
    ensures plain { ServesHost true (the_switch ∷ []) plain_exchange }
    ensures repeated { ServesHost true (the_switch ∷ []) repeated_exchange }
    ensures lossy { ServesHost true (the_switch ∷ []) lossy_exchange }
    ensures cancelled { ServesHost true (the_switch ∷ []) cancelled_order }
    ensures restarted { ServesHost true (the_switch ∷ []) restarted_host }
    ensures sleeping { ServesHost true (the_sensor ∷ []) sleeping_node }
    ensures sealed { ServesHost true (the_lock ∷ []) sealed_exchange }
    ensures cut { ServesHost true (the_plug ∷ []) long_message }
{}

/// An answer of either side to a frame that never came breaks the law of links; so does a second frame of either side while its first waits, an
/// answer of the host to what came before it restarted, a frame of the chip that the host does not answer or answers CAN, the second, the third or
/// the fourth copy that comes a tick too early or too late, and a unit that finds no room though nothing is on its way. A frame that waits while the
/// link is idle breaks the law of the chip.
pub fn rejected_links()
    ensures nothing { KeepsLinks false answered_nothing → ⊥ }
    ensures kept { ServesHost true (the_switch ∷ []) kept_to_itself → ⊥ }
    ensures host { KeepsLinks false host_answered_nothing → ⊥ }
    ensures over { KeepsLinks false spoken_over → ⊥ }
    ensures host_over { KeepsLinks false host_spoke_over → ⊥ }
    ensures restarted { KeepsLinks false answered_over_restart → ⊥ }
    ensures unanswered { KeepsLinks true unanswered → ⊥ }
    ensures collides { KeepsLinks false refused_by_host → ⊥ }
    ensures early { KeepsLinks false (copied_in (15 ∷ [])) → ⊥ }
    ensures late { KeepsLinks false (copied_in (17 ∷ [])) → ⊥ }
    ensures third_early { KeepsLinks false (copied_in (16 ∷ 41 ∷ [])) → ⊥ }
    ensures third_late { KeepsLinks false (copied_in (16 ∷ 43 ∷ [])) → ⊥ }
    ensures fourth_early { KeepsLinks false (copied_in (16 ∷ 42 ∷ 77 ∷ [])) → ⊥ }
    ensures fourth_late { KeepsLinks false (copied_in (16 ∷ 42 ∷ 79 ∷ [])) → ⊥ }
    ensures overrun { KeepsLinks false overrun_alone → ⊥ }
{}

/// Each of these breaks one part of the law: the chip answers nothing, answers CAN though no line asks for it, puts a frame on the air that
/// nobody asked for, drops a frame though none waits, and writes a frame that it does not have for the host.
pub fn rejected_service()
    ensures link { ServesHost false (the_switch ∷ []) answered_nothing → ⊥ }
    ensures collides { ServesHost false (the_switch ∷ []) collided_at_once → ⊥ }
    ensures airs { ServesHost false (the_switch ∷ []) (going_out 1 ∷ []) → ⊥ }
    ensures drops { ServesHost false (the_switch ∷ []) (ChipFull ∷ []) → ⊥ }
    ensures answers { ServesHost false (the_switch ∷ []) (a_call ∷ []) → ⊥ }
{}

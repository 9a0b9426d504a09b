//! What the laws of the chip say of worked transcripts, and of others with one thing wrong.

ghost use Rattle.std.specs.Prelude.{[], ◌∷◌};
ghost use Rattle.law_transcript.specs.Worked.{
  plain_exchange,
  repeated_exchange,
  lossy_exchange,
  cancelled_order,
  restarted_host,
  sleeping_node,
  sealed_exchange,
  long_message,
  the_switch,
  the_sensor,
  the_lock,
  the_plug,
};
ghost use Rattle.law_wire.specs.Asked.{course_of};
ghost use Rattle.law_wire.specs.Given.{CanTell};
ghost use Rattle.law_wire.specs.Taking.{AirsWhatIsTaken};
ghost use Rattle.law_wire.specs.Answering.{AnswersInOrder, DropsWhenFull};
ghost use Rattle.law_wire.specs.Worked.{unroutable, untold, asleep, aborted, questions, copied, tellable, the_switches};
ghost use Rattle.law_wire.specs.WorkedCourses.{
  chip_history,
  without_copies,
  passed_in_unroutable,
  passed_in_untold,
  passed_in_asleep,
  passed_in_restarted,
  passed_in_repeated,
  passed_in_lossy,
  passed_in_cancelled,
  passed_in_sleeping,
  passed_in_sealed,
  passed_in_cut,
  passed_in_aborted,
  passed_in_questions,
  copied_course,
  switching_on,
};
ghost use Rattle.law_wire.specs.WorkedAir.{long_still};
ghost use Rattle.law_wire.specs.WorkedHalted.{sleeper};
ghost use Rattle.law_wire.specs.WorkedWrong.{
  aired_to_another,
  without_at,
  held_back,
  aired_otherwise,
  aired_again,
  refused_though_idle,
  called_otherwise,
  called_early,
  callback_left_out,
  brought_otherwise,
  routed_nowhere,
  told_from_afar,
  not_told,
  taken_though_busy,
  called_twice,
  neighbours_otherwise,
  failed_for_nothing,
  full_of_nothing,
};

/// In worked transcripts the frames on the air are those of the SendData that the chip takes and has a route for.
pub fn worked_taking()
    ensures plain { AirsWhatIsTaken (the_switch ∷ []) (course_of chip_history) plain_exchange }
    ensures unroutable { AirsWhatIsTaken (the_switch ∷ []) (without_copies passed_in_unroutable unroutable) unroutable }
    ensures restarted { AirsWhatIsTaken (the_switch ∷ []) (without_copies passed_in_restarted restarted_host) restarted_host }
    ensures repeated { AirsWhatIsTaken (the_switch ∷ []) (without_copies passed_in_repeated repeated_exchange) repeated_exchange }
    ensures lossy { AirsWhatIsTaken (the_switch ∷ []) (without_copies passed_in_lossy lossy_exchange) lossy_exchange }
    ensures cancelled { AirsWhatIsTaken (the_switch ∷ []) (without_copies passed_in_cancelled cancelled_order) cancelled_order }
    ensures sleeping { AirsWhatIsTaken (the_sensor ∷ []) (without_copies passed_in_sleeping sleeping_node) sleeping_node }
    ensures sealed { AirsWhatIsTaken (the_lock ∷ []) (without_copies passed_in_sealed sealed_exchange) sealed_exchange }
    ensures cut { AirsWhatIsTaken (the_plug ∷ []) (without_copies passed_in_cut long_message) long_message }
{}

/// In worked transcripts the chip writes what it has for the host: responses, callbacks, what it heard, and information of nodes.
pub fn worked_answers()
    ensures plain { AnswersInOrder (the_switch ∷ []) (course_of chip_history) plain_exchange }
    ensures unroutable { AnswersInOrder (the_switch ∷ []) (without_copies passed_in_unroutable unroutable) unroutable }
    ensures untold { AnswersInOrder (the_sensor ∷ []) (without_copies passed_in_untold untold) untold }
    ensures asleep { AnswersInOrder (the_sensor ∷ []) (without_copies passed_in_asleep asleep) asleep }
    ensures restarted { AnswersInOrder (the_switch ∷ []) (without_copies passed_in_restarted restarted_host) restarted_host }
    ensures aborted { AnswersInOrder (the_switch ∷ []) (without_copies passed_in_aborted aborted) aborted }
    ensures questions { AnswersInOrder the_switches (without_copies passed_in_questions questions) questions }
    ensures copied { AnswersInOrder (the_switch ∷ []) copied_course copied }
    ensures repeated { AnswersInOrder (the_switch ∷ []) (without_copies passed_in_repeated repeated_exchange) repeated_exchange }
    ensures lossy { AnswersInOrder (the_switch ∷ []) (without_copies passed_in_lossy lossy_exchange) lossy_exchange }
    ensures cancelled { AnswersInOrder (the_switch ∷ []) (without_copies passed_in_cancelled cancelled_order) cancelled_order }
    ensures sleeping { AnswersInOrder (the_sensor ∷ []) (without_copies passed_in_sleeping sleeping_node) sleeping_node }
    ensures sealed { AnswersInOrder (the_lock ∷ []) (without_copies passed_in_sealed sealed_exchange) sealed_exchange }
    ensures cut { AnswersInOrder (the_plug ∷ []) (without_copies passed_in_cut long_message) long_message }
{}

/// In worked transcripts the chip drops nothing, since few frames wait.
pub fn worked_drops()
    ensures plain { DropsWhenFull (the_switch ∷ []) (course_of chip_history) plain_exchange }
    ensures copied { DropsWhenFull (the_switch ∷ []) copied_course copied }
    ensures repeated { DropsWhenFull (the_switch ∷ []) (without_copies passed_in_repeated repeated_exchange) repeated_exchange }
    ensures lossy { DropsWhenFull (the_switch ∷ []) (without_copies passed_in_lossy lossy_exchange) lossy_exchange }
    ensures cancelled { DropsWhenFull (the_switch ∷ []) (without_copies passed_in_cancelled cancelled_order) cancelled_order }
    ensures restarted { DropsWhenFull (the_switch ∷ []) (without_copies passed_in_restarted restarted_host) restarted_host }
    ensures sleeping { DropsWhenFull (the_sensor ∷ []) (without_copies passed_in_sleeping sleeping_node) sleeping_node }
    ensures sealed { DropsWhenFull (the_lock ∷ []) (without_copies passed_in_sealed sealed_exchange) sealed_exchange }
    ensures cut { DropsWhenFull (the_plug ∷ []) (without_copies passed_in_cut long_message) long_message }
{}

/// Each of these breaks one part of the laws: a SendData that is taken and has no frame, another frame, one to another node, or two; one that is refused
/// though the chip is idle; a callback with another status, before the fate, or left out; what was not heard; a callback of a frame where there
/// was no route; information of a node that cannot tell it, or none of one that can; a SendData taken while another is under way; a second
/// callback of one that was aborted; other neighbours than the table has, or a node that failed without a callback; a callback given anew
/// where it was to be a copy; and a frame dropped though none waits.
pub fn rejected_chip()
    ensures back { AirsWhatIsTaken (the_switch ∷ []) (course_of chip_history) held_back → ⊥ }
    ensures otherwise { AirsWhatIsTaken (the_switch ∷ []) (course_of chip_history) aired_otherwise → ⊥ }
    ensures again { AirsWhatIsTaken (the_switch ∷ []) (course_of chip_history) aired_again → ⊥ }
    ensures refused { AnswersInOrder (the_switch ∷ []) (course_of chip_history) refused_though_idle → ⊥ }
    ensures called { AnswersInOrder (the_switch ∷ []) (course_of chip_history) called_otherwise → ⊥ }
    ensures early { AnswersInOrder (the_switch ∷ []) (course_of chip_history) called_early → ⊥ }
    ensures left_out { AnswersInOrder (the_switch ∷ []) (course_of chip_history) callback_left_out → ⊥ }
    ensures brought { AnswersInOrder (the_switch ∷ []) (course_of chip_history) brought_otherwise → ⊥ }
    ensures nowhere { AnswersInOrder (the_switch ∷ []) (without_copies passed_in_unroutable unroutable) routed_nowhere → ⊥ }
    ensures afar { AnswersInOrder (the_sensor ∷ []) (without_copies passed_in_untold untold) told_from_afar → ⊥ }
    ensures untold { AnswersInOrder (the_sensor ∷ []) (without_copies passed_in_asleep asleep) not_told → ⊥ }
    ensures busy { AnswersInOrder (the_switch ∷ []) (without_copies passed_in_restarted restarted_host) taken_though_busy → ⊥ }
    ensures twice { AnswersInOrder (the_switch ∷ []) (without_copies passed_in_aborted called_twice) called_twice → ⊥ }
    ensures neighbour { AnswersInOrder the_switches (without_copies passed_in_questions questions) neighbours_otherwise → ⊥ }
    ensures healthy { AnswersInOrder the_switches (without_copies passed_in_questions questions) failed_for_nothing → ⊥ }
    ensures anew { AnswersInOrder (the_switch ∷ []) (without_copies (switching_on ∷ []) copied) copied → ⊥ }
    ensures full { DropsWhenFull (the_switch ∷ []) (course_of chip_history) full_of_nothing → ⊥ }
    ensures to_another { AirsWhatIsTaken (the_switch ∷ []) (course_of chip_history) aired_to_another → ⊥ }
{}

/// A sensor that has a link, has joined and was woken can tell its information.
pub fn worked_telling()
    ensures { CanTell (sleeper ∷ []) 5 0 tellable }
{}

/// Each of these breaks one part of that: the sensor has no link, has not joined, sleeps, is not there, and falls asleep with the tick that it has lived then.
pub fn rejected_telling()
    ensures apart { CanTell (sleeper ∷ []) 5 0 (without_at 0 tellable) → ⊥ }
    ensures stranger { CanTell (sleeper ∷ []) 5 0 (without_at 1 tellable) → ⊥ }
    ensures asleep { CanTell (sleeper ∷ []) 5 0 (without_at 2 tellable) → ⊥ }
    ensures nobody { CanTell [] 5 0 tellable → ⊥ }
    ensures tired { CanTell (long_still ∷ []) 5 1 (without_at 2 tellable) → ⊥ }
{}

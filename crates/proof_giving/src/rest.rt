//! What the tie of attempts says where a host rests.

ghost use Rattle.std.specs.Prelude.{◌≡◌, List, [], ℕ};
ghost use Rattle.serial_frame.specs.declared.unit.Unit.{Unit as LineUnit};
ghost use Rattle.zw_text.specs.declared.entry.Entry.{Entry};
ghost use Rattle.host_node.specs.Facts.{NodeFacts};
ghost use Rattle.host_model.specs.State.{HostState, node_of};
ghost use Rattle.law_time.specs.Attempts.{attempt_is_over};
ghost use Rattle.law_time.specs.Heeds.{Heeds};
ghost use Rattle.law_time.specs.Requests.{asked};
ghost use Rattle.law_time.specs.Unanswered.{to_give_up};
ghost use Rattle.proof_queue.specs.proof_attempts.Attempts.{is_over_by};
ghost use Rattle.proof_queue.specs.proof_attempts.proof_requests.Asking.{TieAsked, doing_of};
ghost use Rattle.proof_queue.specs.proof_attempts.proof_requests.proof_alone.Steps.{AreFrames};
ghost use Rattle.proof_giving.specs.Told.{attempts_so_far};
ghost use Rattle.proof_giving.specs.Tie.{AttemptsSo, is_badly_over};

/// Where no answer is to come for a host, and the attempts of a node are tied to it, the last of them is over by the transcript as the tie says; so its
/// third is not, and no command is to be given up for the node.
pub fn attempts_leave_none_to_give_up()
    ensures over { (heeds : Heeds) (n : ℕ) (past : List Entry) (now : ℕ) (came : List LineUnit) (h : HostState) → AreFrames came →
        TieAsked past now now came (doing_of h) → NodeFacts (node_of h n) → AttemptsSo heeds n past h now now →
        attempt_is_over heeds past (asked past) now (attempts_so_far heeds n past)
        ≡ is_over_by now (is_badly_over heeds n past h now) (attempts_so_far heeds n past) }
    ensures none { (heeds : Heeds) (n : ℕ) (past : List Entry) (now : ℕ) (came : List LineUnit) (h : HostState) → AreFrames came →
        TieAsked past now now came (doing_of h) → NodeFacts (node_of h n) → AttemptsSo heeds n past h now now → to_give_up heeds past now n ≡ [] }
{}

//! What the events of a node make of its attempts, as they are told.

ghost use Rattle.std.specs.Prelude.{◌≡◌, ◌==◌, ◌+◌, ◌&&◌, if◌then◌else◌, Bool, false, true, Some, List, [], ◌∷◌, ℕ};
ghost use Rattle.encap.specs.Opening.{begins_with};
ghost use Rattle.host_node.specs.State.{NodeState};
ghost use Rattle.host_node.specs.Steps.{
  after_again_tick,
  after_attempt_end,
  after_attempt_tick,
  after_begin,
  after_hold_tick,
  after_nonce,
  after_occasion,
  after_restart,
  after_sign,
  after_sleep,
  with_final,
};
ghost use Rattle.host_node.specs.declared.attempt.Moment.{Moment};
ghost use Rattle.host_node.specs.declared.series.Series.TheVariants.{Running};
ghost use Rattle.law_time.specs.Attempts.{Attempts, anew, is_late};
ghost use Rattle.proof_queue.specs.proof_attempts.Attempts.{is_over_by};
ghost use Rattle.proof_giving.specs.Tie.{NodeSo, is_third};

/// A node stays tied to its attempts as they are told: where a series may be due, where it sleeps, with a sign, and as the end of the last request is known;
/// where an attempt ends, of which the third is told to be over, and by each part of a tick; where a nonce is taken, a final report comes, a series begins
/// and the host starts.
pub fn nodes_go_with_attempts()
    ensures occasion { (told : Attempts) (s : NodeState) (time : ℕ) (badly : Bool) → NodeSo told s time badly → NodeSo told (after_occasion s) time badly }
    ensures sleep { (told : Attempts) (s : NodeState) (time : ℕ) (badly : Bool) → NodeSo told s time badly → NodeSo told (after_sleep s) time badly }
    ensures sign { (told : Attempts) (s : NodeState) (time : ℕ) (badly : Bool) → NodeSo told s time badly → (b : Bool) →
        NodeSo (if is_late time told then record told { over = true } else (if b then record told { sign = time ∷ [] } else told))
        (if b then after_sign s else s) time badly }
    ensures known { (told : Attempts) (s : NodeState) (time : ℕ) (badly : Bool) → NodeSo told s time badly → (later : Bool) → (badly ≡ true → later ≡ true) →
        (s.series ≡ Running → (told.own && later) ≡ false) → NodeSo told s time later }
    ensures ends { (told : Attempts) (s : NodeState) (time : ℕ) (badly : Bool) → NodeSo told s time badly → (later : Bool) (moment : Moment) →
        (badly ≡ true → later ≡ true) → (s.series ≡ Running → is_over_by time later told ≡ true) →
        NodeSo (if is_third s then anew told else told) (after_attempt_end s moment) time later }
    ensures waits { (told : Attempts) (s : NodeState) (time : ℕ) (badly : Bool) → NodeSo told s time badly →
        NodeSo told (after_again_tick (after_hold_tick s)) time badly }
    ensures ticks { (told : Attempts) (s : NodeState) (time : ℕ) (badly : Bool) → NodeSo told s time badly →
        NodeSo (if (s.attempt_wait == 1) && is_third s then anew told else told) (after_attempt_tick s) (time + 1) badly }
    ensures nonce { (told : Attempts) (s : NodeState) (time : ℕ) (badly : Bool) (seen : ℕ) (sealed plain : List ℕ) → s.pending ≡ Some plain →
        begins_with sealed 0x98 0x81 ≡ true → NodeSo told s time badly → NodeSo told (after_nonce s seen sealed) time badly }
    ensures finishes { (told : Attempts) (s : NodeState) (time : ℕ) (badly : Bool) (status : ℕ) → NodeSo (anew told) (with_final s status) time badly }
    ensures begins { (told : Attempts) (s : NodeState) (time : ℕ) (badly : Bool) →
        ((sealed : List ℕ) → s.text ≡ Some sealed → begins_with sealed 0x98 0x81 ≡ true) → NodeSo (anew told) (after_begin s) time badly }
    ensures starts { (told : Attempts) (s : NodeState) (time : ℕ) (badly : Bool) → NodeSo (anew told) (after_restart s) time badly }
{}

//! The attempts of a series, by the transcript and in a host.

ghost use Rattle.std.specs.Prelude.{◌≡◌, ◌⊎◌, ◌≤◌, ◌+◌, ◌&&◌, nat_lt, false, true, Bool, List, [], ◌∷◌, ℕ};
ghost use Rattle.std.specs.List.{list_any};
ghost use Rattle.zw_text.specs.declared.entry.Entry.{Entry};
ghost use Rattle.proof_work.specs.law_transcript.Units.{sending_in};
ghost use Rattle.proof_work.specs.law_time.Attempts.{
  Attempts as AttemptsTold,
  anew,
  attempt_is_over,
  attempts_by_request,
  ends_badly,
  goes_on,
  is_late,
};
ghost use Rattle.proof_work.specs.law_time.Choice.{first_part, further_parts, parts_by};
ghost use Rattle.proof_work.specs.law_time.Ends.{has_ended};
ghost use Rattle.proof_work.specs.law_time.Heeds.{Heeds};
ghost use Rattle.proof_work.specs.law_time.Requests.{Asked};
ghost use Rattle.proof_work.specs.law_time.Sessions.{Session};
ghost use Rattle.host_node.specs.declared.attempt.Moment.{Moment};
ghost use Rattle.host_node.specs.declared.attempt.Plan.{Plan};
ghost use Rattle.host_node.specs.declared.series.Series.TheVariants.{Due, Running};
ghost use Rattle.host_node.specs.State.{NodeState, is_idle};
ghost use Rattle.host_node.specs.Steps.{
  after_attempt_end,
  after_attempt_tick,
  after_segment,
  after_sign,
  after_start,
  after_text,
};
ghost use Rattle.proof_attempts.specs.Attempts.{AreAttempts, has_ended_badly, is_over_by};

/// What is told of the attempts of a node says what its session has to send next: where one is due after at most two, the first part of an attempt, and where
/// one runs, what that goes on with. One that runs is not over, and a request that has not ended has not ended badly.
pub fn attempts_tell_what_is_next()
    ensures over { (heeds : Heeds) (past : List Entry) (last : Asked) (now : ℕ) (told : AttemptsTold) (node : NodeState) →
        AreAttempts told node now (has_ended_badly heeds past last now told.node) → node.series ≡ Running →
        attempt_is_over heeds past last now told ≡ false }
    ensures before { (last : Asked) (inner : Bool) (now : ℕ) → has_ended last now ≡ false → ends_badly last inner now ≡ false }
    ensures due { (told : AttemptsTold) (node : NodeState) (now : ℕ) (badly : Bool) (session : Session) → AreAttempts told node now badly →
        node.series ≡ Due → node.book.attempts ≤ 2 →
        parts_by (is_over_by now badly told) session told ≡ first_part session session.form ∷ [] }
    ensures running { (told : AttemptsTold) (node : NodeState) (now : ℕ) (badly : Bool) (session : Session) → AreAttempts told node now badly →
        node.series ≡ Running → parts_by (is_over_by now badly told) session told ≡ further_parts session session.form told }
{}

/// The attempts of a node go with it by the transcript: where one that is due begins, goes on, or another request comes; with a sign, and each tick; where one
/// ends and another is due; and where a series begins anew.
pub fn attempts_go_with_nodes()
    ensures begins { (told : AttemptsTold) (node : NodeState) (now : ℕ) (badly over : Bool) (unit : List ℕ) (plan : Plan) →
        AreAttempts told node now badly → node.series ≡ Due → node.attempt_wait ≡ 0 →
        list_any (λ carried. goes_on carried.payload) (sending_in unit) ≡ false →
        AreAttempts (attempts_by_request true over unit told) (after_start node plan) now false }
    ensures goes_on { (told : AttemptsTold) (node : NodeState) (now : ℕ) (badly over : Bool) (unit : List ℕ) → AreAttempts told node now badly →
        node.series ≡ Running → list_any (λ carried. goes_on carried.payload) (sending_in unit) ≡ true →
        AreAttempts (attempts_by_request true over unit told) (after_segment node) now false
        × AreAttempts (attempts_by_request true over unit told) (after_text node) now false }
    ensures other { (told : AttemptsTold) (node : NodeState) (now : ℕ) (badly later : Bool) (unit : List ℕ) → AreAttempts told node now badly →
        AreAttempts (attempts_by_request false (is_over_by now badly told) unit told) node now later }
    ensures sign { (told : AttemptsTold) (node : NodeState) (now : ℕ) (badly : Bool) → AreAttempts told node now badly → node.series ≡ Running →
        AreAttempts (record told { sign = now ∷ [] }) (after_sign node) now badly }
    ensures late { (told : AttemptsTold) (node : NodeState) (now : ℕ) (badly : Bool) → AreAttempts told node now badly → is_late now told ≡ true →
        AreAttempts (record told { over = true }) node now badly }
    ensures ticks { (told : AttemptsTold) (node : NodeState) (now : ℕ) (badly later : Bool) → AreAttempts told node now badly →
        (node.series ≡ Running → (told.own && later) ≡ false) → (badly ≡ true → later ≡ true) →
        (node.series ≡ Running → nat_lt (node.book.attempts + 1) 3 ≡ true) → AreAttempts told (after_attempt_tick node) (now + 1) later }
    ensures ends { (told : AttemptsTold) (node : NodeState) (now : ℕ) (badly : Bool) (moment : Moment) → node.series ≡ Running →
        told.begun ≡ node.book.attempts + 1 → nat_lt (node.book.attempts + 1) 3 ≡ true → is_over_by now badly told ≡ true →
        AreAttempts told (after_attempt_end node moment) now badly }
    ensures anew { (told : AttemptsTold) (node : NodeState) (now : ℕ) (badly : Bool) →
        (is_idle node.series ≡ true) ⊎ ((node.series ≡ Due) × (node.book.attempts ≡ 0)) → AreAttempts (anew told) node now badly }
{}

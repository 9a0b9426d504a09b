//! Requests that a host alone submits, and the attempts of nodes by its transcript.

ghost use Rattle.std.specs.Prelude.{◌≡◌, ◌≤◌, ◌==◌, ◌+◌, ◌&&◌, if◌then◌else◌, Bool, false, true, None, Some, List, ◌∷◌, [], ◌++◌, ℕ};
ghost use Rattle.zw_text.specs.declared.entry.Entry.{Entry};
ghost use Rattle.host_heard.specs.declared.told.Told.{Told};
ghost use Rattle.law_transcript.specs.Units.{Carried};
ghost use Rattle.zw_text.specs.Transcript.{folded};
ghost use Rattle.std.specs.List.{AllByRecursion};
ghost use Rattle.serial_frame.specs.declared.unit.TheConstants.{ACK};
ghost use Rattle.zw_words.specs.declared.side.Side.TheVariants.{Host};
ghost use Rattle.zw_text.specs.declared.entry.Entry.TheVariants.{Written};
ghost use Rattle.law_time.specs.Attempts.{Attempts, ends_badly, is_sign};
ghost use Rattle.law_time.specs.Moments.{clock};
ghost use Rattle.host_node.specs.State.{NodeState};
ghost use Rattle.law_time.specs.Ends.{is_abort_frame};
ghost use Rattle.law_time.specs.Requests.{asked};
ghost use Rattle.law_time.specs.Sessions.{is_last_command};
ghost use Rattle.host_requests.specs.declared.end.How.{How};
ghost use Rattle.host_requests.specs.declared.task.Purpose.TheVariants.{Attempt};
ghost use Rattle.host_requests.specs.declared.under_way.UnderWay.{UnderWay};
ghost use Rattle.proof_queue.specs.proof_attempts.proof_requests.Asking.{Doing};
ghost use Rattle.proof_queue.specs.proof_attempts.proof_requests.Standing.{first_ending, standing_of};
ghost use Rattle.proof_giving.specs.Told.{GoesAlong, attempts_so_far};
ghost use Rattle.host_requests.specs.Events.{RequestsEvent, end_at};
ghost use Rattle.host_node.specs.Steps.{after_sign, tick_end};
ghost use Rattle.host_node.specs.declared.attempt.Moment.{Moment};
ghost use Rattle.host_node.specs.declared.series.Series.TheVariants.{Running};
ghost use Rattle.host_model.specs.State.{HostState, node_of};
ghost use Rattle.host_model.specs.Sessions.{open_command};
ghost use Rattle.host_model.specs.Ends.{attempt_entries, part_end};
ghost use Rattle.host_model.specs.Facts.{HostFacts};
ghost use Rattle.host_model.specs.Outs.{request_entries};
ghost use Rattle.host_model.specs.Events.{HostEvent, Node_ticks, Requests_do};
ghost use Rattle.proof_queue.specs.proof_attempts.Attempts.{has_ended_badly, is_over_by};
ghost use Rattle.host_model.specs.After.{after};
ghost use Rattle.proof_queue.specs.proof_attempts.proof_requests.law_host.Heard.{heeds_alone};
ghost use Rattle.proof_queue.specs.proof_attempts.proof_requests.proof_alone.State.{HostMachine};
ghost use Rattle.proof_queue.specs.proof_attempts.proof_requests.proof_alone.Steps.{Does, IsOfUnit};
ghost use Rattle.proof_queue.specs.proof_attempts.proof_requests.proof_alone.Phases.{May, Submitting};
ghost use Rattle.proof_queue.specs.proof_attempts.proof_requests.proof_alone.Runs.{both_know};
ghost use Rattle.proof_queue.specs.proof_attempts.proof_requests.Walking.{Ground, KnowsAsked};
ghost use Rattle.proof_giving.specs.Stays.{ShowsSessions};
ghost use Rattle.proof_giving.specs.Tie.{
  AttemptsAs,
  AttemptsSo,
  IsOver,
  IsRequest,
  NodeSo,
  WaitsAsTold,
  anew_step,
  is_bad_for,
  is_bad_part,
  is_good_for,
  is_last_of,
};

use host_model::attempts_have_what_they_give;

/// Where what waits by the transcript at a request is what waits in the host, a request that a host alone submits goes on with the tie of the attempts of
/// each node: it is of an attempt just where that of its node is due or runs and nothing waits, and begins one where it is due; and it carries a segment that
/// others follow as it does in the host.
pub fn attempts_go_with_requests()
    ensures { (taken : List Entry → Carried → List Told) (past told : List Entry) (m : HostMachine) (event : HostEvent) (n : ℕ) →
        IsRequest event → May Submitting m (Does event told) Submitting → both_know Ground KnowsAsked Submitting past m →
        WaitsAsTold (heeds_alone taken) past m.state m.clock → n ≤ 232 → AttemptsSo (heeds_alone taken) n past m.state m.clock m.clock →
        ShowsSessions (heeds_alone taken) past m.state n → HostFacts (after m.state event) →
        ShowsSessions (heeds_alone taken) (past ++ told) (after m.state event) n →
        AttemptsSo (heeds_alone taken) n (past ++ told) (after m.state event) m.clock m.clock }
{
    attempts_have_what_they_give();
}

/// Where the request of a host hears of the chip, of its line or of a tick, and a part of an attempt ends by that which is no good callback, each node stays
/// tied to its attempts as the entries leave them: an attempt of its own is over where its last part ends badly, and those of others are not. So they do at
/// each tick of a node.
pub fn attempts_end_with_requests()
    ensures request { (h : HostState) (event : RequestsEvent) (moment : Moment) (n : ℕ) (told : Attempts) (time : ℕ) (badly later : Bool) →
        HostFacts h → n ≤ 232 → NodeSo told (node_of h n) time badly → (badly ≡ true → later ≡ true) → is_good_for n (end_at h.requests event) ≡ false →
        ((node_of h n).series ≡ Running → is_bad_for n (end_at h.requests event) ≡ false → (told.own && later) ≡ false) →
        ((node_of h n).series ≡ Running → is_bad_for n (end_at h.requests event) ≡ true → is_over_by time later told ≡ true) →
        NodeSo (folded (anew_step (is_last_of (node_of h n))) told (request_entries h event)) (node_of (after h (Requests_do event moment)) n) time later }
    ensures ticks { (h : HostState) (k n : ℕ) (told : Attempts) (time : ℕ) (badly : Bool) → HostFacts h → n ≤ 232 → NodeSo told (node_of h n) time badly →
        NodeSo (folded (anew_step (is_last_of (node_of h n))) told (attempt_entries k (tick_end (node_of h k)) (open_command (node_of h k))))
        (node_of (after h (Node_ticks k)) n) (if k == n then time + 1 else time) badly }
{}

/// So where the request under way ends, and by the transcript has ended badly just where that is bad for its attempt, each node stays tied to its attempts as
/// the entries tell of them, with no sign to come. One that has ended by no frame has ended badly.
pub fn attempts_end_as_told()
    ensures ended { (taken : List Entry → Carried → List Told) (n : ℕ) (past told : List Entry) (h : HostState) (event : RequestsEvent) (moment : Moment)
        (time before now : ℕ) → n ≤ 232 → HostFacts h → HostFacts (after h (Requests_do event moment)) →
        AttemptsAs (is_good_for n (end_at h.requests event)) (heeds_alone taken) n past h time before → AllByRecursion GoesAlong told →
        ((command : ℕ) → is_last_command n past command ≡ is_last_of (node_of h n) command) →
        folded (anew_step (is_last_of (node_of h n))) (attempts_so_far (heeds_alone taken) n past) told
        ≡ folded (anew_step (is_last_of (node_of h n))) (attempts_so_far (heeds_alone taken) n past) (request_entries h event) →
        (u : UnderWay) → h.requests.under_way ≡ Some u → (how : How) → end_at h.requests event ≡ Some (record { purpose = u.purpose; how = how }) →
        (after h (Requests_do event moment)).requests.under_way ≡ None → (asked (past ++ told)).frame ≡ (asked past).frame →
        ((more : Bool) (payload : List ℕ) → u.purpose ≡ Attempt n more payload → (node_of h n).series ≡ Running →
        has_ended_badly (heeds_alone taken) (past ++ told) (asked (past ++ told)) now n ≡ is_bad_part (part_end more how)) →
        AttemptsSo (heeds_alone taken) n (past ++ told) (after h (Requests_do event moment)) time now }
    ensures bad { (inner : Bool) (past : List Entry) (now : ℕ) (d : Doing) → IsOver past now d → is_abort_frame (asked past).frame ≡ false →
        first_ending (standing_of (asked past)) ≡ [] → ends_badly (asked past) inner now ≡ true }
{
    attempts_end_with_requests();
}

/// Where a frame of the chip is acknowledged each node stays tied to its attempts with the sign that it gives by the transcript: by a good callback of its
/// own request, or a report that it is at work. Nonces that it gives change nothing of that.
pub fn attempts_go_with_frames()
    ensures { (taken : List Entry → Carried → List Told) (n : ℕ) (past marks : List Entry) (now : ℕ) (s : NodeState) (badly : Bool) →
        AllByRecursion IsOfUnit marks → clock past ≡ now → NodeSo (attempts_so_far (heeds_alone taken) n past) s now badly →
        NodeSo (attempts_so_far (heeds_alone taken) n (past ++ Written Host (ACK ∷ []) ∷ marks))
        (if is_sign (heeds_alone taken) n (attempts_so_far (heeds_alone taken) n past).own (past ++ Written Host (ACK ∷ []) ∷ []) [] then after_sign s else s)
        now badly }
{}

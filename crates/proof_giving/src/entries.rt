//! Entries and time that leave the attempts of nodes, and where they begin anew.

ghost use Rattle.std.specs.Prelude.{◌≡◌, ◌≤◌, ◌<◌, ◌+◌, ◌++◌, Bool, IsSome, Option, None, true, false, length, List, [], ◌∷◌, ℕ};
ghost use Rattle.std.specs.List.{AllByRecursion};
ghost use Rattle.s0_crypto.specs.declared.key_pair.Keys.{Keys};
ghost use Rattle.serial_frame.specs.declared.unit.Unit.{Unit as LineUnit};
ghost use Rattle.zw_words.specs.declared.side.Side.TheVariants.{Chip};
ghost use Rattle.zw_text.specs.declared.entry.Entry.{Entry};
ghost use Rattle.zw_text.specs.declared.entry.Entry.TheVariants.{Begin, Refused, Said, Written};
ghost use Rattle.zw_text.specs.declared.entry.Refusal.{Refusal};
ghost use Rattle.zw_text.specs.Transcript.{line_of};
ghost use Rattle.host_heard.specs.declared.told.Told.{Told};
ghost use Rattle.host_node.specs.State.{NodeState};
ghost use Rattle.host_model.specs.After.{after};
ghost use Rattle.host_model.specs.Events.{Begins};
ghost use Rattle.host_model.specs.Facts.{HostFacts};
ghost use Rattle.host_model.specs.State.{HostState};
ghost use Rattle.law_transcript.specs.Restarts.{is_restart};
ghost use Rattle.law_transcript.specs.Units.{Carried};
ghost use Rattle.law_time.specs.Attempts.{Attempts, ends_badly};
ghost use Rattle.law_time.specs.Moments.{clock};
ghost use Rattle.law_time.specs.Requests.{asked, is_answer};
ghost use Rattle.world_model.specs.Events.{OpensFrom};
ghost use Rattle.proof_queue.specs.proof_attempts.proof_requests.Asking.{Doing};
ghost use Rattle.proof_queue.specs.proof_attempts.proof_requests.Standing.{IsAside, with_entries};
ghost use Rattle.proof_queue.specs.proof_attempts.proof_requests.law_host.Heard.{heeds_alone};
ghost use Rattle.proof_queue.specs.proof_attempts.proof_requests.proof_waking.Judged.{TieFrames};
ghost use Rattle.proof_giving.specs.Told.{LeavesAttempts, attempts_so_far};
ghost use Rattle.proof_giving.specs.Stays.{ShowsSessions};
ghost use Rattle.proof_giving.specs.Tie.{AttemptsAs, AttemptsSo, IsOver, NodeSo};

/// Each node stays tied to its attempts by entries that tell of none of them and go on with the last request, by the words of a line, also in vain, and by an
/// answer of the chip once that request has ended; later, where it has ended as before, and of a node without a wait also at its own next tick.
pub fn attempts_stay_by_entries()
    ensures aside { (taken : List Entry → Carried → List Told) (n : ℕ) (signs : Bool) (past : List Entry) (h : HostState) (time now : ℕ) →
        AttemptsAs signs (heeds_alone taken) n past h time now → HostFacts h → ShowsSessions (heeds_alone taken) past h n → (told : List Entry) →
        asked (past ++ told) ≡ with_entries (asked past) told → AllByRecursion IsAside told → AllByRecursion LeavesAttempts told →
        ShowsSessions (heeds_alone taken) (past ++ told) h n → AttemptsAs signs (heeds_alone taken) n (past ++ told) h time now }
    ensures said { (taken : List Entry → Carried → List Told) (n : ℕ) (signs : Bool) (past : List Entry) (h : HostState) (time now : ℕ) →
        AttemptsAs signs (heeds_alone taken) n past h time now → HostFacts h → ShowsSessions (heeds_alone taken) past h n → (words : List ℕ) →
        is_restart (line_of (Said words)) ≡ false → ShowsSessions (heeds_alone taken) (past ++ Said words ∷ []) h n →
        AttemptsAs signs (heeds_alone taken) n (past ++ Said words ∷ []) h time now }
    ensures in_vain { (taken : List Entry → Carried → List Told) (n : ℕ) (signs : Bool) (past : List Entry) (h : HostState) (time now : ℕ) →
        AttemptsAs signs (heeds_alone taken) n past h time now → HostFacts h → ShowsSessions (heeds_alone taken) past h n →
        (words : List ℕ) (refusal : Refusal) → ShowsSessions (heeds_alone taken) (past ++ Said words ∷ (Refused refusal ∷ [])) h n →
        AttemptsAs signs (heeds_alone taken) n (past ++ Said words ∷ (Refused refusal ∷ [])) h time now }
    ensures answered { (taken : List Entry → Carried → List Told) (n : ℕ) (signs : Bool) (past : List Entry) (h : HostState) (time now : ℕ) →
        AttemptsAs signs (heeds_alone taken) n past h time now → HostFacts h → ShowsSessions (heeds_alone taken) past h n →
        (d : Doing) (unit : List ℕ) (came : List LineUnit) →
        (h.requests.under_way ≡ None → (attempts_so_far (heeds_alone taken) n past).own ≡ true → IsOver past now d) → is_answer unit ≡ true →
        clock past ≡ now → TieFrames past came → ShowsSessions (heeds_alone taken) (past ++ Written Chip unit ∷ []) h n →
        AttemptsAs signs (heeds_alone taken) n (past ++ Written Chip unit ∷ []) h time now }
    ensures later { (taken : List Entry → Carried → List Told) (n : ℕ) (signs : Bool) (past : List Entry) (h : HostState) (time now : ℕ) →
        AttemptsAs signs (heeds_alone taken) n past h time now → (later : ℕ) →
        ((attempts_so_far (heeds_alone taken) n past).own ≡ true → h.requests.under_way ≡ None →
        (inner : Bool) → ends_badly (asked past) inner later ≡ ends_badly (asked past) inner now) → AttemptsAs signs (heeds_alone taken) n past h time later }
    ensures no_wait { (told : Attempts) (s : NodeState) (time : ℕ) (badly : Bool) → s.attempt_wait ≡ 0 → NodeSo told s time badly →
        NodeSo told s (time + 1) badly }
{}

/// So it does where a session begins, of its own or of another node, while no request is under way; and where the host starts again.
pub fn attempts_begin_with_sessions()
    ensures begins { (taken : List Entry → Carried → List Told) (n : ℕ) (past : List Entry) (h : HostState) (time now : ℕ) →
        AttemptsSo (heeds_alone taken) n past h time now → (k session command : ℕ) → n < length h.nodes → h.requests.under_way ≡ None → HostFacts h →
        ShowsSessions (heeds_alone taken) past h n → HostFacts (after h (Begins k session command)) →
        ShowsSessions (heeds_alone taken) (past ++ Begin k session command ∷ []) (after h (Begins k session command)) n →
        AttemptsSo (heeds_alone taken) n (past ++ Begin k session command ∷ []) (after h (Begins k session command)) time now }
    ensures starts { (taken : List Entry → Carried → List Told) (n : ℕ) (past : List Entry) (words : List ℕ) (keys : Keys)
        (records : Option (List (List ℕ))) (state : HostState) (time now : ℕ) → is_restart (line_of (Said words)) ≡ true → IsSome records →
        OpensFrom keys records state → state.requests.under_way ≡ None → 1 ≤ n →
        AttemptsSo (heeds_alone taken) n (past ++ Said words ∷ []) state time now }
{}

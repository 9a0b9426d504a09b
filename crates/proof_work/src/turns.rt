//! The tasks of a host, each in its turn.

ghost use Rattle.std.specs.Prelude.{◌≡◌, ℕ, List, [], ◌++◌, length};
ghost use Rattle.std.specs.List.{AllByRecursion, flat_map};
ghost use Rattle.s0_crypto.specs.declared.key_pair.Keys.{Keys};
ghost use Rattle.zw_text.specs.Transcript.{requests_done};
ghost use Rattle.proof_walk.specs.host_model.State.{HostState, first_host};
ghost use Rattle.proof_walk.specs.host_model.Events.{HostEvent};
ghost use Rattle.proof_walk.specs.host_model.After.{after};
ghost use Rattle.proof_walk.specs.host_model.Did.{after_all, MayAll};
ghost use Rattle.proof_walk.specs.host_model.May.{May, IsFree};
ghost use Rattle.law_time.specs.Rests.{interview_end};
ghost use Rattle.proof_walk.specs.proof_host.Entries.{entries_at};
ghost use Rattle.proof_work.specs.Doing.{IsDone};
ghost use Rattle.proof_work.specs.Rests.{Rests};
ghost use Rattle.proof_work.specs.Tasks.{KeepsInterview, added, added_all, ended, ended_all, errands, interviews, tasks_of};

/// Tasks end in the order in which they were added, one at a time: at each event, and over many, those that ended and then those that are left are those that
/// were there and then those that were added. A host that rests has none: so from its beginning each that was added has ended.
pub fn tasks_end_in_order()
    ensures each { (h : HostState) (event : HostEvent) → IsDone event → May h event →
        ended h event ++ tasks_of (after h event).requests ≡ tasks_of h.requests ++ added h event }
    ensures all { (h : HostState) (events : List HostEvent) → AllByRecursion IsDone events → MayAll h events →
        ended_all h events ++ tasks_of (after_all h events).requests ≡ tasks_of h.requests ++ added_all h events }
    ensures none { (h : HostState) → IsFree h → Rests h → tasks_of h.requests ≡ [] }
    ensures first { (keys : Keys) (events : List HostEvent) → AllByRecursion IsDone events → MayAll (first_host keys) events →
        IsFree (after_all (first_host keys) events) → Rests (after_all (first_host keys) events) →
        ended_all (first_host keys) events ≡ added_all (first_host keys) events }
{}

/// The end of each errand and of each interview of a node is entered, once: of an interview, where what it told was kept if it ended well.
pub fn ends_of_tasks_are_told()
    ensures errands { (n : ℕ) (h : HostState) (event : HostEvent) →
        length (requests_done n (entries_at h event)) ≡ length (errands n (ended h event)) }
    ensures interviews { (n : ℕ) (h : HostState) (event : HostEvent) → May h event → KeepsInterview event →
        length (flat_map (interview_end n) (entries_at h event)) ≡ length (interviews n (ended h event)) }
{}

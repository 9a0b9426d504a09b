//! What every event of a host keeps of its work, and what a pump leaves.

ghost use Rattle.std.specs.Prelude.{◌≡◌, ◌≤◌, ℕ, List, None};
ghost use Rattle.std.specs.List.{AllByRecursion};
ghost use Rattle.s0_crypto.specs.declared.key_pair.Keys.{Keys};
ghost use Rattle.serial_frame.specs.declared.item.Item.{Item};
ghost use Rattle.host_keep.specs.Legal.{AreLegal};
ghost use Rattle.host_keep.specs.declared.record.Record.{Record};
ghost use Rattle.host_node.specs.State.{NodeState};
ghost use Rattle.host_node.specs.Search.{first_wanting};
ghost use Rattle.host_node.specs.declared.series.Series.TheVariants.{Running};
ghost use Rattle.proof_walk.specs.host_model.State.{HostState, first_host, node_of};
ghost use Rattle.proof_walk.specs.host_model.Events.{HostEvent};
ghost use Rattle.proof_walk.specs.host_model.After.{after};
ghost use Rattle.proof_walk.specs.host_model.May.{May};
ghost use Rattle.proof_walk.specs.host_model.Did.{after_all, MayAll};
ghost use Rattle.proof_walk.specs.host_model.Opening.{opened};
ghost use Rattle.proof_walk.specs.host_model.Pumping.{IsNext, IsPumped, Pumps};
ghost use Rattle.proof_walk.specs.host_model.Taking.{AreJudged};
ghost use Rattle.proof_walk.specs.host_model.Ticking.{tick_events};
ghost use Rattle.proof_work.specs.Doing.{IsDone};
ghost use Rattle.proof_work.specs.Work.{HostWork, IsWoken, MayBeTold, SeriesMeans, part_of, times_told};
ghost use Rattle.proof_work.specs.Rests.{IsTended, NoneWants};

use host_requests::requests_stay_valid;
use proof_walk::{
    a_pump_ends, a_restart_keeps_what_is_held, attempts_have_what_they_give, facts_are_kept,
    nodes_are_told_in_few_turns,
};

/// A host begins with its work in order, and so does one that starts from legal records; each event that hosts do and that may happen keeps it so, and so do
/// events one after another.
pub fn hosts_keep_their_work()
    ensures first { (keys : Keys) → HostWork (first_host keys) }
    ensures opened { (keys : Keys) (records : List Record) → AreLegal records → HostWork (opened keys records) }
    ensures each { (h : HostState) (event : HostEvent) → HostWork h → IsDone event → May h event → HostWork (after h event) }
    ensures all { (h : HostState) (events : List HostEvent) → HostWork h → AllByRecursion IsDone events → MayAll h events → HostWork (after_all h events) }
{
    facts_are_kept();
    requests_stay_valid();
    host_node::facts_are_kept();
    attempts_have_what_they_give();
    a_restart_keeps_what_is_held();
}

/// What work in order says: what a node's series, attempts, waits, segments and texts may be together; what will wake an attempt that runs; and that a node is
/// told at most once that there is no more for it, and only while it is awake and no attempt of it runs.
pub fn work_in_order_means()
    ensures series { (h : HostState) (n : ℕ) → HostWork h → SeriesMeans (node_of h n) }
    ensures woken { (h : HostState) (n : ℕ) → HostWork h → (node_of h n).series ≡ Running → IsWoken (part_of n h.requests.under_way) (node_of h n) }
    ensures once { (h : HostState) (n : ℕ) → HostWork h → times_told n h.requests ≤ 1 }
    ensures told { (h : HostState) (n : ℕ) → HostWork h → 1 ≤ times_told n h.requests → MayBeTold (node_of h n) }
{}

/// What a pump, a tick and items of the chip make a host do is done by hosts.
pub fn hosts_do_these()
    ensures pumps { (h : HostState) (events : List HostEvent) → Pumps h events → AllByRecursion IsDone events }
    ensures ticks { (h : HostState) → AllByRecursion IsDone (tick_events h) }
    ensures items { (h : HostState) (items : List Item) (events : List HostEvent) → AreJudged h items events → AllByRecursion IsDone events }
{}

/// One turn of a pump at a time: once no node is next that is to be told that there is no more for it, none is left, and none comes to be by what is
/// submitted; and where nothing more can be submitted, nothing that is due lacks its request.
pub fn turns_of_a_pump_leave_nothing()
    ensures told { (nodes : List NodeState) → first_wanting nodes ≡ None → NoneWants nodes }
    ensures submits { (h : HostState) (event : HostEvent) → IsNext h event → NoneWants h.nodes → NoneWants (after h event).nodes }
    ensures ends { (h : HostState) → HostWork h → NoneWants h.nodes → IsPumped h → IsTended h }
{}

/// Where a pump ends, nothing that is due lacks its request, unless one is under way or the line is busy; and the host's work is in order. So it is of a host
/// from its beginning, and of one that starts from legal records, after any events that hosts do.
pub fn hosts_leave_nothing_due()
    ensures work { (h : HostState) (events : List HostEvent) → HostWork h → Pumps h events → HostWork (after_all h events) }
    ensures tended { (h : HostState) (events : List HostEvent) → HostWork h → Pumps h events → IsTended (after_all h events) }
    ensures first { (keys : Keys) (events pump : List HostEvent) → AllByRecursion IsDone events → MayAll (first_host keys) events →
        Pumps (after_all (first_host keys) events) pump → IsTended (after_all (after_all (first_host keys) events) pump) }
    ensures opened { (keys : Keys) (records : List Record) (events pump : List HostEvent) → AreLegal records → AllByRecursion IsDone events →
        MayAll (opened keys records) events → Pumps (after_all (opened keys records) events) pump →
        IsTended (after_all (after_all (opened keys records) events) pump) }
{
    hosts_keep_their_work();
    nodes_are_told_in_few_turns();
    a_pump_ends();
}

//! What a host alone knows of its nodes and of what it was asked.

ghost use Rattle.std.specs.Prelude.{Some, Bool, List, [], ℕ};
ghost use Rattle.s0_crypto.specs.declared.key_pair.Keys.{Keys};
ghost use Rattle.zw_text.specs.declared.entry.Entry.{Entry};
ghost use Rattle.proof_transcript.specs.law_transcript.Stores.{StoresConfirmed};
ghost use Rattle.proof_transcript.specs.law_time.Moments.{Allows};
ghost use Rattle.proof_transcript.specs.law_time.Waking.{may_wake};
ghost use Rattle.proof_transcript.specs.law_host.Heard.{listing_heard};
ghost use Rattle.proof_transcript.specs.proof_once.ByTable.{IsTable};
ghost use Rattle.proof_waking.specs.proof_alone.State.{HostMachine, first_alone};
ghost use Rattle.proof_waking.specs.proof_alone.Phases.{Phase, Resting};
ghost use Rattle.proof_waking.specs.proof_alone.Runs.{Run, Told, Walk};
ghost use Rattle.proof_known.specs.Known.{KnowsHeard, KnowsNodes, KnowsOrders, KnowsWhole};

use host_keep::texts_give_one_thing;
use host_node::a_restart_needs_the_records_alone;
use proof_transcript::{
    interviews_give_what_is_known, laws_follow, restarts_go_on, tables_are_what_was_said,
    tables_keep_orders,
};
use proof_waking::{
    a_host_begins_with_what_is_kept, a_restart_keeps_what_is_held, facts_are_kept,
    hosts_judge_as_told, hosts_keep_their_tables,
};

/// In any run of a host alone, also where it starts again, over a keeper that tells its records and has none at first: at each phase it knows of each node
/// what that listed in its last interview that ended well, by the frames that were judged, and of a node without one what it knew at first.
pub fn hosts_know_what_nodes_list()
    ensures walk { Walk (Allows may_wake) KnowsNodes }
    ensures first { (keys : Keys) → KnowsNodes Resting [] (first_alone keys (Some [])) }
    ensures run { (keys : Keys) (here : Phase) (told : List Entry) (m : HostMachine) → Run (first_alone keys (Some [])) here told m → KnowsHeard here told m }
{
    hosts_keep_their_tables();
    hosts_judge_as_told();
    interviews_give_what_is_known();
    a_restart_needs_the_records_alone();
    restarts_go_on();
}

/// In such a run, by that listing: each order that was accepted stands in the table as it was said, and the values that are stored are those that the
/// successful commands ask for, in order, each after its success.
pub fn hosts_keep_what_is_said()
    ensures walk { Walk (Allows may_wake) KnowsOrders }
    ensures table { (keys : Keys) (here : Phase) (told : List Entry) (m : HostMachine) → Run (first_alone keys (Some [])) here told m →
        (node : ℕ) → IsTable listing_heard m.state.commands node told }
    ensures stores { (keys : Keys) (told : List Entry) (whole : Bool) → Told (first_alone keys (Some [])) told → StoresConfirmed whole listing_heard told }
{
    hosts_know_what_nodes_list();
    hosts_keep_their_tables();
    tables_keep_orders();
    tables_are_what_was_said();
    laws_follow();
    restarts_go_on();
}

/// In such a run, at each phase: which nodes are joined, and what was heard of each of their values, is what the transcript shows; and it has places in its
/// store only for what its commands set and for what it heard. So all is known that decides what it answers and stores.
pub fn hosts_know_what_was_told()
    ensures walk { Walk (Allows may_wake) KnowsWhole }
    ensures first { (keys : Keys) → KnowsWhole Resting [] (first_alone keys (Some [])) }
{
    hosts_know_what_nodes_list();
    hosts_keep_what_is_said();
    tables_keep_orders();
    facts_are_kept();
    a_host_begins_with_what_is_kept();
    a_restart_keeps_what_is_held();
    a_restart_needs_the_records_alone();
    restarts_go_on();
    texts_give_one_thing();
}

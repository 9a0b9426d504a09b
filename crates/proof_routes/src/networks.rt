//! The networks of air and chip, at each phase of a line.

ghost use Rattle.std.specs.Prelude.{Some, List, [], ℕ};
ghost use Rattle.s0_crypto.specs.declared.key_pair.Keys.{Keys};
ghost use Rattle.device_sim.specs.State.{State};
ghost use Rattle.zw_text.specs.declared.entry.Entry.{Entry};
ghost use Rattle.law_wire.specs.Routes.{MayGo};
ghost use Rattle.proof_walk.specs.world_model.State.{Machine, first_machine};
ghost use Rattle.proof_walk.specs.Phases.{Between};
ghost use Rattle.proof_walk.specs.Walk.{Walk};
ghost use Rattle.proof_routes.specs.Networks.{Tie};
ghost use Rattle.proof_routes.specs.Knowing.{KnowNetworks};

use chip_sim::rules_of_events;
use host_keep::a_text_is_of_one_record;
use host_model::{
    a_host_begins_with_what_is_kept, a_restart_keeps_what_is_held, events_do_what_their_records_do,
    facts_are_kept, facts_are_kept_by_all,
};
use proof_walk::{devices_go_on, devices_stay_the_same};

/// At each phase of a line the air has the network of the transcript, and the chip's table that of the chip, whose repeaters are the joined nodes that listen;
/// between the words of a line and its effect, that of the transcript before the words. So where no line runs both networks are those of the transcript.
pub fn networks_go_on()
    ensures walk { (devices : List State) → Walk (MayGo devices) (KnowNetworks devices) }
    ensures first { (keys : Keys) (texts : List (List ℕ)) (devices : List State) → KnowNetworks devices Between [] (first_machine keys (Some texts) devices) }
    ensures tie { (devices : List State) (past : List Entry) (m : Machine) → KnowNetworks devices Between past m → Tie devices past m.outside }
{
    rules_of_events();
    a_text_is_of_one_record();
    a_host_begins_with_what_is_kept();
    a_restart_keeps_what_is_held();
    events_do_what_their_records_do();
    facts_are_kept();
    facts_are_kept_by_all();
    devices_go_on();
    devices_stay_the_same();
}

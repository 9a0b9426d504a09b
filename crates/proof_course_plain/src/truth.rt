//! That each success which the host is told of a node is true.

ghost use Rattle.std.specs.Prelude.{ℕ, ◌<◌, List, Option};
ghost use Rattle.std.specs.List.{AllByRecursion};
ghost use Rattle.proof_course.specs.Sessions.{Course, first_course};
ghost use Rattle.proof_course.specs.SessionFacts.{CourseFacts};
ghost use Rattle.serial_frame.specs.Stream.{Rest};
ghost use Rattle.serial_frame.specs.declared.item.Item.{Item};
ghost use Rattle.s0_crypto.specs.declared.key_pair.Keys.{Keys};
ghost use Rattle.zw_text.specs.declared.line.Line.{Line};
ghost use Rattle.device_sim.specs.State.{State};
ghost use Rattle.outside_model.specs.State.{Outside};
ghost use Rattle.host_model.specs.State.{HostState};
ghost use Rattle.host_model.specs.Taking.{AreJudged};
ghost use Rattle.host_model.specs.Events.{HostEvent};
ghost use Rattle.world_model.specs.State.{Machine, first_machine};
ghost use Rattle.world_model.specs.Events.{Event, May};
ghost use Rattle.world_model.specs.Did.{MayAll};
ghost use Rattle.proof_world.specs.proof_serial.Line.{WritesWell, AllWriteWell, AllAtRest, AreLines};
ghost use Rattle.proof_world.specs.proof_serial.Host.{AllAskWell};
ghost use Rattle.proof_world.specs.Restarts.{AllKeepWell, BeginsEmpty, IsHeld};
ghost use Rattle.proof_traffic.specs.OnAir.{AlwaysFew};
ghost use Rattle.proof_once.specs.Truly.{TellTruly, IsTrue, AreTrue};
ghost use Rattle.proof_course_plain.specs.Meaning.{Asked};
ghost use Rattle.proof_course_plain.specs.Mesh.{HasDevice};
ghost use Rattle.proof_course_plain.specs.Told.{HasPast};
ghost use Rattle.proof_course_plain.specs.HostGoing.{HostFollows, AllWell};
ghost use Rattle.proof_course_plain.specs.World.{WorldFollows, IsPlainly, EndsByHearing, OrdersPlain, NamesEnd};

use crate::world::{lines_ask_plainly, lines_have_a_course, worlds_follow_the_course};
use proof_course::{courses_keep_facts, ids_name_one_session};
use proof_once::{
    events_keep_facts, laws_follow, others_are_no_messages, reports_tell, what_is_over_stays,
};
use proof_traffic::{at_most_two_are_on_the_air, frames_fly_in_order};
use proof_world::{hosts_write_well, restarts_go_on, units_are_judged_whole};

/// As the host judges a report that ends a session of the node with success, the node's device has ended that session so, and each of its changes by sessions
/// made what the host's table of commands asks for.
pub fn hosts_are_told_the_truth()
    ensures { (node : ℕ) (orders : List Asked) (c : Course) (rest : Rest) (up down items : List Item) (h : HostState) (w : Outside)
        (events : List HostEvent) → node < 233 → HostFollows node orders c rest up items down h w → HasPast h → CourseFacts c →
        AllWell h events → AreJudged h items events → TellTruly node h w.devices events }
{
    frames_fly_in_order();
    courses_keep_facts();
    ids_name_one_session();
    events_keep_facts();
    laws_follow();
    what_is_over_stays();
    others_are_no_messages();
    reports_tell();
}

/// So at an event of the whole machine that follows a course of the node, and at events one after another.
pub fn worlds_tell_the_truth()
    ensures event { (node : ℕ) (orders : List Asked) (c : Course) (up down : List Item) (m : Machine) (event : Event) → node < 233 →
        WorldFollows node orders c up down m → May m event → WritesWell m event →
        EndsByHearing node event → IsTrue node m event }
    ensures events { (node : ℕ) (orders : List Asked) (c : Course) (up down : List Item) (m : Machine) (events : List Event) → node < 233 →
        WorldFollows node orders c up down m → IsHeld m.host.state m.records → MayAll m events →
        AllAtRest m events → AllWriteWell m events → AlwaysFew m events → AllKeepWell m events → AllByRecursion (IsPlainly node) events →
        AllByRecursion (EndsByHearing node) events → AreTrue node m events }
{
    hosts_are_told_the_truth();
    worlds_follow_the_course();
    restarts_go_on();
}

/// So over any lines from the first on, the last of which an allocation failure may have cut short, however often the host starts again,
/// for a node whose commands go unsealed, whole or in segments: each success that the host is told of the node is true at the moment it is
/// told. It is enough that the orders go so (`plain`). It assumes of the keeper what `lines_have_a_course` assumes.
pub fn lines_tell_the_truth()
    ensures lines { (node : ℕ) (keys : Keys) (records : Option (List (List ℕ))) (devices : List State) (lines : List Line)
        (events : List Event) → node < 233 → HasDevice node first_course devices → BeginsEmpty records →
        AreLines lines (first_machine keys records devices) events → MayAll (first_machine keys records devices) events →
        AllAskWell (first_machine keys records devices) events →
        AllKeepWell (first_machine keys records devices) events → AllByRecursion (IsPlainly node) events →
        AreTrue node (first_machine keys records devices) events }
    ensures plain { (node : ℕ) (keys : Keys) (records : Option (List (List ℕ))) (devices : List State) (lines : List Line)
        (events : List Event) → node < 233 → HasDevice node first_course devices → BeginsEmpty records →
        AllByRecursion NamesEnd lines → AreLines lines (first_machine keys records devices) events →
        MayAll (first_machine keys records devices) events → AllAskWell (first_machine keys records devices) events →
        AllKeepWell (first_machine keys records devices) events → AllByRecursion (OrdersPlain node) events →
        AreTrue node (first_machine keys records devices) events }
{
    worlds_tell_the_truth();
    lines_ask_plainly();
    lines_have_a_course();
    restarts_go_on();
    units_are_judged_whole();
    hosts_write_well();
    at_most_two_are_on_the_air();
}

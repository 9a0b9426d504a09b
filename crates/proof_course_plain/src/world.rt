//! The whole machine, in the course of one node.

ghost use Rattle.std.specs.Prelude.{◌≡◌, ℕ, ◌<◌, List, [], Option, Some, Ok};
ghost use Rattle.std.specs.List.{AllByRecursion};
ghost use Rattle.proof_course.specs.Sessions.{Course, first_course};
ghost use Rattle.serial_frame.specs.declared.item.Item.{Item};
ghost use Rattle.s0_crypto.specs.declared.key_pair.Keys.{Keys};
ghost use Rattle.zw_text.specs.declared.line.Line.{Line};
ghost use Rattle.zw_text.specs.Line.{line_at};
ghost use Rattle.device_sim.specs.State.{State};
ghost use Rattle.world_model.specs.State.{Machine, first_machine};
ghost use Rattle.world_model.specs.Events.{Event, May, happens};
ghost use Rattle.world_model.specs.Did.{happens_all, MayAll};
ghost use Rattle.proof_world.specs.proof_serial.Line.{WritesWell, AllWriteWell, IsAtRest, AllAtRest, AreLines};
ghost use Rattle.proof_world.specs.proof_serial.Host.{AllAskWell};
ghost use Rattle.proof_world.specs.Restarts.{KeepsWell, AllKeepWell, BeginsEmpty, IsHeld};
ghost use Rattle.proof_traffic.specs.OnAir.{EventStaysFew, AlwaysFew};
ghost use Rattle.proof_course_plain.specs.Meaning.{Asked};
ghost use Rattle.proof_course_plain.specs.Mesh.{HasDevice};
ghost use Rattle.proof_course_plain.specs.World.{WorldFollows, WorldGoes, HasCourse, IsPlainly, EndsByHearing, OrdersPlain, NamesEnd};

use crate::host::hosts_follow_the_course;
use crate::outside::outsides_follow_the_course;
use host_keep::texts_give_one_thing;
use proof_course::{courses_keep_facts, what_is_told_was_done};
use proof_once::{
    events_keep_facts, first_facts_hold, laws_follow, others_are_no_messages, restarts_keep_facts,
    what_is_over_stays,
};
use proof_traffic::at_most_two_are_on_the_air;
use proof_world::{hosts_write_well, restarts_go_on, units_are_judged_whole};

/// Every event of the whole machine makes steps of the course of a node, and so do events one after another. Where the host starts again, the keeper tells its
/// records, and they are those of the host before.
pub fn worlds_follow_the_course()
    ensures event { (node : ℕ) (orders : List Asked) (c : Course) (up down : List Item) (m : Machine) (event : Event) → node < 233 →
        WorldFollows node orders c up down m → IsHeld m.host.state m.records → May m event → IsAtRest m event →
        WritesWell m event → EventStaysFew m event → KeepsWell m event → IsPlainly node event → EndsByHearing node event → WorldGoes node c (happens m event) }
    ensures events { (node : ℕ) (orders : List Asked) (c : Course) (up down : List Item) (m : Machine) (events : List Event) → node < 233 →
        WorldFollows node orders c up down m → IsHeld m.host.state m.records → MayAll m events →
        AllAtRest m events → AllWriteWell m events → AlwaysFew m events → AllKeepWell m events → AllByRecursion (IsPlainly node) events →
        AllByRecursion (EndsByHearing node) events → WorldGoes node c (happens_all m events) }
{
    outsides_follow_the_course();
    hosts_follow_the_course();
    courses_keep_facts();
    events_keep_facts();
    laws_follow();
    what_is_over_stays();
    restarts_keep_facts();
    restarts_go_on();
    texts_give_one_thing();
}

/// What lines ask the host to send beside orders is no message of a session, where the end points that they name are at most 127; a line that is read names no
/// other. And in a line the host ends a session only by what it has taken out of its pipe.
pub fn lines_ask_plainly()
    ensures text { (text : List ℕ) (line : Line) → line_at text ≡ Ok (Some line) → NamesEnd line }
    ensures ends { (node : ℕ) (lines : List Line) (m : Machine) (events : List Event) → AreLines lines m events → AllByRecursion (EndsByHearing node) events }
    ensures plain { (node : ℕ) (lines : List Line) (m : Machine) (events : List Event) → AllByRecursion NamesEnd lines → AreLines lines m events →
        AllByRecursion (OrdersPlain node) events → AllByRecursion (IsPlainly node) events }
{
    others_are_no_messages();
}

/// So over any lines from the first on, the last of which an allocation failure may have cut short, however often the host starts again:
/// for a node whose commands go unsealed, whole or in segments, and whose device, the first of it in the list, takes what is not sealed
/// while others of the node are idle, there is a course of its sessions, from the first. The sessions of the host are the course's, and so
/// are those of the device, with the statuses to which it came; what the device applied by sessions is a part of the commands of the
/// sessions that began, in order, each once; and each session of which the host was told success is among them. The command of each session
/// of which the host was told has the outcome of the status that was told, and each change of the device by a session has exactly the
/// settings that the host's table of commands says the session's command asks for. It is enough that the orders go so (`plain`). It
/// assumes that the keeper has no records at first, and that it tells them, as they were recorded, where the host starts again
/// (`AllKeepWell`).
pub fn lines_have_a_course()
    ensures first { (node : ℕ) (keys : Keys) (records : Option (List (List ℕ))) (devices : List State) → node < 233 →
        HasDevice node first_course devices → WorldFollows node [] first_course [] [] (first_machine keys records devices) }
    ensures lines { (node : ℕ) (keys : Keys) (records : Option (List (List ℕ))) (devices : List State) (lines : List Line)
        (events : List Event) → node < 233 → HasDevice node first_course devices → BeginsEmpty records →
        AreLines lines (first_machine keys records devices) events → MayAll (first_machine keys records devices) events →
        AllAskWell (first_machine keys records devices) events →
        AllKeepWell (first_machine keys records devices) events → AllByRecursion (IsPlainly node) events →
        HasCourse node (happens_all (first_machine keys records devices) events) }
    ensures plain { (node : ℕ) (keys : Keys) (records : Option (List (List ℕ))) (devices : List State) (lines : List Line)
        (events : List Event) → node < 233 → HasDevice node first_course devices → BeginsEmpty records →
        AllByRecursion NamesEnd lines → AreLines lines (first_machine keys records devices) events →
        MayAll (first_machine keys records devices) events → AllAskWell (first_machine keys records devices) events →
        AllKeepWell (first_machine keys records devices) events → AllByRecursion (OrdersPlain node) events →
        HasCourse node (happens_all (first_machine keys records devices) events) }
{
    lines_ask_plainly();
    worlds_follow_the_course();
    outsides_follow_the_course();
    first_facts_hold();
    restarts_go_on();
    units_are_judged_whole();
    hosts_write_well();
    at_most_two_are_on_the_air();
    courses_keep_facts();
    what_is_told_was_done();
}

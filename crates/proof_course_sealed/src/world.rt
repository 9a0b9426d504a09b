//! The whole machine, in the courses of a lock.

ghost use Rattle.std.specs.Prelude.{ℕ, ◌<◌, List, [], Option};
ghost use Rattle.std.specs.List.{AllByRecursion};
ghost use Rattle.serial_frame.specs.declared.item.Item.{Item};
ghost use Rattle.s0_crypto.specs.declared.key_pair.Keys.{Keys};
ghost use Rattle.zw_text.specs.declared.line.Line.{Line};
ghost use Rattle.device_sim.specs.State.{State};
ghost use Rattle.world_model.specs.State.{Machine, first_machine};
ghost use Rattle.world_model.specs.Events.{Event, May, happens};
ghost use Rattle.world_model.specs.Did.{happens_all, MayAll};
ghost use Rattle.proof_course_plain.specs.proof_serial.Line.{WritesWell, AllWriteWell, IsAtRest, AllAtRest, AreLines};
ghost use Rattle.proof_course_plain.specs.proof_serial.Host.{AllAskWell};
ghost use Rattle.proof_course_plain.specs.Restarts.{KeepsWell, AllKeepWell, BeginsEmpty, IsHeld};
ghost use Rattle.proof_course_plain.specs.OnAir.{EventStaysFew, AlwaysFew};
ghost use Rattle.proof_course_plain.specs.Truly.{IsTrue, AreTrue};
ghost use Rattle.proof_course_plain.specs.World.{NamesEnd};
ghost use Rattle.proof_course_sealed.specs.Courses.{Courses, first_courses};
ghost use Rattle.proof_course_sealed.specs.Meaning.{Past, first_past};
ghost use Rattle.proof_course_sealed.specs.Mesh.{HasLock};
ghost use Rattle.proof_course_sealed.specs.World.{WorldFollows, WorldGoes, HasCourses, IsFitly, HearsInPipe};

use crate::air::frames_follow_the_courses;
use crate::host::{hosts_do_as_the_courses_have_it, hosts_judge_as_the_courses_have_it};
use crate::outside::outsides_follow_the_courses;
use crate::ways::ways_thin_together;
use host_keep::texts_give_one_thing;
use proof_course::{
    courses_keep_facts, nonces_of_nodes_keep_facts, nonces_of_the_host_keep_facts,
    what_is_told_was_done,
};
use proof_course_plain::{
    at_most_two_are_on_the_air, events_keep_facts, first_facts_hold, hosts_write_well, laws_follow,
    lines_ask_plainly, restarts_go_on, restarts_keep_facts, units_are_judged_whole,
    what_is_over_stays,
};
use proof_messages::{
    accounts_give_as_the_courses_do, others_are_no_messages, others_carry_no_nonce,
};

/// Every event of the whole machine makes steps of the courses of a lock, and so do events one after another; and each success that the
/// host is told of it is true at the moment it is told. Where the host starts again, the keeper tells its records, and they are those of
/// the host before.
pub fn worlds_follow_the_courses()
    ensures event { (past : Past) (node : ℕ) (c : Courses) (up down : List Item) (m : Machine) (event : Event) → node < 233 →
        WorldFollows past node c up down m → IsHeld m.host.state m.records → May m event → IsAtRest m event → WritesWell m event →
        EventStaysFew m event → KeepsWell m event → IsFitly node event → HearsInPipe node event → WorldGoes past node c (happens m event) }
    ensures truth { (past : Past) (node : ℕ) (c : Courses) (up down : List Item) (m : Machine) (event : Event) → node < 233 →
        WorldFollows past node c up down m → May m event → WritesWell m event → HearsInPipe node event → IsTrue node m event }
    ensures events { (past : Past) (node : ℕ) (c : Courses) (up down : List Item) (m : Machine) (events : List Event) → node < 233 →
        WorldFollows past node c up down m → IsHeld m.host.state m.records → MayAll m events → AllAtRest m events → AllWriteWell m events →
        AlwaysFew m events → AllKeepWell m events → AllByRecursion (IsFitly node) events → AllByRecursion (HearsInPipe node) events →
        WorldGoes past node c (happens_all m events) }
    ensures truths { (past : Past) (node : ℕ) (c : Courses) (up down : List Item) (m : Machine) (events : List Event) → node < 233 →
        WorldFollows past node c up down m → IsHeld m.host.state m.records → MayAll m events → AllAtRest m events → AllWriteWell m events →
        AlwaysFew m events → AllKeepWell m events → AllByRecursion (IsFitly node) events → AllByRecursion (HearsInPipe node) events → AreTrue node m events }
{
    outsides_follow_the_courses();
    frames_follow_the_courses();
    hosts_do_as_the_courses_have_it();
    hosts_judge_as_the_courses_have_it();
    ways_thin_together();
    courses_keep_facts();
    nonces_of_nodes_keep_facts();
    nonces_of_the_host_keep_facts();
    events_keep_facts();
    laws_follow();
    what_is_over_stays();
    restarts_keep_facts();
    restarts_go_on();
    texts_give_one_thing();
}

/// What lines ask the host to send beside orders is no message of a session and no nonce, where the end points that they name are at most
/// 127. And in a line the host makes something of a payload only where it has taken it out of its pipe.
pub fn lines_ask_fitly()
    ensures hears { (node : ℕ) (lines : List Line) (m : Machine) (events : List Event) → AreLines lines m events → AllByRecursion (HearsInPipe node) events }
    ensures fit { (node : ℕ) (lines : List Line) (m : Machine) (events : List Event) → AllByRecursion NamesEnd lines →
        AreLines lines m events → AllByRecursion (IsFitly node) events }
{
    others_are_no_messages();
    others_carry_no_nonce();
}

/// So over any lines from the first on, the last of which an allocation failure may have cut short, however often the host starts again:
/// for a node whose device, the first of it in the list, is a lock with the network's key while others of the node are idle, there are
/// courses of its sessions and of the nonces of both ends, from the first. What the host was told is what the lock did; the command of each
/// session of which it was told has the outcome of the status that was told; each change of the lock by a session has exactly the settings
/// that the host's table of commands says the session's command asks for; and each success is true as it is told. It assumes that the
/// keeper has no records at first, and that it tells them, as they were recorded, where the host starts again.
pub fn lines_have_courses()
    ensures first { (node : ℕ) (keys : Keys) (records : Option (List (List ℕ))) (devices : List State) → node < 233 →
        HasLock (first_past keys) node first_courses devices →
        WorldFollows (first_past keys) node first_courses [] [] (first_machine keys records devices) }
    ensures lines { (node : ℕ) (keys : Keys) (records : Option (List (List ℕ))) (devices : List State) (lines : List Line)
        (events : List Event) → node < 233 → HasLock (first_past keys) node first_courses devices → BeginsEmpty records →
        AllByRecursion NamesEnd lines → AreLines lines (first_machine keys records devices) events →
        MayAll (first_machine keys records devices) events → AllAskWell (first_machine keys records devices) events →
        AllKeepWell (first_machine keys records devices) events → HasCourses node (happens_all (first_machine keys records devices) events) }
    ensures truth { (node : ℕ) (keys : Keys) (records : Option (List (List ℕ))) (devices : List State) (lines : List Line)
        (events : List Event) → node < 233 → HasLock (first_past keys) node first_courses devices → BeginsEmpty records →
        AllByRecursion NamesEnd lines → AreLines lines (first_machine keys records devices) events →
        MayAll (first_machine keys records devices) events → AllAskWell (first_machine keys records devices) events →
        AllKeepWell (first_machine keys records devices) events → AreTrue node (first_machine keys records devices) events }
{
    lines_ask_fitly();
    lines_ask_plainly();
    worlds_follow_the_courses();
    outsides_follow_the_courses();
    accounts_give_as_the_courses_do();
    first_facts_hold();
    restarts_go_on();
    units_are_judged_whole();
    hosts_write_well();
    at_most_two_are_on_the_air();
    courses_keep_facts();
    nonces_of_nodes_keep_facts();
    nonces_of_the_host_keep_facts();
    what_is_told_was_done();
}

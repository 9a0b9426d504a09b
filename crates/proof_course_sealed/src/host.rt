//! The host, in the courses of a lock.

ghost use Rattle.std.specs.Prelude.{ℕ, ◌<◌, List, []};
ghost use Rattle.std.specs.List.{AllByRecursion};
ghost use Rattle.serial_frame.specs.Items.{IsUnit};
ghost use Rattle.serial_frame.specs.Stream.{Rest};
ghost use Rattle.serial_frame.specs.declared.item.Item.{Item};
ghost use Rattle.outside_model.specs.State.{Outside};
ghost use Rattle.outside_model.specs.Did.{happens_all};
ghost use Rattle.world_model.specs.State.{routed};
ghost use Rattle.host_model.specs.State.{HostState};
ghost use Rattle.host_model.specs.After.{after};
ghost use Rattle.host_model.specs.Outs.{outs};
ghost use Rattle.host_model.specs.Did.{after_all, outs_all};
ghost use Rattle.host_model.specs.May.{May};
ghost use Rattle.host_model.specs.Taking.{AreJudged};
ghost use Rattle.host_model.specs.Events.{HostEvent};
ghost use Rattle.proof_course_plain.specs.proof_serial.Line.{host_units};
ghost use Rattle.proof_course_plain.specs.Truly.{TellTruly};
ghost use Rattle.proof_course_plain.specs.Told.{HasPast};
ghost use Rattle.proof_course_plain.specs.HostGoing.{AllWell};
ghost use Rattle.proof_course_sealed.specs.Courses.{Courses, CoursesFacts};
ghost use Rattle.proof_course_sealed.specs.Meaning.{Past};
ghost use Rattle.proof_course_sealed.specs.Host.{AsksFitly};
ghost use Rattle.proof_course_sealed.specs.HostGoing.{HostFollows, HostGoes, IsUnheard};

use crate::air::frames_follow_the_courses;
use crate::ways::{ways_thin_together, what_waits_is_written};
use proof_course::{
    courses_keep_facts, first_bytes_name_one_of_the_host, first_bytes_name_one_of_the_node,
    ids_name_one_session, nonces_of_nodes_keep_facts, nonces_of_the_host_keep_facts,
};
use proof_course_plain::{events_keep_facts, frames_fly_in_order, laws_follow, what_is_over_stays};
use proof_messages::{
    accounts_give_as_the_courses_do, hosts_leave_nonces, hosts_open_what_was_sealed,
    hosts_seal_what_waits, messages_do_what_is_asked, others_are_no_messages,
    others_carry_no_nonce, reports_tell, sealers_take_as_the_courses_do, segments_tell,
};

/// What the host does of itself or is asked for makes steps of the courses of a lock: it begins a session; it asks for a nonce, with the
/// message of the last session to be sealed; it writes that message sealed, or a nonce that waits, or writes either again; it gives up what
/// is to be sealed. Whatever else it does, or writes, is nothing to the courses: what it sends the lock unsealed a lock does not take.
pub fn hosts_do_as_the_courses_have_it()
    ensures { (past : Past) (node : ℕ) (c : Courses) (rest : Rest) (up yet down : List Item) (h : HostState) (w : Outside)
        (event : HostEvent) → node < 233 → HostFollows past node c rest up yet down h w → HasPast h → CoursesFacts c → May h event →
        AsksFitly node event → IsUnheard node event → AllByRecursion IsUnit (host_units (outs h event)) →
        HostGoes past node c rest yet down (after h event) (happens_all w (routed (outs h event))) }
{
    frames_fly_in_order();
    frames_follow_the_courses();
    ways_thin_together();
    what_waits_is_written();
    courses_keep_facts();
    events_keep_facts();
    laws_follow();
    what_is_over_stays();
    others_are_no_messages();
    messages_do_what_is_asked();
    segments_tell();
    hosts_leave_nonces();
    others_carry_no_nonce();
    sealers_take_as_the_courses_do();
}

/// What the host judges makes steps of them: a nonce of the node is taken for the text that waits, which is sealed for it; a Nonce Get has
/// a nonce given, or the live one offered again; a report that was sealed for the live nonce spends it, and ends the last session where it
/// is of that one's end, which gives its command the outcome of that status. Each success is true as it is told.
pub fn hosts_judge_as_the_courses_have_it()
    ensures judges { (past : Past) (node : ℕ) (c : Courses) (rest : Rest) (up down items : List Item) (h : HostState) (w : Outside)
        (events : List HostEvent) → node < 233 → HostFollows past node c rest up items down h w → HasPast h → CoursesFacts c →
        AllWell h events → AreJudged h items events → HostGoes past node c rest [] down (after_all h events) (happens_all w (routed (outs_all h events))) }
    ensures truth { (past : Past) (node : ℕ) (c : Courses) (rest : Rest) (up down items : List Item) (h : HostState) (w : Outside)
        (events : List HostEvent) → node < 233 → HostFollows past node c rest up items down h w → HasPast h → CoursesFacts c →
        AllWell h events → AreJudged h items events → TellTruly node h w.devices events }
{
    hosts_do_as_the_courses_have_it();
    frames_follow_the_courses();
    ways_thin_together();
    courses_keep_facts();
    ids_name_one_session();
    nonces_of_nodes_keep_facts();
    nonces_of_the_host_keep_facts();
    first_bytes_name_one_of_the_host();
    first_bytes_name_one_of_the_node();
    events_keep_facts();
    laws_follow();
    what_is_over_stays();
    reports_tell();
    accounts_give_as_the_courses_do();
    hosts_leave_nonces();
    hosts_open_what_was_sealed();
    hosts_seal_what_waits();
    sealers_take_as_the_courses_do();
}

//! The host, in the course of one node.

ghost use Rattle.std.specs.Prelude.{ℕ, ◌<◌, List, []};
ghost use Rattle.std.specs.List.{AllByRecursion};
ghost use Rattle.proof_course.specs.Sessions.{Course};
ghost use Rattle.proof_course.specs.SessionFacts.{CourseFacts};
ghost use Rattle.serial_frame.specs.Items.{IsUnit};
ghost use Rattle.serial_frame.specs.Stream.{Rest};
ghost use Rattle.serial_frame.specs.declared.item.Item.{Item};
ghost use Rattle.outside_model.specs.State.{Outside};
ghost use Rattle.outside_model.specs.Did.{happens_all};
ghost use Rattle.world_model.specs.State.{routed};
ghost use Rattle.host_model.specs.State.{HostState};
ghost use Rattle.host_model.specs.After.{after};
ghost use Rattle.host_model.specs.Outs.{outs};
ghost use Rattle.host_model.specs.Did.{after_all, outs_all};
ghost use Rattle.host_model.specs.May.{May};
ghost use Rattle.host_model.specs.Taking.{AreJudged};
ghost use Rattle.host_model.specs.Events.{HostEvent};
ghost use Rattle.proof_world.specs.proof_serial.Line.{host_units};
ghost use Rattle.proof_course_plain.specs.Meaning.{Asked};
ghost use Rattle.proof_course_plain.specs.Host.{AsksPlainly};
ghost use Rattle.proof_course_plain.specs.Told.{HasPast};
ghost use Rattle.proof_course_plain.specs.HostGoing.{HostFollows, HostGoes, EndsNone, AllWell};

use proof_course::courses_keep_facts;
use proof_once::{
    events_keep_facts, laws_follow, others_are_no_messages, reports_tell, what_is_over_stays,
};
use proof_traffic::frames_fly_in_order;

/// What the host does makes steps of the course of a node whose commands go unsealed: it begins a session; it writes the message of the
/// last one, whole or segment by segment, or writes it again; and it judges what it has taken out of its pipe, where a report of the last
/// session's end ends it at the host, and gives its command the outcome of that status. Whatever else it does, or writes, is nothing to the
/// course.
pub fn hosts_follow_the_course()
    ensures does { (node : ℕ) (orders : List Asked) (c : Course) (rest : Rest) (up down : List Item) (h : HostState) (w : Outside)
        (event : HostEvent) → HostFollows node orders c rest up [] down h w → HasPast h → CourseFacts c → May h event →
        AsksPlainly node event → EndsNone node event → AllByRecursion IsUnit (host_units (outs h event)) →
        HostGoes node c rest [] down (after h event) (happens_all w (routed (outs h event))) }
    ensures judges { (node : ℕ) (orders : List Asked) (c : Course) (rest : Rest) (up down items : List Item) (h : HostState) (w : Outside)
        (events : List HostEvent) → node < 233 → HostFollows node orders c rest up items down h w → HasPast h → CourseFacts c →
        AllWell h events → AreJudged h items events → HostGoes node c rest [] down (after_all h events) (happens_all w (routed (outs_all h events))) }
{
    frames_fly_in_order();
    courses_keep_facts();
    events_keep_facts();
    laws_follow();
    what_is_over_stays();
    others_are_no_messages();
    reports_tell();
}

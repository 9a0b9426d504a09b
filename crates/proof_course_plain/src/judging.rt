//! What the device of a node makes of its sessions at each event.

ghost use Rattle.std.specs.Prelude.{◌≡◌, ℕ, ◌<◌, true, List};
ghost use Rattle.proof_course.specs.Sessions.{Course, Cargo};
ghost use Rattle.serial_frame.specs.declared.item.Item.{Item};
ghost use Rattle.device_sim.specs.State.{State};
ghost use Rattle.device_sim.specs.Event.{Hears, device_after};
ghost use Rattle.world_model.specs.State.{Machine};
ghost use Rattle.world_model.specs.Events.{Event, happens};
ghost use Rattle.proof_course_plain.specs.Meaning.{Asked, HostMeans};
ghost use Rattle.proof_course_plain.specs.Making.{Makes, Names};
ghost use Rattle.proof_course_plain.specs.Device.{AtDevice};
ghost use Rattle.proof_course_plain.specs.World.{WorldFollows};
ghost use Rattle.proof_course_plain.specs.Judged.{Judges, JudgesAt, IsNoHand};

use crate::air::frames_follow_the_course;
use crate::device::devices_follow_the_course;
use proof_course::{courses_keep_facts, ids_name_one_session};
use proof_once::{messages_do_what_is_asked, messages_open, others_are_no_messages, segments_tell};
use proof_traffic::{devices_stay_the_same, frames_fly_in_order};

/// A payload of the host leaves the sessions and the changes of a device that takes what is not sealed as they were, or it is the message of the next
/// session, whole or with its last segment: then the device has the status that its kind gives the commands of that session, as they were accepted, on the
/// values that it had before. So it is at each event of a machine that follows the course of a node, unless the device of the node is set by hand: then
/// it takes a session so, or ends the work that it is at, or neither.
pub fn devices_judge_what_is_asked()
    ensures hears { (orders : List Asked) (commands : List ℕ) (c : Course) (device : State) (cargo : Cargo) (payload drawn : List ℕ) →
        AtDevice c device → device.awake ≡ true → HostMeans orders commands payload cargo → Names c.device cargo →
        Makes orders commands device → Judges orders commands device (device_after device (Hears payload drawn)) }
    ensures event { (node : ℕ) (orders : List Asked) (c : Course) (up down : List Item) (m : Machine) (event : Event) → node < 233 →
        WorldFollows node orders c up down m → IsNoHand node event →
        JudgesAt node orders c.host.commands m.outside.devices (happens m event).outside.devices }
{
    frames_fly_in_order();
    frames_follow_the_course();
    devices_follow_the_course();
    devices_stay_the_same();
    courses_keep_facts();
    ids_name_one_session();
    messages_open();
    messages_do_what_is_asked();
    others_are_no_messages();
    segments_tell();
}

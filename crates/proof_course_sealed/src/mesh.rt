//! What arrives on the air, in the courses of a lock.

ghost use Rattle.std.specs.Prelude.{◌≡◌, ℕ, ◌<◌, List, [], Some, None, Option, slice_get, slice_set};
ghost use Rattle.route_table.specs.declared.route.Route.{Route as TheRoute};
ghost use Rattle.air_frames.specs.Ages.{refusal_of};
ghost use Rattle.device_sim.specs.State.{State};
ghost use Rattle.device_sim.specs.Event.{DeviceEvent, Ticks, device_after, device_replies};
ghost use Rattle.mesh_sim.specs.Air.{is_joined};
ghost use Rattle.mesh_sim.specs.Fates.{Mesh, place_of};
ghost use Rattle.mesh_sim.specs.Steps.{Arrives, Repeats, mesh_after, mesh_outs, MayHappen, answered_if};
ghost use Rattle.proof_course_plain.specs.Judged.{JudgesEach};
ghost use Rattle.proof_course_plain.specs.Making.{HearsNone};
ghost use Rattle.proof_course_plain.specs.Mesh.{brought};
ghost use Rattle.proof_course_sealed.specs.Courses.{Courses, CoursesFacts};
ghost use Rattle.proof_course_sealed.specs.Meaning.{Past};
ghost use Rattle.proof_course_sealed.specs.Mesh.{InMesh, MeshGoes};

use crate::air::frames_follow_the_courses;
use crate::device::locks_follow_the_courses;
use proof_course::{
    first_bytes_name_one_of_the_host, first_bytes_name_one_of_the_node, ids_name_one_session,
    nonces_of_nodes_keep_facts,
};
use proof_course_plain::{
    devices_follow_the_course, devices_stay_the_same, frames_fly_in_order, idle_devices_stay_idle,
};

/// The next frame arrives, or one is heard again that may be: by the lock of the node, by another device, by the chip or by nobody. What a
/// device answers goes on the air where it is joined; so does what the first device of a node says at an event of its own, at which a lock
/// says nothing. Any device ticks: where there are more of the node, the others say nothing. And what the lock makes of its sessions as it hears, ticks
/// or is woken is what its kind says of them.
pub fn arrivals_follow_the_courses()
    ensures arrives { (past : Past) (node : ℕ) (c : Courses) (mesh : Mesh) (drawn : List ℕ) (route : Option TheRoute) → node < 233 →
        CoursesFacts c → InMesh past node c mesh → MayHappen mesh (Arrives drawn route) →
        MeshGoes past node c (mesh_after mesh (Arrives drawn route)) (brought (mesh_outs mesh (Arrives drawn route))) }
    ensures repeats { (past : Past) (node : ℕ) (c : Courses) (mesh : Mesh) (number : ℕ) (drawn : List ℕ) (route : Option TheRoute) →
        node < 233 → CoursesFacts c → InMesh past node c mesh → refusal_of mesh.air.frames number ≡ None →
        MayHappen mesh (Repeats number drawn route) →
        MeshGoes past node c (mesh_after mesh (Repeats number drawn route)) (brought (mesh_outs mesh (Repeats number drawn route))) }
    ensures own { (past : Past) (node : ℕ) (c : Courses) (mesh : Mesh) (place : ℕ) (device : State) (event : DeviceEvent)
        (way : Option TheRoute) → InMesh past node c mesh → slice_get mesh.devices place ≡ Some device →
        place_of device.node mesh.devices ≡ Some place → HearsNone event →
        MeshGoes past node c (record {
          air = answered_if (is_joined mesh.air device.node) mesh.air device.node way
              (device_replies device event);
          devices = slice_set mesh.devices place (device_after device event);
        }) [] }
    ensures ticks { (past : Past) (node : ℕ) (c : Courses) (mesh : Mesh) (place : ℕ) (device : State) (drawn : List ℕ)
        (way : Option TheRoute) → InMesh past node c mesh → slice_get mesh.devices place ≡ Some device →
        MeshGoes past node c (record {
          air = answered_if (is_joined mesh.air device.node) mesh.air device.node way
              (device_replies device (Ticks drawn));
          devices = slice_set mesh.devices place (device_after device (Ticks drawn));
        }) [] }
    ensures judges { (past : Past) (node : ℕ) (c : Courses) (mesh : Mesh) → node < 233 → CoursesFacts c → (is : InMesh past node c mesh) →
        JudgesEach node past.orders past.commands mesh.air.frames is.device.device }
{
    frames_fly_in_order();
    frames_follow_the_courses();
    locks_follow_the_courses();
    devices_follow_the_course();
    idle_devices_stay_idle();
    devices_stay_the_same();
    nonces_of_nodes_keep_facts();
    ids_name_one_session();
    first_bytes_name_one_of_the_node();
    first_bytes_name_one_of_the_host();
}

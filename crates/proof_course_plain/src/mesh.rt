//! What arrives on the air, in the course of one node.

ghost use Rattle.std.specs.Prelude.{◌≡◌, ℕ, ◌<◌, List, [], Some, None, Option, slice_get, slice_set};
ghost use Rattle.proof_course.specs.Sessions.{Course};
ghost use Rattle.proof_course.specs.SessionFacts.{CourseFacts};
ghost use Rattle.route_table.specs.declared.route.Route.{Route as TheRoute};
ghost use Rattle.air_frames.specs.Ages.{refusal_of};
ghost use Rattle.device_sim.specs.State.{State};
ghost use Rattle.device_sim.specs.Event.{DeviceEvent, Ticks, device_after, device_replies};
ghost use Rattle.mesh_sim.specs.Air.{is_joined};
ghost use Rattle.mesh_sim.specs.Fates.{Mesh, place_of};
ghost use Rattle.mesh_sim.specs.Steps.{Arrives, Repeats, mesh_after, mesh_outs, MayHappen, answered_if};
ghost use Rattle.proof_course_plain.specs.Meaning.{Asked};
ghost use Rattle.proof_course_plain.specs.Making.{Makes};
ghost use Rattle.proof_course_plain.specs.Device.{GoesAs};
ghost use Rattle.proof_course_plain.specs.Mesh.{InMesh, MeshGoes, brought};

use crate::air::frames_follow_the_course;
use crate::device::{devices_follow_the_course, idle_devices_stay_idle};
use proof_course::{courses_keep_facts, ids_name_one_session};
use proof_traffic::{devices_stay_the_same, frames_fly_in_order};

/// The next frame arrives, or one is heard again that may be: by the device of the node, by another, by the chip or by nobody. What a
/// device answers goes on the air. The first device of a node has an event of its own, and what it sends goes on the air, where it is
/// joined. Any device ticks: where there are more of one node, the others do so too.
pub fn arrivals_follow_the_course()
    ensures arrives { (node : ℕ) (orders : List Asked) (c : Course) (mesh : Mesh) (drawn : List ℕ) (route : Option TheRoute) → node < 233 →
        CourseFacts c → InMesh node orders c mesh → MayHappen mesh (Arrives drawn route) →
        MeshGoes node orders c (mesh_after mesh (Arrives drawn route)) (brought (mesh_outs mesh (Arrives drawn route))) }
    ensures repeats { (node : ℕ) (orders : List Asked) (c : Course) (mesh : Mesh) (number : ℕ) (drawn : List ℕ) (route : Option TheRoute) →
        node < 233 → CourseFacts c → InMesh node orders c mesh →
        refusal_of mesh.air.frames number ≡ None → MayHappen mesh (Repeats number drawn route) →
        MeshGoes node orders c (mesh_after mesh (Repeats number drawn route)) (brought (mesh_outs mesh (Repeats number drawn route))) }
    ensures own { (node : ℕ) (orders : List Asked) (c : Course) (mesh : Mesh) (place : ℕ) (device : State) (event : DeviceEvent)
        (way : Option TheRoute) → InMesh node orders c mesh →
        slice_get mesh.devices place ≡ Some device → place_of device.node mesh.devices ≡ Some place →
        (device.node ≡ node → GoesAs c device event) → (device.node ≡ node → Makes orders c.host.commands (device_after device event)) →
        MeshGoes node orders c (record {
          air = answered_if (is_joined mesh.air device.node) mesh.air device.node way
              (device_replies device event);
          devices = slice_set mesh.devices place (device_after device event);
        }) [] }
    ensures ticks { (node : ℕ) (orders : List Asked) (c : Course) (mesh : Mesh) (place : ℕ) (device : State) (drawn : List ℕ)
        (way : Option TheRoute) → InMesh node orders c mesh → slice_get mesh.devices place ≡ Some device →
        MeshGoes node orders c (record {
          air = answered_if (is_joined mesh.air device.node) mesh.air device.node way
              (device_replies device (Ticks drawn));
          devices = slice_set mesh.devices place (device_after device (Ticks drawn));
        }) [] }
{
    frames_fly_in_order();
    frames_follow_the_course();
    devices_follow_the_course();
    idle_devices_stay_idle();
    devices_stay_the_same();
    courses_keep_facts();
    ids_name_one_session();
}

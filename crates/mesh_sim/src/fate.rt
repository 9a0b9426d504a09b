//! What becomes of a frame that arrives.

ghost use Rattle.std.specs.Prelude.{◌≡◌, ◌<◌, ◌^◌, length, map, All, ◌≤◌};
ghost use Rattle.mesh_sim.specs.Fates.{dead_hop, dead_hop_of, fate_of, HearsWithin};

use crate::devices::listener_in;
use air_frames::{Frame, Heading};
use device_sim::Device;
use route_table::RouteTable;
use zw_base::{NodeId, controller, read_node};

/// What becomes of a frame that arrives.
#[derive(Clone, Copy, Debug)]
pub enum Fate {
    /// It was marked, or has no route.
    Lost,
    /// This hop of its route is no link, and all before it are.
    Dead(NodeId, NodeId),
    /// There is no device of its node, or it sleeps.
    Missed,
    /// Node 1 hears it.
    AtChip,
    /// The device at that place of the list hears it.
    AtDevice(usize),
}

/// The first hop from one node over repeaters to another that is no link.
fn first_dead(
    table: &RouteTable,
    from: NodeId,
    repeaters: &[u8],
    to: NodeId,
) -> Option<(NodeId, NodeId)>
    requires { All (λ n. (1 ≤ n) × (n ≤ 232)) repeaters.now }
    ensures { result ≡ dead_hop table.now from repeaters.now to }
{
    let mut at = from;
    for hop in repeaters {
        let Some(next) = read_node(*hop) else {
            unreachable!()
        };
        if !table.linked(at, next) {
            return Some((at, next));
        }
        at = next;
    }
    if table.linked(at, to) {
        None
    } else {
        Some((at, to))
    }
}

/// The first hop of a frame's way that is no link.
fn dead_hop_on(table: &RouteTable, frame: &Frame) -> Option<(NodeId, NodeId)>
    ensures { result ≡ dead_hop_of table.now frame.now }
{
    let route = frame.route();
    match frame.heading() {
        Heading::Outward => first_dead(table, controller(), route.repeaters(), frame.node()),
        Heading::Homeward => first_dead(table, frame.node(), route.repeaters(), controller()),
    }
}

/// What becomes of the frame, by its mark, the links and the devices.
pub(crate) fn fate_now(table: &RouteTable, frame: &Frame, devices: &Vec<Box<dyn Device>>) -> Fate
    requires { length devices.now.items < 2 ^ 64 }
    ensures value { result ≡ fate_of table.now (map (λ d. state d) devices.now.items) frame.now }
    ensures within { HearsWithin result (length devices.now.items) }
{
    if frame.is_lost() {
        return Fate::Lost;
    }
    if let Some((from, to)) = dead_hop_on(table, frame) {
        return Fate::Dead(from, to);
    }
    if frame.heading() == Heading::Homeward {
        return Fate::AtChip;
    }
    match listener_in(devices, frame.node()) {
        Some(place) => Fate::AtDevice(place),
        None => Fate::Missed,
    }
}

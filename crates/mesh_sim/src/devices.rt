//! The devices as a list of boxes: which hears the frames of a node, and what it does at one.

ghost use Rattle.std.specs.Prelude.{◌≡◌, ◌<◌, ◌^◌, [], length, map, Some, IfSome, OnOk, OnErr};
ghost use Rattle.device_sim.specs.Event.{Hears, device_after, device_replies};
ghost use Rattle.mesh_sim.specs.Fates.{place_of, listener_of};

use device_sim::Device;
use zw_base::{NoMemory, NodeId, Replies};

/// Where the first device of that node stands in the list.
pub fn place_in(devices: &Vec<Box<dyn Device>>, node: NodeId) -> Option<usize>
    requires { length devices.now.items < 2 ^ 64 }
    ensures value { result ≡ place_of node (map (λ d. state d) devices.now.items) }
    ensures within { IfSome result (λ place. place < length devices.now.items) }
{
    for place in 0..devices.len() {
        if node_of(&devices[place]) == node {
            return Some(place);
        }
    }
    None
}

/// Where the first device of that node stands, where it is awake.
pub(crate) fn listener_in(devices: &Vec<Box<dyn Device>>, node: NodeId) -> Option<usize>
    requires { length devices.now.items < 2 ^ 64 }
    ensures value { result ≡ listener_of node (map (λ d. state d) devices.now.items) }
    ensures within { IfSome result (λ place. place < length devices.now.items) }
{
    let place = place_in(devices, node)?;
    if is_awake(&devices[place]) {
        Some(place)
    } else {
        None
    }
}

/// The node of a device.
fn node_of(device: &Box<dyn Device>) -> NodeId
    ensures { result ≡ (state device.now).node }
{
    device.node()
}

/// Whether a device hears what comes.
fn is_awake(device: &Box<dyn Device>) -> bool
    ensures { result ≡ (state device.now).awake }
{
    device.awake()
}

/// How many changes a device made.
pub(crate) fn changes_of(device: &Box<dyn Device>) -> u64
    ensures { result ≡ length (state device.now).journal }
{
    device.changes()
}

/// A device hears a payload.
pub(crate) fn hear_one(
    device: &mut Box<dyn Device>,
    payload: &[u8],
    drawn: [u8; 8],
    replies: &mut Replies,
) -> Result<(), NoMemory>
    requires { replies.old ≡ [] }
    ensures ok { OnOk result (state device.new ≡ device_after (state device.old) (Hears payload.now drawn)) }
    ensures replies { OnOk result (replies.new ≡ device_replies (state device.old) (Hears payload.now drawn)) }
    ensures err { OnErr result (state device.new ≡ state device.old) }
{
    device.hear(payload, drawn, replies)
}

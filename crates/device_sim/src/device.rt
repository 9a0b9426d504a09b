//! The trait of the simulated devices.

ghost use Rattle.std.specs.Prelude.{◌≡◌, ◌+◌, ◌<◌, [], List, All, length, slice_get, IfOk, OnOk, OnErr};
ghost use Rattle.device_sim.specs.Kind.{listens, classes_of};
ghost use Rattle.device_sim.specs.State.{State};
ghost use Rattle.device_stack.specs.Showing.{shown_of};
ghost use Rattle.device_stack.specs.Kinds.{IsPayload};
ghost use Rattle.device_sim.specs.Event.{Hears, Ticks, Wakes, Sets, device_after, device_replies};

use crate::{Change, Profile};
use std::alloc::Global;
use zw_base::{List, NoMemory, NodeId, Replies, Setting};

/// A simulated device. `drawn` are eight drawn bytes for a nonce that a call may need. What a call puts out are
/// payloads of 1 to 46 bytes, to be sent in their order. Ticks are of 100 ms.
pub trait Device: Drop {
    /// All that the device is: its node and kind, its sessions, and the changes that it made.
    ghost state: { Self → State };

    fn node(&self) -> NodeId
        ensures { result ≡ (state self.now).node };

    /// What the device tells of itself.
    fn profile(&self, alloc: Global) -> Result<Profile, NoMemory>
        ensures listening { IfOk result (λ profile. profile.listening ≡ listens (state self.now).kind) }
        ensures classes { IfOk result (λ profile. profile.classes ≡ classes_of (state self.now).kind) };

    /// Whether it hears what comes.
    fn awake(&self) -> bool
        ensures { result ≡ (state self.now).awake };

    /// Takes a payload that comes to the device while it is awake.
    fn hear(&mut self, payload: &[u8], drawn: [u8; 8], out: &mut Replies) -> Result<(), NoMemory>
        requires { out.old ≡ [] }
        ensures ok { OnOk result (state self.new ≡ device_after (state self.old) (Hears payload.now drawn)) }
        ensures replies { OnOk result (out.new ≡ device_replies (state self.old) (Hears payload.now drawn)) }
        ensures sizes { OnOk result (All IsPayload out.new) }
        ensures err { OnErr result (state self.new ≡ state self.old) }
        ensures err_replies { OnErr result (out.new ≡ []) };

    /// A tick passes, for which nothing is drawn. The answer is how many changes it made.
    fn tick(&mut self, out: &mut Replies) -> Result<u64, NoMemory>
        requires { out.old ≡ [] }
        ensures ok { OnOk result (state self.new ≡ device_after (state self.old) (Ticks [])) }
        ensures replies { OnOk result (out.new ≡ device_replies (state self.old) (Ticks [])) }
        ensures made { IfOk result (λ made. length (state self.new).journal ≡ length (state self.old).journal + made) }
        ensures sizes { OnOk result (All IsPayload out.new) }
        ensures err { OnErr result (state self.new ≡ state self.old) }
        ensures err_replies { OnErr result (out.new ≡ []) };

    /// Somebody wakes the device.
    fn wake(&mut self, out: &mut Replies) -> Result<(), NoMemory>
        requires { out.old ≡ [] }
        ensures ok { OnOk result (state self.new ≡ device_after (state self.old) Wakes) }
        ensures replies { OnOk result (out.new ≡ device_replies (state self.old) Wakes) }
        ensures sizes { OnOk result (All IsPayload out.new) }
        ensures err { OnErr result (state self.new ≡ state self.old) }
        ensures err_replies { OnErr result (out.new ≡ []) };

    /// Somebody sets the main property by hand.
    fn local(&mut self, value: u8, out: &mut Replies) -> Result<(), NoMemory>
        requires { out.old ≡ [] }
        ensures ok { OnOk result (state self.new ≡ device_after (state self.old) (Sets value)) }
        ensures replies { OnOk result (out.new ≡ device_replies (state self.old) (Sets value)) }
        ensures sizes { OnOk result (All IsPayload out.new) }
        ensures err { OnErr result (state self.new ≡ state self.old) }
        ensures err_replies { OnErr result (out.new ≡ []) };

    /// The main property and the others that are not 0, in the order of properties, with their values.
    fn show(&self, alloc: Global) -> Result<List<Setting>, NoMemory>
        ensures { IfOk result (λ shown. shown.items ≡ shown_of (state self.now)) };

    /// How many changes it made.
    fn changes(&self) -> u64
        ensures { result ≡ length (state self.now).journal };

    /// The change at that place of the journal, counted from 0.
    fn change(&self, alloc: Global, at: u64) -> Result<Option<Change>, NoMemory>
        ensures { IfOk result (λ change. change ≡ slice_get (state self.now).journal at) };
}

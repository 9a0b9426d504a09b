//! The host of the machine, by its transcript.

ghost use Rattle.std.specs.Prelude.{◌≡◌, false, true, Bool, List, ℕ};
ghost use Rattle.zw_text.specs.declared.entry.Entry.{Entry};
ghost use Rattle.host_node.specs.State.{is_up};
ghost use Rattle.law_wire.specs.law_transcript.Nodes.{is_joined};
ghost use Rattle.law_time.specs.Interviews.{listens};
ghost use Rattle.proof_rests.specs.proof_requests.host_model.State.{node_of};
ghost use Rattle.proof_ready.specs.Ease.{AfterLines};
ghost use Rattle.proof_ready.specs.Ready.{AreWorkers, HostIsReady, HostIsStill, IsKnown};

use crate::host::calm_hosts_are_done;
use crate::nodes::{joined_nodes_are_there, nodes_are_still};

/// Where the host is still by the transcript, it does not take a joined node to be up that does not listen, and of which it knows what it lists.
pub fn sleepers_are_asleep()
    ensures { AfterLines (λ devices past m. (listing : List Entry → ℕ → List ℕ) → HostIsStill listing past → (n : ℕ) → is_joined past n ≡ true →
        IsKnown devices past n → listens n past ≡ false → is_up (node_of m.host.state n) ≡ false) }
{
    joined_nodes_are_there();
    calm_hosts_are_done();
}

/// Where a command waits for none but these of the joined nodes, it has to do with these alone.
pub fn hosts_are_ready()
    ensures { AfterLines (λ devices past m. (listing : List Entry → ℕ → List ℕ) → HostIsStill listing past → (these : List Bool) → AreWorkers these past →
        HostIsReady these m.host.state) }
{
    joined_nodes_are_there();
    nodes_are_still();
    calm_hosts_are_done();
}

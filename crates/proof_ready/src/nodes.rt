//! The nodes of the machine, by its transcript.

ghost use Rattle.std.specs.Prelude.{◌≡◌, false, true, List, [], ℕ};
ghost use Rattle.zw_text.specs.declared.entry.Entry.{Entry};
ghost use Rattle.law_wire.specs.law_transcript.Commands.{waiting};
ghost use Rattle.law_wire.specs.law_transcript.Nodes.{is_joined};
ghost use Rattle.proof_rests.specs.proof_requests.host_model.State.{node_of};
ghost use Rattle.proof_in_time.specs.proof_answered.Workers.{IsStill};
ghost use Rattle.proof_in_time.specs.proof_answered.proof_calm.Known.{IsBlank};
ghost use Rattle.proof_ready.specs.Ease.{AfterLines, KnowsItsMembers};
ghost use Rattle.proof_ready.specs.Ready.{HostIsStill, IsThere};

use crate::at_rest::lines_leave_a_host_at_rest;
use crate::host::calm_hosts_are_done;
use crate::reach::lines_join_the_same_nodes;
use proof_devices::networks_go_on;
use proof_rests::{hosts_keep_what_is_said, hosts_know_what_was_told, hosts_show_open_sessions};

/// A node that is joined by the transcript has a place in the tables, and is joined in the air.
pub fn joined_nodes_are_there()
    ensures { AfterLines (λ devices past m. (n : ℕ) → is_joined past n ≡ true → IsThere n m) }
{
    networks_go_on();
}

/// Nothing is to be done for a node that is not joined by the transcript: no command waits for it, no session of it was begun, and the host does not know
/// what it lists; nor does one wait for it by the transcript. Nor, where the host is still by it, for one that is joined and for which no command waits.
pub fn nodes_are_still()
    ensures outside { AfterLines (λ devices past m. (n : ℕ) → is_joined past n ≡ false → IsStill (node_of m.host.state n)) }
    ensures blank { AfterLines (λ devices past m. (n : ℕ) → is_joined past n ≡ false → IsBlank (node_of m.host.state n)) }
    ensures unasked { AfterLines (λ devices past m. (n : ℕ) → is_joined past n ≡ false → waiting n past ≡ []) }
    ensures inside { AfterLines (λ devices past m. (listing : List Entry → ℕ → List ℕ) → HostIsStill listing past → (n : ℕ) → is_joined past n ≡ true →
        waiting n past ≡ [] → IsStill (node_of m.host.state n)) }
{
    joined_nodes_are_there();
    calm_hosts_are_done();
    lines_leave_a_host_at_rest();
    hosts_know_what_was_told();
    hosts_keep_what_is_said();
    hosts_show_open_sessions();
}

/// So the host knows nothing of a node that the chip has not joined.
pub fn hosts_know_their_members()
    ensures { AfterLines (λ devices past m. KnowsItsMembers m) }
{
    joined_nodes_are_there();
    nodes_are_still();
    lines_join_the_same_nodes();
}

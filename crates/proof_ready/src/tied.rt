//! The tie of the host's request in a calm moment.

ghost use Rattle.std.specs.Prelude.{◌≡◌, Bool, List, false, true};
ghost use Rattle.std.specs.List.{list_all};
ghost use Rattle.zw_text.specs.Transcript.{joined};
ghost use Rattle.law_time.specs.Calm.{air_is_empty, is_idle, is_stalled, no_marks};
ghost use Rattle.law_time.specs.Rests.{is_rest};
ghost use Rattle.proof_chip.specs.proof_line.proof_traffic.OutsideTraffic.{AreNodes};
ghost use Rattle.proof_in_time.specs.proof_answered.proof_calm.Tied.{IsTied};
ghost use Rattle.proof_ready.specs.Ease.{AfterLines, AreToReach, ChipRests, KnowsItsMembers, clock_of};

use crate::{
    calm_air_is_empty, calm_hosts_are_done, calm_hosts_have_heard_all, calm_machines_are_reached,
    calm_machines_are_unmarked, lines_await_calls, lines_join_the_same_nodes,
    lines_leave_hosts_fit,
};
use proof_chip::nodes_go_on;
use proof_devices::networks_go_on;
use proof_in_time::{hosts_are_tended, work_in_order_means};

/// Where the last request is over, no mark is left, no stall lasts, no series runs and each frame has had its fate by the transcript, and some nodes can be
/// reached by it, the request of the host is tied for these nodes: if the chip rests too, and the host knows nothing of nodes that the chip has not joined.
/// Neither of these two is shown of the transcript here.
pub fn calm_requests_are_tied()
    ensures { AfterLines (λ devices past m. AreNodes devices → is_rest past (clock_of past) ≡ true → no_marks past ≡ true →
        is_stalled past (clock_of past) ≡ false → air_is_empty past ≡ true → list_all (is_idle past (clock_of past)) (joined past) ≡ true →
        ChipRests m.outside.outer → KnowsItsMembers m → (these : List Bool) → AreToReach these devices past → IsTied these m) }
{
    calm_air_is_empty();
    hosts_are_tended();
    networks_go_on();
    nodes_go_on();
    work_in_order_means();
    calm_hosts_are_done();
    calm_hosts_have_heard_all();
    calm_machines_are_reached();
    calm_machines_are_unmarked();
    lines_await_calls();
    lines_join_the_same_nodes();
    lines_leave_hosts_fit();
}

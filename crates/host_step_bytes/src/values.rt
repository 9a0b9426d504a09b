//! Values and segments that nodes ask for or report.

ghost use Rattle.std.specs.Prelude.{◌≡◌, OnOk, OnErr};
ghost use Rattle.supervision.specs.Host.{open_session};
ghost use Rattle.host_model.specs.State.{node_of};
ghost use Rattle.host_model.specs.Taking.{resent, value_events, wanted_segment};
ghost use Rattle.host_step_bytes.specs.Calls.{Are, DoesAlone, StopsAlone};

use host_model::{HostOut, messages_go_on};
use host_step_kept::HostCore;
use zw_base::{List, NoMemory, NodeId, Setting};

/// The bytes of payload of each segment but the last (Transport Service).
const SEGMENT_LEN: u16 = 39;

/// The segments of a message carry its session's number modulo this.
const SEGMENT_IDS: u64 = 16;

/// Values that a node reports, each of its own.
pub(crate) fn hear_values(
    core: &mut HostCore,
    node: NodeId,
    values: &[Setting],
    out: &mut List<HostOut>,
) -> Result<(), NoMemory>
    ensures ok { OnOk result
        (DoesAlone (Are (value_events core.old.state node values.now))
        core.old.state out.old.items core.new.state out.new.items) }
    ensures decoder { core.new.decoder ≡ core.old.decoder }
    ensures err { OnErr result
        (StopsAlone core.old.state out.old.items core.new.state out.new.items) }
{
    messages_go_on();
    for value in values {
        core.hear_value(node, value, out)?;
    }
    Ok(())
}

/// A node asks for a segment of the open session's message again.
pub(crate) fn resend(
    core: &mut HostCore,
    node: NodeId,
    id: u8,
    offset: u16,
    out: &mut List<HostOut>,
) -> Result<(), NoMemory>
    ensures ok { OnOk result (DoesAlone
        (Are (resent node (wanted_segment core.old.state node
        (open_session (node_of core.old.state node).book) id offset)))
        core.old.state out.old.items core.new.state out.new.items) }
    ensures decoder { core.new.decoder ≡ core.old.decoder }
    ensures err { OnErr result
        (StopsAlone core.old.state out.old.items core.new.state out.new.items) }
{
    let Some(session) = core.node(node).current() else {
        return Ok(());
    };
    if u64::from(id) != session % SEGMENT_IDS || offset % SEGMENT_LEN != 0 {
        return Ok(());
    }
    let Some(payload) = core.segment(node, session, offset / SEGMENT_LEN)? else {
        return Ok(());
    };
    core.resend(node, payload, out)?;
    Ok(())
}

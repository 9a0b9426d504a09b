//! Supervision Reports of nodes.

ghost use Rattle.std.specs.Prelude.{◌≡◌, ◌≤◌, ◌<◌, Some, OnOk, OnErr};
ghost use Rattle.class_info.specs.Values.{status_byte};
ghost use Rattle.supervision.specs.Host.{told_of, command_at as command_of_session};
ghost use Rattle.host_keep.specs.Status.{status_of};
ghost use Rattle.host_model.specs.State.{node_of};
ghost use Rattle.host_model.specs.Taking.{ReportEvents, FinalEvents};
ghost use Rattle.supervision.specs.declared.host_node.Told.TheVariants.{Final as ends};
ghost use Rattle.host_step_bytes.specs.Calls.{seen, Does, Stops};

use class_info::ReportStatus;
use host_keep::{FinalStatus, Keeper};
use host_model::HostOut;
use host_step_kept::HostCore;
use supervision::Told;
use zw_base::{List, NoMemory, NodeId};

/// The ids of sessions have six bits (Supervision Command Class).
const IDS: u8 = 64;

/// A Supervision Report that is taken: of no open session, of one that is at work, or of one that it ends.
pub(crate) fn take_report<P: Keeper>(
    core: &mut HostCore,
    node: NodeId,
    id: u8,
    status: ReportStatus,
    wake_request: bool,
    out: &mut List<HostOut>,
    keeper: &mut P,
) -> Result<(), NoMemory>
    ensures ok { OnOk result (Does
        (ReportEvents core.old.state node id status wake_request
        (told_of (node_of core.old.state node).book id (status_byte status)))
        (seen P.shelf core.old out.old keeper.old)
        (seen P.shelf core.new out.new keeper.new)) }
    ensures decoder { core.new.decoder ≡ core.old.decoder }
    ensures err { OnErr result (Stops
        (seen P.shelf core.old out.old keeper.old)
        (seen P.shelf core.new out.new keeper.new)) }
    ensures never_fewer { P.number keeper.old ≤ P.number keeper.new }
    ensures reads { P.reads keeper.new ≡ P.reads keeper.old }
{
    match told(core, node, id, status) {
        Told::Old => {
            core.old_report(node, id, out)?;
            Ok(())
        }
        Told::Working => {
            core.works(node, id);
            Ok(())
        }
        Told::Final(session) => {
            end_session(core, node, session, id, status, wake_request, out, keeper)?;
            Ok(())
        }
    }
}

// What a report is to the sessions of a node. No session has an id of more than six bits.
fn told(core: &HostCore, node: NodeId, id: u8, status: ReportStatus) -> Told
    ensures { result ≡ told_of (node_of core.now.state node).book id
        (status_byte status) }
{
    if id < IDS {
        core.node(node).told(id, status.byte())
    } else {
        Told::Old
    }
}

// A report ends the open session of a node, where its status is final.
fn end_session<P: Keeper>(
    core: &mut HostCore,
    node: NodeId,
    session: u64,
    id: u8,
    status: ReportStatus,
    wake_request: bool,
    out: &mut List<HostOut>,
    keeper: &mut P,
) -> Result<(), NoMemory>
    requires { told_of (node_of core.old.state node).book id
        (status_byte status) ≡ ends session }
    ensures ok { OnOk result (Does
        (FinalEvents node session id
        (command_of_session (node_of core.old.state node).book.commands session)
        (status_of (status_byte status)) wake_request)
        (seen P.shelf core.old out.old keeper.old)
        (seen P.shelf core.new out.new keeper.new)) }
    ensures decoder { core.new.decoder ≡ core.old.decoder }
    ensures err { OnErr result (Stops
        (seen P.shelf core.old out.old keeper.old)
        (seen P.shelf core.new out.new keeper.new)) }
    ensures never_fewer { P.number keeper.old ≤ P.number keeper.new }
    ensures reads { P.reads keeper.new ≡ P.reads keeper.old }
{
    let Some(command) = core.node(node).command_of(session) else {
        return Ok(());
    };
    let Some(ended) = FinalStatus::of(status.byte()) else {
        return Ok(());
    };
    let _ = host_step_kept::finish(
        core,
        node,
        session,
        id,
        command,
        ended,
        wake_request,
        out,
        keeper,
    )?;
    Ok(())
}

//! Nonces of nodes and for them (Security 0).

ghost use Rattle.std.specs.Prelude.{◌≡◌, ◌≤◌, slice_index, OnOk, OnErr};
ghost use Rattle.s0_session.specs.Nonces.{live_of};
ghost use Rattle.host_keep.specs.Rows.{AreBytes};
ghost use Rattle.host_node.specs.State.{count_at};
ghost use Rattle.host_model.specs.State.{node_of};
ghost use Rattle.host_model.specs.Taking.{NonceGetEvents, NonceReportEvents};
ghost use Rattle.host_step_bytes.specs.Calls.{seen, Does, Stops};

use host_keep::Keeper;
use host_model::HostOut;
use host_step_kept::HostCore;
use zw_base::{Draw, List, NoMemory, NodeId};

/// A node asks for a nonce: the live one is offered, or a new one is given.
pub(crate) fn take_nonce_get<D: Draw, P: Keeper>(
    core: &mut HostCore,
    node: NodeId,
    draw: &mut D,
    out: &mut List<HostOut>,
    keeper: &mut P,
) -> Result<(), NoMemory>
    ensures ok { OnOk result
        (Does (NonceGetEvents node (live_of core.old.state.nonces node))
        (seen P.shelf core.old out.old keeper.old)
        (seen P.shelf core.new out.new keeper.new)) }
    ensures decoder { core.new.decoder ≡ core.old.decoder }
    ensures err { OnErr result (Stops
        (seen P.shelf core.old out.old keeper.old)
        (seen P.shelf core.new out.new keeper.new)) }
    ensures never_fewer { P.number keeper.old ≤ P.number keeper.new }
    ensures reads { P.reads keeper.new ≡ P.reads keeper.old }
{
    match core.live(node) {
        Some(_) => {
            core.offer(node, out)?;
            Ok(())
        }
        None => {
            let drawn = draw_bytes(draw);
            let _ = host_step_kept::give(core, node, drawn, out, keeper)?;
            Ok(())
        }
    }
}

// Eight bytes are drawn, each of which is read, so that callers know that it is a byte.
fn draw_bytes<D: Draw>(draw: &mut D) -> [u8; 8]
    ensures bytes { AreBytes result }
    ensures drawn { D.draws draw.old result draw.new }
{
    let drawn = draw.next();
    for byte in &drawn {
        let _byte = *byte;
    }
    drawn
}

/// A node gives a nonce: a plain text that waits for one is sealed to it.
pub(crate) fn take_nonce<D: Draw, P: Keeper>(
    core: &mut HostCore,
    node: NodeId,
    nonce: [u8; 8],
    draw: &mut D,
    out: &mut List<HostOut>,
    keeper: &mut P,
) -> Result<(), NoMemory>
    ensures ok { OnOk result (Does
        (NonceReportEvents core.old.state node nonce
        (count_at (node_of core.old.state node) (slice_index nonce 0)))
        (seen P.shelf core.old out.old keeper.old)
        (seen P.shelf core.new out.new keeper.new)) }
    ensures decoder { core.new.decoder ≡ core.old.decoder }
    ensures err { OnErr result (Stops
        (seen P.shelf core.old out.old keeper.old)
        (seen P.shelf core.new out.new keeper.new)) }
    ensures never_fewer { P.number keeper.old ≤ P.number keeper.new }
    ensures reads { P.reads keeper.new ≡ P.reads keeper.old }
{
    let Some(seen) = core.node(node).count_at(nonce[0])? else {
        return Ok(());
    };
    let text = core.seal_text(node, nonce, draw.next())?;
    let _ = host_step_kept::take_nonce(core, node, seen, text, out, keeper)?;
    Ok(())
}

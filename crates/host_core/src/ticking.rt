//! A tick of 100 ms: first of the line, then of the request under way, then of the nodes that have a wait.

ghost use Rattle.std.specs.Prelude.{◌≡◌, map, OnOk, OnErr};
ghost use Rattle.serial_frame.specs.Stream.{after_tick};
ghost use Rattle.host_model.specs.Events.{Node_ticks};
ghost use Rattle.host_model.specs.Ticking.{tick_events, ticking_nodes};
ghost use Rattle.host_step_bytes.specs.Calls.{Are, DoesAlone, StopsAlone};

use host_model::{HostOut, ticks_of_nodes_go_on};
use host_step_kept::HostCore;
use zw_base::{List, NoMemory};

/// A tick passes.
pub(crate) fn tick(core: &mut HostCore, out: &mut List<HostOut>) -> Result<(), NoMemory>
    ensures ok { OnOk result
        (DoesAlone (Are (tick_events core.old.state))
        core.old.state out.old.items core.new.state out.new.items) }
    ensures decoder { OnOk result (core.new.decoder ≡
        after_tick core.old.decoder) }
    ensures err { OnErr result
        (StopsAlone core.old.state out.old.items core.new.state out.new.items) }
{
    core.tick_line(out)?;
    core.tick_request(out)?;
    tick_nodes(core, out)?;
    Ok(())
}

// Each node with a wait counts the tick, in the order of their numbers.
fn tick_nodes(core: &mut HostCore, out: &mut List<HostOut>) -> Result<(), NoMemory>
    ensures ok { OnOk result
        (DoesAlone (Are (map Node_ticks (ticking_nodes core.old.state)))
        core.old.state out.old.items core.new.state out.new.items) }
    ensures decoder { core.new.decoder ≡ core.old.decoder }
    ensures err { OnErr result
        (StopsAlone core.old.state out.old.items core.new.state out.new.items) }
{
    ticks_of_nodes_go_on();
    let mut last = 0;
    while let Some(node) = core.ticking_above(last) {
        core.tick_node(node, out)?;
        last = node.number();
    }
    Ok(())
}

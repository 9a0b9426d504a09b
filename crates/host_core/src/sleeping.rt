//! Nodes that nothing keeps awake are let sleep.

ghost use Rattle.std.specs.Prelude.{◌≡◌, ◌++◌, Some, OnOk, OnErr};
ghost use Rattle.host_node.specs.Search.{first_wanting};
ghost use Rattle.host_model.specs.After.{after};
ghost use Rattle.host_model.specs.Outs.{outs};
ghost use Rattle.host_model.specs.Pumping.{LetsSleep, no_more_event};
ghost use Rattle.host_step_bytes.specs.Calls.{DoesAlone, StopsAlone};

use host_model::{HostOut, nodes_are_told_in_few_turns, turns_of_a_pump_go_on};
use host_step_kept::HostCore;
use zw_base::{List, NoMemory, NodeId};

/// Each node that is to be told that there is no more for it is told, the least first.
pub(crate) fn let_sleep(core: &mut HostCore, out: &mut List<HostOut>) -> Result<(), NoMemory>
    ensures ok { OnOk result
        (DoesAlone (LetsSleep core.old.state) core.old.state
        out.old.items core.new.state out.new.items) }
    ensures decoder { core.new.decoder ≡ core.old.decoder }
    ensures err { OnErr result
        (StopsAlone core.old.state out.old.items core.new.state out.new.items) }
{
    turns_of_a_pump_go_on();
    nodes_are_told_in_few_turns();
    while let Some(node) = core.first_wanting() {
        let_one_sleep(core, node, out)?;
    }
    Ok(())
}

// No More Information is queued for a node, or finds the queue full.
fn let_one_sleep(core: &mut HostCore, node: NodeId, out: &mut List<HostOut>) -> Result<(), NoMemory>
    requires { first_wanting core.old.state.nodes ≡ Some node }
    ensures state { OnOk result (core.new ≡
        record core.old { state = after core.old.state (no_more_event core.old.state node) }) }
    ensures outs { OnOk result (out.new.items ≡ out.old.items ++
        outs core.old.state (no_more_event core.old.state node)) }
    ensures err { OnErr result ((core.new ≡ core.old)
        × (out.new.items ≡ out.old.items)) }
{
    nodes_are_told_in_few_turns();
    if core.is_full() {
        core.drop_no_more(node, out)?;
        return Ok(());
    }
    core.queue_no_more(node);
    Ok(())
}

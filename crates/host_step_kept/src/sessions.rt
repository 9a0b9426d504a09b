//! A session begins.

ghost use Rattle.std.specs.Prelude.{◌≡◌, ◌++◌, ◌≤◌, [], IfOk, OnOk, OnErr};
ghost use Rattle.host_keep.specs.Keeping.{Kept, Adds};
ghost use Rattle.host_keep.specs.Rows.{IsRecord};
ghost use Rattle.host_keep.specs.RecordText.{record_text};
ghost use Rattle.host_keep.specs.declared.record.Record.TheVariants.{Begun as the_begun};
ghost use Rattle.host_model.specs.Events.{Begins, Begin_unkept};
ghost use Rattle.host_model.specs.Outs.{outs};
ghost use Rattle.host_model.specs.May.{May};
ghost use Rattle.host_step.specs.Changes.{parts_after};
ghost use Rattle.host_step_kept.specs.Choices.{chosen};

use host_keep::{Keeper, Record};
use host_model::{HostOut, facts_are_kept};
use host_step::{HostCore, keep_record};
use zw_base::{List, NoMemory, NodeId};
use zw_text::Entry;

/// A session of a node begins for the command that waited longest, once that is kept. True where it was; else the node
/// is passed over until its next tick.
pub fn begin<P: Keeper>(
    core: &mut HostCore,
    node: NodeId,
    session: u64,
    command: u32,
    out: &mut List<HostOut>,
    keeper: &mut P,
) -> Result<bool, NoMemory>
    requires { May core.old.state (Begins node session command) }
    ensures kept { IfOk result (λ is_kept.
        Kept is_kept (record_text (the_begun node session command))
        (P.shelf keeper.old) (P.shelf keeper.new)) }
    ensures in_range { OnOk result
        (IsRecord (the_begun node session command)) }
    ensures state { IfOk result (λ is_kept. core.new ≡
        parts_after core.old (chosen is_kept
        (Begins node session command) (Begin_unkept node))) }
    ensures outs { IfOk result (λ is_kept. out.new.items ≡ out.old.items ++
        outs core.old.state (chosen is_kept
        (Begins node session command) (Begin_unkept node))) }
    ensures err { OnErr result ((core.new ≡ core.old)
        × (out.new.items ≡ out.old.items)) }
    ensures no_record { OnErr result
        (Adds [] (P.shelf keeper.old) (P.shelf keeper.new)) }
    ensures never_falls { (P.shelf keeper.old).faults ≤ (P.shelf keeper.new).faults }
    ensures never_fewer { P.number keeper.old ≤ P.number keeper.new }
    ensures reads { P.reads keeper.new ≡ P.reads keeper.old }
{
    out.reserve(1)?;
    let fact = Record::Begun {
        node,
        session,
        command,
    };
    let is_kept = keep_record(core.alloc(), &fact, keeper)?;
    begin_or_block(core, node, session, command, is_kept, out);
    Ok(is_kept)
}

// It begins where its record was kept, and else its node is passed over.
fn begin_or_block(
    core: &mut HostCore,
    node: NodeId,
    session: u64,
    command: u32,
    is_kept: bool,
    out: &mut List<HostOut>,
)
    requires may { May core.old.state (Begins node session command) }
    requires room { 1 ≤ out.old.room }
    ensures state { core.new ≡
        parts_after core.old (chosen is_kept
        (Begins node session command) (Begin_unkept node)) }
    ensures outs { out.new.items ≡ out.old.items ++
        outs core.old.state (chosen is_kept
        (Begins node session command) (Begin_unkept node)) }
{
    facts_are_kept();
    core.invariant_holds();
    if !is_kept {
        core.block(node);
        out.put(HostOut::Note(Entry::Unkept { node }));
        return;
    }
    core.begin(node, command);
    out.put(HostOut::Note(Entry::Begin {
        node,
        session,
        command,
    }));
}

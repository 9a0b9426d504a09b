//! A node joins, its interview ends, or a command is cancelled.

ghost use Rattle.std.specs.Prelude.{◌≡◌, ◌++◌, ◌≤◌, [], IfOk, OnOk, OnErr};
ghost use Rattle.host_keep.specs.Keeping.{Kept, Adds};
ghost use Rattle.host_keep.specs.Rows.{IsRecord};
ghost use Rattle.host_keep.specs.RecordText.{record_text};
ghost use Rattle.host_keep.specs.declared.record.Record.TheVariants.{Cancelled as the_cancelled, Classes as the_classes, Joined as the_joined};
ghost use Rattle.host_model.specs.Events.{Cancels, Interviews, Interview_unkept, Joins};
ghost use Rattle.host_model.specs.After.{after, node_for};
ghost use Rattle.host_model.specs.Outs.{outs};
ghost use Rattle.host_model.specs.May.{May};
ghost use Rattle.host_step.specs.Changes.{parts_after};
ghost use Rattle.host_step_kept.specs.Choices.{after_if, chosen};

use chip_functions::Update;
use host_keep::{Keeper, Record};
use host_model::{HostOut, facts_are_kept};
use host_step::{HostCore, keep_record};
use std::alloc::Global;
use zw_base::{Bytes, List, NoMemory, NodeId};
use zw_text::Entry;

/// A node joins, once that is kept. True where it was.
pub fn join<P: Keeper>(core: &mut HostCore, node: NodeId, keeper: &mut P) -> Result<bool, NoMemory>
    requires { May core.old.state (Joins node) }
    ensures kept { IfOk result (λ is_kept.
        Kept is_kept (record_text (the_joined node))
        (P.shelf keeper.old) (P.shelf keeper.new)) }
    ensures in_range { OnOk result (IsRecord (the_joined node)) }
    ensures state { IfOk result (λ is_kept.
        core.new ≡ record core.old { state = after_if is_kept core.old.state (Joins node) }) }
    ensures err { OnErr result (core.new ≡ core.old) }
    ensures no_record { OnErr result
        (Adds [] (P.shelf keeper.old) (P.shelf keeper.new)) }
    ensures never_falls { (P.shelf keeper.old).faults ≤ (P.shelf keeper.new).faults }
    ensures never_fewer { P.number keeper.old ≤ P.number keeper.new }
    ensures reads { P.reads keeper.new ≡ P.reads keeper.old }
{
    facts_are_kept();
    core.invariant_holds();
    let is_kept = keep_record(core.alloc(), &Record::Joined { node }, keeper)?;
    if is_kept {
        core.join(node);
    }
    Ok(is_kept)
}

/// A command that waits for a node is cancelled, once that is kept. True where it was.
pub fn cancel<P: Keeper>(
    core: &mut HostCore,
    node: NodeId,
    command: u32,
    keeper: &mut P,
) -> Result<bool, NoMemory>
    requires node { node ≡ node_for core.old.state command }
    requires may { May core.old.state (Cancels command) }
    ensures kept { IfOk result (λ is_kept.
        Kept is_kept (record_text (the_cancelled command))
        (P.shelf keeper.old) (P.shelf keeper.new)) }
    ensures in_range { OnOk result (IsRecord (the_cancelled command)) }
    ensures state { IfOk result (λ is_kept.
        core.new ≡ record core.old { state = after_if is_kept core.old.state (Cancels command) }) }
    ensures err { OnErr result (core.new ≡ core.old) }
    ensures no_record { OnErr result
        (Adds [] (P.shelf keeper.old) (P.shelf keeper.new)) }
    ensures never_falls { (P.shelf keeper.old).faults ≤ (P.shelf keeper.new).faults }
    ensures never_fewer { P.number keeper.old ≤ P.number keeper.new }
    ensures reads { P.reads keeper.new ≡ P.reads keeper.old }
{
    facts_are_kept();
    core.invariant_holds();
    if !keep_record(core.alloc(), &Record::Cancelled { command }, keeper)? {
        return Ok(false);
    }
    core.cancel(node, command);
    Ok(true)
}

/// An interview of a node ends well at an ApplicationUpdate, which tells its classes. True where its record was kept;
/// else what was known of the node stays.
pub fn interviewed<P: Keeper>(
    core: &mut HostCore,
    node: NodeId,
    listens: bool,
    classes: Bytes,
    update: Update,
    out: &mut List<HostOut>,
    keeper: &mut P,
) -> Result<bool, NoMemory>
    requires { May core.old.state (Interviews node listens classes update) }
    ensures kept { IfOk result (λ is_kept.
        Kept is_kept (record_text (the_classes node listens classes))
        (P.shelf keeper.old) (P.shelf keeper.new)) }
    ensures in_range { OnOk result
        (IsRecord (the_classes node listens classes)) }
    ensures state { IfOk result (λ is_kept. core.new ≡ parts_after core.old
        (chosen is_kept (Interviews node listens classes update)
        (Interview_unkept node update))) }
    ensures outs { IfOk result (λ is_kept. out.new.items ≡ out.old.items ++
        outs core.old.state (chosen is_kept
        (Interviews node listens classes update)
        (Interview_unkept node update))) }
    ensures err { OnErr result ((core.new ≡ core.old)
        × (out.new.items ≡ out.old.items)) }
    ensures no_record { OnErr result
        (Adds [] (P.shelf keeper.old) (P.shelf keeper.new)) }
    ensures never_falls { (P.shelf keeper.old).faults ≤ (P.shelf keeper.new).faults }
    ensures never_fewer { P.number keeper.old ≤ P.number keeper.new }
    ensures reads { P.reads keeper.new ≡ P.reads keeper.old }
{
    let fact = classes_record(core.alloc(), node, listens, &classes, out)?;
    let is_kept = keep_record(core.alloc(), &fact, keeper)?;
    end_interview(core, node, listens, classes, update, is_kept, out);
    Ok(is_kept)
}

// The record of an interview, and room for its entry.
fn classes_record(
    alloc: Global,
    node: NodeId,
    listens: bool,
    classes: &Bytes,
    out: &mut List<HostOut>,
) -> Result<Record, NoMemory>
    ensures fact { IfOk result (λ fact.
        fact ≡ the_classes node listens classes.now) }
    ensures outs { out.new.items ≡ out.old.items }
    ensures room { OnOk result (1 ≤ out.new.room) }
{
    out.reserve(1)?;
    let copy = Bytes::from_slice(alloc, classes.as_slice())?;
    Ok(Record::Classes {
        node,
        listens,
        classes: copy,
    })
}

// An interview ends, whose record was kept or was not.
fn end_interview(
    core: &mut HostCore,
    node: NodeId,
    listens: bool,
    classes: Bytes,
    update: Update,
    is_kept: bool,
    out: &mut List<HostOut>,
)
    requires may { May core.old.state
        (Interviews node listens classes update) }
    requires room { 1 ≤ out.old.room }
    ensures state { core.new ≡ record core.old {
      state = after core.old.state
          (chosen is_kept (Interviews node listens classes update) (Interview_unkept node update));
    } }
    ensures outs { out.new.items ≡ out.old.items ++
        outs core.old.state (chosen is_kept
        (Interviews node listens classes update)
        (Interview_unkept node update)) }
{
    facts_are_kept();
    core.invariant_holds();
    core.tell_update(update);
    if !is_kept {
        out.put(HostOut::Note(Entry::Unkept { node }));
        return;
    }
    core.learn(node, listens, classes);
    out.put(HostOut::Note(Entry::Interviewed { node }));
}

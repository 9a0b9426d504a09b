//! Nonces that a node is given, and those of its own (Security 0).

ghost use Rattle.std.specs.Prelude.{◌≡◌, ◌++◌, ◌+◌, ◌^◌, ◌<◌, ◌≤◌, [], false, true, IfOk, OnOk, OnErr};
ghost use Rattle.s0_session.specs.Nonces.{given_of, new_nonce};
ghost use Rattle.host_keep.specs.Keeping.{Kept, Adds, Fails};
ghost use Rattle.host_keep.specs.Rows.{IsRecord};
ghost use Rattle.host_keep.specs.RecordText.{record_text};
ghost use Rattle.host_keep.specs.declared.record.Record.TheVariants.{Given as the_given};
ghost use Rattle.host_model.specs.State.{node_of};
ghost use Rattle.host_model.specs.Events.{Gives, Takes_nonce, Is_unkept};
ghost use Rattle.host_model.specs.After.{after};
ghost use Rattle.host_model.specs.Outs.{outs};
ghost use Rattle.host_model.specs.Records.{records_at, KeepsInRange};
ghost use Rattle.host_model.specs.Did.{texts_of};
ghost use Rattle.host_model.specs.May.{May};
ghost use Rattle.host_step.specs.Changes.{parts_after};
ghost use Rattle.host_step_kept.specs.Choices.{chosen};

use host_keep::{Keeper, Record};
use host_model::{HostOut, facts_are_kept};
use host_requests::Task;
use host_step::{HostCore, keep_record};
use zw_base::{List, NoMemory, NodeId, Payload};
use zw_text::Entry;

/// A node that has no live nonce is given one, once that is kept, whose last seven bytes are those drawn; it waits to be
/// sent, or finds 64 tasks waiting. True where the record was kept.
pub fn give<P: Keeper>(
    core: &mut HostCore,
    node: NodeId,
    drawn: [u8; 8],
    out: &mut List<HostOut>,
    keeper: &mut P,
) -> Result<bool, NoMemory>
    requires { May core.old.state (Gives node drawn) }
    ensures kept { IfOk result (λ is_kept. Kept is_kept
        (record_text (the_given node (given_of core.old.state.nonces node + 1)
        (new_nonce (given_of core.old.state.nonces node) drawn)))
        (P.shelf keeper.old) (P.shelf keeper.new)) }
    ensures in_range { OnOk result
        (IsRecord (the_given node (given_of core.old.state.nonces node + 1)
        (new_nonce (given_of core.old.state.nonces node) drawn))) }
    ensures state { IfOk result (λ is_kept.
        core.new ≡ parts_after core.old
        (chosen is_kept (Gives node drawn) (Is_unkept node))) }
    ensures outs { IfOk result (λ is_kept. out.new.items ≡ out.old.items ++
        outs core.old.state (chosen is_kept
        (Gives node drawn) (Is_unkept node))) }
    ensures err { OnErr result ((core.new ≡ core.old)
        × (out.new.items ≡ out.old.items)) }
    ensures no_record { OnErr result
        (Adds [] (P.shelf keeper.old) (P.shelf keeper.new)) }
    ensures never_falls { (P.shelf keeper.old).faults ≤ (P.shelf keeper.new).faults }
    ensures never_fewer { P.number keeper.old ≤ P.number keeper.new }
    ensures reads { P.reads keeper.new ≡ P.reads keeper.old }
{
    let fact = given_record(core, node, drawn, out)?;
    let is_kept = keep_record(core.alloc(), &fact, keeper)?;
    give_if_kept(core, node, drawn, is_kept, out);
    Ok(is_kept)
}

// The record of a nonce, where there are not too many, and room for an entry.
fn given_record(
    core: &HostCore,
    node: NodeId,
    drawn: [u8; 8],
    out: &mut List<HostOut>,
) -> Result<Record, NoMemory>
    ensures fact { IfOk result (λ fact. fact ≡
        the_given node (given_of core.now.state.nonces node + 1)
        (new_nonce (given_of core.now.state.nonces node) drawn)) }
    ensures few { OnOk result
        (given_of core.now.state.nonces node + 1 < 2 ^ 64) }
    ensures outs { out.new.items ≡ out.old.items }
    ensures room { OnOk result (1 ≤ out.new.room) }
{
    let before = core.given(node);
    if before == u64::MAX {
        return Err(NoMemory);
    }
    out.reserve(1)?;
    Ok(Record::Given {
        node,
        given: before + 1,
        nonce: new_nonce(before, drawn),
    })
}

// It is given where its record was kept.
fn give_if_kept(
    core: &mut HostCore,
    node: NodeId,
    drawn: [u8; 8],
    is_kept: bool,
    out: &mut List<HostOut>,
)
    requires may { May core.old.state (Gives node drawn) }
    requires few { given_of core.old.state.nonces node + 1 < 2 ^ 64 }
    requires room { 1 ≤ out.old.room }
    ensures state { core.new ≡
        parts_after core.old (chosen is_kept
        (Gives node drawn) (Is_unkept node)) }
    ensures outs { out.new.items ≡ out.old.items ++
        outs core.old.state (chosen is_kept
        (Gives node drawn) (Is_unkept node)) }
{
    facts_are_kept();
    core.invariant_holds();
    if !is_kept {
        out.put(HostOut::Note(Entry::Unkept { node }));
        return;
    }
    let is_full = core.is_full();
    let nonce = core.give(node, drawn);
    if is_full {
        out.put(HostOut::Note(Entry::QueueFull { node }));
        return;
    }
    core.queue(Task::Offer { node, nonce });
}

/// A nonce of a node is taken, so that this many were seen, and the pending plain text is sealed to this. Where that is
/// one more than before it is kept first. True but where the record was not kept; where as many were seen before, none is asked for.
pub fn take_nonce<P: Keeper>(
    core: &mut HostCore,
    node: NodeId,
    seen: u64,
    text: Payload,
    out: &mut List<HostOut>,
    keeper: &mut P,
) -> Result<bool, NoMemory>
    requires { May core.old.state (Takes_nonce node seen text) }
    ensures records { IfOk result (λ is_kept. Adds
        (texts_of (records_at core.old.state
        (chosen is_kept (Takes_nonce node seen text) (Is_unkept node))))
        (P.shelf keeper.old) (P.shelf keeper.new)) }
    ensures rose { IfOk result (λ is_kept. is_kept ≡ false →
        Fails (P.shelf keeper.old) (P.shelf keeper.new)) }
    ensures unasked { IfOk result (λ is_kept.
        (node_of core.old.state node).seen ≡ seen →
        is_kept ≡ true) }
    ensures in_range { IfOk result (λ is_kept.
        KeepsInRange core.old.state
        (chosen is_kept (Takes_nonce node seen text) (Is_unkept node))) }
    ensures state { IfOk result (λ is_kept.
        core.new ≡ parts_after core.old
        (chosen is_kept (Takes_nonce node seen text) (Is_unkept node))) }
    ensures outs { IfOk result (λ is_kept. out.new.items ≡ out.old.items ++
        outs core.old.state (chosen is_kept
        (Takes_nonce node seen text) (Is_unkept node))) }
    ensures err { OnErr result ((core.new ≡ core.old)
        × (out.new.items ≡ out.old.items)) }
    ensures no_record { OnErr result
        (Adds [] (P.shelf keeper.old) (P.shelf keeper.new)) }
    ensures never_falls { (P.shelf keeper.old).faults ≤ (P.shelf keeper.new).faults }
    ensures never_fewer { P.number keeper.old ≤ P.number keeper.new }
    ensures reads { P.reads keeper.new ≡ P.reads keeper.old }
{
    facts_are_kept();
    core.invariant_holds();
    if seen != core.node(node).seen() {
        out.reserve(1)?;
        if !keep_record(core.alloc(), &Record::Seen { node, seen }, keeper)? {
            out.put(HostOut::Note(Entry::Unkept { node }));
            return Ok(false);
        }
    }
    core.take_nonce(node, seen, text);
    Ok(true)
}

// The nonce after so many: its first byte counts, the others are drawn.
fn new_nonce(before: u64, drawn: [u8; 8]) -> [u8; 8]
    requires { before + 1 < 2 ^ 64 }
    ensures { result ≡ new_nonce before drawn }
{
    let mut nonce = drawn;
    nonce[0] = ((before + 1) % 256) as u8;
    nonce
}

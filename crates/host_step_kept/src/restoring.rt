//! A host that takes up its records, one at a time.

ghost use Rattle.std.specs.Prelude.{◌≡◌, ◌≢◌, ◌==◌, ◌+◌, false, None, IfOk, IfSome, Contains};
ghost use Rattle.host_keep.specs.declared.record.Record.TheVariants as record_of;
ghost use Rattle.host_model.specs.State.{node_of};
ghost use Rattle.host_model.specs.After.{node_for};
ghost use Rattle.host_model.specs.Restoring.{may_restore};
ghost use Rattle.host_step_kept.specs.Restoring.{restored_if};

use host_keep::{FinalStatus, PlainKeeper, Record};
use host_model::a_record_restores_what_it_says;
use host_orders::Refused;
use host_step::HostCore;
use supervision::session_id;
use zw_base::{Bytes, NoMemory, NodeId, Order};

/// The controller's own node, which never joins.
const CONTROLLER: u8 = 1;

/// Takes up a record, where it may follow what the host has; where it may not, nothing changes. A host for which there
/// was no memory is given up.
pub fn restore(core: &mut HostCore, fact: Record) -> Result<bool, NoMemory>
    ensures taken { IfOk result (λ taken.
        taken ≡ may_restore core.old.state fact) }
    ensures state { IfOk result (λ taken.
        core.new ≡ record core.old { state = restored_if taken core.old.state fact }) }
{
    match fact {
        Record::Accepted { command, order } => restore_order(core, command, order),
        Record::Joined { node } => Ok(restore_joined(core, node)),
        Record::Classes {
            node,
            listens,
            classes,
        } => Ok(restore_classes(core, node, listens, classes)),
        Record::Begun {
            node,
            session,
            command,
        } => Ok(restore_begun(core, node, session, command)),
        Record::Final {
            node,
            session,
            status,
        } => restore_final(core, node, session, status),
        Record::Cancelled { command } => Ok(restore_cancelled(core, command)),
        Record::Given { node, given, nonce } => Ok(restore_given(core, node, given, nonce)),
        Record::Spent { node } => Ok(restore_spent(core, node)),
        Record::Seen { node, seen } => Ok(restore_seen(core, node, seen)),
    }
}

// An order that was taken is judged and taken again. Its record is kept already, so none is kept of it here.
fn restore_order(core: &mut HostCore, command: u32, order: Order) -> Result<bool, NoMemory>
    ensures taken { IfOk result (λ taken.
        taken ≡ may_restore core.old.state (record_of.Accepted command order)) }
    ensures state { IfOk result (λ taken. core.new ≡
        record core.old { state = restored_if taken core.old.state (record_of.Accepted command order) }) }
{
    if !is_next(u64::from(command), core.commands() as u64) {
        return Ok(false);
    }
    let mut nowhere = PlainKeeper::new(core.alloc());
    match core.accept(&order, &mut nowhere) {
        Ok(_) => Ok(true),
        Err(refused) => refused_again(refused),
    }
}

// A node joined.
fn restore_joined(core: &mut HostCore, node: NodeId) -> bool
    ensures taken { result ≡
        may_restore core.old.state (record_of.Joined node) }
    ensures state { core.new ≡
        record core.old { state = restored_if result core.old.state (record_of.Joined node) } }
{
    a_record_restores_what_it_says();
    core.invariant_holds();
    let may = may_join(core, node);
    if may {
        core.join(node);
    }
    may
}

// A node was interviewed.
fn restore_classes(core: &mut HostCore, node: NodeId, listens: bool, classes: Bytes) -> bool
    ensures taken { result ≡
        may_restore core.old.state (record_of.Classes node listens classes) }
    ensures state { core.new ≡
        record core.old { state = restored_if result core.old.state (record_of.Classes node listens classes) } }
{
    a_record_restores_what_it_says();
    core.invariant_holds();
    let may = is_joined(core, node);
    if may {
        core.learn(node, listens, classes);
    }
    may
}

// A session was begun.
fn restore_begun(core: &mut HostCore, node: NodeId, session: u64, command: u32) -> bool
    ensures taken { result ≡
        may_restore core.old.state (record_of.Begun node session command) }
    ensures state { core.new ≡
        record core.old { state = restored_if result core.old.state (record_of.Begun node session command) } }
{
    a_record_restores_what_it_says();
    core.invariant_holds();
    let may = may_begin(core, node, session, command);
    if may {
        core.begin(node, command);
    }
    may
}

// A session ended.
fn restore_final(
    core: &mut HostCore,
    node: NodeId,
    session: u64,
    status: FinalStatus,
) -> Result<bool, NoMemory>
    ensures taken { IfOk result (λ taken.
        taken ≡ may_restore core.old.state
        (record_of.Final node session status)) }
    ensures state { IfOk result (λ taken.
        core.new ≡ record core.old { state = restored_if taken core.old.state (record_of.Final node session status) }) }
{
    a_record_restores_what_it_says();
    core.invariant_holds();
    if core.node(node).current() != Some(session) {
        return Ok(false);
    }
    let command = core.node(node).command_of(session).unwrap();
    let confirmed = core.confirmed_by(command, status)?;
    core.finish(
        node,
        session_id(session),
        command,
        status,
        false,
        confirmed.as_slice(),
    );
    Ok(true)
}

// A command was cancelled.
fn restore_cancelled(core: &mut HostCore, command: u32) -> bool
    ensures taken { result ≡
        may_restore core.old.state (record_of.Cancelled command) }
    ensures state { core.new ≡
        record core.old { state = restored_if result core.old.state (record_of.Cancelled command) } }
{
    a_record_restores_what_it_says();
    core.invariant_holds();
    let Some(node) = waits_for(core, command) else {
        return false;
    };
    core.cancel(node, command);
    true
}

// A nonce was given.
fn restore_given(core: &mut HostCore, node: NodeId, given: u64, nonce: [u8; 8]) -> bool
    ensures taken { result ≡
        may_restore core.old.state (record_of.Given node given nonce) }
    ensures state { core.new ≡
        record core.old { state = restored_if result core.old.state (record_of.Given node given nonce) } }
{
    a_record_restores_what_it_says();
    core.invariant_holds();
    let may = may_give(core, node, given, nonce);
    if may {
        core.restore_nonce(node, given, nonce);
    }
    may
}

// The live nonce was spent.
fn restore_spent(core: &mut HostCore, node: NodeId) -> bool
    ensures taken { result ≡
        may_restore core.old.state (record_of.Spent node) }
    ensures state { core.new ≡
        record core.old { state = restored_if result core.old.state (record_of.Spent node) } }
{
    a_record_restores_what_it_says();
    core.invariant_holds();
    let may = has_live(core, node);
    if may {
        core.spend(node);
    }
    may
}

// A nonce was seen.
fn restore_seen(core: &mut HostCore, node: NodeId, seen: u64) -> bool
    ensures taken { result ≡
        may_restore core.old.state (record_of.Seen node seen) }
    ensures state { core.new ≡
        record core.old { state = restored_if result core.old.state (record_of.Seen node seen) } }
{
    a_record_restores_what_it_says();
    core.invariant_holds();
    let may = may_see(core, node, seen);
    if may {
        core.restore_seen(node, seen);
    }
    may
}

// A node joins that is not joined; the controller never does.
fn may_join(core: &HostCore, node: NodeId) -> bool
    ensures { result ≡ may_restore core.now.state (record_of.Joined node) }
{
    !is_joined(core, node) && node.number() != CONTROLLER
}

// Whether a node is joined.
fn is_joined(core: &HostCore, node: NodeId) -> bool
    ensures { result ≡ (node_of core.now.state node).joined }
{
    core.node(node).is_joined()
}

// The next session of a node begins, where none is open, for the command that waits longest.
fn may_begin(core: &HostCore, node: NodeId, session: u64, command: u32) -> bool
    ensures { result ≡ may_restore core.now.state
        (record_of.Begun node session command) }
{
    let state = core.node(node);
    is_next(session, state.sessions())
        && state.current().is_none()
        && state.oldest() == Some(command)
}

// The node of a command that waits.
fn waits_for(core: &HostCore, command: u32) -> Option<NodeId>
    ensures waits { IfSome result (λ node.
        (node ≡ node_for core.now.state command)
        × Contains (node_of core.now.state node).waiting command) }
    ensures none { result ≡ None →
        may_restore core.now.state (record_of.Cancelled command) ≡ false }
{
    core.invariant_holds();
    let node = core.command_at(command)?.order().node;
    if core.node(node).waits(command) {
        Some(node)
    } else {
        None
    }
}

// The next nonce is given to a node where none is live; its first byte counts.
fn may_give(core: &HostCore, node: NodeId, given: u64, nonce: [u8; 8]) -> bool
    ensures { result ≡ may_restore core.now.state
        (record_of.Given node given nonce) }
{
    is_next(given, core.given(node))
        && core.live(node).is_none()
        && u64::from(nonce[0]) == given % 256
}

// A nonce of a node is live.
fn has_live(core: &HostCore, node: NodeId) -> bool
    ensures { result ≡ may_restore core.now.state (record_of.Spent node) }
{
    core.live(node).is_some()
}

// One nonce of a node more than before was seen.
fn may_see(core: &HostCore, node: NodeId, seen: u64) -> bool
    ensures { result ≡ may_restore core.now.state
        (record_of.Seen node seen) }
{
    is_next(seen, core.node(node).seen())
}

// A number is one more than another.
fn is_next(number: u64, before: u64) -> bool
    ensures { result ≡ (number == before + 1) }
{
    number != 0 && number - 1 == before
}

// An order that a rule refuses is not taken again; or there was no memory.
fn refused_again(refused: Refused) -> Result<bool, NoMemory>
    ensures { IfOk result (λ taken. (taken ≡ false)
        × (refused ≢ Refused.NoMemory)) }
{
    match refused {
        Refused::NoMemory => Err(NoMemory),
        _ => Ok(false),
    }
}

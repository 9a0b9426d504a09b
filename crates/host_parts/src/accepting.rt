//! An order that becomes a command, or is refused.

ghost use Rattle.std.specs.Prelude.{◌≡◌, ◌≢◌, ◌⊎◌, ◌+◌, ◌≤◌, ◌<◌, ◌∷◌, [], None, Some, length, vec_len, vec_capacity, IfOk, IfErr, OnOk, OnErr, Ok, Err};
ghost use Rattle.value_store.specs.Values.{count_with, missing_of, releasing, reserving};
ghost use Rattle.host_keep.specs.Keeping.{Adds, Fails};
ghost use Rattle.host_keep.specs.Rows.{IsRecord};
ghost use Rattle.host_keep.specs.RecordText.{record_text};
ghost use Rattle.host_keep.specs.declared.record.Record.TheVariants.{Accepted as the_accepted};
ghost use Rattle.host_node.specs.Events.NodeEvent.{Puts, Takes_back};
ghost use Rattle.host_node.specs.TableState.{node_of, nodes_after};
ghost use Rattle.host_orders.specs.Refusals.{IsFit, classes_of, first_refusal};
ghost use Rattle.host_orders.specs.Settings.{settings as settings_by, properties_of as properties_in};
ghost use Rattle.host_orders.specs.Wrapping.{carriage_of};
ghost use Rattle.host_model.specs.State.{HostState};
ghost use Rattle.host_model.specs.May.{known_of};
ghost use Rattle.host_model.specs.Asking.{refusal_for};
ghost use Rattle.host_parts.specs.Choices.{Judges, MayAccept, accepted};
ghost use Rattle.host_parts.specs.Within.{with_orders};

use crate::Command;
use crate::keeping::keep_record;
use host_keep::{Keeper, Record};
use host_node::{Nodes, what_is_taken_back_is_undone};
use host_orders::{Carriage, Refused, judge, properties_of, settings};
use std::alloc::Global;
use value_store::{MAX_PROPERTIES, Store, StoreFault, what_is_released_is_undone};
use zw_base::{List, NoMemory, NodeId, Order, Property};

/// What is found of an order that no rule on its node refuses: how it is carried, the number of its command, the properties that it
/// sets, and those of them that are not kept.
#[derive(Drop)]
struct Judged {
    carriage: Carriage,
    number: u32,
    properties: List<Property>,
    missing: List<Property>,
}

/// An order becomes the command of the next number, which waits for its node, once that is kept; or it is refused by the
/// first of the rules that applies.
pub fn accept<P: Keeper>(
    alloc: Global,
    nodes: &mut Nodes,
    store: &mut Store,
    commands: &mut Vec<Command>,
    order: &Order,
    keeper: &mut P,
) -> Result<u32, Refused>
    ensures number { IfOk result (λ number.
        number ≡ length commands.old.items + 1) }
    ensures judges { (h : HostState) →
        Judges result (refusal_for (with_orders h nodes.old
        commands.old.items store.old) order.now) }
    ensures may { (h : HostState) →
        OnOk result (MayAccept (with_orders h nodes.old
        commands.old.items store.old) order.now) }
    ensures kept { OnOk result
        (Adds (record_text (the_accepted (length commands.old.items + 1)
        order.now) ∷ [])
        (P.shelf keeper.old) (P.shelf keeper.new)) }
    ensures in_range { OnOk result
        (IsRecord (the_accepted (length commands.old.items + 1) order.now)) }
    ensures state { (h : HostState) →
        OnOk result (with_orders h nodes.new commands.new.items store.new ≡
        accepted (with_orders h nodes.old commands.old.items store.old)
        order.now) }
    ensures failed { result ≡ Err Refused.KeeperFault →
        Fails (P.shelf keeper.old) (P.shelf keeper.new) }
    ensures err { (h : HostState) →
        OnErr result (with_orders h nodes.new commands.new.items store.new ≡
        with_orders h nodes.old commands.old.items store.old) }
    ensures no_record { OnErr result
        (Adds [] (P.shelf keeper.old) (P.shelf keeper.new)) }
    ensures never_falls { (P.shelf keeper.old).faults ≤ (P.shelf keeper.new).faults }
    ensures more { OnOk result (P.number keeper.old < P.number keeper.new) }
    ensures never_fewer { P.number keeper.old ≤ P.number keeper.new }
    ensures reads { P.reads keeper.new ≡ P.reads keeper.old }
{
    let judged = judge_order(alloc, nodes, store, commands.len(), order)?;
    accept_judged(alloc, nodes, store, commands, order, &judged, keeper)
}

// An order that no rule on its node refuses becomes a command.
fn accept_judged<P: Keeper>(
    alloc: Global,
    nodes: &mut Nodes,
    store: &mut Store,
    commands: &mut Vec<Command>,
    order: &Order,
    judged: &Judged,
    keeper: &mut P,
) -> Result<u32, Refused>
    requires unrefused { first_refusal
        (known_of (node_of nodes.old order.now.node)) order.now ≡ None }
    requires carried { judged.now.carriage ≡
        carriage_of (classes_of
        (known_of (node_of nodes.old order.now.node))) order.now }
    requires number { judged.now.number ≡ length commands.old.items + 1 }
    requires properties { judged.now.properties.items ≡
        properties_in (settings_by judged.now.carriage.actuator order.now) }
    requires missing { judged.now.missing.items ≡
        missing_of store.old order.now.node judged.now.properties.items }
    ensures number { IfOk result (λ number.
        number ≡ length commands.old.items + 1) }
    ensures judges { (h : HostState) →
        Judges result (refusal_for (with_orders h nodes.old
        commands.old.items store.old) order.now) }
    ensures may { (h : HostState) →
        OnOk result (MayAccept (with_orders h nodes.old
        commands.old.items store.old) order.now) }
    ensures kept { OnOk result
        (Adds (record_text (the_accepted (length commands.old.items + 1)
        order.now) ∷ [])
        (P.shelf keeper.old) (P.shelf keeper.new)) }
    ensures in_range { OnOk result
        (IsRecord (the_accepted (length commands.old.items + 1) order.now)) }
    ensures state { (h : HostState) →
        OnOk result (with_orders h nodes.new commands.new.items store.new ≡
        accepted (with_orders h nodes.old commands.old.items store.old)
        order.now) }
    ensures failed { result ≡ Err Refused.KeeperFault →
        Fails (P.shelf keeper.old) (P.shelf keeper.new) }
    ensures err { (h : HostState) →
        OnErr result (with_orders h nodes.new commands.new.items store.new ≡
        with_orders h nodes.old commands.old.items store.old) }
    ensures no_record { OnErr result
        (Adds [] (P.shelf keeper.old) (P.shelf keeper.new)) }
    ensures never_falls { (P.shelf keeper.old).faults ≤ (P.shelf keeper.new).faults }
    ensures more { OnOk result (P.number keeper.old < P.number keeper.new) }
    ensures never_fewer { P.number keeper.old ≤ P.number keeper.new }
    ensures reads { P.reads keeper.new ≡ P.reads keeper.old }
{
    what_is_taken_back_is_undone();
    what_is_released_is_undone();
    let copy = prepare(alloc, nodes, store, commands, order, judged)?;
    if let Err(fault) = keep_accepted(alloc, judged.number, order, keeper) {
        take_back(nodes, store, order.node, judged.missing.as_slice());
        return Err(fault);
    }
    commands.push_reserved(Command::new(copy, judged.carriage));
    nodes.accept(order.node);
    Ok(judged.number)
}

// What is to be known of an order before it may become a command, after so many.
fn judge_order(
    alloc: Global,
    nodes: &Nodes,
    store: &Store,
    count: usize,
    order: &Order,
) -> Result<Judged, Refused>
    ensures unrefused { OnOk result
        (first_refusal (known_of (node_of nodes.now order.now.node))
        order.now ≡ None) }
    ensures carried { IfOk result (λ judged. judged.carriage ≡
        carriage_of (classes_of (known_of (node_of nodes.now order.now.node)))
        order.now) }
    ensures number { IfOk result (λ judged. judged.number ≡ count + 1) }
    ensures properties { IfOk result (λ judged.
        judged.properties.items ≡
        properties_in (settings_by judged.carriage.actuator order.now)) }
    ensures missing { IfOk result (λ judged.
        judged.missing.items ≡
        missing_of store.now order.now.node judged.properties.items) }
    ensures refused { IfErr result (λ refused.
        (first_refusal (known_of (node_of nodes.now order.now.node)) order.now ≡
        Some refused) ⊎
        (refused ≡ Refused.NoMemory)) }
    ensures by_a_rule { IfErr result (λ refused.
        refused ≢ Refused.KeeperFault) }
{
    let carriage = judge_by_node(nodes, order)?;
    let number = next_number(count)?;
    let properties = properties_set(alloc, carriage, order)?;
    let missing = store.missing(alloc, order.node, properties.as_slice())?;
    Ok(Judged {
        carriage,
        number,
        properties,
        missing,
    })
}

// The rules on its node, its values and its length judge an order: how it is carried, where none of them refuses it.
fn judge_by_node(nodes: &Nodes, order: &Order) -> Result<Carriage, Refused>
    ensures unrefused { OnOk result
        (first_refusal (known_of (node_of nodes.now order.now.node))
        order.now ≡ None) }
    ensures carried { IfOk result (λ carriage.
        carriage ≡ carriage_of
        (classes_of (known_of (node_of nodes.now order.now.node))) order.now) }
    ensures fit { IfOk result (λ carriage.
        IsFit carriage.actuator order.now) }
    ensures refused { IfErr result (λ refused.
        first_refusal (known_of (node_of nodes.now order.now.node)) order.now ≡
        Some refused) }
    ensures by_a_rule { IfErr result (λ refused.
        refused ≢ Refused.KeeperFault) }
{
    let state = nodes.of(order.node);
    judge(
        state.is_joined(),
        state.class_list(),
        state.waiting(),
        order,
    )
}

// The properties that an order sets.
fn properties_set(
    alloc: Global,
    carriage: Carriage,
    order: &Order,
) -> Result<List<Property>, NoMemory>
    requires { IsFit carriage.actuator order.now }
    ensures { IfOk result (λ made.
        made.items ≡ properties_in (settings_by carriage.actuator order.now)) }
{
    let made = settings(alloc, carriage.actuator, order)?;
    properties_of(alloc, made.as_slice())
}

// The number of the next command after so many, where there are few enough.
fn next_number(count: usize) -> Result<u32, NoMemory>
    ensures { IfOk result (λ number. number ≡ count + 1) }
{
    if count >= u32::MAX as usize {
        return Err(NoMemory);
    }
    Ok(count as u32 + 1)
}

// There is room for a command of an order, which waits for its node, and its properties are kept; or nothing changes. The answer is
// a copy of the order.
fn prepare(
    alloc: Global,
    nodes: &mut Nodes,
    store: &mut Store,
    commands: &mut Vec<Command>,
    order: &Order,
    judged: &Judged,
) -> Result<Order, Refused>
    requires waiting { length
        (node_of nodes.old order.now.node).waiting < 16 }
    requires missing { judged.now.missing.items ≡
        missing_of store.old order.now.node judged.now.properties.items }
    ensures copy { IfOk result (λ copy. copy ≡ order.now) }
    ensures nodes { OnOk result (nodes.new ≡
        nodes_after nodes.old order.now.node (Puts judged.now.number)) }
    ensures store { OnOk result (store.new ≡
        reserving store.old order.now.node judged.now.properties.items) }
    ensures few { OnOk result
        (count_with store.old order.now.node
        judged.now.properties.items ≤ 512) }
    ensures room { OnOk result
        (vec_len commands.new + 1 ≤ vec_capacity commands.new) }
    ensures commands { commands.new.items ≡ commands.old.items }
    ensures judges { IfErr result (λ refused. (refused ≡ Refused.NoMemory) ⊎
        ((refused ≡ Refused.StoreFull 512)
        × (512 < count_with store.old order.now.node
        judged.now.properties.items))) }
    ensures err { OnErr result ((nodes.new ≡ nodes.old)
        × (store.new ≡ store.old)) }
{
    let copy = order.copy(alloc)?;
    if commands.reserve(1).is_err() {
        return Err(Refused::NoMemory);
    }
    place(
        nodes,
        store,
        order.node,
        judged.number,
        judged.properties.as_slice(),
        judged.missing.as_slice(),
    )?;
    Ok(copy)
}

// A command waits for its node, and its properties are kept; or nothing changes.
fn place(
    nodes: &mut Nodes,
    store: &mut Store,
    node: NodeId,
    number: u32,
    properties: &[Property],
    missing: &[Property],
) -> Result<(), Refused>
    requires waiting { length (node_of nodes.old node).waiting < 16 }
    requires missing { missing.now ≡
        missing_of store.old node properties.now }
    ensures nodes { OnOk result (nodes.new ≡
        nodes_after nodes.old node (Puts number)) }
    ensures store { OnOk result (store.new ≡
        reserving store.old node properties.now) }
    ensures few { OnOk result
        (count_with store.old node properties.now ≤ 512) }
    ensures judges { IfErr result (λ refused. (refused ≡ Refused.NoMemory) ⊎
        ((refused ≡ Refused.StoreFull 512)
        × (512 < count_with store.old node properties.now))) }
    ensures err { OnErr result ((nodes.new ≡ nodes.old)
        × (store.new ≡ store.old)) }
{
    what_is_released_is_undone();
    match store.reserve(node, properties) {
        Ok(()) => {}
        Err(StoreFault::StoreFull) => return Err(Refused::StoreFull(MAX_PROPERTIES as u16)),
        Err(StoreFault::NoMemory) => return Err(Refused::NoMemory),
    }
    if nodes.put(node, number).is_err() {
        store.release(node, missing);
        return Err(Refused::NoMemory);
    }
    Ok(())
}

// That is undone.
fn take_back(nodes: &mut Nodes, store: &mut Store, node: NodeId, missing: &[Property])
    ensures nodes { nodes.new ≡ nodes_after nodes.old node Takes_back }
    ensures store { store.new ≡ releasing store.old node missing.now }
{
    nodes.take_back(node);
    store.release(node, missing);
}

// Has the record of an order kept.
fn keep_accepted<P: Keeper>(
    alloc: Global,
    number: u32,
    order: &Order,
    keeper: &mut P,
) -> Result<(), Refused>
    ensures kept { OnOk result
        (Adds (record_text (the_accepted number order.now) ∷ [])
        (P.shelf keeper.old) (P.shelf keeper.new)) }
    ensures in_range { OnOk result
        (IsRecord (the_accepted number order.now)) }
    ensures faults { IfErr result (λ refused.
        (refused ≡ Refused.KeeperFault) ⊎ (refused ≡ Refused.NoMemory)) }
    ensures failed { result ≡ Err Refused.KeeperFault →
        Fails (P.shelf keeper.old) (P.shelf keeper.new) }
    ensures no_record { OnErr result
        (Adds [] (P.shelf keeper.old) (P.shelf keeper.new)) }
    ensures never_falls { (P.shelf keeper.old).faults ≤ (P.shelf keeper.new).faults }
    ensures more { OnOk result (P.number keeper.old < P.number keeper.new) }
    ensures never_fewer { P.number keeper.old ≤ P.number keeper.new }
    ensures reads { P.reads keeper.new ≡ P.reads keeper.old }
{
    let fact = Record::Accepted {
        command: number,
        order: order.copy(alloc)?,
    };
    if !keep_record(alloc, &fact, keeper)? {
        return Err(Refused::KeeperFault);
    }
    Ok(())
}

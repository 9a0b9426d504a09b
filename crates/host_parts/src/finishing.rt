//! What a final report of a command comes to: its outcome, and the values that it confirms.

ghost use Rattle.std.specs.Prelude.{◌≡◌, IfOk};
ghost use Rattle.std.specs.List.{AllByRecursion};
ghost use Rattle.value_store.specs.Values.{IsReserved};
ghost use Rattle.host_orders.specs.Refusals.{IsFit};
ghost use Rattle.host_orders.specs.Settings.{settings as settings_of};
ghost use Rattle.host_model.specs.State.{HostState};
ghost use Rattle.host_model.specs.After.{confirming, holding, outcome_of};

use crate::Command;
use host_keep::FinalStatus;
use host_node::Nodes;
use host_orders::settings;
use std::alloc::Global;
use value_store::Store;
use zw_base::{List, NoMemory, NodeId, Setting};
use zw_text::Outcome;

impl Command {
    /// The settings that it makes.
    pub fn settings(&self, alloc: Global) -> Result<List<Setting>, NoMemory>
        requires { IsFit self.now.carriage.actuator self.now.order }
        ensures { IfOk result (λ made.
            made.items ≡ settings_of self.now.carriage.actuator self.now.order) }
    {
        settings(alloc, self.carriage.actuator, &self.order)
    }
}

/// Values of a node are confirmed.
pub fn confirm(store: &mut Store, node: NodeId, confirmed: &[Setting])
    requires { AllByRecursion (λ setting.
        IsReserved store.old node setting.property) confirmed.now }
    ensures { store.new ≡ confirming store.old node confirmed.now }
{
    if let [setting, more @ ..] = confirmed {
        store.confirm(node, setting.property, setting.value);
        confirm(store, node, more);
    }
}

/// A node is held awake, where it is to be.
pub fn hold(nodes: &mut Nodes, node: NodeId, is_held: bool)
    ensures { (h : HostState) →
        record h { nodes = nodes.new } ≡
        holding (record h { nodes = nodes.old }) node is_held }
{
    if is_held {
        nodes.hold(node);
    }
}

/// What a final status is to its command.
pub fn outcome_of(status: FinalStatus) -> Outcome
    ensures { result ≡ outcome_of status }
{
    match status {
        FinalStatus::NoSupport => Outcome::NoSupport,
        FinalStatus::Fail => Outcome::Fail,
        FinalStatus::Success => Outcome::Success,
    }
}

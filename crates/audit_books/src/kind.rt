//! Which kind the device of a node has, and by which class it takes a value.

ghost use Rattle.std.specs.Prelude.{◌≡◌};
ghost use Rattle.audit_books.specs.Asking.{actuator_by, kind_at};

use device_kinds::Kind;
use host_orders::Actuator;
use zw_base::NodeId;

/// How many kinds there are.
const KINDS: u8 = 8;

/// The kind of a node's device (this project's own rule): it goes by the node modulo 8.
fn kind_of(node: NodeId) -> Kind
    ensures { result ≡ kind_at node }
{
    match node.number() % KINDS {
        0 => Kind::Configurable,
        1 => Kind::Relay,
        2 => Kind::Switch,
        3 => Kind::Dimmer,
        4 => Kind::Lock,
        5 => Kind::Sensor,
        6 => Kind::Thermostat,
        _ => Kind::Strip,
    }
}

/// What a value is for a kind, by the classes that it lists.
#[tactic(auto, unfolding(host_orders::specs::Classes::actuator_of, host_orders::specs::Classes::lists))]
fn actuator_of_kind(kind: Kind) -> Actuator
    ensures { result ≡ actuator_by kind }
{
    match kind {
        Kind::Dimmer => Actuator::Multilevel,
        Kind::Lock => Actuator::Lock,
        Kind::Relay
        | Kind::Switch
        | Kind::Sensor
        | Kind::Thermostat
        | Kind::Strip
        | Kind::Configurable => Actuator::Binary,
    }
}

/// What a value is for the device of a node.
pub fn actuator_of(node: NodeId) -> Actuator
    ensures { result ≡ actuator_by (kind_at node) }
{
    actuator_of_kind(kind_of(node))
}

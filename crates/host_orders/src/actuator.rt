//! By which class a node takes a value.

ghost use Rattle.std.specs.Prelude.{◌≡◌};
ghost use Rattle.host_orders.specs.Classes.{lists, actuator_of, class_of};

/// Switch Binary.
pub(crate) const SWITCH_BINARY: u8 = 0x25;
/// Switch Multilevel.
pub(crate) const SWITCH_MULTILEVEL: u8 = 0x26;
/// Door Lock.
pub(crate) const DOOR_LOCK: u8 = 0x62;

/// What a value is for a node: a switch, a level or a lock. Its class is the first of Switch Binary, Switch Multilevel and
/// Door Lock that the node lists.
#[derive(Clone, Copy, PartialEq, Eq)]
pub enum Actuator {
    /// Switch Binary (0x25).
    Binary,
    /// Switch Multilevel (0x26).
    Multilevel,
    /// Door Lock (0x62).
    Lock,
}

/// Whether the class is among these.
#[tactic(auto, unfolding(crate::specs::Classes::lists))]
pub(crate) fn lists(classes: &[u8], class: u8) -> bool
    ensures { result ≡ lists classes.now class }
{
    classes.iter().any(|listed| *listed == class)
}

impl Actuator {
    ghost use Rattle.std.specs.Prelude.{◌≡◌};
    ghost use Rattle.host_orders.specs.Classes.{actuator_of, class_of};

    /// What a value is for a node with these classes: Switch Binary where it lists none of the three.
    #[tactic(auto, unfolding(crate::specs::Classes::actuator_of))]
    pub(crate) fn of(classes: &[u8]) -> Actuator
        ensures { result ≡ actuator_of classes.now }
    {
        if lists(classes, SWITCH_BINARY) {
            Actuator::Binary
        } else if lists(classes, SWITCH_MULTILEVEL) {
            Actuator::Multilevel
        } else if lists(classes, DOOR_LOCK) {
            Actuator::Lock
        } else {
            Actuator::Binary
        }
    }

    /// The number of its class.
    pub(crate) fn class(self) -> u8
        ensures { result ≡ class_of self }
    {
        match self {
            Actuator::Binary => SWITCH_BINARY,
            Actuator::Multilevel => SWITCH_MULTILEVEL,
            Actuator::Lock => DOOR_LOCK,
        }
    }
}

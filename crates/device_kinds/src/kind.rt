//! The kinds of devices.

ghost use Rattle.std.specs.Prelude.{◌≡◌, ◌<◌};
ghost use Rattle.device_kinds.specs.Kind.{listens, classes_of, lists, has_end, main_name_of, tells, property_count, property_at, root_property, member_of};

use zw_base::{EndPoint, Name, NodeId, Property, read_end, read_node};

/// Binary Switch (Z-Wave Application Command Class Specification), as the other classes in its specification.
pub const SWITCH_BINARY: u8 = 0x25;

pub const SWITCH_MULTILEVEL: u8 = 0x26;

pub const SENSOR_MULTILEVEL: u8 = 0x31;

pub const THERMOSTAT_MODE: u8 = 0x40;

pub const THERMOSTAT_SETPOINT: u8 = 0x43;

/// Transport Service (Z-Wave Transport-Encapsulation Command Class Specification).
pub const TRANSPORT_SERVICE: u8 = 0x55;

pub const CRC16: u8 = 0x56;

pub const MULTI_CHANNEL: u8 = 0x60;

pub const DOOR_LOCK: u8 = 0x62;

/// Supervision (Z-Wave Transport-Encapsulation Command Class Specification).
pub const SUPERVISION: u8 = 0x6C;

pub const CONFIGURATION: u8 = 0x70;

pub const BATTERY: u8 = 0x80;

/// Wake Up (Z-Wave Management Command Class Specification).
pub const WAKE_UP: u8 = 0x84;

pub const ASSOCIATION: u8 = 0x85;

pub const MULTI_COMMAND: u8 = 0x8F;

/// Security 0 (Z-Wave Security 0 Command Class Specification).
pub const SECURITY: u8 = 0x98;

/// The greatest end point of a strip.
const LAST_SOCKET: u8 = 4;

/// The group of an association.
pub const GROUP: u8 = 1;

/// The node of the host, which alone speaks to the devices.
pub const HOST: u8 = 1;

/// The kind of a device (this project's own choice of kinds).
#[derive(Clone, Copy, PartialEq, Eq)]
pub enum Kind {
    /// An unsupervised binary switch.
    Relay,
    /// A supervised binary switch.
    Switch,
    /// A supervised dimmer, whose changes take time.
    Dimmer,
    /// A door lock that speaks Security 0 alone.
    Lock,
    /// A sensor that sleeps.
    Sensor,
    /// A thermostat with two setpoints.
    Thermostat,
    /// A strip of four sockets beside its own switch.
    Strip,
    /// A device of 256 parameters, with Transport Service.
    Configurable,
}

impl Kind {
    /// Whether it hears at all times.
    pub fn listens(self) -> bool
        ensures { result ≡ listens self }
    {
        match self {
            Kind::Sensor => false,
            Kind::Relay
            | Kind::Switch
            | Kind::Dimmer
            | Kind::Lock
            | Kind::Thermostat
            | Kind::Strip
            | Kind::Configurable => true,
        }
    }

    /// The command classes that it lists, in their order.
    pub fn classes(self) -> &'static [u8]
        ensures { result.now ≡ classes_of self }
    {
        match self {
            Kind::Relay => &[SWITCH_BINARY, CRC16],
            Kind::Switch => &[SWITCH_BINARY, ASSOCIATION, SUPERVISION],
            Kind::Dimmer => &[SWITCH_MULTILEVEL, ASSOCIATION, SUPERVISION],
            Kind::Lock => &[DOOR_LOCK, SECURITY, SUPERVISION],
            Kind::Sensor => &[SENSOR_MULTILEVEL, BATTERY, WAKE_UP, SUPERVISION],
            Kind::Thermostat => &[
                THERMOSTAT_MODE,
                THERMOSTAT_SETPOINT,
                MULTI_COMMAND,
                ASSOCIATION,
                SUPERVISION,
            ],
            Kind::Strip => &[SWITCH_BINARY, MULTI_CHANNEL, SUPERVISION],
            Kind::Configurable => &[CONFIGURATION, TRANSPORT_SERVICE, SUPERVISION],
        }
    }

    /// Whether it lists a class.
    pub fn lists(self, class: u8) -> bool
        ensures { result ≡ lists self class }
    {
        self.classes().contains(&class)
    }

    /// Whether that end point is there.
    pub fn has_end(self, end: EndPoint) -> bool
        ensures { result ≡ has_end self end }
    {
        let last = match self {
            Kind::Strip => LAST_SOCKET,
            Kind::Relay
            | Kind::Switch
            | Kind::Dimmer
            | Kind::Lock
            | Kind::Sensor
            | Kind::Thermostat
            | Kind::Configurable => 0,
        };
        end.number() <= last
    }

    /// What it is for.
    pub fn main_name(self) -> Name
        ensures { result ≡ main_name_of self }
    {
        match self {
            Kind::Relay | Kind::Switch | Kind::Strip => Name::Switch,
            Kind::Dimmer => Name::Level,
            Kind::Lock => Name::Lock,
            Kind::Sensor => Name::Sensor,
            Kind::Thermostat => Name::Mode,
            Kind::Configurable => Name::Config(0),
        }
    }

    /// Whether it tells that value in a report.
    pub fn tells(self, name: Name) -> bool
        ensures { result ≡ tells self name }
    {
        match (self, name) {
            (Kind::Relay | Kind::Switch | Kind::Strip, Name::Switch)
            | (Kind::Dimmer, Name::Level)
            | (Kind::Sensor, Name::Sensor | Name::Interval | Name::Battery)
            | (Kind::Thermostat, Name::Mode)
            | (Kind::Configurable, Name::Config(_)) => true,
            (Kind::Thermostat, Name::Setpoint(kind)) => kind == 1 || kind == 2,
            _ => false,
        }
    }

    /// How many properties may be shown of it.
    pub fn property_count(self) -> u16
        ensures { result ≡ property_count self }
    {
        match self {
            Kind::Relay | Kind::Lock => 1,
            Kind::Switch | Kind::Dimmer => 233,
            Kind::Sensor => 2,
            Kind::Thermostat => 235,
            Kind::Strip => 5,
            Kind::Configurable => 256,
        }
    }

    /// These, in the order of properties, counted from 0.
    pub fn property(self, at: u16) -> Property
        requires { at < property_count self }
        ensures { result ≡ property_at self at }
    {
        match self {
            Kind::Relay => root(Name::Switch),
            Kind::Switch if at == 0 => root(Name::Switch),
            Kind::Dimmer if at == 0 => root(Name::Level),
            Kind::Switch | Kind::Dimmer => member(at),
            Kind::Lock => root(Name::Lock),
            Kind::Sensor => {
                if at == 0 {
                    root(Name::Interval)
                } else {
                    root(Name::Sensor)
                }
            }
            Kind::Thermostat => of_thermostat(at),
            Kind::Strip => socket(at),
            Kind::Configurable => root(Name::Config(at as u8)),
        }
    }
}

/// A property of the device itself.
pub fn root(name: Name) -> Property
    ensures { result ≡ root_property name }
{
    Property {
        end: EndPoint::root(),
        name,
    }
}

/// The properties of a thermostat.
fn of_thermostat(at: u16) -> Property
    requires { at < 235 }
    ensures { result ≡ property_at Kind.Thermostat at }
{
    match at {
        0 => root(Name::Mode),
        1 | 2 => root(Name::Setpoint(at as u8)),
        _ => member(at - 2),
    }
}

/// The switch of a socket.
fn socket(at: u16) -> Property
    requires { at < 5 }
    ensures { result ≡ property_at Kind.Strip at }
{
    match read_end(at as u8) {
        Some(end) => Property {
            end,
            name: Name::Switch,
        },
        None => unreachable!(),
    }
}

/// A member of the group.
fn member(number: u16) -> Property
    requires from_one { 0 < number }
    requires to_max { number < 233 }
    ensures { result ≡ member_of number }
{
    root(Name::Member(GROUP, node(number as u8)))
}

/// The node with that number, 1 to 232.
pub fn node(number: u8) -> NodeId
    requires from_one { 0 < number }
    requires to_max { number < 233 }
    ensures { result ≡ number }
{
    match read_node(number) {
        Some(node) => node,
        None => unreachable!(),
    }
}

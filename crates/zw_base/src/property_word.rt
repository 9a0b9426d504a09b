//! How a property is written: an end point, a slash and a name with its numbers.

ghost use Rattle.std.specs.Prelude.{◌≡◌, ◌++◌, OnOk, codes, decimal, string_bytes};
ghost use Rattle.zw_base.specs.PropertyWord.{name_word, property_word};

use crate::{Name, NodeId, Property, push_number};
use std::alloc::AllocError;

impl Property {
    /// Adds the property to a text, as in `0/switch` or `2/setpoint:1`. Where memory ran out, a part of it may have been
    /// added.
    pub fn write(self, text: &mut String) -> Result<(), AllocError>
        ensures { OnOk result (string_bytes text.new ≡ string_bytes text.old ++ property_word self) }
    {
        push_number(text, u64::from(self.end.number()))?;
        text.push_str("/")?;
        self.name.write(text)
    }
}

impl Name {
    /// Adds the name to a text, with a colon before each of its numbers.
    fn write(self, text: &mut String) -> Result<(), AllocError>
        ensures { OnOk result (string_bytes text.new ≡ string_bytes text.old ++ name_word self) }
    {
        match self {
            Name::Switch => text.push_str("switch"),
            Name::Level => text.push_str("level"),
            Name::Lock => text.push_str("lock"),
            Name::Mode => text.push_str("mode"),
            Name::Setpoint(kind) => push_named(text, "setpoint:", kind),
            Name::Config(parameter) => push_named(text, "config:", parameter),
            Name::Member(group, member) => push_member(text, group, member),
            Name::Interval => text.push_str("interval"),
            Name::Sensor => text.push_str("sensor"),
            Name::Battery => text.push_str("battery"),
        }
    }
}

/// A name and its number.
#[inline(always)]
fn push_named(text: &mut String, name: &str, n: u8) -> Result<(), AllocError>
    ensures { OnOk result (string_bytes text.new ≡ string_bytes text.old ++ (name.now ++ decimal n)) }
{
    text.push_str(name)?;
    push_number(text, u64::from(n))
}

/// A member of a group.
fn push_member(text: &mut String, group: u8, member: NodeId) -> Result<(), AllocError>
    ensures { OnOk result (string_bytes text.new ≡ string_bytes text.old ++ (codes "member:" ++ (decimal group ++ (codes ":" ++ decimal member)))) }
{
    push_named(text, "member:", group)?;
    push_named(text, ":", member.number())
}

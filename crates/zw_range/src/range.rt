//! Numbers of entries are in the ranges of their types.

ghost use Rattle.std.specs.List.{AllByRecursion};
ghost use Rattle.zw_text.specs.Fits.{AreBytes, ByFits, EntryFits, IsEight, IsFour, IsNode, NameFits, OptionFits, PropertyFits, RefusalFits, SettingFits};

use zw_base::{By, Name, NodeId, Property, Setting};
use zw_text::{Entry, Refusal};

fn node(node: NodeId)
    ensures { IsNode node }
{
    node.number();
}

fn name(name: Name)
    ensures { NameFits name }
{
    if let Name::Member(_, member) = name {
        node(member);
    }
}

fn property(property: Property)
    ensures { PropertyFits property }
{
    property.end.number();
    name(property.name);
}

/// The numbers of a setting are in range.
pub fn setting_in_range(setting: Setting)
    ensures { SettingFits setting }
{
    property(setting.property);
}

fn by(by: By)
    ensures { ByFits by }
{
    let _by = by;
}

fn refusal(refusal: Refusal)
    ensures { RefusalFits refusal }
{
    let _refusal = refusal;
}

fn option(number: Option<u32>)
    ensures { OptionFits number }
{
    let _number = number;
}

fn bytes(bytes: &[u8])
    ensures { AreBytes bytes.now }
{
    for byte in bytes {
        let _byte = *byte;
    }
}

fn nodes(nodes: &[NodeId])
    ensures { AllByRecursion IsNode nodes.now }
{
    'nodes: for one in nodes {
        node(*one);
    }
}

fn numbers(numbers: &[u32])
    ensures { AllByRecursion IsFour numbers.now }
{
    for number in numbers {
        let _number = *number;
    }
}

fn number(number: u64)
    ensures { IsEight number }
{
    let _number = number;
}

fn command(command: u32)
    ensures { IsFour command }
{
    let _command = command;
}

/// Each number of an entry is in range.
pub fn entry_in_range(entry: &Entry)
    ensures { EntryFits entry.now }
{
    match entry {
        Entry::Accepted {
            command: of,
            node: at,
        } => {
            command(*of);
            node(*at);
        }
        Entry::Refused { refusal: why } => refusal(*why),
        Entry::Begin {
            node: at,
            session,
            command: of,
        } => {
            node(*at);
            number(*session);
            command(*of);
        }
        Entry::Written { unit, .. } | Entry::Garbled { unit, .. } => bytes(unit.as_slice()),
        Entry::Air {
            frame,
            sender,
            receiver,
            repeaters,
            payload,
        } => {
            number(*frame);
            node(*sender);
            node(*receiver);
            nodes(repeaters.as_slice());
            bytes(payload.bytes());
        }
        Entry::Heard { frame } | Entry::Lost { frame } | Entry::Unheard { frame } => number(*frame),
        Entry::Dev {
            node: at,
            by: maker,
            setting: made,
        } => {
            node(*at);
            by(*maker);
            setting_in_range(*made);
        }
        Entry::Forget { first, second } => {
            node(*first);
            node(*second);
        }
        Entry::Out { command: of, .. } => command(*of),
        Entry::Store {
            node: at,
            setting: of,
        }
        | Entry::Report {
            node: at,
            setting: of,
        }
        | Entry::Device {
            node: at,
            setting: of,
        } => {
            node(*at);
            setting_in_range(*of);
        }
        Entry::Unstored {
            node: at,
            property: of,
        } => {
            node(*at);
            property(*of);
        }
        Entry::Old { node: at, id } => {
            node(*at);
            let _id = *id;
        }
        Entry::Unread { node: at, payload } => {
            node(*at);
            bytes(payload.as_slice());
        }
        Entry::Neighbours { node: at, list } => {
            node(*at);
            nodes(list.as_slice());
        }
        Entry::Awake { node: at }
        | Entry::Asleep { node: at }
        | Entry::Interviewed { node: at }
        | Entry::InterviewFailed { node: at }
        | Entry::Done { node: at, .. }
        | Entry::Failed { node: at, .. }
        | Entry::QueueFull { node: at }
        | Entry::Held { node: at }
        | Entry::Unkept { node: at } => node(*at),
        Entry::Cleared { bytes, .. } => number(*bytes),
        Entry::Time { tick } => number(*tick),
        Entry::TableEnd { ticks } => number(*ticks),
        Entry::TableNode { node: at, sessions } => {
            node(*at);
            numbers(sessions.as_slice());
        }
        Entry::TableValue {
            node: at,
            property: of,
            confirmed,
            heard,
        } => {
            node(*at);
            property(*of);
            option(*confirmed);
            option(*heard);
        }
        Entry::BadLine { line, .. } => command(*line),
        Entry::Said { .. }
        | Entry::Dropped { .. }
        | Entry::Overrun { .. }
        | Entry::ChipFull
        | Entry::Json { .. } => {}
    }
}

/// So is each of some entries.
pub fn entries_in_range(entries: &[Entry])
    ensures { AllByRecursion EntryFits entries.now }
{
    'entries: for one in entries {
        entry_in_range(one);
    }
}

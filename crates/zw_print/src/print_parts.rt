//! The parts of an entry's text.

ghost use Rattle.std.specs.Prelude.{◌≡◌, ◌∷◌, [], ◌++◌, IfOk, OnOk, codes, decimal, string_bytes};
ghost use Rattle.std.specs.List.{join_with_byte};
ghost use Rattle.hex.specs.Hex.{encode_upper};
ghost use Rattle.zw_base.specs.PropertyWord.{property_word};
ghost use Rattle.zw_words.specs.Texts.{side_word};
ghost use Rattle.zw_text.specs.Entry.{by_word, done_word, ended_word, failed_word, fault_word, number_word, refusal_words};

use std::alloc::{AllocError, Global};
use zw_base::{By, Bytes, NoMemory, NodeId, Property, Setting, push_number};
use zw_text::{Done, Ended, LineFault, Refusal, Side};

/// A word, a space, bytes and an end.
pub fn join_bytes(alloc: Global, word: &str, bytes: &[u8], end: &str) -> Result<Bytes, NoMemory>
    ensures { IfOk result (λ text. text ≡ word.now ++ 32 ∷ (bytes.now ++ end.now)) }
{
    let mut text = Bytes::from_slice(alloc, word.as_bytes())?;
    text.push(b' ')?;
    text.extend(bytes)?;
    text.extend(end.as_bytes())?;
    Ok(text)
}

/// A word.
pub fn print_word(text: &mut String, word: &str) -> Result<(), AllocError>
    ensures { OnOk result (string_bytes text.new ≡ string_bytes text.old ++ word.now) }
{
    text.push_str(word)
}

/// A word and a number.
#[inline(always)]
pub fn print_count(text: &mut String, word: &str, n: u64) -> Result<(), AllocError>
    ensures { OnOk result (string_bytes text.new ≡ string_bytes text.old ++ join_with_byte 32 (word.now ∷ decimal n ∷ [])) }
{
    text.push_str(word)?;
    push_count(text, n)
}

/// A space and a number.
pub fn push_count(text: &mut String, n: u64) -> Result<(), AllocError>
    ensures { OnOk result (string_bytes text.new ≡ string_bytes text.old ++ 32 ∷ decimal n) }
{
    text.push_str(" ")?;
    push_number(text, n)
}

/// A word and two numbers.
pub fn print_pair(text: &mut String, word: &str, first: u64, second: u64) -> Result<(), AllocError>
    ensures { OnOk result (string_bytes text.new ≡ string_bytes text.old ++ join_with_byte 32 (word.now ∷ decimal first ∷ decimal second ∷ [])) }
{
    text.push_str(word)?;
    push_count(text, first)?;
    push_count(text, second)
}

/// A word, a number and a name.
pub fn print_named(text: &mut String, word: &str, n: u64, name: &str) -> Result<(), AllocError>
    ensures { OnOk result (string_bytes text.new ≡ string_bytes text.old ++ join_with_byte 32 (word.now ∷ decimal n ∷ name.now ∷ [])) }
{
    text.push_str(word)?;
    push_count(text, n)?;
    text.push_str(" ")?;
    text.push_str(name)
}

/// `accepted I node N`
pub fn print_accepted(text: &mut String, command: u32, node: NodeId) -> Result<(), AllocError>
    ensures { OnOk result (string_bytes text.new ≡ string_bytes text.old ++
        join_with_byte 32 (codes "accepted" ∷ decimal command ∷ codes "node" ∷ decimal node ∷ [])) }
{
    text.push_str("accepted")?;
    push_count(text, u64::from(command))?;
    text.push_str(" node")?;
    push_count(text, u64::from(node.number()))
}

/// `begin N S I`
pub fn print_begin(
    text: &mut String,
    node: NodeId,
    session: u64,
    command: u32,
) -> Result<(), AllocError>
    ensures { OnOk result (string_bytes text.new ≡ string_bytes text.old ++
        join_with_byte 32 (codes "begin" ∷ decimal node ∷ decimal session ∷ decimal command ∷ [])) }
{
    text.push_str("begin")?;
    push_count(text, u64::from(node.number()))?;
    push_count(text, session)?;
    push_count(text, u64::from(command))
}

/// A word and a side.
pub fn print_side(text: &mut String, word: &str, side: Side) -> Result<(), AllocError>
    ensures { OnOk result (string_bytes text.new ≡ string_bytes text.old ++ join_with_byte 32 (word.now ∷ side_word side ∷ [])) }
{
    text.push_str(word)?;
    text.push_str(" ")?;
    text.push_str(side_name(side))
}

/// `h HEX` or `c HEX`
pub fn print_written(
    alloc: Global,
    text: &mut String,
    side: Side,
    unit: &[u8],
) -> Result<(), AllocError>
    ensures { OnOk result (string_bytes text.new ≡ string_bytes text.old ++ join_with_byte 32 (side_word side ∷ encode_upper unit.now ∷ [])) }
{
    let unit = hex::encode_upper(alloc, unit)?;
    text.push_str(side_name(side))?;
    text.push_str(" ")?;
    text.push_str(unit.as_str())
}

/// `garbled S HEX`
pub fn print_garbled(
    alloc: Global,
    text: &mut String,
    side: Side,
    unit: &[u8],
) -> Result<(), AllocError>
    ensures { OnOk result (string_bytes text.new ≡ string_bytes text.old ++ join_with_byte 32 (codes "garbled" ∷ side_word side ∷ encode_upper unit.now ∷ [])) }
{
    let side = side_name(side);
    let unit = hex::encode_upper(alloc, unit)?;
    write!(text, "garbled {side} {unit}")
}

/// `cleared S K`
pub fn print_cleared(text: &mut String, side: Side, bytes: u64) -> Result<(), AllocError>
    ensures { OnOk result (string_bytes text.new ≡ string_bytes text.old ++ join_with_byte 32 (codes "cleared" ∷ side_word side ∷ decimal bytes ∷ [])) }
{
    let side = side_name(side);
    write!(text, "cleared {side} {bytes}")
}

/// `unread N HEX`
pub fn print_unread(
    alloc: Global,
    text: &mut String,
    node: NodeId,
    payload: &[u8],
) -> Result<(), AllocError>
    ensures { OnOk result (string_bytes text.new ≡ string_bytes text.old ++ join_with_byte 32 (codes "unread" ∷ decimal node ∷ encode_upper payload.now ∷ [])) }
{
    let node = node.number();
    let payload = hex::encode_upper(alloc, payload)?;
    write!(text, "unread {node} {payload}")
}

/// A word, a node, a property and its value.
#[inline(always)]
pub fn print_setting_of(
    text: &mut String,
    word: &str,
    node: NodeId,
    setting: Setting,
) -> Result<(), AllocError>
    ensures { OnOk result (string_bytes text.new ≡ string_bytes text.old ++
        join_with_byte 32 (word.now ∷ decimal node ∷ property_word setting.property ∷ decimal setting.value ∷ [])) }
{
    text.push_str(word)?;
    push_count(text, u64::from(node.number()))?;
    text.push_str(" ")?;
    setting.property.write(text)?;
    push_count(text, u64::from(setting.value))
}

/// A word, a node and a property.
pub fn print_property_of(
    text: &mut String,
    word: &str,
    node: NodeId,
    property: Property,
) -> Result<(), AllocError>
    ensures { OnOk result (string_bytes text.new ≡ string_bytes text.old ++ join_with_byte 32 (word.now ∷ decimal node ∷ property_word property ∷ [])) }
{
    let node = node.number();
    write!(text, "{word} {node} ")?;
    property.write(text)?;
    Ok(())
}

/// `dev N BY P X`
pub fn print_made(
    text: &mut String,
    node: NodeId,
    by: By,
    setting: Setting,
) -> Result<(), AllocError>
    ensures { OnOk result (string_bytes text.new ≡ string_bytes text.old ++
        join_with_byte 32 (codes "dev" ∷ decimal node ∷ by_word by ∷ property_word setting.property ∷ decimal setting.value ∷ [])) }
{
    text.push_str("dev")?;
    push_count(text, u64::from(node.number()))?;
    text.push_str(" ")?;
    write_by(text, by)?;
    text.push_str(" ")?;
    setting.property.write(text)?;
    push_count(text, u64::from(setting.value))
}

/// `value N P confirmed X heard X`
pub fn print_value(
    text: &mut String,
    node: NodeId,
    property: Property,
    confirmed: Option<u32>,
    heard: Option<u32>,
) -> Result<(), AllocError>
    ensures { OnOk result (string_bytes text.new ≡ string_bytes text.old ++
        join_with_byte 32
        (codes "value" ∷ decimal node ∷ property_word property ∷ codes "confirmed" ∷ number_word confirmed ∷ codes "heard" ∷ number_word heard ∷ [])) }
{
    let node = node.number();
    write!(text, "value {node} ")?;
    property.write(text)?;
    text.push_str(" confirmed ")?;
    write_number(text, confirmed)?;
    text.push_str(" heard ")?;
    write_number(text, heard)?;
    Ok(())
}

/// `refused NAME` or `refused NAME X`
pub fn print_refusal(alloc: Global, text: &mut String, refusal: Refusal) -> Result<(), AllocError>
    ensures { OnOk result (string_bytes text.new ≡ string_bytes text.old ++ join_with_byte 32 (codes "refused" ∷ refusal_words refusal)) }
{
    match refusal {
        Refusal::NotJoined => print_word(text, "refused notjoined"),
        Refusal::NotInterviewed => print_word(text, "refused notinterviewed"),
        Refusal::Unsupported { class } => print_unsupported(alloc, text, class),
        Refusal::BadValue => print_word(text, "refused badvalue"),
        Refusal::Unsupervised => print_word(text, "refused unsupervised"),
        Refusal::TooLong { bytes } => print_count(text, "refused toolong", u64::from(bytes)),
        Refusal::MailboxFull { waiting } => print_count(
            text,
            "refused mailboxfull",
            u64::from(waiting),
        ),
        Refusal::StoreFull { properties } => print_count(
            text,
            "refused storefull",
            u64::from(properties),
        ),
        Refusal::Secured => print_word(text, "refused secured"),
        Refusal::QueueFull { waiting } => print_count(
            text,
            "refused queuefull",
            u64::from(waiting),
        ),
        Refusal::AlreadyJoined => print_word(text, "refused alreadyjoined"),
        Refusal::KeeperFault => print_word(text, "refused keeperfault"),
        Refusal::NotWaiting { command } => print_count(
            text,
            "refused notwaiting",
            u64::from(command),
        ),
        Refusal::NeverSent => print_word(text, "refused neversent"),
        Refusal::Forgotten => print_word(text, "refused forgotten"),
        Refusal::Stale { later } => print_count(text, "refused stale", later),
        Refusal::NoDevice => print_word(text, "refused nodevice"),
        Refusal::BadRecord { place } => print_count(text, "refused badrecord", place),
    }
}

fn print_unsupported(alloc: Global, text: &mut String, class: u8) -> Result<(), AllocError>
    ensures { OnOk result (string_bytes text.new ≡ string_bytes text.old ++
        join_with_byte 32 (codes "refused" ∷ codes "unsupported" ∷ encode_upper (class ∷ []) ∷ [])) }
{
    let class = hex::encode_upper(alloc, [class].as_slice())?;
    write!(text, "refused unsupported {class}")
}

/// The letter of a side.
pub fn side_name(side: Side) -> &'static str
    ensures { result.now ≡ side_word side }
{
    match side {
        Side::Host => "h",
        Side::Chip => "c",
    }
}

/// How a command ended.
pub fn ended_name(ended: Ended) -> &'static str
    ensures { result.now ≡ ended_word ended }
{
    match ended {
        Ended::Success => "success",
        Ended::Fail => "fail",
        Ended::NoSupport => "nosupport",
        Ended::Unanswered => "unanswered",
        Ended::Cancelled => "cancelled",
    }
}

/// How a request ended.
pub fn done_name(done: Done) -> &'static str
    ensures { result.now ≡ done_word done }
{
    match done {
        Done::Delivered => "ok",
        Done::NoAck => "noack",
        Done::Fail => "fail",
        Done::NotIdle => "notidle",
        Done::NoRoute => "noroute",
        Done::Refused => "refused",
        Done::Silent => "silent",
        Done::LinkFailed => "link",
    }
}

/// The name of a fault of a line.
pub fn fault_name(fault: LineFault) -> &'static str
    ensures { result.now ≡ fault_word fault }
{
    match fault {
        LineFault::Unknown => "Unknown",
        LineFault::Missing => "Missing",
        LineFault::Number => "Number",
        LineFault::Extra => "Extra",
        LineFault::TooLong => "TooLong",
    }
}

/// Whether a node has failed.
pub fn failed_name(failed: bool) -> &'static str
    ensures { result.now ≡ failed_word failed }
{
    if failed { "yes" } else { "no" }
}

fn write_by(text: &mut String, by: By) -> Result<(), AllocError>
    ensures { OnOk result (string_bytes text.new ≡ string_bytes text.old ++ by_word by) }
{
    match by {
        By::Session(session) => push_number(text, session),
        By::Local => text.push_str("local"),
        By::Plain => text.push_str("plain"),
    }
}

fn write_number(text: &mut String, number: Option<u32>) -> Result<(), AllocError>
    ensures { OnOk result (string_bytes text.new ≡ string_bytes text.old ++ number_word number) }
{
    match number {
        None => text.push_str("-"),
        Some(number) => push_number(text, u64::from(number)),
    }
}

//! The text of an entry.

ghost use Rattle.std.specs.Prelude.{◌≡◌, ◌∷◌, [], ◌++◌, true, IfOk, OnOk, string_bytes};
ghost use Rattle.zw_text.specs.Entry.{entry_text};
ghost use Rattle.zw_print.specs.Worded.{is_worded};

use crate::print_lists::{print_air, print_neighbours, print_sessions};
use crate::print_parts::{
    done_name, ended_name, failed_name, fault_name, join_bytes, print_accepted, print_begin,
    print_cleared, print_count, print_garbled, print_made, print_named, print_pair,
    print_property_of, print_refusal, print_setting_of, print_side, print_unread, print_value,
    print_word, print_written,
};
use std::alloc::{AllocError, Global};
use zw_base::{Bytes, NoMemory, NodeId};
use zw_text::Entry;

fn number(node: NodeId) -> u64
    ensures { result ≡ node }
{
    u64::from(node.number())
}

/// The text of an entry, without a line feed.
pub fn print_entry(alloc: Global, entry: &Entry) -> Result<Bytes, NoMemory>
    ensures { IfOk result (λ text. text ≡ entry_text entry.now) }
{
    let mut scratch = String::new(alloc);
    print_ended(alloc, entry, "", &mut scratch)
}

/// The text of an entry, with a line feed. It is made in `scratch`, which keeps its room.
pub fn print_line(alloc: Global, entry: &Entry, scratch: &mut String) -> Result<Bytes, NoMemory>
    ensures { IfOk result (λ line. line ≡ entry_text entry.now ++ 10 ∷ []) }
{
    print_ended(alloc, entry, "\n", scratch)
}

/// The text of an entry, with an end.
#[tactic(auto, unfolding(zw_text::specs::Entry::entry_text))]
fn print_ended(
    alloc: Global,
    entry: &Entry,
    end: &str,
    scratch: &mut String,
) -> Result<Bytes, NoMemory>
    ensures { IfOk result (λ text. text ≡ entry_text entry.now ++ end.now) }
{
    match entry {
        Entry::Said { words } => join_bytes(alloc, ">", words.as_slice(), end),
        Entry::Json { text } => join_bytes(alloc, "json", text.as_slice(), end),
        entry => print_worded(alloc, entry, end, scratch),
    }
}

/// The text of an entry that has no bytes as they came, with an end.
fn print_worded(
    alloc: Global,
    entry: &Entry,
    end: &str,
    scratch: &mut String,
) -> Result<Bytes, NoMemory>
    requires { is_worded entry.now ≡ true }
    ensures { IfOk result (λ text. text ≡ entry_text entry.now ++ end.now) }
{
    write_ended(alloc, entry, end, scratch)?;
    Bytes::from_slice(alloc, scratch.as_bytes())
}

/// Puts the text of an entry that has no bytes as they came into `scratch`, with a line feed.
pub fn write_line(alloc: Global, entry: &Entry, scratch: &mut String) -> Result<(), NoMemory>
    requires { is_worded entry.now ≡ true }
    ensures { OnOk result (string_bytes scratch.new ≡ entry_text entry.now ++ 10 ∷ []) }
{
    write_ended(alloc, entry, "\n", scratch)
}

/// The same with an end.
#[inline(always)]
fn write_ended(
    alloc: Global,
    entry: &Entry,
    end: &str,
    scratch: &mut String,
) -> Result<(), NoMemory>
    requires { is_worded entry.now ≡ true }
    ensures { OnOk result (string_bytes scratch.new ≡ entry_text entry.now ++ end.now) }
{
    scratch.clear();
    write_entry(alloc, entry, scratch)?;
    scratch.push_str(end)?;
    Ok(())
}

/// Adds the text of an entry that has no bytes as they came.
#[tactic(auto, unfolding(zw_text::specs::Entry::entry_text))]
fn write_entry(alloc: Global, entry: &Entry, text: &mut String) -> Result<(), AllocError>
    requires { is_worded entry.now ≡ true }
    ensures { OnOk result (string_bytes text.new ≡ string_bytes text.old ++ entry_text entry.now) }
{
    match entry {
        Entry::Said { .. } | Entry::Json { .. } => unreachable!(),
        Entry::Accepted { command, node } => print_accepted(text, *command, *node),
        Entry::Refused { refusal } => print_refusal(alloc, text, *refusal),
        Entry::Begin {
            node,
            session,
            command,
        } => print_begin(text, *node, *session, *command),
        Entry::Written { side, unit } => print_written(alloc, text, *side, unit.as_slice()),
        Entry::Dropped { side } => print_side(text, "dropped", *side),
        Entry::Garbled { side, unit } => print_garbled(alloc, text, *side, unit.as_slice()),
        Entry::Overrun { side } => print_side(text, "overrun", *side),
        Entry::Air {
            frame,
            sender,
            receiver,
            repeaters,
            payload,
        } => print_air(
            alloc,
            text,
            *frame,
            *sender,
            *receiver,
            repeaters.as_slice(),
            payload.bytes(),
        ),
        Entry::Heard { frame } => print_count(text, "heard", *frame),
        Entry::Lost { frame } => print_count(text, "lost", *frame),
        Entry::Unheard { frame } => print_count(text, "unheard", *frame),
        Entry::Dev { node, by, setting } => print_made(text, *node, *by, *setting),
        Entry::Forget { first, second } => {
            print_pair(text, "forget", number(*first), number(*second))
        }
        Entry::Out { command, ended } => {
            print_named(text, "out", u64::from(*command), ended_name(*ended))
        }
        Entry::Store { node, setting } => print_setting_of(text, "store", *node, *setting),
        Entry::Report { node, setting } => print_setting_of(text, "report", *node, *setting),
        Entry::Unstored { node, property } => print_property_of(text, "unstored", *node, *property),
        Entry::Old { node, id } => print_pair(text, "old", number(*node), u64::from(*id)),
        Entry::Unread { node, payload } => print_unread(alloc, text, *node, payload.as_slice()),
        Entry::Awake { node } => print_count(text, "awake", number(*node)),
        Entry::Asleep { node } => print_count(text, "asleep", number(*node)),
        Entry::Interviewed { node } => print_count(text, "interviewed", number(*node)),
        Entry::InterviewFailed { node } => print_named(text, "interview", number(*node), "failed"),
        Entry::Done { node, done } => print_named(text, "done", number(*node), done_name(*done)),
        Entry::Neighbours { node, list } => print_neighbours(text, *node, list.as_slice()),
        Entry::Failed { node, failed } => {
            print_named(text, "failed", number(*node), failed_name(*failed))
        }
        Entry::ChipFull => print_word(text, "chipfull"),
        Entry::QueueFull { node } => print_count(text, "queuefull", number(*node)),
        Entry::Device { node, setting } => print_setting_of(text, "device", *node, *setting),
        Entry::Held { node } => print_count(text, "held", number(*node)),
        Entry::Cleared { side, bytes } => print_cleared(text, *side, *bytes),
        Entry::Unkept { node } => print_count(text, "unkept", number(*node)),
        Entry::Time { tick } => print_count(text, "t", *tick),
        Entry::TableEnd { ticks } => print_count(text, "end", *ticks),
        Entry::TableNode { node, sessions } => { print_sessions(text, *node, sessions.as_slice()) }
        Entry::TableValue {
            node,
            property,
            confirmed,
            heard,
        } => print_value(text, *node, *property, *confirmed, *heard),
        Entry::BadLine { line, fault } => {
            print_named(text, "badline", u64::from(*line), fault_name(*fault))
        }
    }
}

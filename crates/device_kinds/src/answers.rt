//! How a device words its answers.

ghost use Rattle.std.specs.Prelude.{◌≡◌, false, ◌<◌, [], ◌∷◌, Some, None, IfOk, IfSome, All};
ghost use Rattle.std.specs.Option.{option_to_list};
ghost use Rattle.class_info.specs.InfoSpelling.{form};
ghost use Rattle.device_kinds.specs.Telling.{IsAnswer};
ghost use Rattle.device_kinds.specs.Answers.{report_status, swapped, answer_plan, worded};
ghost use Rattle.device_kinds.specs.Worded.{IsShort, IsPayload};

use class_info::{InfoMessage, ReportStatus, SessionId};
use encap::{Ends, Plan, wrap};
use std::alloc::Global;
use supervision::{FAIL, NO_SUPPORT, WORKING};
use zw_base::{Bytes, List, NoMemory, Payload, Replies};

/// The status that a device keeps, as a report carries it.
pub fn status_of(status: u8) -> ReportStatus
    ensures { result ≡ report_status status }
{
    match status {
        NO_SUPPORT => ReportStatus::NoSupport,
        WORKING => ReportStatus::Working,
        FAIL => ReportStatus::Fail,
        _ => ReportStatus::Success,
    }
}

/// The id of a session.
pub fn session(id: u8) -> SessionId
    requires { id < 64 }
    ensures { result ≡ id }
{
    match SessionId::of(id) {
        Some(session) => session,
        None => unreachable!(),
    }
}

/// The end points the other way round.
fn swap(channel: Option<Ends>) -> Option<Ends>
    ensures { result ≡ swapped channel }
{
    match channel {
        Some(ends) => Some(Ends {
            source: ends.target,
            target: ends.source,
        }),
        None => None,
    }
}

/// The wraps of the answer to a message with these wraps.
fn answering(plan: &Plan) -> Plan
    ensures { result ≡ answer_plan plan.now }
{
    Plan {
        batch: false,
        session: None,
        channel: swap(plan.channel),
        outer: plan.outer,
    }
}

/// The one command that a message is.
fn only(alloc: Global, message: &InfoMessage) -> Result<List<Bytes>, NoMemory>
    ensures { IfOk result (λ commands. commands.items ≡ form message.now ∷ []) }
{
    let mut commands = List::new(alloc);
    commands.push(class_info::write(alloc, message)?)?;
    Ok(commands)
}

/// A message in the wraps of an answer.
fn word(alloc: Global, plan: &Plan, message: &InfoMessage) -> Result<Bytes, NoMemory>
    requires alone { plan.now.batch ≡ false }
    requires unsupervised { plan.now.session ≡ None }
    requires answer { IsAnswer message.now }
    ensures value { IfOk result (λ text. text ≡ worded plan.now message.now) }
    ensures short { IfOk result (λ text. IsShort text) }
{
    let commands = only(alloc, message)?;
    match wrap(alloc, plan, &commands) {
        Ok(text) => Ok(text),
        Err(_) => Err(NoMemory),
    }
}

/// A message in the wraps of the answer to a message with these wraps.
pub fn answered(
    alloc: Global,
    plan: &Plan,
    message: &InfoMessage,
) -> Result<Option<Bytes>, NoMemory>
    requires { IsAnswer message.now }
    ensures value { IfOk result (λ text. text ≡ Some (worded (answer_plan plan.now) message.now)) }
    ensures short { IfOk result (λ text. IfSome text IsShort) }
{
    Ok(Some(word(alloc, &answering(plan), message)?))
}

/// A message without wraps.
pub fn bare(alloc: Global, message: &InfoMessage) -> Result<Bytes, NoMemory>
    requires { IsAnswer message.now }
    ensures value { IfOk result (λ text. text ≡ form message.now) }
    ensures short { IfOk result (λ text. IsShort text) }
{
    Ok(class_info::write(alloc, message)?)
}

/// Puts an answer out, where there is one.
pub fn send(text: Option<Bytes>, out: &mut Replies)
    requires empty { out.old ≡ [] }
    requires short { IfSome text IsShort }
    ensures replies { out.new ≡ option_to_list text }
    ensures sizes { All IsPayload out.new }
{
    if let Some(text) = text {
        out.push(Payload::fitting(text.as_slice()));
    }
}

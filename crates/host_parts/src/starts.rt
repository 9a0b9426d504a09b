//! What goes on the air for a session of a command: its message, the segments of that, and how an attempt starts.

ghost use Rattle.std.specs.Prelude.{◌≡◌, ◌≤◌, Some, length, IfOk};
ghost use Rattle.host_node.specs.Events.{FitsPlan};
ghost use Rattle.host_orders.specs.Refusals.{IsFit};
ghost use Rattle.host_orders.specs.Wrapping.{form_of};
ghost use Rattle.host_orders.specs.declared.carriage.Form.TheVariants.{Cut};
ghost use Rattle.host_model.specs.Facts.{FitsForm};
ghost use Rattle.host_model.specs.Sessions.{message_for, segment_by, segment_of, start_by, start_of};

use crate::Command;
use host_node::Plan;
use host_orders::{Form, write_message};
use std::alloc::Global;
use transport_segments::cut;
use zw_base::{Bytes, NoMemory, Payload};

/// Nonce Get (Security 0).
const NONCE_GET: [u8; 2] = [0x98, 0x40];

/// What an attempt gives at once, what it is to give after that, and whether more of its message follows.
#[derive(Drop)]
pub struct Start {
    pub plan: Plan,
    pub payload: Payload,
    pub more: bool,
}

impl Command {
    /// How an attempt of a session of the command starts.
    pub fn start(&self, alloc: Global, session: u64) -> Result<Start, NoMemory>
        requires fit { IsFit self.now.carriage.actuator self.now.order }
        requires form { FitsForm (form_of self.now.carriage.outer)
            (message_for self.now session) }
        ensures plan { IfOk result (λ start.
            start.plan ≡ (start_of self.now session).plan) }
        ensures payload { IfOk result (λ start.
            start.payload ≡ (start_of self.now session).payload) }
        ensures more { IfOk result (λ start.
            start.more ≡ (start_of self.now session).more) }
        ensures fits { IfOk result (λ start. FitsPlan start.plan) }
        ensures some { IfOk result (λ start. 1 ≤ length start.payload) }
    {
        let message = write_message(alloc, self.carriage, &self.order, session)?;
        let start = make_start(alloc, self.carriage.form(), session, message)?;
        Ok(start)
    }

    /// A segment of the message of a session of the command, counted from 0, where the message is cut and has it.
    pub fn segment(&self, alloc: Global, session: u64, at: u16) -> Result<Option<Payload>, NoMemory>
        requires fit { IsFit self.now.carriage.actuator self.now.order }
        requires form { FitsForm (form_of self.now.carriage.outer)
            (message_for self.now session) }
        ensures { IfOk result (λ found.
            found ≡ segment_of (Some self.now) session at) }
    {
        let Form::Cut = self.carriage.form() else {
            return Ok(None);
        };
        let message = write_message(alloc, self.carriage, &self.order, session)?;
        segment_in(alloc, session, message.as_slice(), at)
    }
}

// A segment of a message that is cut, where it has it.
fn segment_in(
    alloc: Global,
    session: u64,
    message: &[u8],
    at: u16,
) -> Result<Option<Payload>, NoMemory>
    requires { FitsForm Cut message.now }
    ensures { IfOk result (λ found.
        found ≡ segment_by Cut session message.now at) }
{
    let segments = cut(alloc, (session % 16) as u8, message)?;
    match segments.as_slice().get(at as usize) {
        Some(segment) => Ok(Payload::of(segment.as_slice())),
        None => Ok(None),
    }
}

// An attempt of a message starts.
fn make_start(alloc: Global, form: Form, session: u64, message: Bytes) -> Result<Start, NoMemory>
    requires { FitsForm form message }
    ensures plan { IfOk result (λ start.
        start.plan ≡ (start_by form session message).plan) }
    ensures payload { IfOk result (λ start.
        start.payload ≡ (start_by form session message).payload) }
    ensures more { IfOk result (λ start.
        start.more ≡ (start_by form session message).more) }
    ensures fits { IfOk result (λ start. FitsPlan start.plan) }
    ensures some { IfOk result (λ start. 1 ≤ length start.payload) }
{
    match form {
        Form::Plain => Ok(Start {
            plan: Plan::Whole,
            payload: Payload::of(message.as_slice()).unwrap(),
            more: false,
        }),
        Form::Cut => start_cut(alloc, session, message.as_slice()),
        Form::Sealed => Ok(Start {
            plan: Plan::Sealed(message),
            payload: Payload::of(&NONCE_GET).unwrap(),
            more: false,
        }),
    }
}

// An attempt of a message that is cut starts.
fn start_cut(alloc: Global, session: u64, message: &[u8]) -> Result<Start, NoMemory>
    requires { FitsForm Cut message.now }
    ensures plan { IfOk result (λ start.
        start.plan ≡ (start_by Cut session message.now).plan) }
    ensures payload { IfOk result (λ start.
        start.payload ≡ (start_by Cut session message.now).payload) }
    ensures more { IfOk result (λ start.
        start.more ≡ (start_by Cut session message.now).more) }
    ensures fits { IfOk result (λ start. FitsPlan start.plan) }
    ensures some { IfOk result (λ start. 1 ≤ length start.payload) }
{
    let segments = cut(alloc, (session % 16) as u8, message)?;
    let count = segments.len();
    let first = &segments.as_slice()[0];
    Ok(Start {
        plan: Plan::Segments(count as u8),
        payload: Payload::of(first.as_slice()).unwrap(),
        more: count > 1,
    })
}

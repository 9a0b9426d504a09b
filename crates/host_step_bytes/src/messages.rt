//! Payloads of nodes, message by message.

ghost use Rattle.std.specs.Prelude.{◌≡◌, ◌≤◌, length, true, Some, OnOk, OnErr};
ghost use Rattle.encap.specs.Opening.{begins_with};
ghost use Rattle.s0_session.specs.Nonces.{live_of};
ghost use Rattle.host_heard.specs.Telling.{heard_at};
ghost use Rattle.host_model.specs.Taking.{IsTaken, AreTaken, PayloadEvents, SealedEvents, is_secure, named_by};
ghost use Rattle.host_step_bytes.specs.Calls.{seen, Does, Stops};

use crate::nonces::{take_nonce, take_nonce_get};
use crate::reports::take_report;
use crate::values::{hear_values, resend};
use host_heard::{Heard, Told, read_payload};
use host_keep::Keeper;
use host_model::{HostOut, messages_go_on};
use host_node::Node;
use host_step_kept::{HostCore, Opened};
use zw_base::{Draw, List, NoMemory, NodeId};

/// Security 0.
const SECURITY: u8 = 0x98;

/// A Security message has at least so many bytes, and names the nonce that it spends by the ninth from its end.
const LEAST_SEALED: usize = 20;

const NAMED_FROM_END: usize = 9;

/// A payload of a node.
pub(crate) fn take_payload<D: Draw, P: Keeper>(
    core: &mut HostCore,
    node: NodeId,
    payload: &[u8],
    draw: &mut D,
    out: &mut List<HostOut>,
    keeper: &mut P,
) -> Result<(), NoMemory>
    requires { length payload.now ≤ 65534 }
    ensures ok { OnOk result
        (Does (PayloadEvents core.old.state node payload.now
        (heard_at payload.now))
        (seen P.shelf core.old out.old keeper.old)
        (seen P.shelf core.new out.new keeper.new)) }
    ensures decoder { core.new.decoder ≡ core.old.decoder }
    ensures err { OnErr result (Stops
        (seen P.shelf core.old out.old keeper.old)
        (seen P.shelf core.new out.new keeper.new)) }
    ensures never_fewer { P.number keeper.old ≤ P.number keeper.new }
    ensures reads { P.reads keeper.new ≡ P.reads keeper.old }
{
    match read_payload(core.alloc(), payload)? {
        Heard::Messages(messages) => {
            take_all(
                core,
                node,
                messages.as_slice(),
                payload,
                false,
                draw,
                out,
                keeper,
            )?;
            Ok(())
        }
        Heard::Sealed => {
            take_sealed(core, node, payload, draw, out, keeper)?;
            Ok(())
        }
        Heard::Unread => {
            core.unread(node, payload, out)?;
            Ok(())
        }
    }
}

// The messages of a payload, in their order. `sealed` says that they came in a Security message that opened.
fn take_all<D: Draw, P: Keeper>(
    core: &mut HostCore,
    node: NodeId,
    messages: &[Told],
    payload: &[u8],
    sealed: bool,
    draw: &mut D,
    out: &mut List<HostOut>,
    keeper: &mut P,
) -> Result<(), NoMemory>
    ensures ok { OnOk result
        (Does (AreTaken core.old.state node payload.now sealed messages.now)
        (seen P.shelf core.old out.old keeper.old)
        (seen P.shelf core.new out.new keeper.new)) }
    ensures decoder { core.new.decoder ≡ core.old.decoder }
    ensures err { OnErr result (Stops
        (seen P.shelf core.old out.old keeper.old)
        (seen P.shelf core.new out.new keeper.new)) }
    ensures never_fewer { P.number keeper.old ≤ P.number keeper.new }
    ensures reads { P.reads keeper.new ≡ P.reads keeper.old }
{
    messages_go_on();
    for message in messages {
        take(core, node, message, payload, sealed, draw, out, keeper)?;
    }
    Ok(())
}

// One message. A plain report of a node that lists Security 0 tells nothing.
fn take<D: Draw, P: Keeper>(
    core: &mut HostCore,
    node: NodeId,
    message: &Told,
    payload: &[u8],
    sealed: bool,
    draw: &mut D,
    out: &mut List<HostOut>,
    keeper: &mut P,
) -> Result<(), NoMemory>
    ensures ok { OnOk result
        (Does (IsTaken core.old.state node payload.now sealed message.now)
        (seen P.shelf core.old out.old keeper.old)
        (seen P.shelf core.new out.new keeper.new)) }
    ensures decoder { core.new.decoder ≡ core.old.decoder }
    ensures err { OnErr result (Stops
        (seen P.shelf core.old out.old keeper.old)
        (seen P.shelf core.new out.new keeper.new)) }
    ensures never_fewer { P.number keeper.old ≤ P.number keeper.new }
    ensures reads { P.reads keeper.new ≡ P.reads keeper.old }
{
    match message {
        Told::Report {
            id,
            status,
            wake_request,
        } => {
            if !sealed && is_secure(core.node(node)) {
                core.unread(node, payload, out)?;
                return Ok(());
            }
            take_report(core, node, *id, *status, *wake_request, out, keeper)?;
            Ok(())
        }
        Told::NonceGet => {
            take_nonce_get(core, node, draw, out, keeper)?;
            Ok(())
        }
        Told::NonceReport(nonce) => {
            take_nonce(core, node, *nonce, draw, out, keeper)?;
            Ok(())
        }
        Told::Notification => {
            core.notified(node, out)?;
            Ok(())
        }
        Told::SegmentRequest { id, offset } => {
            resend(core, node, *id, *offset, out)?;
            Ok(())
        }
        Told::Values(values) => {
            hear_values(core, node, values.as_slice(), out)?;
            Ok(())
        }
    }
}

// A node lists Security 0.
fn is_secure(node: &Node) -> bool
    ensures { result ≡ is_secure node.now.classes }
{
    match node.classes() {
        Some(classes) => classes.contains(&SECURITY),
        None => false,
    }
}

// A Security message: it spends the nonce that it names, and is opened with that.
fn take_sealed<D: Draw, P: Keeper>(
    core: &mut HostCore,
    node: NodeId,
    payload: &[u8],
    draw: &mut D,
    out: &mut List<HostOut>,
    keeper: &mut P,
) -> Result<(), NoMemory>
    requires header { begins_with payload.now 152 129 ≡ true }
    requires short { length payload.now ≤ 65534 }
    ensures ok { OnOk result (Does
        (SealedEvents core.old.state node payload.now
        (named_by payload.now (live_of core.old.state.nonces node)))
        (seen P.shelf core.old out.old keeper.old)
        (seen P.shelf core.new out.new keeper.new)) }
    ensures decoder { core.new.decoder ≡ core.old.decoder }
    ensures err { OnErr result (Stops
        (seen P.shelf core.old out.old keeper.old)
        (seen P.shelf core.new out.new keeper.new)) }
    ensures never_fewer { P.number keeper.old ≤ P.number keeper.new }
    ensures reads { P.reads keeper.new ≡ P.reads keeper.old }
{
    let Some(nonce) = nonce_named(core, node, payload) else {
        core.unread(node, payload, out)?;
        return Ok(());
    };
    match host_step_kept::open(core, node, nonce, payload, out, keeper)? {
        Opened::Unkept => Ok(()),
        Opened::InVain => Ok(()),
        Opened::Opens(messages) => {
            take_all(
                core,
                node,
                messages.as_slice(),
                payload,
                true,
                draw,
                out,
                keeper,
            )?;
            Ok(())
        }
    }
}

// The live nonce of a node, where a message names it.
fn nonce_named(core: &HostCore, node: NodeId, payload: &[u8]) -> Option<[u8; 8]>
    ensures { result ≡ named_by payload.now
        (live_of core.now.state.nonces node) }
{
    let nonce = core.live(node)?;
    if payload.len() >= LEAST_SEALED && payload[payload.len() - NAMED_FROM_END] == nonce[0] {
        Some(nonce)
    } else {
        None
    }
}

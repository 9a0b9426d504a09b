//! Security messages, which are opened with the nonce that they name.

ghost use Rattle.std.specs.Prelude.{◌≡◌, ◌++◌, ◌≤◌, [], Some, true, length, IfOk, OnOk, OnErr};
ghost use Rattle.encap.specs.Opening.{begins_with};
ghost use Rattle.s0_session.specs.Nonces.{live_of};
ghost use Rattle.host_keep.specs.Keeping.{Kept, Adds};
ghost use Rattle.host_keep.specs.Rows.{IsRecord};
ghost use Rattle.host_keep.specs.RecordText.{record_text};
ghost use Rattle.host_keep.specs.declared.record.Record.TheVariants.{Spent as the_spent};
ghost use Rattle.host_model.specs.Outs.{outs};
ghost use Rattle.host_model.specs.Taking.{named_by};
ghost use Rattle.host_step.specs.Changes.{parts_after};
ghost use Rattle.host_step_kept.specs.Opening.{opening, is_kept, OpensBy, Tells};

use host_heard::{Heard, Told, read_payload};
use host_keep::{Keeper, Record};
use host_model::{HostOut, facts_are_kept};
use host_step::{HostCore, keep_record};
use s0_crypto::{SealEnds, SealFault, unseal};
use zw_base::{Bytes, List, NoMemory, NodeId, Sequence, read_node};
use zw_text::Entry;

/// The controller's own node.
const CONTROLLER: u8 = 1;

/// What became of a Security message.
#[derive(Drop)]
pub enum Opened {
    /// The nonce that it names was not spent, since that was not kept.
    Unkept,
    /// The nonce is spent. It does not open, or to what cannot be read.
    InVain,
    /// The nonce is spent. It opens to what tells these messages.
    Opens(Sequence<Told>),
}

/// A Security message of a node, which names its live nonce, spends that, once that is kept, and is opened with it.
pub fn open<P: Keeper>(
    core: &mut HostCore,
    node: NodeId,
    nonce: [u8; 8],
    payload: &[u8],
    out: &mut List<HostOut>,
    keeper: &mut P,
) -> Result<Opened, NoMemory>
    requires header { begins_with payload.now 152 129 ≡ true }
    requires named { named_by payload.now
        (live_of core.old.state.nonces node) ≡ Some nonce }
    requires short { length payload.now ≤ 65534 }
    ensures opens { IfOk result (λ opened.
        OpensBy core.old.state node nonce payload.now opened) }
    ensures kept { IfOk result (λ opened.
        Kept (is_kept opened) (record_text (the_spent node))
        (P.shelf keeper.old) (P.shelf keeper.new)) }
    ensures in_range { OnOk result (IsRecord (the_spent node)) }
    ensures state { IfOk result (λ opened.
        core.new ≡ parts_after core.old (opening node payload.now opened)) }
    ensures outs { IfOk result (λ opened.
        out.new.items ≡ out.old.items ++
        outs core.old.state (opening node payload.now opened)) }
    ensures err { OnErr result ((core.new ≡ core.old)
        × (out.new.items ≡ out.old.items)) }
    ensures no_record { OnErr result
        (Adds [] (P.shelf keeper.old) (P.shelf keeper.new)) }
    ensures never_falls { (P.shelf keeper.old).faults ≤ (P.shelf keeper.new).faults }
    ensures never_fewer { P.number keeper.old ≤ P.number keeper.new }
    ensures reads { P.reads keeper.new ≡ P.reads keeper.old }
{
    facts_are_kept();
    core.invariant_holds();
    let told = read_sealed(core, node, nonce, payload)?;
    let copy = Bytes::from_slice(core.alloc(), payload)?;
    out.reserve(1)?;
    if !keep_record(core.alloc(), &Record::Spent { node }, keeper)? {
        out.put(HostOut::Note(Entry::Unkept { node }));
        return Ok(Opened::Unkept);
    }
    core.spend(node);
    match told {
        Some(messages) => Ok(Opened::Opens(messages)),
        None => {
            out.put(HostOut::Note(Entry::Unread {
                node,
                payload: copy,
            }));
            Ok(Opened::InVain)
        }
    }
}

// What a Security message tells that was sealed under this nonce, where it opens and can be read.
fn read_sealed(
    core: &HostCore,
    node: NodeId,
    nonce: [u8; 8],
    payload: &[u8],
) -> Result<Option<Sequence<Told>>, NoMemory>
    requires header { begins_with payload.now 152 129 ≡ true }
    requires named { named_by payload.now (Some nonce) ≡ Some nonce }
    requires short { length payload.now ≤ 65534 }
    ensures { IfOk result (Tells core.now.state node nonce payload.now) }
{
    let ends = SealEnds {
        sender: node,
        receiver: read_node(CONTROLLER).unwrap(),
    };
    let plain = match unseal(core.alloc(), core.keys(), nonce, &ends, payload) {
        Ok(plain) => plain,
        Err(SealFault::NoMemory) => return Err(NoMemory),
        Err(SealFault::Short) => return Ok(None),
        Err(SealFault::BadCode { .. }) => return Ok(None),
        Err(SealFault::Sequence(_)) => return Ok(None),
    };
    match read_payload(core.alloc(), plain.as_slice())? {
        Heard::Messages(messages) => Ok(Some(messages)),
        Heard::Sealed | Heard::Unread => Ok(None),
    }
}

//! Messages taken out of their wraps.

ghost use Rattle.std.specs.Prelude.{◌≡◌, ℕ, ◌≤◌, [], ◌∷◌, List as Items, true, length, IfOk, IfErr};
ghost use Rattle.encap.specs.Begins.{IsMultiCommand};
ghost use Rattle.encap.specs.Wraps.{Wraps, IsBatchOf, IsCommand, AllCommands, has_outer_wrap};
ghost use Rattle.encap.specs.Layers.{Peels, outer_of, seen_of};
ghost use Rattle.encap.specs.Opening.{opened_at, OpensAs};
ghost use Rattle.encap.specs.declared.plan.Plan.{Plan};
ghost use Rattle.encap.specs.Faults.{IsOuterFault, MayAnswer, MayAnswerAlone, MayAnswerBatch, MayAnswerInner};

use crate::WrapFault;
use crate::batch::{check_batch, check_command, check_commands, collect};
use crate::begins::{MULTI_COMMAND, begins};
use crate::layers::{channel_off, crc16_off, supervision_off};
use crate::plan::{Ends, Opened, Outer, Plan, Supervised};
use std::alloc::Global;
use zw_base::{Bytes, List};

/// The bytes before the first length of a batch.
const BATCH_HEADER_LEN: usize = 3;

/// The plan and the commands of these bytes, at most 65,534; else the first fault from the outside in.
pub fn unpack(alloc: Global, bytes: &[u8]) -> Result<Opened, WrapFault>
    requires { length bytes.now ≤ 65534 }
    ensures wraps { IfOk result (λ opened. Wraps opened.plan opened.commands.items bytes.now) }
    // where a plan relates the bytes, that plan and its commands are given, unless there is no memory
    ensures only { (plan : Plan) (commands : Items (Items ℕ)) → Wraps plan commands bytes.now
        → IfOk result (λ opened. (opened.plan ≡ seen_of plan) × (opened.commands.items ≡ commands)) }
    ensures always { (plan : Plan) (commands : Items (Items ℕ)) → Wraps plan commands bytes.now
        → IfErr result (λ fault. fault ≡ WrapFault.NoMemory) }
    ensures fault { IfErr result (λ fault. MayAnswer bytes.now fault) }
    // the same as a function of the bytes
    ensures exact { OpensAs result (opened_at bytes.now) }
{
    take_apart(alloc, bytes)
}

/// The same, from the outside in.
fn take_apart(alloc: Global, bytes: &[u8]) -> Result<Opened, WrapFault>
    requires { length bytes.now ≤ 65534 }
    ensures wraps { IfOk result (λ opened. Wraps opened.plan opened.commands.items bytes.now) }
    ensures seen { IfOk result (λ opened. opened.plan ≡ seen_of opened.plan) }
    ensures fault { IfErr result (λ fault. MayAnswer bytes.now fault) }
{
    let core = match peel(bytes) {
        Ok(core) => core,
        Err(fault) => return Err(fault),
    };
    let commands = open_inner(alloc, core.inner, has_wrap(&core))?;
    let plan = Plan {
        batch: begins(core.inner, MULTI_COMMAND),
        session: core.session,
        channel: core.channel,
        outer: outer(core.crc16),
    };
    Ok(Opened { plan, commands })
}

/// What is inside the three outer wraps.
#[derive(Clone, Copy)]
struct Core<'a> {
    crc16: bool,
    channel: Option<Ends>,
    session: Option<Supervised>,
    inner: &'a [u8],
}

/// Takes the three outer wraps off.
fn peel(bytes: &[u8]) -> Result<Core<'_>, WrapFault>
    requires { length bytes.now ≤ 65534 }
    ensures core { IfOk result (λ core. Peels core.crc16 core.channel core.session core.inner.now bytes.now) }
    ensures len { IfOk result (λ core. length core.inner.now ≤ length bytes.now) }
    ensures fault { IfErr result (λ fault. IsOuterFault bytes.now fault) }
{
    let checked = crc16_off(bytes)?;
    let addressed = match channel_off(checked.inner) {
        Ok(addressed) => addressed,
        Err(fault) => return Err(fault),
    };
    let supervised = supervision_off(addressed.inner)?;
    Ok(Core {
        crc16: checked.wrap,
        channel: addressed.wrap,
        session: supervised.wrap,
        inner: supervised.inner,
    })
}

/// The commands inside the outer wraps.
fn open_inner(alloc: Global, inner: &[u8], within: bool) -> Result<List<Bytes>, WrapFault>
    requires { length inner.now ≤ 65534 }
    ensures batch { IfOk result (λ commands. IsMultiCommand inner.now → IsBatchOf commands.items inner.now × AllCommands true commands.items) }
    ensures alone { IfOk result (λ commands. (¬ IsMultiCommand inner.now) → (commands.items ≡ inner.now ∷ []) × IsCommand within inner.now) }
    ensures fault { IfErr result (λ fault. MayAnswerInner within inner.now fault) }
{
    if begins(inner, MULTI_COMMAND) {
        open_batch(alloc, inner)
    } else {
        open_alone(alloc, inner, within)
    }
}

/// The commands of a batch.
fn open_batch(alloc: Global, inner: &[u8]) -> Result<List<Bytes>, WrapFault>
    requires head { IsMultiCommand inner.now }
    requires len { length inner.now ≤ 65534 }
    ensures batch { IfOk result (λ commands. IsBatchOf commands.items inner.now × AllCommands true commands.items) }
    ensures fault { IfErr result (λ fault. MayAnswerBatch inner.now fault) }
{
    check_batch(inner)?;
    let listed = &inner[BATCH_HEADER_LEN..];
    check_commands(listed)?;
    Ok(collect(alloc, listed)?)
}

/// The command that stands alone.
fn open_alone(alloc: Global, inner: &[u8], within: bool) -> Result<List<Bytes>, WrapFault>
    ensures alone { IfOk result (λ commands. (commands.items ≡ inner.now ∷ []) × IsCommand within inner.now) }
    ensures fault { IfErr result (λ fault. MayAnswerAlone within inner.now fault) }
{
    check_command(inner, within)?;
    let mut commands = List::new(alloc);
    commands.push(Bytes::from_slice(alloc, inner)?)?;
    Ok(commands)
}

/// The outermost wrap.
fn outer(crc16: bool) -> Outer
    ensures { result ≡ outer_of crc16 }
{
    if crc16 { Outer::Crc16 } else { Outer::None }
}

/// Whether one of the outer wraps is there.
fn has_wrap(core: &Core<'_>) -> bool
    ensures { result ≡ has_outer_wrap core.now.crc16 core.now.channel core.now.session }
{
    core.crc16 || core.channel.is_some() || core.session.is_some()
}

//! What the host does of itself: it lets nodes sleep, and submits the next request while none is under way.

ghost use Rattle.std.specs.Prelude.{◌≡◌, ◌≤◌, ◌<◌, true, None, IfOk, OnOk, OnErr};
ghost use Rattle.host_node.specs.declared.series.Series.TheVariants.{Idle, Due, Running};
ghost use Rattle.host_model.specs.State.{node_of};
ghost use Rattle.host_model.specs.May.{IsServed};
ghost use Rattle.host_model.specs.Pumping.{Pumps, Submits, IsServedBy, GivesNext, turns_left};
ghost use Rattle.host_step_bytes.specs.Calls.{seen, Does, Stops, DoesAlone, StopsAlone, One, Turns};

use crate::sleeping::let_sleep;
use host_keep::Keeper;
use host_model::{HostOut, a_pump_ends, attempts_have_what_they_give, turns_of_a_pump_go_on};
use host_node::Series;
use host_step_kept::HostCore;
use zw_base::{List, NoMemory, NodeId, Payload};

/// Lets sleep what nothing keeps awake, and submits the next request.
pub(crate) fn pump<P: Keeper>(
    core: &mut HostCore,
    out: &mut List<HostOut>,
    keeper: &mut P,
) -> Result<(), NoMemory>
    ensures ok { OnOk result (Does (Pumps core.old.state)
        (seen P.shelf core.old out.old keeper.old)
        (seen P.shelf core.new out.new keeper.new)) }
    ensures decoder { core.new.decoder ≡ core.old.decoder }
    ensures err { OnErr result (Stops
        (seen P.shelf core.old out.old keeper.old)
        (seen P.shelf core.new out.new keeper.new)) }
    ensures never_fewer { P.number keeper.old ≤ P.number keeper.new }
    ensures reads { P.reads keeper.new ≡ P.reads keeper.old }
{
    let_sleep(core, out)?;
    submit(core, out, keeper)?;
    Ok(())
}

// The next requests are submitted, until one is under way, the line is busy, or there is nothing to submit.
fn submit<P: Keeper>(
    core: &mut HostCore,
    out: &mut List<HostOut>,
    keeper: &mut P,
) -> Result<(), NoMemory>
    ensures ok { OnOk result (Does (Submits core.old.state)
        (seen P.shelf core.old out.old keeper.old)
        (seen P.shelf core.new out.new keeper.new)) }
    ensures decoder { core.new.decoder ≡ core.old.decoder }
    ensures err { OnErr result (Stops
        (seen P.shelf core.old out.old keeper.old)
        (seen P.shelf core.new out.new keeper.new)) }
    ensures never_fewer { P.number keeper.old ≤ P.number keeper.new }
    ensures reads { P.reads keeper.new ≡ P.reads keeper.old }
{
    turns_of_a_pump_go_on();
    while submit_next(core, out, keeper)? {}
    Ok(())
}

// The next request by the rules of choosing. False where none can be submitted.
fn submit_next<P: Keeper>(
    core: &mut HostCore,
    out: &mut List<HostOut>,
    keeper: &mut P,
) -> Result<bool, NoMemory>
    ensures turns { IfOk result (λ submitted. Turns submitted
        (seen P.shelf core.old out.old keeper.old)
        (seen P.shelf core.new out.new keeper.new)) }
    ensures fewer { IfOk result (λ submitted. submitted ≡ true →
        turns_left core.new.state < turns_left core.old.state) }
    ensures decoder { core.new.decoder ≡ core.old.decoder }
    ensures err { OnErr result (Stops
        (seen P.shelf core.old out.old keeper.old)
        (seen P.shelf core.new out.new keeper.new)) }
    ensures never_fewer { P.number keeper.old ≤ P.number keeper.new }
    ensures reads { P.reads keeper.new ≡ P.reads keeper.old }
{
    a_pump_ends();
    core.invariant_holds();
    if !core.requests().is_idle() || core.is_busy() {
        return Ok(false);
    }
    if core.requests().owes_abort() {
        core.submit_abort(out)?;
        return Ok(true);
    }
    if !core.requests().is_empty() {
        core.submit_front(out)?;
        return Ok(true);
    }
    match core.next_with_work() {
        Some(node) => {
            serve(core, node, out, keeper)?;
            Ok(true)
        }
        None => Ok(false),
    }
}

// A node with work gives what its attempt still has, starts the attempt that is due, or begins a session.
fn serve<P: Keeper>(
    core: &mut HostCore,
    node: NodeId,
    out: &mut List<HostOut>,
    keeper: &mut P,
) -> Result<(), NoMemory>
    requires { IsServed core.old.state node }
    ensures ok { OnOk result
        (Does (One (IsServedBy core.old.state node
        (node_of core.old.state node).series))
        (seen P.shelf core.old out.old keeper.old)
        (seen P.shelf core.new out.new keeper.new)) }
    ensures decoder { core.new.decoder ≡ core.old.decoder }
    ensures err { OnErr result (Stops
        (seen P.shelf core.old out.old keeper.old)
        (seen P.shelf core.new out.new keeper.new)) }
    ensures never_fewer { P.number keeper.old ≤ P.number keeper.new }
    ensures reads { P.reads keeper.new ≡ P.reads keeper.old }
{
    match core.node(node).series() {
        Series::Running => {
            go_on(core, node, out)?;
            Ok(())
        }
        Series::Due => {
            start(core, node, out)?;
            Ok(())
        }
        Series::Idle => {
            begin(core, node, out, keeper)?;
            Ok(())
        }
    }
}

// The sealed text of the running attempt, or its next segment.
fn go_on(core: &mut HostCore, node: NodeId, out: &mut List<HostOut>) -> Result<(), NoMemory>
    requires served { IsServed core.old.state node }
    requires running { (node_of core.old.state node).series ≡ Running }
    ensures ok { OnOk result (DoesAlone
        (One (GivesNext core.old.state node (node_of core.old.state node).text))
        core.old.state out.old.items core.new.state out.new.items) }
    ensures decoder { core.new.decoder ≡ core.old.decoder }
    ensures err { OnErr result
        (StopsAlone core.old.state out.old.items core.new.state out.new.items) }
{
    attempts_have_what_they_give();
    match core.node(node).text() {
        Some(text) => {
            let payload = Payload::of(text).unwrap();
            core.give_text(node, payload, out)?;
            Ok(())
        }
        None => {
            give_segment(core, node, out)?;
            Ok(())
        }
    }
}

// The next segment of the running attempt.
fn give_segment(core: &mut HostCore, node: NodeId, out: &mut List<HostOut>) -> Result<(), NoMemory>
    requires served { IsServed core.old.state node }
    requires running { (node_of core.old.state node).series ≡ Running }
    requires text { (node_of core.old.state node).text ≡ None }
    ensures ok { OnOk result
        (DoesAlone (One (GivesNext core.old.state node None))
        core.old.state out.old.items core.new.state out.new.items) }
    ensures decoder { core.new.decoder ≡ core.old.decoder }
    ensures err { OnErr result
        (StopsAlone core.old.state out.old.items core.new.state out.new.items) }
{
    attempts_have_what_they_give();
    a_pump_ends();
    let state = core.node(node);
    let session = state.current().unwrap();
    let at = state.next_segment();
    let more = u16::from(at) + 1 < u16::from(state.segments());
    let payload = core.segment(node, session, u16::from(at))?.unwrap();
    core.give_segment(node, more, payload, out)?;
    Ok(())
}

// The attempt that is due.
fn start(core: &mut HostCore, node: NodeId, out: &mut List<HostOut>) -> Result<(), NoMemory>
    requires served { IsServed core.old.state node }
    requires due { (node_of core.old.state node).series ≡ Due }
    ensures ok { OnOk result
        (DoesAlone (One (IsServedBy core.old.state node Due))
        core.old.state out.old.items core.new.state out.new.items) }
    ensures decoder { core.new.decoder ≡ core.old.decoder }
    ensures err { OnErr result
        (StopsAlone core.old.state out.old.items core.new.state out.new.items) }
{
    attempts_have_what_they_give();
    a_pump_ends();
    core.invariant_holds();
    let start = core.start_of(node)?.unwrap();
    core.start(node, start, out)?;
    Ok(())
}

// A session for the command that waited longest.
fn begin<P: Keeper>(
    core: &mut HostCore,
    node: NodeId,
    out: &mut List<HostOut>,
    keeper: &mut P,
) -> Result<(), NoMemory>
    requires served { IsServed core.old.state node }
    requires idle { (node_of core.old.state node).series ≡ Idle }
    ensures ok { OnOk result
        (Does (One (IsServedBy core.old.state node Idle))
        (seen P.shelf core.old out.old keeper.old)
        (seen P.shelf core.new out.new keeper.new)) }
    ensures decoder { core.new.decoder ≡ core.old.decoder }
    ensures err { OnErr result (Stops
        (seen P.shelf core.old out.old keeper.old)
        (seen P.shelf core.new out.new keeper.new)) }
    ensures never_fewer { P.number keeper.old ≤ P.number keeper.new }
    ensures reads { P.reads keeper.new ≡ P.reads keeper.old }
{
    a_pump_ends();
    let state = core.node(node);
    let command = state.oldest().unwrap();
    let before = state.sessions();
    if before == u64::MAX {
        return Err(NoMemory);
    }
    let _ = host_step_kept::begin(core, node, before + 1, command, out, keeper)?;
    Ok(())
}

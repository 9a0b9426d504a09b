//! A sealed exchange goes on where the lock hears what is on its way to it, and where the host gives what is next.

ghost use Rattle.std.specs.Prelude.{◌≡◌, ◌≤◌, ℕ, List, None, []};
ghost use Rattle.class_info.specs.InfoSpelling.{form};
ghost use Rattle.class_info.specs.declared.message.InfoMessage.TheVariants.{NonceGet};
ghost use Rattle.supervision.specs.Host.{begun_of};
ghost use Rattle.device_sim.specs.State.{State};
ghost use Rattle.host_node.specs.State.{NodeState};
ghost use Rattle.host_model.specs.Did.{after_all};
ghost use Rattle.host_model.specs.Events.{HostEvent};
ghost use Rattle.host_model.specs.State.{HostState, node_of};
ghost use Rattle.world_model.specs.Events.{Event, happens};
ghost use Rattle.world_model.specs.State.{Machine};
ghost use Rattle.proof_messages.specs.Locks.{IsLock};
ghost use Rattle.proof_answered.specs.proof_calm.proof_work.proof_walk.Phases.{Phase, Submitting};
ghost use Rattle.proof_in_time.specs.Exchange.{
  Exchange,
  HearsOut,
  IsElse,
  IsForLive,
  IsThere,
  IsUnheardAt,
  NoneGo,
  OffersLive,
  ReportWaits,
  SameLock,
  ShowsLive,
  TextWaits,
};
ghost use Rattle.proof_in_time.specs.Locks.{LockInStep};
ghost use Rattle.proof_in_time.specs.Owed.{IsOwed};
ghost use Rattle.proof_in_time.specs.SealedHosts.{HasOffer, HasSubmitted, SealsForLive};

use crate::sealed::locks_are_asked;
use proof_messages::locks_hear_by_numbers;

/// Where a lock in step hears a Nonce Get, the sealed message of the last session of the host, or the live nonce of the host, it says what is next in the
/// exchange, and one tick more is over.
pub fn locks_go_on_in_exchanges()
    ensures gets { (n session left : ℕ) (next : Phase) (m : Machine) (event : Event) → LockInStep n m →
        HearsOut n (λ payload. payload ≡ form NonceGet) next m event → IsElse n m.host.state → TextWaits n session m.host.state → 5 ≤ left →
        Exchange n session left next (happens m event) }
    ensures texts { (n session left : ℕ) (next : Phase) (m : Machine) (event : Event) → LockInStep n m →
        session ≡ begun_of (node_of m.host.state n).book → 1 ≤ session →
        HearsOut n (λ payload. (at : IsThere n m.outside.devices) → IsForLive session at.device payload) next m event → IsElse n m.host.state → 3 ≤ left →
        Exchange n session left next (happens m event) }
    ensures nonces { (n session left : ℕ) (next : Phase) (m : Machine) (event : Event) → LockInStep n m →
        (hears : HearsOut n (OffersLive n m.host.state) next m event) → IsElse n m.host.state → ReportWaits session hears.at.device → 1 ≤ left →
        Exchange n session left next (happens m event) }
{
    locks_are_asked();
}

/// Where the host has submitted what is next, or has what it is to give next in this tick, the exchange is at that place.
pub fn hosts_go_on_in_exchanges()
    ensures gets { (n session left passes ticks : ℕ) (now : NodeState) (old : HostState) (m : Machine) →
        HasSubmitted n (λ payload. payload ≡ form NonceGet) now old passes ticks m → NoneGo n m → TextWaits n session m.host.state → 6 ≤ left →
        Exchange n session left (Submitting passes ticks) m }
    ensures sealed { (n session left : ℕ) (here : Phase) (device : State) (old : HostState) (events : List HostEvent) (m : Machine) →
        SealsForLive n session device old events → m.host.state ≡ after_all old events → old.requests.queue ≡ [] → NoneGo n m →
        (at : IsThere n m.outside.devices) →
        at.device ≡ device → IsOwed here m → 4 ≤ left → Exchange n session left here m }
    ensures texts { (n session left passes ticks : ℕ) (device : State) (now : NodeState) (old : HostState) (m : Machine) →
        HasSubmitted n (IsForLive session device) now old passes ticks m → NoneGo n m → (at : IsThere n m.outside.devices) → at.device ≡ device → 4 ≤ left →
        Exchange n session left (Submitting passes ticks) m }
    ensures waits { (n session left : ℕ) (here : Phase) (old new : HostState) (m : Machine) → HasOffer n old new → m.host.state ≡ new →
        (node_of m.host.state n).text ≡ None → NoneGo n m → (at : IsThere n m.outside.devices) → ReportWaits session at.device → IsOwed here m → 2 ≤ left →
        Exchange n session left here m }
    ensures nonces { (n session left passes ticks : ℕ) (now : NodeState) (old : HostState) (m : Machine) →
        HasSubmitted n (OffersLive n old) now old passes ticks m → NoneGo n m → (at : IsThere n m.outside.devices) → ReportWaits session at.device → 2 ≤ left →
        Exchange n session left (Submitting passes ticks) m }
{}
/// A lock in step is as it was after an event at which no frame of the host for it arrives, and none is heard again (`same`). So what shows its live nonce
/// does so still, as what is sealed for that is, and the report that waits for a nonce of the host waits still.
pub fn locks_stay_as_they_were()
    ensures same { (n : ℕ) (m : Machine) (event : Event) → LockInStep n m → IsUnheardAt n m event → (at : IsThere n m.outside.devices)
        (later : IsThere n (happens m event).outside.devices) → SameLock at.device later.device }
    ensures shows { (old new : State) (payload : List ℕ) → SameLock old new → ShowsLive old payload → ShowsLive new payload }
    ensures seals { (session : ℕ) (old new : State) (payload : List ℕ) → SameLock old new → IsForLive session old payload → IsForLive session new payload }
    ensures waits { (session : ℕ) (old new : State) → IsLock old → SameLock old new → 1 ≤ session → ReportWaits session old → ReportWaits session new }
{
    locks_hear_by_numbers();
}

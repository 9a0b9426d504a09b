//! What the host does of the sealed exchange with a lock, one event after another.

ghost use Rattle.std.specs.Prelude.{◌≡◌, ◌⊎◌, ◌∷◌, ◌<◌, ◌≤◌, List, None, Option, Some, [], false, length, ℕ};
ghost use Rattle.class_info.specs.InfoSpelling.{form};
ghost use Rattle.class_info.specs.declared.message.InfoMessage.TheVariants.{NonceGet};
ghost use Rattle.supervision.specs.Host.{open_session};
ghost use Rattle.s0_session.specs.Nonces.{live_of};
ghost use Rattle.s0_crypto.specs.Sealing.{keys_of};
ghost use Rattle.device_sim.specs.State.{State};
ghost use Rattle.host_heard.specs.Telling.{heard_at};
ghost use Rattle.host_requests.specs.declared.task.Task.TheVariants.{Offer};
ghost use Rattle.host_node.specs.Search.{next_of};
ghost use Rattle.host_node.specs.State.{has_segment};
ghost use Rattle.host_node.specs.Steps.{after_start, after_text};
ghost use Rattle.host_node.specs.declared.attempt.Plan.{Plan};
ghost use Rattle.host_node.specs.declared.series.Series.TheVariants.{Running};
ghost use Rattle.host_model.specs.Did.{MayAll, after_all};
ghost use Rattle.host_model.specs.Events.{Gives_text, HostEvent, Is_unkept, Starts, Submits_front};
ghost use Rattle.host_model.specs.Facts.{HostFacts};
ghost use Rattle.host_model.specs.May.{IsStart};
ghost use Rattle.host_model.specs.Pumping.{HasNothing, IsNext};
ghost use Rattle.host_model.specs.State.{HostState, node_of};
ghost use Rattle.host_model.specs.Taking.{PayloadEvents};
ghost use Rattle.std.specs.Prelude.{Bool};
ghost use Rattle.world_model.specs.Events.{Host_does, happens};
ghost use Rattle.world_model.specs.State.{Machine};
ghost use Rattle.proof_answered.specs.proof_calm.proof_work.proof_walk.Phases.{Submitting};
ghost use Rattle.proof_in_time.specs.Exchange.{Exchange, IsCounted, IsElse, IsForLive, OffersLive, ShowsLive, TextWaits};
ghost use Rattle.proof_in_time.specs.Reporting.{EndsSealed, IsOver};
ghost use Rattle.proof_in_time.specs.SealedHosts.{
  GoesSealed,
  HasOffer,
  HasSubmitted,
  IsLost,
  SealsForLive,
};

use proof_answered::frames_fly_in_order;
use proof_course_sealed::exchanges_go_on;

/// An attempt of a lock begins with a Nonce Get, and its message waits for a nonce. The host takes the live nonce of the lock, seals the message for it, and
/// gives the text as the node is served next; to a Nonce Get its own live nonce waits to be given, and goes as the next request; and a sealed report of the
/// end ends the session. As long as a text or a nonce waits there is something to submit.
pub fn hosts_exchange_nonces()
    ensures starts { (n : ℕ) (passes ticks : ℕ) (m : Machine) (plan : Plan) (more : Bool) (payload : List ℕ) → n < length m.host.state.nodes →
        (is : IsStart m.host.state n plan more payload) → GoesSealed is.command.order is.command.carriage → m.host.state.requests.queue ≡ [] →
        (node_of m.host.state n).text ≡ None → HasSubmitted n (λ given. given ≡ form NonceGet) (after_start (node_of m.host.state n) plan)
        m.host.state passes ticks (happens m (Host_does (Starts n plan more payload))) ×
        TextWaits n is.session (happens m (Host_does (Starts n plan more payload))).host.state }
    ensures takes { (n session : ℕ) (h : HostState) (device : State) (payload : List ℕ) (events : List HostEvent) → HostFacts h → 1 ≤ n → n ≤ 232 →
        h.keys ≡ keys_of device.key → device.node ≡ n → TextWaits n session h → (shows : ShowsLive device payload) → IsCounted n h shows.nonce →
        PayloadEvents h n payload (heard_at payload) events → MayAll h events → (events ≡ Is_unkept n ∷ []) ⊎ SealsForLive n session device h events }
    ensures gives { (n session : ℕ) (passes ticks : ℕ) (m : Machine) (device : State) (event : HostEvent) (payload : List ℕ) →
        n < length m.host.state.nodes → ((k : ℕ) → next_of m.host.state.nodes m.host.state.served ≡ Some k → k ≡ n) →
        (node_of m.host.state n).series ≡ Running → m.host.state.requests.owes ≡ false → m.host.state.requests.queue ≡ [] →
        (node_of m.host.state n).text ≡ Some payload → IsForLive session device payload → IsNext m.host.state event → (event ≡ Gives_text n payload) ×
        HasSubmitted n (IsForLive session device) (after_text (node_of m.host.state n)) m.host.state passes ticks (happens m (Host_does event)) }
    ensures asked { (h : HostState) (n : ℕ) (payload : List ℕ) (events : List HostEvent) → HostFacts h → n ≤ 232 → h.requests.queue ≡ [] →
        payload ≡ form NonceGet → PayloadEvents h n payload (heard_at payload) events → MayAll h events →
        (events ≡ Is_unkept n ∷ []) ⊎ HasOffer n h (after_all h events) }
    ensures offers { (n : ℕ) (passes ticks : ℕ) (m : Machine) (event : HostEvent) (nonce : List ℕ) →
        m.host.state.requests.owes ≡ false → m.host.state.requests.queue ≡ Offer n nonce ∷ [] → (node_of m.host.state n).text ≡ None →
        live_of m.host.state.nonces n ≡ Some nonce → IsNext m.host.state event → (event ≡ Submits_front) ×
        HasSubmitted n (OffersLive n m.host.state) (node_of m.host.state n) m.host.state passes ticks (happens m (Host_does event)) }
    ensures ends { (h : HostState) (n session : ℕ) (events : List HostEvent) → n < length h.nodes → open_session (node_of h n).book ≡ Some session →
        EndsSealed n session events → IsLost n events ⊎ IsOver (node_of (after_all h events) n) }
    ensures owes { (h : HostState) (n : ℕ) → 1 ≤ n → n ≤ 232 → (node_of h n).series ≡ Running → HasNothing h →
        (h.requests.queue ≡ []) × ((node_of h n).text ≡ None) }
{
    exchanges_go_on();
}

/// As the host submits something for a lock alone in a sealed exchange, that is the text or the nonce that waited, which is on its way then; at all other
/// places of the exchange nothing is submitted.
pub fn exchanges_are_submitted()
    ensures { (n session left passes ticks : ℕ) (m : Machine) (event : HostEvent) → n < length m.host.state.nodes →
        ((k : ℕ) → next_of m.host.state.nodes m.host.state.served ≡ Some k → k ≡ n) → (node_of m.host.state n).series ≡ Running →
        has_segment (node_of m.host.state n) ≡ false → m.host.state.requests.owes ≡ false → IsNext m.host.state event →
        Exchange n session left (Submitting passes ticks) m → Exchange n session left (Submitting passes ticks) (happens m (Host_does event)) }
{
    frames_fly_in_order();
}

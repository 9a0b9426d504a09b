//! Reports that come to the host.

ghost use Rattle.std.specs.Prelude.{◌≡◌, ◌≢◌, List, [], ◌∷◌, length, ℕ, ◌<◌};
ghost use Rattle.supervision.specs.Session.{wire_id};
ghost use Rattle.supervision.specs.declared.session.TheConstants.{WORKING};
ghost use Rattle.host_heard.specs.Telling.{heard_at};
ghost use Rattle.host_keep.specs.declared.final_status.FinalStatus.{FinalStatus};
ghost use Rattle.host_node.specs.Steps.{after_sign};
ghost use Rattle.host_model.specs.After.{after};
ghost use Rattle.host_model.specs.Events.{Finishes, HostEvent, Works};
ghost use Rattle.host_model.specs.State.{HostState, node_of};
ghost use Rattle.host_model.specs.Taking.{PayloadEvents};
ghost use Rattle.std.specs.Prelude.{Bool};
ghost use Rattle.proof_in_time.specs.Reporting.{AwaitsReport, EndsSession, IsOver, TellsStatus};

/// Where a session of a node is open whose plain reports are taken, a report of it ends the session, if that is kept, unless it tells of work. Then nothing is
/// left of the series; at a report of work the wait of the attempt begins anew.
pub fn reports_are_taken()
    ensures works { (h : HostState) (n session : ℕ) (payload : List ℕ) (events : List HostEvent) → AwaitsReport n session h →
        TellsStatus session WORKING payload → PayloadEvents h n payload (heard_at payload) events → events ≡ Works n (wire_id session) ∷ [] }
    ensures ends { (h : HostState) (n session status : ℕ) (payload : List ℕ) (events : List HostEvent) → AwaitsReport n session h → status ≢ WORKING →
        TellsStatus session status payload → PayloadEvents h n payload (heard_at payload) events → EndsSession n session events }
    ensures waits { (h : HostState) (n session : ℕ) → n < length h.nodes → AwaitsReport n session h →
        node_of (after h (Works n (wire_id session))) n ≡ after_sign (node_of h n) }
    ensures over { (h : HostState) (n session command : ℕ) (status : FinalStatus) (wakes : Bool) → n < length h.nodes → AwaitsReport n session h →
        IsOver (node_of (after h (Finishes n session (wire_id session) command status wakes)) n) }
{}

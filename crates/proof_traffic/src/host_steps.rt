//! What a host does is steps of the course of its requests.

ghost use Rattle.std.specs.Prelude.{◌≡◌, List, []};
ghost use Rattle.s0_crypto.specs.declared.key_pair.Keys.{Keys};
ghost use Rattle.serial_frame.specs.declared.item.Item.{Item};
ghost use Rattle.proof_serial.specs.host_model.State.{HostState, first_host};
ghost use Rattle.proof_serial.specs.host_model.Events.{HostEvent};
ghost use Rattle.proof_serial.specs.host_model.Pumping.{Pumps};
ghost use Rattle.proof_serial.specs.host_model.Taking.{AreJudged};
ghost use Rattle.proof_serial.specs.host_model.Ticking.{tick_events};
ghost use Rattle.proof_traffic.specs.Requests.{Traffic, no_traffic};
ghost use Rattle.proof_traffic.specs.HostTraffic.{Knows, Goes};

/// A pump is steps of the course; so are items that are judged while nothing of the host's own is on its way to the chip, and a tick while the chip
/// owes no call. A host at its beginning is known to a course at its beginning.
pub fn hosts_make_requests()
    ensures first { (keys : Keys) → Knows no_traffic (first_host keys) }
    ensures pump { (t : Traffic) (h : HostState) (events : List HostEvent) → Knows t h → Pumps h events → Goes t h events }
    ensures items { (t : Traffic) (h : HostState) (items : List Item) (events : List HostEvent) → Knows t h → AreJudged h items events →
        t.up ≡ [] → Goes t h events }
    ensures tick { (t : Traffic) (h : HostState) → Knows t h → t.calls ≡ [] → Goes t h (tick_events h) }
{
    host_requests::callback_ids();
}

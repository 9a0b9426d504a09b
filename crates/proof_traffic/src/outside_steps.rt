//! What is outside the host makes steps of the course of its requests.

ghost use Rattle.std.specs.Prelude.{◌≡◌, ◌++◌, ℕ, List, [], Option, map};
ghost use Rattle.serial_frame.specs.declared.item.Item.{Item};
ghost use Rattle.serial_frame.specs.Stream.{Rest};
ghost use Rattle.route_table.specs.declared.route.Route.{Route as TheRoute};
ghost use Rattle.air_frames.specs.Flown.{Flown};
ghost use Rattle.air_frames.specs.History.{Mark};
ghost use Rattle.proof_traffic.specs.Requests.{Word, Traffic, no_traffic};
ghost use Rattle.proof_device.specs.outside_model.State.{OuterState, Outside, first_outer};
ghost use Rattle.proof_device.specs.outside_model.Chip.{chip_takes};
ghost use Rattle.proof_device.specs.outside_model.Events.{OuterEvent, May, happens};
ghost use Rattle.proof_traffic.specs.OutsideTraffic.{Follows, Goes, AreNodes, InTurn, words_all, no_routes_due};

/// At first nothing is on its way. Each event is steps of the course: frames that arrive, results that come in the order of the chip's
/// calls while no frame of the host is on the air, whatever devices do; and where neither a frame nor a result is awaited, no call is to
/// come. Items that the chip judges, the first of what is on its way to it, are steps of the course: payloads that it takes to send, over a
/// route or without one, and those that it gives up; what is after them stays on its way.
pub fn outsides_make_requests()
    ensures first { Follows no_traffic [] [] first_outer }
    ensures events { (t : Traffic) (log : List Mark) (flights : List Flown) (w : Outside) (event : OuterEvent) →
        Follows t log flights w.outer → AreNodes w.devices → May w event → InTurn flights event →
        Goes t log flights (happens w event).outer t.up }
    ensures none_to_come { (t : Traffic) (log : List Mark) (o : OuterState) → Follows t log [] o → no_routes_due o.due ≡ 0 → t.calls ≡ [] }
    ensures items { (t : Traffic) (log : List Mark) (flights : List Flown) (o : OuterState) (count : ℕ) (rest : Rest)
        (ways : List (Item × Option TheRoute)) (later : List Word) →
        Follows t log flights o → t.up ≡ words_all (map (λ w. w.0) ways) ++ later → Goes t log flights (chip_takes o count rest ways).outer later }
{
    crate::frames_fly_in_order();
}

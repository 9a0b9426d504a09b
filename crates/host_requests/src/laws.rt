//! Laws of any events, each the contract of a function that does nothing.

ghost use Rattle.std.specs.Prelude.{◌≡◌, ◌≢◌, ℕ, ◌≤◌, ◌↔◌, List, Some, None};
ghost use Rattle.host_requests.specs.Frames.{request_of, function_of};
ghost use Rattle.host_requests.specs.State.{RequestsState, no_requests, next_id};
ghost use Rattle.host_requests.specs.Events.{RequestsEvent, after, after_all, May, MayAll};
ghost use Rattle.host_requests.specs.Facts.{IsRequests, IsWaiting, most_left, ticks_in, EndsAmong, second_asked};
ghost use Rattle.host_requests.specs.Interviews.{brought_in};
ghost use Rattle.host_requests.specs.declared.task.Purpose.{Purpose};
ghost use Rattle.host_requests.specs.declared.under_way.UnderWay.{UnderWay as TheUnderWay};
ghost use Rattle.chip_functions.specs.Request.{request_function};

/// What holds at the beginning, and what each event keeps.
pub fn requests_stay_valid()
    ensures first { IsRequests no_requests }
    ensures step { (s : RequestsState) (event : RequestsEvent) →
        IsRequests s → May s event → IsRequests (after s event) }
    ensures all { (s : RequestsState) (events : List RequestsEvent) →
        IsRequests s → MayAll s events → IsRequests (after_all s events) }
{}

/// A request that was acknowledged or answered ends in as many ticks as are left for it, whatever else happens.
pub fn each_request_ends()
    ensures { (s : RequestsState)
        (events : List RequestsEvent) (u : TheUnderWay) →
        IsRequests s → s.under_way ≡ Some u
        → IsWaiting u.progress → MayAll s events →
        most_left u.progress ≤ ticks_in events → EndsAmong s events }
{}

/// While the second request of an interview is under way, the byte that is kept is the one that the last request to end has
/// brought, and that was the first request of the interview of the same node.
pub fn interviews_are_whole()
    ensures { (events : List RequestsEvent)
        (u : TheUnderWay) (node capability : ℕ) →
        MayAll no_requests events
        → (after_all no_requests events).under_way ≡ Some u →
        second_asked u.purpose ≡ Some node
        → ((after_all no_requests events).first ≡ Some capability) ↔
        (brought_in no_requests None events ≡
        Some (record { node = node; capability = capability })) }
{}

/// Two callback ids in a row differ, and are 1 to 255. A request has its function whatever its callback id.
pub fn callback_ids()
    ensures from_one { (last : ℕ) → 1 ≤ next_id last }
    ensures to_max { (last : ℕ) → next_id last ≤ 255 }
    ensures differ { (last : ℕ) → next_id last ≢ last }
    ensures function { (purpose : Purpose) (id : ℕ) →
        request_function (request_of purpose id) ≡ function_of purpose }
{}

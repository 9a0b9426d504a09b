//! Lines make steps of the course of the host's requests, and so few frames are on the air.

ghost use Rattle.std.specs.Prelude.{◌≡◌, ◌∷◌, ◌++◌, ◌≤◌, ℕ, Option, List, []};
ghost use Rattle.s0_crypto.specs.declared.key_pair.Keys.{Keys};
ghost use Rattle.serial_frame.specs.declared.item.Item.{Item};
ghost use Rattle.proof_device.specs.device_sim.State.{State};
ghost use Rattle.air_frames.specs.declared.frame.Heading.TheVariants.{Outward};
ghost use Rattle.air_frames.specs.Flown.{Flown};
ghost use Rattle.air_frames.specs.Frames.{FramesState};
ghost use Rattle.air_frames.specs.History.{Mark};
ghost use Rattle.proof_traffic.specs.Flights.{Fly};
ghost use Rattle.zw_text.specs.declared.line.Line.{Line};
ghost use Rattle.proof_device.specs.world_model.State.{Machine, first_machine};
ghost use Rattle.proof_device.specs.world_model.Events.{Event};
ghost use Rattle.proof_device.specs.world_model.Did.{happens_all, MayAll};
ghost use Rattle.proof_device.specs.world_model.Prefixes.{LinePart};
ghost use Rattle.proof_serial.specs.Host.{AllAskWell};
ghost use Rattle.proof_serial.specs.Line.{AllWriteWell, AreLines};
ghost use Rattle.proof_traffic.specs.Requests.{Traffic, no_traffic};
ghost use Rattle.proof_device.specs.outside_model.State.{OuterState};
ghost use Rattle.proof_traffic.specs.OutsideTraffic.{AreNodes, outward};
ghost use Rattle.proof_traffic.specs.OnAir.{on_air, hosts_on_air, IsFew, AlwaysFew};
ghost use Rattle.proof_traffic.specs.Course.{Follows, Goes};

/// The course of the host's requests begins with the machine, and goes with it through every line, whole or cut short: in each pass the
/// chip takes all that is on its way before the host hears of anything, and in each tick it is given all results before the host's waits
/// are counted. Payloads that are asked for and sealed are short, and the keeper tells its records where the host starts again
/// (`AllAskWell`).
pub fn lines_make_requests()
    ensures first { (keys : Keys) (records : Option (List (List ℕ))) (devices : List State) → AreNodes devices →
        Follows no_traffic [] [] [] (first_machine keys records devices) }
    ensures line { (line : Line) (t : Traffic) (log : List Mark) (up down : List Item) (m : Machine) (events : List Event) →
        Follows t log up down m → LinePart line m events →
        MayAll m events → AllWriteWell m events → AllAskWell m events → Goes t log m events }
    ensures lines { (keys : Keys) (records : Option (List (List ℕ))) (devices : List State) (lines : List Line) (events : List Event) → AreNodes devices →
        AreLines lines (first_machine keys records devices) events → MayAll (first_machine keys records devices) events →
        AllAskWell (first_machine keys records devices) events →
        Goes no_traffic [] (first_machine keys records devices) events }
{
    crate::frames_fly_in_order();
    crate::requests_keep_facts();
    crate::hosts_make_requests();
    crate::outsides_make_requests();
    proof_serial::hosts_write_well();
}

/// So over any lines from the first on, the last of which an allocation failure may have cut short, at every moment, at most two frames of
/// the host have been sent that have not arrived: between any two events, and after each item that the chip judges. Where one has just gone
/// on the air, at most one was there before it. The frames on the air are those of every history of them.
pub fn at_most_two_are_on_the_air()
    ensures flights { (log : List Mark) (flights : List Flown) (frames : FramesState) → Fly log flights frames → flights ≡ on_air frames }
    ensures room { (log : List Mark) (before : List Flown) (flight : Flown) (o : OuterState) →
        Fly log (before ++ flight ∷ []) o.air.frames → flight.heading ≡ Outward → IsFew o → outward before ≤ 1 }
    ensures always { (keys : Keys) (records : Option (List (List ℕ))) (devices : List State) (lines : List Line) (events : List Event) → AreNodes devices →
        AreLines lines (first_machine keys records devices) events → MayAll (first_machine keys records devices) events →
        AllAskWell (first_machine keys records devices) events →
        AlwaysFew (first_machine keys records devices) events }
    ensures moment { (keys : Keys) (records : Option (List (List ℕ))) (devices : List State) (lines : List Line)
        (before later : List Event) → AreNodes devices →
        AreLines lines (first_machine keys records devices) (before ++ later) →
        MayAll (first_machine keys records devices) (before ++ later) → AllAskWell (first_machine keys records devices) (before ++ later) →
        hosts_on_air (happens_all (first_machine keys records devices) before).outside.outer ≤ 2 }
{
    lines_make_requests();
}

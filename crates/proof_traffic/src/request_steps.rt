//! What holds of every course of requests.

ghost use Rattle.std.specs.Prelude.{◌≤◌, Bool, List};
ghost use Rattle.proof_traffic.specs.Requests.{Traffic, Step, Takes, no_traffic, after, after_all, May, MayAll};
ghost use Rattle.proof_traffic.specs.Facts.{RequestFacts, flying};

/// The facts hold where nothing has happened, and every step that may happen keeps them.
pub fn requests_keep_facts()
    ensures first { RequestFacts no_traffic }
    ensures each { (t : Traffic) (step : Step) → RequestFacts t → May t step → RequestFacts (after t step) }
    ensures all { (t : Traffic) (steps : List Step) → RequestFacts t → MayAll t steps → RequestFacts (after_all t steps) }
{}

/// So at most two frames of the host are on the air, and at most one where the chip takes a further payload to send.
pub fn two_at_most()
    ensures always { (steps : List Step) → MayAll no_traffic steps → flying (after_all no_traffic steps) ≤ 2 }
    ensures room { (t : Traffic) (flies : Bool) → RequestFacts t → May t (Takes flies) → flying t ≤ 1 }
{}

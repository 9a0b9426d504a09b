//! Events of one list after another.

ghost use Rattle.std.specs.Prelude.{◌≡◌, List, [], ◌++◌};
ghost use Rattle.world_model.specs.State.{Machine};
ghost use Rattle.world_model.specs.Events.{Event};
ghost use Rattle.world_model.specs.Did.{happens_all, entries_all, MayAll, Scene, Run};

/// What two lists of events do, one after the other, is what both together do.
pub fn lists_go_on()
    ensures state { (m : Machine) (a b : List Event) → happens_all m (a ++ b) ≡ happens_all (happens_all m a) b }
    ensures entries { (m : Machine) (a b : List Event) → entries_all m (a ++ b) ≡ entries_all m a ++ entries_all (happens_all m a) b }
    ensures may { (m : Machine) (a b : List Event) → MayAll m a → MayAll (happens_all m a) b → MayAll m (a ++ b) }
    ensures nothing { (s : Scene) → Run [] s s }
    ensures both { (a b : List Event) (old mid new : Scene) → Run a old mid → Run b mid new → Run (a ++ b) old new }
{}

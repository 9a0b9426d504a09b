//! Events of one list after another.

ghost use Rattle.std.specs.Prelude.{◌≡◌, List, [], ◌++◌};
ghost use Rattle.zw_text.specs.declared.entry.Entry.{Entry};
ghost use Rattle.outside_model.specs.State.{Outside};
ghost use Rattle.outside_model.specs.Events.{OuterEvent};
ghost use Rattle.outside_model.specs.Did.{happens_all, entries_all, MayAll, Run};

/// What two lists of events do, one after the other, is what both together do.
pub fn outer_lists_go_on()
    ensures state { (w : Outside) (a b : List OuterEvent) → happens_all w (a ++ b) ≡ happens_all (happens_all w a) b }
    ensures entries { (w : Outside) (a b : List OuterEvent) → entries_all w (a ++ b) ≡ entries_all w a ++ entries_all (happens_all w a) b }
    ensures may { (w : Outside) (a b : List OuterEvent) → MayAll w a → MayAll (happens_all w a) b → MayAll w (a ++ b) }
    ensures nothing { (w : Outside) (before : List Entry) → Run [] w w before before }
    ensures both { (a b : List OuterEvent) (old mid new : Outside) (before some all : List Entry) →
        Run a old mid before some → Run b mid new some all → Run (a ++ b) old new before all }
{}

//! Events of one list after another, and bytes after others.

ghost use Rattle.std.specs.Prelude.{◌≡◌, ℕ, ◌≤◌, List, [], ◌∷◌, ◌++◌};
ghost use Rattle.std.specs.List.{AllByRecursion};
ghost use Rattle.serial_frame.specs.Stream.{Feeds, GoesOn, IsRest, piece_of};
ghost use Rattle.serial_frame.specs.declared.item.Item.{Item};
ghost use Rattle.host_keep.specs.Keeping.{Shelf, Adds};
ghost use Rattle.host_keep.specs.Rows.{IsRecord};
ghost use Rattle.host_model.specs.State.{HostState, HostParts};
ghost use Rattle.host_model.specs.Events.{HostEvent};
ghost use Rattle.host_model.specs.After.{after};
ghost use Rattle.host_model.specs.Outs.{outs};
ghost use Rattle.host_model.specs.Records.{records_at, KeepsInRange};
ghost use Rattle.host_model.specs.May.{May};
ghost use Rattle.host_model.specs.Did.{after_all, outs_all, records_all, texts_of, MayAll, is_unkept, RoseIf, Did};
ghost use Rattle.host_model.specs.Taking.{IsJudged, AreJudged, Fed, FedPrefix};
ghost use Rattle.host_model.specs.declared.out.HostOut.{HostOut};

/// What two lists of events do, one after the other, is what both together do. All that they keep is in range.
pub fn lists_go_on()
    ensures state { (h : HostState) (a b : List HostEvent) →
        after_all h (a ++ b) ≡ after_all (after_all h a) b }
    ensures outs { (h : HostState) (a b : List HostEvent) →
        outs_all h (a ++ b) ≡ outs_all h a ++ outs_all (after_all h a) b }
    ensures records { (h : HostState) (a b : List HostEvent) →
        records_all h (a ++ b) ≡ records_all h a ++
        records_all (after_all h a) b }
    ensures may { (h : HostState) (a b : List HostEvent) →
        MayAll h a → MayAll (after_all h a) b → MayAll h (a ++ b) }
    ensures in_range { (h : HostState) (events : List HostEvent) →
        MayAll h events → AllByRecursion IsRecord (records_all h events) }
    ensures nothing { (old new : HostState)
        (before all : List HostOut) (shelf shelf' : Shelf) →
        new ≡ old → all ≡ before → Adds [] shelf shelf' →
        shelf.faults ≤ shelf'.faults →
        Did [] old new before all shelf shelf' }
    ensures one { (event : HostEvent) (old new : HostState)
        (before all : List HostOut) (shelf shelf' : Shelf) →
        May old event → KeepsInRange old event →
        new ≡ after old event → all ≡ before ++ outs old event →
        Adds (texts_of (records_at old event)) shelf shelf' →
        RoseIf (is_unkept event) shelf.faults shelf'.faults →
        shelf.faults ≤ shelf'.faults →
        Did (event ∷ []) old new before all shelf shelf' }
    ensures both { (a b : List HostEvent) (old mid new : HostState)
        (before some all : List HostOut) (first mid_shelf last : Shelf) →
        Did a old mid before some first mid_shelf →
        Did b mid new some all mid_shelf last →
        Did (a ++ b) old new before all first last }
{}

/// Items are judged one after another, and bytes are taken piece after piece: where the pieces end does not matter.
pub fn pieces_go_on()
    ensures judged { (h : HostState)
        (a b : List Item) (x y : List HostEvent) →
        AreJudged h a x → AreJudged (after_all h x) b y →
        AreJudged h (a ++ b) (x ++ y) }
    ensures fed { (old mid new : HostParts) (p q : List ℕ)
        (before some all : List HostOut) (first mid_shelf last : Shelf) →
        Fed old p mid before some first mid_shelf →
        Fed mid q new some all mid_shelf last →
        Fed old (p ++ q) new before all first last }
    ensures prefix { (old mid new : HostParts) (p q : List ℕ)
        (before some all : List HostOut) (first mid_shelf last : Shelf) →
        Fed old p mid before some first mid_shelf →
        FedPrefix mid q new some all mid_shelf last →
        FedPrefix old (p ++ q) new before all first last }
    // No byte was taken; the bytes end no item; one item ends with them, and was judged.
    ensures nothing { (old new : HostParts)
        (before all : List HostOut) (shelf shelf' : Shelf) →
        IsRest old.decoder → new ≡ old → all ≡ before →
        Adds [] shelf shelf' → shelf.faults ≤ shelf'.faults →
        Fed old [] new before all shelf shelf' }
    ensures none { (old new : HostParts) (bytes : List ℕ)
        (before all : List HostOut) (shelf shelf' : Shelf) →
        Feeds old.decoder bytes new.decoder [] →
        GoesOn old.decoder (piece_of bytes) new.decoder [] →
        new.state ≡ old.state → all ≡ before →
        Adds [] shelf shelf' → shelf.faults ≤ shelf'.faults →
        Fed old bytes new before all shelf shelf' }
    ensures item { (old new : HostParts)
        (bytes : List ℕ) (before all : List HostOut)
        (shelf shelf' : Shelf) (item : Item) (events : List HostEvent) →
        Feeds old.decoder bytes new.decoder (item ∷ []) →
        GoesOn old.decoder (piece_of bytes) new.decoder (item ∷ []) →
        IsJudged old.state item events →
        Did events old.state new.state before all shelf shelf' →
        Fed old bytes new before all shelf shelf' }
{}

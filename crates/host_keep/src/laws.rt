//! Laws of records and of what they give.

ghost use Rattle.std.specs.Prelude.{◌≡◌, ℕ, ◌∷◌, [], ◌++◌, List, None, true};
ghost use Rattle.host_keep.specs.declared.record.Record.{Record as TheRecord};
ghost use Rattle.host_keep.specs.RecordText.{IsTextOf};
ghost use Rattle.host_keep.specs.Kept.{Kept, after_all};
ghost use Rattle.host_keep.specs.Legal.{Give, IsFirstBad, is_legal, first_illegal};

/// No text is that of two records.
pub fn a_text_is_of_one_record()
    ensures { (one other : TheRecord) (text : List ℕ) →
        IsTextOf one text → IsTextOf other text → one ≡ other }
{}

/// What texts give is one thing, where they give anything; and then none of them is bad.
pub fn texts_give_one_thing()
    ensures one { (texts : List (List ℕ)) (kept other : Kept) →
        Give texts kept → Give texts other → kept ≡ other }
    ensures good { (texts : List (List ℕ)) (kept : Kept) (at : ℕ) →
        Give texts kept → IsFirstBad texts at → ⊥ }
    ensures place { (texts : List (List ℕ)) (at other : ℕ) →
        IsFirstBad texts at → IsFirstBad texts other → at ≡ other }
{}

/// One record after others: what it gives is one step from what they gave, and it is legal where the step is.
pub fn records_go_on()
    ensures kept { (kept : Kept) (records more : List TheRecord) →
        after_all kept (records ++ more) ≡
        after_all (after_all kept records) more }
    ensures legal { (kept : Kept)
        (records : List TheRecord) (one : TheRecord) →
        first_illegal kept records ≡ None
        → is_legal (after_all kept records) one ≡ true →
        first_illegal kept (records ++ one ∷ []) ≡ None }
{}

//! Worked and rejected transcripts.

ghost use Rattle.std.specs.Prelude.{true, ◌∷◌, [], ◌++◌};
ghost use Rattle.zw_text.specs.declared.entry.Done.TheVariants as done;
ghost use Rattle.zw_text.specs.declared.entry.Entry.TheVariants.{Done};
ghost use Rattle.law_time.specs.WorkedEnds.{failed_errand, set_under_way, silent_after_response};
ghost use Rattle.law_time.specs.WorkedUnits.{failed, host_acknowledges};
ghost use Rattle.proof_ends.specs.Ends.{NotesOfEnds};

/// A Set whose callback says that it failed, and one that ends in silence in a tick, have their notes.
pub fn worked_ends()
    ensures errand { NotesOfEnds true failed_errand }
    ensures silent { NotesOfEnds true silent_after_response }
{}

/// The law is broken where it is said twice how a Set ended, or otherwise than it did, or is left out.
pub fn rejected_ends()
    ensures twice { NotesOfEnds true (failed_errand ++ Done 2 done.Fail ∷ []) → ⊥ }
    ensures otherwise { NotesOfEnds true (set_under_way ++ failed ∷ host_acknowledges ∷ Done 2 done.Delivered ∷ []) → ⊥ }
    ensures left_out { NotesOfEnds true (set_under_way ++ failed ∷ host_acknowledges ∷ []) → ⊥ }
{}

//! Worked and rejected transcripts.

ghost use Rattle.std.specs.Prelude.{true, [], ◌∷◌, ◌++◌, take};
ghost use Rattle.s0_crypto.specs.declared.key_pair.Keys.{Keys};
ghost use Rattle.zw_text.specs.declared.entry.Entry.TheVariants.{Unkept};
ghost use Rattle.proof_known.specs.law_host.Worked.{
  begun,
  ended_otherwise,
  failure_told,
  other_told,
  value_heard,
  value_left_out,
  value_otherwise,
  value_twice,
  work_told,
};
ghost use Rattle.proof_known.specs.WorkedNotes.{lock_believed, lock_unread};
ghost use Rattle.proof_notes.specs.Full.{NotesInFull};
ghost use Rattle.proof_notes.specs.Unkept.{UnkeptWhereAsked};

/// A report that a command failed, one that the node is at work, one of another session, a value, and a report of a lock that comes openly have their notes.
pub fn worked_notes()
    ensures failure { (keys : Keys) → NotesInFull keys true (begun ++ failure_told) }
    ensures working { (keys : Keys) → NotesInFull keys true (begun ++ work_told) }
    ensures old { (keys : Keys) → NotesInFull keys true (begun ++ other_told) }
    ensures value { (keys : Keys) → NotesInFull keys true value_heard }
    ensures openly { (keys : Keys) → NotesInFull keys true lock_unread }
{}

/// The law is broken where one of these is left out, a command ends otherwise than told, a lock is believed, or a value is noted twice or as another.
pub fn rejected_notes()
    ensures unended { (keys : Keys) → NotesInFull keys true (begun ++ take 2 failure_told) → ⊥ }
    ensures otherwise { (keys : Keys) → NotesInFull keys true (begun ++ ended_otherwise) → ⊥ }
    ensures old { (keys : Keys) → NotesInFull keys true (begun ++ take 2 other_told) → ⊥ }
    ensures left_out { (keys : Keys) → NotesInFull keys true value_left_out → ⊥ }
    ensures twice { (keys : Keys) → NotesInFull keys true value_twice → ⊥ }
    ensures as_another { (keys : Keys) → NotesInFull keys true value_otherwise → ⊥ }
    ensures believed { (keys : Keys) → NotesInFull keys true lock_believed → ⊥ }
{}

/// That a record was not kept may be said of an outcome that a report tells, and not of a value, nor where a request is delivered.
pub fn rejected_unkept()
    ensures value { (keys : Keys) → UnkeptWhereAsked keys (value_left_out ++ Unkept 2 ∷ []) → ⊥ }
    ensures delivered { (keys : Keys) → UnkeptWhereAsked keys (take 9 value_heard ++ Unkept 2 ∷ []) → ⊥ }
{}

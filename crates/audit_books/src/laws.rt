//! Laws of the tables. Each is the contract of a function without a body.

ghost use Rattle.audit_books.specs.Keeping.{BeginSo, ChangesBegin, ChangesGoOn, GoOn, JudgesChanges, JudgesSessions};

/// Tables go with the transcript, entry by entry, and judge the next entry as the rule of sessions does.
pub fn tables_follow()
    ensures begin { BeginSo }
    ensures go_on { GoOn }
    ensures judge { JudgesSessions }
{}

/// Tables of changes go with the transcript, and judge the next entry as the once-only rule does.
pub fn changes_follow()
    ensures begin { ChangesBegin }
    ensures go_on { ChangesGoOn }
    ensures judge { JudgesChanges }
{}

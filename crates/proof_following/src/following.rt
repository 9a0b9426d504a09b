//! What the course of notes makes of what a host does.

ghost use Rattle.std.specs.List.{AllByRecursion, list_any};
ghost use Rattle.std.specs.Prelude.{◌≡◌, ◌⊎◌, ℕ, ◌-◌, nat_le, nat_lt, true, false, List, [], ◌∷◌, ◌++◌};
ghost use Rattle.serial_frame.specs.Frame.{FrameParts};
ghost use Rattle.serial_frame.specs.Items.{unit_text};
ghost use Rattle.serial_frame.specs.declared.unit.Unit.TheVariants.{Framed};
ghost use Rattle.serial_frame.specs.declared.unit.Unit.{Unit as LineUnit};
ghost use Rattle.zw_text.specs.declared.entry.Entry.{Entry};
ghost use Rattle.zw_text.specs.declared.entry.Entry.TheVariants.{Time};
ghost use Rattle.law_transcript.specs.Restarts.{begins_refused};
ghost use Rattle.law_transcript.specs.Units.{Carried, bringing_in};
ghost use Rattle.law_time.specs.Ends.{giving_up, silence};
ghost use Rattle.law_time.specs.Heeds.{Heeds};
ghost use Rattle.law_time.specs.Interviews.{fails};
ghost use Rattle.law_time.specs.Judged.{is_mark};
ghost use Rattle.law_time.specs.Moments.{clock};
ghost use Rattle.law_time.specs.Requests.{asked};
ghost use Rattle.host_requests.specs.declared.end.How.{How};
ghost use Rattle.host_requests.specs.declared.task.Purpose.{Purpose};
ghost use Rattle.host_requests.specs.declared.task.Purpose.TheVariants.{Housekeeping};
ghost use Rattle.host_requests.specs.declared.task.Task.TheVariants.{Second};
ghost use Rattle.host_model.specs.Ends.{done_of, end_entries};
ghost use Rattle.host_model.specs.State.{HostState};
ghost use Rattle.proof_ends.specs.proof_requests.Ends.{EndsHere};
ghost use Rattle.proof_ends.specs.proof_requests.law_host.Course.{Course, each_in_turn};
ghost use Rattle.proof_ends.specs.proof_requests.law_host.Ends.{ends_by_frame, ends_with, ends_without, gives_up_late};
ghost use Rattle.proof_ends.specs.proof_requests.law_host.Frames.{frame_next, hears_carried, judges};
ghost use Rattle.proof_ends.specs.proof_requests.law_host.Following.{after as followed, comes_to, course_after, is_note, is_of_host, may_stand};
ghost use Rattle.proof_ends.specs.proof_requests.law_host.Ticks.{denies, is_denied, ticks};
ghost use Rattle.proof_ends.specs.proof_requests.proof_waking.Judged.{TieFrames};
ghost use Rattle.proof_following.specs.Quiet.{Calm, IsPlainly, NoneGone, NothingOf, acknowledges, ended_silently, gone_to};
ghost use Rattle.proof_following.specs.Ended.{
  AreGone,
  EndingOf,
  EndsAs,
  EndsInTick,
  GaveUp,
  GoneSo,
  IsByFrame,
  IsLate,
  noted_by,
  outcome_entries,
  rest_of,
  sent_by,
};

/// Where a request ends in the host, by a frame or without one, what the course makes of that end is what the host notes of it, where those commands are to be
/// given up that the host gives up.
pub fn ends_make_notes()
    ensures by_frame { (heeds : Heeds) (past : List Entry) (g : HostState) (id : ℕ) (p : Purpose) (how : How) (now : ℕ) (c : Course) → IsByFrame how →
        EndingOf heeds past g id p → EndsHere past id p how → ((n : ℕ) → p ≡ Housekeeping (Second n) → fails n past ≡ true) →
        AreGone heeds (past ++ (noted_by g p how c).due) now p id (outcome_entries g p how) →
        EndsAs (noted_by g p how c) (sent_by p id) (outcome_entries g p how) (ends_with heeds past now c) }
    ensures late { (heeds : Heeds) (past : List Entry) (g : HostState) (id : ℕ) (p : Purpose) (how : How) (now : ℕ) (c : Course) → IsLate how →
        EndingOf heeds past g id p → AreGone heeds (past ++ (noted_by g p how c).due) now p id (outcome_entries g p how) →
        EndsAs (noted_by g p how c) (sent_by p id) (outcome_entries g p how) (ends_without heeds past now (done_of how) c) }
    ensures entries { (g : HostState) (p : Purpose) (how : How) (c : Course) →
        c.due ++ end_entries g (record { purpose = p; how = how }) ≡ (noted_by g p how c).due ++ outcome_entries g p how }
{}

/// In a tick in which the request under way ends in the host, by the line or in silence, the course notes that end as the host does, and then goes on to what
/// its nodes give up.
pub fn ticks_make_notes()
    ensures { (heeds : Heeds) (past : List Entry) (now : ℕ) (g : HostState) (p : Purpose) (how : How) (id : ℕ) (c : Course) → clock past ≡ now →
        c.over ≡ false →
        EndingOf heeds past g id p → IsLate how → EndsHere past id p how →
        AreGone heeds (past ++ (noted_by g p how (record c { ticked = now })).due) now p id (outcome_entries g p how) → EndsInTick heeds past now g p how id c }
{}

/// Notes that are due stand one after another; an entry before which nothing is to be noted goes on in the course, and so does a tick; where a request has
/// ended with nothing to note, the course comes to that in a tick, or where the host has heard an answer.
pub fn entries_go_on()
    ensures notes { (heeds : Heeds) (past told notes : List Entry) (c : Course) → AllByRecursion (λ e. is_note e ≡ true) told → c.fits ≡ true →
        c.due ≡ told ++ notes →
        course_after heeds past told c ≡ record c { due = notes } }
    ensures beside { (heeds : Heeds) (past rest : List Entry) (e : Entry) (c : Course) → IsPlainly e → is_mark e ≡ false → may_stand past e ≡ true →
        c.fits ≡ true → c.due ≡ [] →
        (nat_lt c.ticked (clock past) ≡ true → Calm heeds past (clock past) c) → (is_of_host e ≡ true → c.over ≡ false → is_denied past ≡ false) →
        followed heeds past e rest c ≡ record c { ticked = gone_to past e c } }
    ensures passes { (heeds : Heeds) (past : List Entry) (tick : ℕ) (rest : List Entry) (c : Course) → c.fits ≡ true → c.due ≡ [] →
        Calm heeds past (tick - 1) c →
        followed heeds past (Time tick) rest c ≡ record c { ticked = tick - 1 } }
    ensures ended { (heeds : Heeds) (past : List Entry) (now : ℕ) (c : Course) → c.over ≡ false → c.due ≡ [] → NothingOf heeds past now →
        (list_any (λ tick. nat_le tick now) (giving_up (asked past)) ≡ true) ⊎ (list_any (λ tick. nat_le tick now) (silence (asked past)) ≡ true) →
        ticks heeds past now c ≡ ended_silently past (record c { ticked = now }) }
    ensures denied { (heeds : Heeds) (past : List Entry) (c : Course) → c.over ≡ false → c.due ≡ [] → NothingOf heeds past (clock past) →
        is_denied past ≡ true →
        denies heeds past c ≡ ended_silently past c }
    ensures both { (heeds : Heeds) (past first later : List Entry) (c : Course) → begins_refused later ≡ false →
        course_after heeds past (first ++ later) c ≡ course_after heeds (past ++ first) later (course_after heeds past first c) }
{}

/// The acknowledgement of a frame is for the one that came first and was not judged; what the course makes of it is what that frame is judged to be: the end of
/// a request, or, where it brings something of a node and ends none, that payload.
pub fn frames_are_judged()
    ensures next { (past : List Entry) (f : FrameParts) (rest : List LineUnit) → TieFrames past (Framed f ∷ rest) →
        frame_next past ≡ unit_text (Framed f) ∷ [] }
    ensures after { (heeds : Heeds) (past rest : List Entry) (frame : List ℕ) (c d : Course) → c.fits ≡ true → comes_to heeds past acknowledges c ≡ d →
        d.due ≡ [] →
        d.fits ≡ true → frame_next past ≡ frame ∷ [] → followed heeds past acknowledges rest c ≡ judges heeds past (past ++ acknowledges ∷ []) frame d }
    ensures request { (heeds : Heeds) (past later : List Entry) (frame : List ℕ) (c : Course) → bringing_in frame ≡ [] →
        judges heeds past later frame c ≡ ends_by_frame heeds later (record c { put = 0 }) }
    ensures payload { (heeds : Heeds) (past later : List Entry) (frame : List ℕ) (carried : Carried) (c : Course) → bringing_in frame ≡ carried ∷ [] →
        ends_by_frame heeds later (record c { put = 0 }) ≡ record c { put = 0 } →
        judges heeds past later frame c ≡ hears_carried heeds past later carried (record c { put = 0 }) }
{}

/// The first note of a tick has the course go through the whole tick, of which that note and others are due; and of the nodes in order each that gives up goes
/// on from there.
pub fn ticks_go_by_nodes()
    ensures first { (heeds : Heeds) (past rest notes : List Entry) (e : Entry) (c : Course) → is_note e ≡ true → c.fits ≡ true → c.due ≡ [] →
        nat_lt c.ticked (clock past) ≡ true → (ticks heeds past (clock past) c).fits ≡ true → (ticks heeds past (clock past) c).due ≡ e ∷ notes →
        followed heeds past e rest c ≡ record (ticks heeds past (clock past) c) { due = notes } }
    ensures node { (heeds : Heeds) (past told : List Entry) (now n : ℕ) (front back : List ℕ) (mid : Course) → NoneGone heeds now (past ++ mid.due) front →
        GoneSo heeds (past ++ mid.due) now n told → (later : Course) ×
        (each_in_turn (gives_up_late heeds past now) (front ++ n ∷ back) mid ≡ each_in_turn (gives_up_late heeds past now) back later)
        × GaveUp mid n told later }
    ensures grows { (heeds : Heeds) (past : List Entry) (now : ℕ) (nodes : List ℕ) (mid : Course) → (some : List Entry) ×
        ((each_in_turn (gives_up_late heeds past now) nodes mid).due ≡ mid.due ++ some)
        × (rest_of (each_in_turn (gives_up_late heeds past now) nodes mid) ≡ rest_of mid)
        × ((each_in_turn (gives_up_late heeds past now) nodes mid).over ≡ mid.over) }
{}

//! The laws of stories, of whichever command: each is the contract of a function that does nothing.

ghost use Rattle.std.specs.Prelude.{ℕ, List};
ghost use Rattle.run_all.specs.Around.{Around};
ghost use Rattle.proof_commands.specs.Laws.{
  AnswersAsDue,
  AnswersCommands,
  EndsAsDevicesJudge,
  AirsAsTaken,
  AppliesOnce,
  AsksOneByOne,
  BringsHeard,
  CarriesWhatWasAsked,
  ClearsNothingElse,
  ClearsWhatIsLost,
  ClearsWhenRestarted,
  CollidesAsAsked,
  ConfirmsValues,
  DoesAsShown,
  DoesWhatIsAsked,
  DoneByNodes,
  EndsEachInterview,
  FaresFrames,
  ForgetsHops,
  GivesNonces,
  GroupsChanges,
  HasHeadline,
  HasLegalHost,
  HasWholeHeadline,
  HearsAsHosts,
  HoldsNodes,
  IsLegalRun,
  KeepsAir,
  KeepsBothLinks,
  KeepsDevices,
  KeepsLine,
  KeepsOrders,
  KeepsWell,
  KeepsWhatIsShown,
  LandsFrames,
  LosesFrames,
  MarksAsAsked,
  MeetsFates,
  NotesEnds,
  NotesPayloads,
  NumbersAir,
  NumbersMessages,
  NumbersTicks,
  OverrunsAsDue,
  OverrunsWithoutRoom,
  ReadsWhatItKept,
  RepeatsAsAsked,
  ReportsAfterChange,
  RoutesFrames,
  SaysWhatIsNotKept,
  SealsEachOnce,
  SendsAsDue,
  SendsToSleep,
  ShowsChanges,
  ShowsKeptDevices,
  ShowsStoredValues,
  ShowsTables,
  StoresValues,
  StoriesKeepLaws,
  TakesBackWhenAsked,
  TellsHowDone,
  TellsWhatIsAsked,
  WakesNodes,
  WritesSessions,
};

use crate::lines_are_read_as_said;
use proof_answers::{
    chips_answer_in_order, dead_hops_are_forgotten, dead_hops_are_forgotten_in_the_end,
    devices_did, frames_go_by_route, lines_are_done_by_devices, lines_bring_what_was_heard,
    lines_keep_and_ask_well, lines_land_in_time, lines_meet_what_is_due,
    lines_repeat_what_is_asked, restarts_go_on, runs_take_once, the_machine_keeps_facts,
};
use proof_audit::{
    all_frames_land_in_the_end, askable_nodes_have_the_headline,
    commands_are_taken_back_when_asked, devices_as_made_begin_courses, lines_are_answered,
    lines_carry_units, lines_lose_marked_frames, lines_number_frames, lines_show_what_is_kept,
    nodes_have_the_headline, nodes_report_after_the_change, records_are_what_is_shown,
    sessions_begin_with_their_unit, supervised_nodes_are_plain_or_locks, ticks_decide_each_frame,
    values_are_stored_as_asked,
};
use proof_host::{asides_keep_facts, laws_follow};
use proof_ready::{stretches_are_answered_in_time, stretches_end_by_kind};
use proof_replay::{
    lines_answer_questions, lines_ask_one_by_one, lines_clear_at_restarts,
    lines_clear_nowhere_else, lines_clear_the_line, lines_collide_when_asked, lines_count_nonces,
    lines_end_interviews, lines_fall_asleep_as_told, lines_hold_as_asked, lines_keep_links,
    lines_leave_nothing, lines_mark_units, lines_note_ends, lines_note_in_full,
    lines_overrun_only_when_full, lines_overrun_when_full, lines_say_how_done,
    lines_say_what_is_not_kept, lines_seal_once, lines_send_what_is_due, lines_that_ran_are_heard,
    lines_that_ran_are_legal, lines_wake_as_told, ticks_are_told,
};

/// Every story from what a command was given to what it leaves keeps the laws.
pub fn every_story_keeps_laws()
    ensures { (key : List ℕ) (old new : Around) → StoriesKeepLaws key old new }
{
    stories_keep_records();
    stories_keep_laws();
    stories_answer_lines();
    stories_tell_of_commands();
    stories_leave_records();
    stories_take_once();
    stories_have_the_headline();
    stories_keep_air_laws();
    stories_are_legal_on_air();
    stories_air_what_is_taken();
    stories_are_legal_on_line();
    stories_send_what_is_due();
    stories_wake_as_told();
    stories_answer_questions();
    stories_ask_one_by_one();
    stories_note_in_full();
    stories_are_heard();
    stories_do_as_shown();
    stories_are_legal();
    stories_answer_in_time();
    stories_end_as_judged();
}

/// A story has the records that these laws assume, if the keeper tells them and had none at first, or no line is `restart`.
fn stories_keep_records()
    ensures { (key : List ℕ) (old new : Around) → KeepsWell key old new }
{
    lines_keep_and_ask_well();
}

/// The transcript of a story keeps the laws of orders, sessions, outcomes and confirmed values, and shows the tables of the host.
fn stories_keep_laws()
    ensures orders { (key : List ℕ) (old new : Around) → KeepsOrders key old new }
    ensures tables { (key : List ℕ) (old new : Around) → ShowsTables key old new }
    ensures values { (key : List ℕ) (old new : Around) → ConfirmsValues key old new }
{
    the_machine_keeps_facts();
    restarts_go_on();
    asides_keep_facts();
    laws_follow();
}

/// What becomes of commands is entered where it belongs.
fn stories_tell_of_commands()
    ensures taken_back { (key : List ℕ) (old new : Around) → TakesBackWhenAsked key old new }
    ensures stores { (key : List ℕ) (old new : Around) → StoresValues key old new }
    ensures written { (key : List ℕ) (old new : Around) → WritesSessions key old new }
{
    lines_are_read_as_said();
    stories_keep_laws();
    the_machine_keeps_facts();
    restarts_go_on();
    commands_are_taken_back_when_asked();
    values_are_stored_as_asked();
    sessions_begin_with_their_unit();
}

/// Each line of a story has its answer, and shows what it asks for.
fn stories_answer_lines()
    ensures due { (key : List ℕ) (old new : Around) → AnswersAsDue key old new }
    ensures reads { (key : List ℕ) (old new : Around) → ReadsWhatItKept key old new }
    ensures shows { (key : List ℕ) (old new : Around) → ShowsKeptDevices key old new }
    ensures stored { (key : List ℕ) (old new : Around) → ShowsStoredValues key old new }
{
    lines_are_read_as_said();
    lines_are_answered();
    lines_show_what_is_kept();
}

/// The records at exit give what the transcript of a story shows.
fn stories_leave_records()
    ensures { (key : List ℕ) (old new : Around) → KeepsWhatIsShown key old new }
{
    lines_are_read_as_said();
    records_are_what_is_shown();
}

/// The devices change at most once by each session, and the transcript of a story shows their changes.
fn stories_take_once()
    ensures once { (key : List ℕ) (old new : Around) → AppliesOnce key old new }
    ensures same { (key : List ℕ) (old new : Around) → KeepsDevices key old new }
    ensures shown { (key : List ℕ) (old new : Around) → ShowsChanges key old new }
    ensures groups { (key : List ℕ) (old new : Around) → GroupsChanges key old new }
{
    runs_take_once();
}

/// What is so of lines that were said is so of a story, whose transcript has the words of each line.
fn stories_have_the_headline()
    ensures one { (key : List ℕ) (old new : Around) → HasHeadline key old new }
    ensures after_change { (key : List ℕ) (old new : Around) → ReportsAfterChange key old new }
    ensures whole { (key : List ℕ) (old new : Around) → HasWholeHeadline key old new }
{
    lines_are_read_as_said();
    devices_as_made_begin_courses();
    supervised_nodes_are_plain_or_locks();
    nodes_have_the_headline();
    nodes_report_after_the_change();
    askable_nodes_have_the_headline();
    runs_take_once();
}

/// The frames on the air, the units of the serial line and the numbers of ticks are those of lines that were said.
fn stories_keep_air_laws()
    ensures numbers { (key : List ℕ) (old new : Around) → NumbersAir key old new }
    ensures loses { (key : List ℕ) (old new : Around) → LosesFrames key old new }
    ensures fares { (key : List ℕ) (old new : Around) → FaresFrames key old new }
    ensures routes { (key : List ℕ) (old new : Around) → RoutesFrames key old new }
    ensures forgets { (key : List ℕ) (old new : Around) → ForgetsHops key old new }
    ensures lands { (key : List ℕ) (old new : Around) → LandsFrames key old new }
    ensures repeats { (key : List ℕ) (old new : Around) → RepeatsAsAsked key old new }
    ensures meets { (key : List ℕ) (old new : Around) → MeetsFates key old new }
    ensures carries { (key : List ℕ) (old new : Around) → CarriesWhatWasAsked key old new }
    ensures brings { (key : List ℕ) (old new : Around) → BringsHeard key old new }
    ensures collides { (key : List ℕ) (old new : Around) → CollidesAsAsked key old new }
    ensures marks { (key : List ℕ) (old new : Around) → MarksAsAsked key old new }
    ensures overruns { (key : List ℕ) (old new : Around) → OverrunsWithoutRoom key old new }
    ensures overrun { (key : List ℕ) (old new : Around) → OverrunsAsDue key old new }
    ensures clears { (key : List ℕ) (old new : Around) → ClearsWhenRestarted key old new }
    ensures links { (key : List ℕ) (old new : Around) → KeepsBothLinks key old new }
    ensures clears_line { (key : List ℕ) (old new : Around) → ClearsWhatIsLost key old new }
    ensures nowhere { (key : List ℕ) (old new : Around) → ClearsNothingElse key old new }
    ensures ticks { (key : List ℕ) (old new : Around) → NumbersTicks key old new }
{
    lines_are_read_as_said();
    stories_keep_laws();
    lines_number_frames();
    lines_lose_marked_frames();
    ticks_decide_each_frame();
    all_frames_land_in_the_end();
    frames_go_by_route();
    dead_hops_are_forgotten();
    dead_hops_are_forgotten_in_the_end();
    lines_land_in_time();
    lines_repeat_what_is_asked();
    lines_meet_what_is_due();
    lines_carry_units();
    lines_bring_what_was_heard();
    lines_collide_when_asked();
    lines_mark_units();
    lines_overrun_only_when_full();
    lines_overrun_when_full();
    lines_clear_at_restarts();
    lines_clear_nowhere_else();
    lines_keep_links();
    lines_clear_the_line();
    ticks_are_told();
}

/// What is on the air is legal, where the keeper tells its records and had none at first.
fn stories_are_legal_on_air()
    ensures { (key : List ℕ) (old new : Around) → KeepsAir key old new }
{
    stories_keep_records();
    stories_keep_air_laws();
}

/// What the controller puts on the air is what the chip takes, and the chip writes its host what it has for it.
fn stories_air_what_is_taken()
    ensures { (key : List ℕ) (old new : Around) → AirsAsTaken key old new }
{
    lines_are_read_as_said();
    chips_answer_in_order();
}

/// The laws of the serial line as one.
fn stories_are_legal_on_line()
    ensures { (key : List ℕ) (old new : Around) → KeepsLine key old new }
{
    stories_keep_air_laws();
    stories_air_what_is_taken();
}

/// What hosts send has its reason in lines that were said, and in what nodes told; each message is sealed for a nonce that answers a question of its own.
fn stories_send_what_is_due()
    ensures sends { (key : List ℕ) (old new : Around) → SendsAsDue key old new }
    ensures seals { (key : List ℕ) (old new : Around) → SealsEachOnce key old new }
    ensures nonces { (key : List ℕ) (old new : Around) → GivesNonces key old new }
{
    lines_are_read_as_said();
    lines_send_what_is_due();
    lines_seal_once();
    lines_count_nonces();
}

/// Nodes count as awake as they told in lines that were said, fall asleep and are held.
fn stories_wake_as_told()
    ensures wakes { (key : List ℕ) (old new : Around) → WakesNodes key old new }
    ensures sleeps { (key : List ℕ) (old new : Around) → SendsToSleep key old new }
    ensures holds { (key : List ℕ) (old new : Around) → HoldsNodes key old new }
{
    lines_are_read_as_said();
    lines_wake_as_told();
    lines_fall_asleep_as_told();
    lines_hold_as_asked();
}

/// Questions are answered, and ends of interviews and of what lines asked for are told, in lines that were said.
fn stories_answer_questions()
    ensures questions { (key : List ℕ) (old new : Around) → TellsWhatIsAsked key old new }
    ensures interviews { (key : List ℕ) (old new : Around) → EndsEachInterview key old new }
    ensures done { (key : List ℕ) (old new : Around) → TellsHowDone key old new }
{
    lines_are_read_as_said();
    lines_answer_questions();
    lines_end_interviews();
    lines_say_how_done();
}

/// Requests stand one after another, messages are numbered, and where the host rests what lines asked for has ended, in lines that were said.
fn stories_ask_one_by_one()
    ensures one { (key : List ℕ) (old new : Around) → AsksOneByOne key old new }
    ensures numbered { (key : List ℕ) (old new : Around) → NumbersMessages key old new }
    ensures rests { (key : List ℕ) (old new : Around) → DoesWhatIsAsked key old new }
    ensures ends { (key : List ℕ) (old new : Around) → NotesEnds key old new }
{
    lines_are_read_as_said();
    lines_ask_one_by_one();
    lines_leave_nothing();
    lines_note_ends();
}

/// After each payload stands all that its messages have noted, and that a record was not kept where one was asked for, in lines that were said.
fn stories_note_in_full()
    ensures noted { (key : List ℕ) (old new : Around) → NotesPayloads key old new }
    ensures unkept { (key : List ℕ) (old new : Around) → SaysWhatIsNotKept key old new }
{
    lines_are_read_as_said();
    lines_note_in_full();
    lines_say_what_is_not_kept();
}

/// Over what their hosts heard of lines that were said, stories keep the laws of hosts, and these hosts are legal as ones alone.
fn stories_are_heard()
    ensures laws { (key : List ℕ) (old new : Around) → HearsAsHosts key old new }
    ensures legal { (key : List ℕ) (old new : Around) → HasLegalHost key old new }
{
    lines_are_read_as_said();
    lines_that_ran_are_heard();
    lines_that_ran_are_legal();
}

/// The devices did what lines that were said show.
fn stories_do_as_shown()
    ensures done_by { (key : List ℕ) (old new : Around) → DoneByNodes key old new }
    ensures devices { (key : List ℕ) (old new : Around) → DoesAsShown key old new }
{
    lines_are_read_as_said();
    lines_are_done_by_devices();
    devices_did();
}

/// Every run is legal, whole or cut short.
fn stories_are_legal()
    ensures { (key : List ℕ) (old new : Around) → IsLegalRun key old new }
{
    stories_keep_records();
    stories_answer_lines();
    stories_tell_of_commands();
    stories_leave_records();
    stories_are_legal_on_air();
    stories_are_legal_on_line();
    stories_send_what_is_due();
    stories_are_heard();
    stories_do_as_shown();
}

/// Wherever the lines of a story go on from a calm moment as a stretch for plain listeners, for one plain node that sleeps, or for one of any kind, each
/// command of these has in time the outcome that its device's kind says.
fn stories_answer_in_time()
    ensures { (key : List ℕ) (old new : Around) → AnswersCommands key old new }
{
    lines_are_read_as_said();
    stretches_are_answered_in_time();
}

/// Wherever the lines of a story are quiet for a while, each command of a node whose device lists Supervision has, where it has a final outcome, the one that
/// its device's kind says.
fn stories_end_as_judged()
    ensures { (key : List ℕ) (old new : Around) → EndsAsDevicesJudge key old new }
{
    lines_are_read_as_said();
    stretches_end_by_kind();
}

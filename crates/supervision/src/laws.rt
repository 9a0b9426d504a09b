//! The laws of both ends: what each call keeps, and what therefore holds over every list of events. Sessions begin, Gets
//! and reports go out, and each that was ever sent may be heard never, once or often, and in any order, while it is
//! fresh.

ghost use Rattle.std.specs.Prelude.{◌≡◌, ℕ, ◌+◌, ◌<◌, ◌≤◌, List, [], ◌∷◌, ◌++◌, length, All, AllPairs, Contains, IsTrue, Some, None};
ghost use Rattle.supervision.specs.Session.{wire_id};
ghost use Rattle.supervision.specs.Host.{HostBook, no_sessions, begun_of, open_session, command_at, begins, with_attempts, told_of, after_report};
ghost use Rattle.supervision.specs.Device.{Taken, none_taken, heard_of, after_get, finished};
ghost use Rattle.supervision.specs.Ends.{Get, Report, EndsAgree, GetFits, ReportFits, is_fresh, is_fresh_on_line, is_fresh_segment};
ghost use Rattle.supervision.specs.declared.session.TheConstants.{SUCCESS, WORKING, FAIL};
ghost use Rattle.supervision.specs.Once.{
  Always,
  IsEarlier,
  IsBegun,
  GetsNameOne,
  ReportsNameOne,
  MayHearGet,
  MayHearReport,
  KnowsEnd,
  SuccessIsChange,
  RefusalIsNoChange,
  EachEndedBefore,
  changes,
  run,
  start,
  worked_events,
  ended_as,
};

use crate::{Heard, Told};

/// What holds of both ends whatever happens between them.
pub fn once_only()
    // The device's changes are those of sessions in strictly rising order, so each at most once.
    ensures rising { Always (λ w. AllPairs IsEarlier (changes w)) }
    // So are all the sessions that it brought to an end, each begun by the host with that command.
    ensures done_once { Always (λ w. AllPairs IsEarlier w.done) }
    ensures begun { Always (λ w. All (IsBegun w.host.commands) w.done) }
    // The device has taken all the sessions begun, or all but the last.
    ensures not_ahead { Always (λ w. w.device.taken ≤ begun_of w.host) }
    ensures one_after { Always (λ w. begun_of w.host ≤ w.device.taken + 1) }

    // An id names one session, at either end.
    ensures get_names_one { Always (λ w. (get : Get) → MayHearGet w get → GetsNameOne w get) }
    ensures report_names_one { Always (λ w. (report : Report) → MayHearReport w report → ReportsNameOne w report) }

    // What the host was told is what the device did, with the same command and status, once for each session.
    ensures told_is_done { Always (λ w. All (Contains w.done) w.told) }
    ensures told_once { Always (λ w. AllPairs IsEarlier w.told) }
    ensures success { Always (λ w. All (SuccessIsChange w) w.told) }
    ensures refusal { Always (λ w. All (RefusalIsNoChange w) w.told) }
    ensures end_known { Always (λ w. (status : ℕ) → w.host.outcome ≡ Some status → KnowsEnd w status) }

    // A session begins only once the one before has its end.
    ensures each_ended { Always EachEndedBefore }
{}

/// What each call keeps of both ends, and of each message that may still arrive. A message is one of 64 sessions in a row
/// where it is fresh, and wherever else a caller shows so.
pub fn both_ends()
    ensures at_first { EndsAgree no_sessions none_taken }
    ensures begin { (host : HostBook) (device : Taken) (command : ℕ) →
        EndsAgree host device → open_session host ≡ None → EndsAgree (begins host command) device }
    ensures attempts { (host : HostBook) (device : Taken) (count : ℕ) →
        EndsAgree host device → EndsAgree (with_attempts host count) device }
    ensures hear { (host : HostBook) (device : Taken) (get : Get) →
        EndsAgree host device → GetFits host.commands get → device.taken + 1 ≤ get.session + 63 →
        EndsAgree host (after_get device (wire_id get.session)) }
    ensures finish { (host : HostBook) (device : Taken) (status : ℕ) →
        EndsAgree host device → device.status ≡ WORKING → EndsAgree host (finished device status) }
    ensures report { (host : HostBook) (device : Taken) (report : Report) →
        EndsAgree host device → ReportFits (begun_of host) device report → begun_of host ≤ report.session + 63 →
        EndsAgree (after_report host (wire_id report.session) report.status) device }

    // A fresh message is of one of 64 sessions in a row, and a fresh segment of one of 16.
    ensures get_near { (host : HostBook) (device : Taken) (get : Get) →
        EndsAgree host device → GetFits host.commands get → IsTrue (is_fresh (begun_of host) get.begun) →
        device.taken + 1 ≤ get.session + 63 }
    ensures segment_near { (host : HostBook) (device : Taken) (get : Get) →
        EndsAgree host device → GetFits host.commands get → IsTrue (is_fresh_segment (begun_of host) get.begun) →
        device.taken + 1 ≤ get.session + 15 }
    ensures report_near { (host : HostBook) (device : Taken) (report : Report) →
        ReportFits (begun_of host) device report → IsTrue (is_fresh_on_line (begun_of host) report.begun) →
        begun_of host ≤ report.session + 63 }

    // A message fits when it is sent, and goes on to fit.
    ensures get_sent { (commands : List ℕ) (session command : ℕ) →
        command_at commands session ≡ Some command → length commands ≤ session + 1 →
        GetFits commands (record { session = session; command = command; begun = length commands }) }
    ensures get_kept { (commands : List ℕ) (next : ℕ) (get : Get) →
        GetFits commands get → GetFits (commands ++ next ∷ []) get }
    ensures report_sent { (host : HostBook) (device : Taken) → EndsAgree host device → 0 < device.taken →
        ReportFits (begun_of host) device
        (record { session = device.taken; status = device.status; begun = begun_of host }) }
    ensures report_kept { (begun more : ℕ) (device : Taken) (report : Report) →
        begun ≤ more → ReportFits begun device report → ReportFits more device report }
    ensures report_kept_on_hear { (begun : ℕ) (device : Taken) (id : ℕ) (report : Report) →
        ReportFits begun device report → ReportFits begun (after_get device id) report }
    ensures report_kept_on_finish { (begun : ℕ) (device : Taken) (status : ℕ) (report : Report) →
        device.status ≡ WORKING → ReportFits begun device report → ReportFits begun (finished device status) report }
{}

/// The ages are exact: a message that is heard one session later can be taken for the session 64 further on.
pub fn ages_are_exact()
    ensures get { (session : ℕ) →
        heard_of (record { taken = session + 63; status = SUCCESS }) (wire_id session) ≡ Heard.New (session + 64) }
    ensures report { (commands : List ℕ) (session : ℕ) → length commands ≡ session + 64 →
        told_of (record { commands = commands; outcome = None; attempts = 0 }) (wire_id session) SUCCESS
        ≡ Told.Final (session + 64) }
{}

/// A worked run: the changes that it makes, and what the sender is told.
pub fn worked_run()
    ensures changes { changes (run worked_events start) ≡ ended_as 1 7 SUCCESS ∷ ended_as 3 9 SUCCESS ∷ [] }
    ensures told { (run worked_events start).told ≡ ended_as 1 7 SUCCESS ∷ ended_as 2 8 FAIL ∷ [] }
{}

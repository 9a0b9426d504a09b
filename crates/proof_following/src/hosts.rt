//! The end of a request in a host alone, and what the course of notes makes of it.

ghost use Rattle.std.specs.Prelude.{◌≡◌, ℕ, Bool, true, false, is_none, nat_lt, Some, List, [], ◌∷◌, ◌++◌};
ghost use Rattle.s0_crypto.specs.declared.key_pair.Keys.{Keys};
ghost use Rattle.chip_functions.specs.declared.notice.Update.{Update};
ghost use Rattle.zw_text.specs.declared.entry.Entry.TheVariants.{Interviewed, Unkept};
ghost use Rattle.zw_text.specs.declared.entry.Entry.{Entry};
ghost use Rattle.law_transcript.specs.Units.{bringing_in};
ghost use Rattle.law_time.specs.Errands.{errand};
ghost use Rattle.law_time.specs.Heeds.{Heeds};
ghost use Rattle.law_time.specs.Moments.{clock};
ghost use Rattle.host_requests.specs.Events.{RequestsEvent};
ghost use Rattle.host_node.specs.declared.attempt.Moment.TheVariants.{BetweenTicks};
ghost use Rattle.host_model.specs.After.{after};
ghost use Rattle.host_model.specs.Events.{Interview_unkept, Interviews, Requests_do};
ghost use Rattle.host_model.specs.Outs.{request_entries};
ghost use Rattle.host_model.specs.Taking.{told_requests};
ghost use Rattle.proof_ends.specs.Ends.{nodes_asked};
ghost use Rattle.proof_ends.specs.proof_requests.law_host.Course.{Course};
ghost use Rattle.proof_ends.specs.proof_requests.law_host.Ends.{ends_by_frame};
ghost use Rattle.proof_ends.specs.proof_requests.law_host.Following.{after as followed};
ghost use Rattle.proof_ends.specs.proof_requests.law_host.Frames.{frame_next};
ghost use Rattle.proof_ends.specs.proof_requests.law_host.Ticks.{is_denied};
ghost use Rattle.proof_ends.specs.proof_requests.proof_alone.State.{HostMachine, first_alone};
ghost use Rattle.proof_ends.specs.proof_requests.proof_alone.Phases.{Behind};
ghost use Rattle.proof_ends.specs.proof_requests.proof_alone.Runs.{Run};
ghost use Rattle.proof_following.specs.Ended.{GivesUpAsHost, IsFrameEvent, NotedSo};
ghost use Rattle.proof_following.specs.Quiet.{Calm, acknowledges, begun};

use proof_ends::{hosts_show_open_sessions, hosts_tell_of_ends, hosts_tell_of_sleep};

/// In each run of a host alone, over a keeper that tells its records and has none at first: after a frame that the request under way hears of, the course of
/// notes has due what the host notes there, in order, and has a request under way where the host does. What the last request carries of what lines asked for
/// is as they asked, and those commands are to be given up that the host gives up.
pub fn hosts_end_by_frames()
    ensures { (keys : Keys) (heeds : Heeds) (event : RequestsEvent) (past : List Entry) (m : HostMachine) (c : Course) →
        Run (first_alone keys (Some [])) (Behind (told_requests event)) past m → IsFrameEvent event → errand heeds.listing past ≡ nodes_asked past →
        c.over ≡ is_none m.state.requests.under_way → GivesUpAsHost heeds past m.state event c →
        NotedSo c (request_entries m.state event) (is_none (after m.state (Requests_do event BetweenTicks)).requests.under_way) (ends_by_frame heeds past c) }
{
    hosts_tell_of_sleep();
    hosts_tell_of_ends();
    hosts_show_open_sessions();
}

/// So it is of the whole acknowledgement of that frame, which brings nothing of a node, where before it nothing is to be noted, and no answer has had the line
/// give up the request.
pub fn hosts_judge_frames()
    ensures { (keys : Keys) (heeds : Heeds) (event : RequestsEvent) (past rest : List Entry) (frame : List ℕ) (m : HostMachine) (c : Course) →
        Run (first_alone keys (Some [])) (Behind (told_requests event)) (past ++ acknowledges ∷ []) m → IsFrameEvent event → frame_next past ≡ frame ∷ [] →
        bringing_in frame ≡ [] → c.fits ≡ true → c.due ≡ [] → c.over ≡ is_none m.state.requests.under_way →
        (nat_lt c.ticked (clock past) ≡ true → Calm heeds past (clock past) c) → (c.over ≡ false → is_denied past ≡ false) →
        errand heeds.listing (past ++ acknowledges ∷ []) ≡ nodes_asked (past ++ acknowledges ∷ []) →
        GivesUpAsHost heeds (past ++ acknowledges ∷ []) m.state event (begun past c) →
        NotedSo (begun past c) (request_entries m.state event) (is_none (after m.state (Requests_do event BetweenTicks)).requests.under_way)
        (followed heeds past acknowledges rest c) }
{
    hosts_tell_of_sleep();
    hosts_tell_of_ends();
    hosts_show_open_sessions();
}

/// So it is where the information of a node has come, with which an interview ends well: the course has due that it did, where its record is kept, or that this
/// was not kept.
pub fn hosts_end_interviews()
    ensures kept { (keys : Keys) (heeds : Heeds) (n : ℕ) (listens : Bool) (classes : List ℕ) (update : Update) (keepings : List Bool) (past : List Entry)
        (m : HostMachine) (c : Course) → Run (first_alone keys (Some [])) (Behind (Interviews n listens classes update ∷ [])) past m →
        errand heeds.listing past ≡ nodes_asked past → c.over ≡ false → c.keepings ≡ true ∷ keepings →
        ends_by_frame heeds past c ≡ record c { over = true; keepings = keepings; due = c.due ++ Interviewed n ∷ [] } }
    ensures unkept { (keys : Keys) (heeds : Heeds) (n : ℕ) (update : Update) (keepings : List Bool) (past : List Entry) (m : HostMachine) (c : Course) →
        Run (first_alone keys (Some [])) (Behind (Interview_unkept n update ∷ [])) past m → errand heeds.listing past ≡ nodes_asked past → c.over ≡ false →
        c.keepings ≡ false ∷ keepings →
        ends_by_frame heeds past c ≡ record c { over = true; keepings = keepings; due = c.due ++ Unkept n ∷ [] } }
{
    hosts_tell_of_sleep();
    hosts_show_open_sessions();
}

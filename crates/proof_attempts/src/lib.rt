//! Which nodes a host counts as awake, when they fall asleep, its work, and the series of its attempts, by its transcript.
//!
//! A host alone (`proof_alone`) tells where a node wakes and falls asleep. So each node counts as awake by its transcript as it does in the host
//! (`hosts_count_awake`); and since each listens by it as there (`proof_requests`), it is held as long as by it (`hosts_hold_as_told`), where the report
//! that ends its session asks so, and wherever it does (`hosts_hold_as_asked`, `lines_hold_as_asked`). It falls asleep where its third attempt, or
//! telling it that there is no more for it, has ended, and wherever one of these has (`hosts_fall_asleep_as_told`, `lines_fall_asleep_as_told`, by
//! `hosts_tell_of_sleep`). Its work is in order at each step, and where it rests nothing that is due lacks its request (`hosts_work_in_order`,
//! `hosts_know_their_work`); a node that is told that there is no more for it waits for no other attempts with a command
//! (`hosts_tell_those_that_wait_for_nothing`). The last session of a node is open by the transcript as in the host (`hosts_show_open_sessions`); a series
//! of attempts grows by entries (`series_grow_by_entries`) as it goes in the host (`series_go_with_nodes`, `series_go_with_ticks`), so each series runs
//! by the transcript as in the host along each run (`hosts_run_series_as_told`). What a transcript tells of the attempts of a series goes with the node,
//! step by step (`attempts_go_with_nodes`), and says what its session has to send next (`attempts_tell_what_is_next`).
//! The definitions are in `specs/`: `Since` (what a tie of transcript and host owes to last, from where the host started, and how far a node has come in
//! a tick), `Waking`, `Kept`, `Working`, `Waiting`, `Series` and `Attempts`; and of sleep `Carried` (a No More Information is asked for only to tell a
//! node so), `Slept` (whether a node that is told so has slept since) and `Asleep` (that no node owes its sleep). `proofs/Lasting` has what each tie that
//! pays gets: a walk over all runs. `Ahead` has folds that look ahead, `Nodes`, `Releasing`, `Counting`, `Telling`, `Ticking` and `Holding` are of
//! waking, `Finishing` and `KeptAwake` of what a report asks, `Working` of work, `Doings` of what an event does to each node; `Opening`, `SeriesSteps`,
//! `SeriesTold` (by the entries of an event), `SeriesGoes` (in the host) and `SeriesTie` are of sessions and series, `AttemptsGo` of attempts. `Payloads`
//! and `Carried` are of what requests carry, `Requested` and `Wrote` of which events ask for one, `Late` of requests whose time is over, `Slept` of the
//! nodes that are told that there is no more; `Owing`, `Sleeping` and `Asleep` put sleep together.
#![tactic(auto)]

mod attempts;
mod holds;
mod series;
mod sleep;
mod waking;
mod work;

pub use attempts::{attempts_go_with_nodes, attempts_tell_what_is_next};
pub use holds::{hosts_hold_as_asked, lines_hold_as_asked};
pub use proof_requests::{
    hosts_ask_as_told, hosts_leave_nonces, hosts_listen_as_told, hosts_tell_of_ends,
    lines_are_a_hosts, what_is_heard_is_a_hosts,
};
pub use proof_work::{ends_of_tasks_are_told, laws_follow, tasks_end_in_order};
pub use series::{
    hosts_run_series_as_told, hosts_show_open_sessions, series_go_with_nodes, series_go_with_ticks,
    series_grow_by_entries,
};
pub use sleep::{hosts_fall_asleep_as_told, hosts_tell_of_sleep, lines_fall_asleep_as_told};
pub use waking::{hosts_count_awake, hosts_hold_as_told};
pub use work::{
    hosts_know_their_work, hosts_tell_those_that_wait_for_nothing, hosts_work_in_order,
};

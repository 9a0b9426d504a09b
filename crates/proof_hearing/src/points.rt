//! What is known of a host alone where it hears a payload, along its runs.

ghost use Rattle.std.specs.Prelude.{◌≡◌, ℕ, true, Some, None, List, []};
ghost use Rattle.s0_crypto.specs.Sealing.{keys_of};
ghost use Rattle.zw_text.specs.declared.entry.Entry.{Entry};
ghost use Rattle.law_transcript.specs.Units.{Carried};
ghost use Rattle.host_heard.specs.declared.told.Told.{Told};
ghost use Rattle.host_model.specs.State.{node_of};
ghost use Rattle.proof_choice.specs.proof_ends.proof_requests.law_host.Heard.{heeds_alone};
ghost use Rattle.proof_choice.specs.proof_ends.proof_requests.law_host.Nonces.{is_late};
ghost use Rattle.proof_choice.specs.proof_ends.proof_requests.proof_alone.State.{HostMachine, first_alone};
ghost use Rattle.proof_choice.specs.proof_ends.proof_requests.proof_alone.Phases.{Phase};
ghost use Rattle.proof_choice.specs.proof_ends.proof_requests.proof_alone.Runs.{Run};
ghost use Rattle.proof_hearing.specs.Hearing.{NotAsked, Point};

use proof_choice::{
    hosts_know_what_was_told, hosts_listen_as_told, hosts_show_open_sessions, laws_follow,
    orders_are_carried_as_said, tables_are_what_was_said,
};

/// At each phase of a run of a host alone but where a line was just said, over a keeper that tells its records and has none at first, where no plain text
/// waits of an attempt that is late, all is so that a payload or a request is to find: the host's facts, its tables and what nodes listed by the transcript,
/// its keys, and how orders are carried.
pub fn hosts_have_points()
    ensures { (key : List ℕ) (taken : List Entry → Carried → List Told) (here : Phase) (told : List Entry) (m : HostMachine) →
        Run (first_alone (keys_of key) (Some [])) here told m → NotAsked here → (n : ℕ) →
        (is_late (heeds_alone taken) told n ≡ true → (node_of m.state n).pending ≡ None) → Point key (heeds_alone taken) told n m.state }
{
    hosts_know_what_was_told();
    hosts_listen_as_told();
    hosts_show_open_sessions();
    tables_are_what_was_said();
    orders_are_carried_as_said();
    laws_follow();
}

//! The facts of the host after lines.

ghost use Rattle.proof_chip.specs.proof_world.host_model.Facts.{HostFacts};
ghost use Rattle.proof_chip.specs.proof_world.proof_serial.Host.{HostFits};
ghost use Rattle.proof_ready.specs.Ease.{AfterLines};

use proof_chip::{
    a_restart_keeps_what_is_held, attempts_have_what_they_give, facts_are_kept,
    lines_keep_and_ask_well,
};

/// After lines the host has its facts, and what it keeps and may write is short.
pub fn lines_leave_hosts_fit()
    ensures { AfterLines (λ devices past m. HostFacts m.host.state × HostFits m.host.state) }
{
    a_restart_keeps_what_is_held();
    attempts_have_what_they_give();
    facts_are_kept();
    lines_keep_and_ask_well();
}

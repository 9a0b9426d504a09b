//! A host that restarts.

ghost use Rattle.std.specs.Prelude.{◌≡◌};
ghost use Rattle.host_model.specs.Opening.{restarted};

use crate::HostCore;
use host_model::a_restart_keeps_what_is_held;
use host_parts::restart_all;

impl HostCore {
    /// The host restarts: of each node only what its records say is left, and a new series is due where a session is open and
    /// the node listens.
    pub fn restart(&mut self)
        ensures { self.new ≡ record self.old { state = restarted self.old.state } }
    {
        a_restart_keeps_what_is_held();
        restart_all(&mut self.nodes);
    }
}

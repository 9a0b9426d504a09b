//! What goes on the air for a session of a node: how its next attempt starts, and the segments of its message.

ghost use Rattle.std.specs.Prelude.{◌≡◌, Some, IfOk};
ghost use Rattle.std.specs.Option.{option_copied};
ghost use Rattle.supervision.specs.Host.{command_at as command_of_session};
ghost use Rattle.host_model.specs.State.{node_of};
ghost use Rattle.host_model.specs.Sessions.{open_segment};
ghost use Rattle.host_step.specs.Sessions.{StartsSo, command_in};

use crate::HostCore;
use host_parts::{Command, Start};
use zw_base::{NoMemory, NodeId, Payload};

impl HostCore {
    /// How the next attempt of the open session of a node starts. None where no session is open, or it has no command.
    pub fn start_of(&self, node: NodeId) -> Result<Option<Start>, NoMemory>
        ensures start { IfOk result (λ found.
            StartsSo self.now.state node found) }
    {
        let Some(session) = self.nodes.of(node).current() else {
            return Ok(None);
        };
        match self.command_of(node, session) {
            Some(command) => {
                let start = command.start(self.alloc, session)?;
                Ok(Some(start))
            }
            None => Ok(None),
        }
    }

    /// A segment of the message of a session of a node, counted from 0, where the message is cut and has it.
    pub fn segment(&self, node: NodeId, session: u64, at: u16) -> Result<Option<Payload>, NoMemory>
        ensures { IfOk result (λ found.
            found ≡ open_segment self.now.state
            (node_of self.now.state node) (Some session) at) }
    {
        let Some(command) = self.command_of(node, session) else {
            return Ok(None);
        };
        command.segment(self.alloc, session, at)
    }

    // The command of a session of a node.
    fn command_of(&self, node: NodeId, session: u64) -> Option<&Command>
        ensures { option_copied result ≡
            command_in self.now.state
            (command_of_session (node_of self.now.state
            node).book.commands session) }
    {
        self.command_at(self.nodes.of(node).command_of(session)?)
    }
}

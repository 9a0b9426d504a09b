//! Whether a plan can be written of commands.

ghost use Rattle.std.specs.Prelude.{◌≡◌, ◌<◌, ◌↔◌, IsTrue};
ghost use Rattle.encap.specs.Wraps.{AllCommands, is_crc16, is_within};
ghost use Rattle.encap.specs.Written.{AreShort, IsCount, IsSession, IsWrappable};

use crate::batch::check_command;
use crate::plan::{Outer, Plan, Supervised};
use zw_base::{Bytes, List};

/// The most commands of a batch.
const MAX_COUNT: usize = 255;

/// The greatest session.
const MAX_SESSION: u8 = 63;

/// The most bytes of a command that a fault can say.
const MAX_SAID: usize = 65535;

/// Whether `wrap` may be called: one command alone, or 1 to 255 in a batch, each fit to stand in the plan's wraps and at
/// most 65,535 bytes, and a session of at most 63.
pub fn is_wrappable(plan: &Plan, commands: &List<Bytes>) -> bool
    ensures { IsTrue result ↔ (IsWrappable plan.now commands.now.items × AreShort commands.now.items) }
{
    let commands = commands.as_slice();
    is_count(plan.batch, commands.len())
        && is_session(plan.session)
        && are_commands(commands, is_within(plan))
        && are_short(commands)
}

/// Whether a batch, or a message without one, has that many commands.
fn is_count(is_batch: bool, count: usize) -> bool
    ensures { IsTrue result ↔ IsCount is_batch count }
{
    if is_batch {
        1 <= count && count <= MAX_COUNT
    } else {
        count == 1
    }
}

/// Whether a Supervision Get can name the session.
fn is_session(session: Option<Supervised>) -> bool
    ensures { IsTrue result ↔ IsSession session }
{
    match session {
        None => true,
        Some(session) => session.id <= MAX_SESSION,
    }
}

/// Whether the plan has one of the wraps that are written here.
fn is_within(plan: &Plan) -> bool
    ensures { result ≡ is_within plan.now }
{
    plan.batch || is_crc16(plan.outer) || plan.channel.is_some() || plan.session.is_some()
}

/// Whether the outermost wrap is CRC-16.
fn is_crc16(outer: Outer) -> bool
    ensures { result ≡ is_crc16 outer }
{
    match outer {
        Outer::Crc16 => true,
        Outer::None | Outer::Security | Outer::Transport => false,
    }
}

/// Whether each is a command that may stand there.
fn are_commands(commands: &[Bytes], within: bool) -> bool
    ensures { IsTrue result ↔ AllCommands within commands.now }
{
    for command in commands {
        if check_command(command.as_slice(), within).is_err() {
            return false;
        }
    }
    true
}

/// Whether a fault can say the length of each.
fn are_short(commands: &[Bytes]) -> bool
    ensures { IsTrue result ↔ AreShort commands.now }
{
    for command in commands {
        if command.len() > MAX_SAID {
            return false;
        }
    }
    true
}

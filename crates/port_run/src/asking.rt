//! What a line asks of the host.

ghost use Rattle.std.specs.Prelude.{◌≡◌, ◌≢◌, IfOk, OnErr};
ghost use Rattle.port_run.specs.Steps.{place, Asked, IsStill};

use host_core::{Host, Question};
use host_keep::Keeper;
use host_orders::Refused;
use zw_base::NoMemory;
use zw_text::Line;

/// What the host answers to a line.
#[derive(Clone, Copy, Debug, PartialEq, Eq)]
pub enum Answer {
    /// It took what was asked for; a wait is over.
    Taken,
    /// The order is the command of that number.
    Command(u32),
    /// It refused.
    Refused,
}

/// The effect of a line but `wait`.
pub(crate) fn ask<P: Keeper>(
    host: &mut Host,
    line: &Line,
    keeper: &mut P,
) -> Result<Answer, NoMemory>
    ensures ok { IfOk result (λ answer. Asked line.now answer (place host.old (P.shelf keeper.old))
        (place host.new (P.shelf keeper.new))) }
    ensures err { OnErr result (IsStill (place host.old (P.shelf keeper.old))
        (place host.new (P.shelf keeper.new))) }
{
    match line {
        Line::Command { order } => match host.command(order, keeper) {
            Ok(number) => Ok(Answer::Command(number)),
            Err(refused) => refusal(refused),
        },
        Line::Join { node } => match host.join(*node, keeper) {
            Ok(()) => Ok(Answer::Taken),
            Err(refused) => refusal(refused),
        },
        Line::Send { node, word } => match host.send(*node, *word) {
            Ok(()) => Ok(Answer::Taken),
            Err(refused) => refusal(refused),
        },
        Line::Get { node, end } => match host.get(*node, *end) {
            Ok(()) => Ok(Answer::Taken),
            Err(refused) => refusal(refused),
        },
        Line::Interview { node } => match host.interview(*node) {
            Ok(()) => Ok(Answer::Taken),
            Err(refused) => refusal(refused),
        },
        Line::Probe => match host.ask(Question::Probe) {
            Ok(()) => Ok(Answer::Taken),
            Err(refused) => refusal(refused),
        },
        _ => Ok(Answer::Taken),
    }
}

// An allocation failure is no refusal.
fn refusal(refused: Refused) -> Result<Answer, NoMemory>
    ensures ok { IfOk result (λ answer. (answer ≡ Answer.Refused) × (refused ≢ Refused.NoMemory)) }
    ensures err { OnErr result (refused ≡ Refused.NoMemory) }
{
    match refused {
        Refused::NoMemory => Err(NoMemory),
        _ => Ok(Answer::Refused),
    }
}

//! What is entered of what the host refuses.

ghost use Rattle.std.specs.Prelude.{◌≡◌, Some, IfOk, OnErr};
ghost use Rattle.host_model.specs.Refusals.{shown};
ghost use Rattle.host_core.specs.Orders.{shown_uncancelled};

use crate::CancelFault;
use host_orders::Refused;
use zw_base::NoMemory;
use zw_text::Refusal;

/// What is entered of a refusal; an allocation failure is no refusal.
pub fn refusal_of(refused: Refused) -> Result<Refusal, NoMemory>
    ensures ok { IfOk result (λ refusal. shown refused ≡ Some refusal) }
    ensures err { OnErr result (refused ≡ Refused.NoMemory) }
{
    match refused {
        Refused::NotJoined => Ok(Refusal::NotJoined),
        Refused::NotInterviewed => Ok(Refusal::NotInterviewed),
        Refused::Unsupported(class) => Ok(Refusal::Unsupported { class }),
        Refused::BadValue => Ok(Refusal::BadValue),
        Refused::Unsupervised => Ok(Refusal::Unsupervised),
        Refused::TooLong(bytes) => Ok(Refusal::TooLong { bytes }),
        Refused::MailboxFull(waiting) => Ok(Refusal::MailboxFull { waiting }),
        Refused::StoreFull(properties) => Ok(Refusal::StoreFull { properties }),
        Refused::Secured => Ok(Refusal::Secured),
        Refused::QueueFull(waiting) => Ok(Refusal::QueueFull { waiting }),
        Refused::AlreadyJoined => Ok(Refusal::AlreadyJoined),
        Refused::KeeperFault => Ok(Refusal::KeeperFault),
        Refused::NoMemory => Err(NoMemory),
    }
}

/// What is entered of a command that is not cancelled; an allocation failure is no refusal.
pub fn uncancelled_as(command: u32, fault: CancelFault) -> Result<Refusal, NoMemory>
    ensures ok { IfOk result (λ refusal.
        shown_uncancelled command fault ≡ Some refusal) }
    ensures err { OnErr result (fault ≡ CancelFault.NoMemory) }
{
    match fault {
        CancelFault::NotWaiting => Ok(Refusal::NotWaiting { command }),
        CancelFault::KeeperFault => Ok(Refusal::KeeperFault),
        CancelFault::NoMemory => Err(NoMemory),
    }
}

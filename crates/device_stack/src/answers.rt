//! What a device reports of its sessions.

ghost use Rattle.std.specs.Prelude.{◌≡◌, ◌<◌};
ghost use Rattle.device_kinds.specs.Telling.{IsAnswer};
ghost use Rattle.device_stack.specs.Answers.{asks_to_wake, status_report, final_report};

use crate::Stack;
use class_info::{InfoMessage, ReportStatus};
use device_kinds::{session, status_of};
use encap::Supervised;
use supervision::{WORKING, session_id};

/// The first node whose sensors ask to be kept awake.
const FIRST_OF_VERSION_2: u8 = 101;

/// The byte of the time until a later report, in seconds.
const WORK_SECONDS: u8 = 1;

impl Stack {
    /// Whether it asks with each final status to be kept awake.
    fn asks_to_wake(&self) -> bool
        ensures { result ≡ asks_to_wake self.now }
    {
        !self.kind.listens() && self.node.number() >= FIRST_OF_VERSION_2
    }

    /// The report of a status that answers a Get.
    pub(crate) fn status_report(&self, asked: Supervised, status: u8) -> InfoMessage
        requires { asked.id < 64 }
        ensures value { result ≡ status_report self.now asked status }
        ensures answer { IsAnswer result }
    {
        let session = session(asked.id);
        if status == WORKING {
            return InfoMessage::SupervisionReport {
                more: asked.updates,
                wake_request: false,
                session,
                status: ReportStatus::Working,
                duration: WORK_SECONDS,
            };
        }
        InfoMessage::SupervisionReport {
            more: false,
            wake_request: self.asks_to_wake(),
            session,
            status: status_of(status),
            duration: 0,
        }
    }

    /// The report of the end of the work of the last session taken.
    pub(crate) fn final_report(&self) -> InfoMessage
        ensures value { result ≡ final_report self.now }
        ensures answer { IsAnswer result }
    {
        InfoMessage::SupervisionReport {
            more: false,
            wake_request: self.asks_to_wake(),
            session: session(session_id(self.sessions.taken())),
            status: ReportStatus::Success,
            duration: 0,
        }
    }
}

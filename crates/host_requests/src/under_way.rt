//! The request under way, and what each event makes of it.

ghost use Rattle.std.specs.Prelude.{◌≡◌};
ghost use Rattle.chip_functions.specs.Response.{response_function};
ghost use Rattle.host_requests.specs.Next.{acknowledged};

use crate::next::Next;
use crate::{How, Purpose, Task};
use chip_functions::{
    GET_CAPABILITIES, GET_INIT_DATA, GET_NODE_PROTOCOL_INFO, GET_ROUTING_INFO, GET_VERSION,
    IS_FAILED_NODE, MEMORY_GET_ID, REFUSED, REQUEST_NODE_INFO, Response, SEND_DATA, TransmitStatus,
    Update,
};

/// The ticks in which a response comes after the frame was acknowledged.
pub const RESPONSE_TICKS: u8 = 15;

/// The ticks in which a callback or an ApplicationUpdate comes after the response.
pub const NOTICE_TICKS: u8 = 65;

/// How far a request has come. Ticks are of 100 ms, and those left are at least 1.
#[derive(Clone, Copy, Debug, PartialEq, Eq)]
pub enum Progress {
    /// Its frame is not acknowledged, and no response came.
    Submitted,
    /// Its frame was acknowledged. It waits so many ticks for its response, at most 15.
    Sent { ticks_left: u8 },
    /// A response said that it was taken, perhaps before its frame was acknowledged. It waits so many ticks for its
    /// callback or ApplicationUpdate, at most 65.
    Answered { sent: bool, ticks_left: u8 },
}

impl Progress {
    ghost use Rattle.host_requests.specs.Next.{is_answered, is_sent, counted_down};

    /// True where a response came.
    pub fn is_answered(&self) -> bool
        ensures { result ≡ is_answered self.now }
    {
        matches!(self, Progress::Answered { .. })
    }

    /// True where its frame was acknowledged.
    pub fn is_sent(&self) -> bool
        ensures { result ≡ is_sent self.now }
    {
        match self {
            Progress::Submitted => false,
            Progress::Sent { .. } => true,
            Progress::Answered { sent, .. } => *sent,
        }
    }

    /// A tick later. None where its wait has ended.
    fn counted_down(&self) -> Option<Progress>
        ensures { result ≡ counted_down self.now }
    {
        match self {
            Progress::Submitted => Some(Progress::Submitted),
            Progress::Sent { ticks_left } if *ticks_left > 1 => Some(Progress::Sent {
                ticks_left: *ticks_left - 1,
            }),
            Progress::Answered { sent, ticks_left } if *ticks_left > 1 => {
                Some(Progress::Answered {
                    sent: *sent,
                    ticks_left: *ticks_left - 1,
                })
            }
            _ => None,
        }
    }
}

/// The request under way.
#[derive(Drop)]
pub struct UnderWay {
    pub purpose: Purpose,
    pub progress: Progress,
}

/// The function of a response.
fn function(response: &Response) -> u8
    ensures { result ≡ response_function response.now }
{
    match response {
        Response::GetInitData { .. } => GET_INIT_DATA,
        Response::GetCapabilities { .. } => GET_CAPABILITIES,
        Response::SendData { .. } => SEND_DATA,
        Response::GetVersion { .. } => GET_VERSION,
        Response::MemoryGetId { .. } => MEMORY_GET_ID,
        Response::GetNodeProtocolInfo { .. } => GET_NODE_PROTOCOL_INFO,
        Response::RequestNodeInfo { .. } => REQUEST_NODE_INFO,
        Response::IsFailedNode { .. } => IS_FAILED_NODE,
        Response::GetRoutingInfo { .. } => GET_ROUTING_INFO,
    }
}

/// The frame of a request that is not answered was acknowledged.
fn acknowledged(purpose: &Purpose) -> Next
    ensures { result ≡ acknowledged purpose.now }
{
    match purpose {
        Purpose::Abort => Next::Ends(How::AbortSent),
        _ => Next::GoesOn(Progress::Sent {
            ticks_left: RESPONSE_TICKS,
        }),
    }
}

impl UnderWay {
    ghost use Rattle.host_requests.specs.Next.{at_sent, at_response, judged, taken, at_callback, at_update, ends_at_update, at_tick, owes_abort};

    /// The link said that the frame was acknowledged.
    pub(crate) fn at_sent(&self) -> Next
        ensures { result ≡ at_sent self.now }
    {
        match self.progress {
            Progress::Submitted => acknowledged(&self.purpose),
            Progress::Sent { ticks_left } => Next::GoesOn(Progress::Sent { ticks_left }),
            Progress::Answered { ticks_left, .. } => Next::GoesOn(Progress::Answered {
                sent: true,
                ticks_left,
            }),
        }
    }

    /// A response of the chip.
    pub(crate) fn at_response(&self, response: Response) -> Next
        ensures { result ≡ at_response response self.now }
    {
        if self.progress.is_answered() || function(&response) != self.purpose.function() {
            return Next::GoesOn(self.progress);
        }
        self.judge(response)
    }

    /// The response to this request.
    fn judge(&self, response: Response) -> Next
        ensures { result ≡ judged response self.now }
    {
        match response {
            Response::SendData { answer } | Response::RequestNodeInfo { answer } => {
                self.taken(answer)
            }
            other => Next::Ends(How::AtResponse(other)),
        }
    }

    /// The answer to a SendData or a RequestNodeInfo.
    fn taken(&self, answer: u8) -> Next
        ensures { result ≡ taken answer self.now }
    {
        if answer == REFUSED {
            return Next::Ends(How::Refused);
        }
        Next::GoesOn(Progress::Answered {
            sent: self.progress.is_sent(),
            ticks_left: NOTICE_TICKS,
        })
    }

    /// A callback, where the last SendData had this id.
    pub(crate) fn at_callback(&self, last_id: u8, id: u8, status: TransmitStatus) -> Next
        ensures { result ≡ at_callback last_id id status self.now }
    {
        if self.purpose.function() == SEND_DATA && id == last_id {
            return Next::Ends(How::AtCallback(status));
        }
        Next::GoesOn(self.progress)
    }

    /// True where it is a RequestNodeInfo that ends at this update.
    pub(crate) fn ends_at_update(&self, update: &Update) -> bool
        ensures { result ≡ ends_at_update update.now self.now }
    {
        let Purpose::Housekeeping(Task::Second { node: asked }) = &self.purpose else {
            return false;
        };
        match update {
            Update::Received { node, .. } => *node == *asked,
            Update::RequestFailed => true,
        }
    }

    /// An ApplicationUpdate, where the first request of the interview said this.
    pub(crate) fn at_update(&self, first: Option<u8>, update: Update) -> Next
        ensures { result ≡ at_update first update self.now }
    {
        if self.ends_at_update(&update) {
            return Next::Ends(How::AtUpdate {
                update,
                capability: first,
            });
        }
        Next::GoesOn(self.progress)
    }

    /// A tick.
    pub(crate) fn at_tick(&self) -> Next
        ensures { result ≡ at_tick self.now }
    {
        match self.progress.counted_down() {
            Some(progress) => Next::GoesOn(progress),
            None => Next::Ends(How::Silent),
        }
    }

    /// True where it is a SendData that was answered and ended in silence.
    pub(crate) fn owes_abort(&self, how: &How) -> bool
        ensures { result ≡ owes_abort self.now how.now }
    {
        matches!(how, How::Silent)
            && self.progress.is_answered()
            && self.purpose.function() == SEND_DATA
    }
}

//! All that the host keeps of its requests.

ghost use Rattle.std.specs.Prelude.{◌≡◌, ◌↔◌, ◌+◌, ◌<◌, ◌≤◌, [], None, false, length, slice_get, IsTrue, IfOk};
ghost use Rattle.std.specs.Option.{option_copied, option_map};
ghost use Rattle.host_requests.specs.Frames.{StandsAlone, frame_of};
ghost use Rattle.host_requests.specs.State.{no_requests, next_id, begun};
ghost use Rattle.host_requests.specs.Next.{after_next, end_of_next, finished};
ghost use Rattle.host_requests.specs.Events.{after, end_at, interviewed_by};
ghost use Rattle.host_requests.specs.Events.RequestsEvent.{
  Pushes,
  PushesInterview,
  PushesProbe,
  BeginsAbort,
  BeginsPrefix,
  BeginsAttempt,
  IsSent,
  Fails,
  Responds,
  CallsBack,
  Updates,
  Ticks,
  Forgets,
};
ghost use Rattle.host_requests.specs.declared.task.Purpose.TheVariants.{Housekeeping, Attempt, Abort};

use crate::frame::{send, task_frame};
use crate::next::Next;
use crate::{End, How, Progress, Purpose, Task, UnderWay};
use chip_functions::{Request, Response, SEND_DATA, TransmitStatus, Update, write_request};
use serial_frame::Frame;
use std::alloc::Global;
use std::collections::VecDeque;
use std::marker::Model;
use zw_base::{NoMemory, NodeId, Payload};

/// The most tasks that wait.
pub const QUEUE_CAPACITY: u8 = 64;

/// The greatest callback id. After it comes 1.
const MAX_CALLBACK_ID: u8 = 255;

/// The request under way, whether an abort is owed, the tasks that wait, the callback id given last (0 where none was),
/// and the capability byte that the first request of an interview has brought. Contracts see the five.
#[derive(Drop)]
pub struct Requests {
    under_way: Option<UnderWay>,
    owes: bool,
    queue: VecDeque<Task>,
    last_id: u8,
    first: Option<u8>,
}

impl Model for Requests {
    ghost use Rattle.host_requests.specs.State.{RequestsState};

    ghost Value = { RequestsState };

    ghost use Rattle.host_requests.specs.Inside.{state_of, IsInside};

    ghost view = { state_of };

    ghost invariant = { IsInside };
}

impl Requests {
    /// Makes the room for all that may wait. Nothing is under way, owed or waiting, and no callback id was given.
    pub fn new(alloc: Global) -> Result<Requests, NoMemory>
        ensures { IfOk result (λ requests. requests ≡ no_requests) }
    {
        Ok(Requests {
            under_way: None,
            owes: false,
            queue: VecDeque::with_capacity(alloc, QUEUE_CAPACITY as usize)?,
            last_id: 0,
            first: None,
        })
    }

    /// True where no request is under way.
    pub fn is_idle(&self) -> bool
        ensures { IsTrue result ↔ (self.now.under_way ≡ None) }
    {
        self.under_way.is_none()
    }

    /// The request under way.
    pub fn under_way(&self) -> Option<&UnderWay>
        ensures { option_copied result ≡ self.now.under_way }
    {
        self.under_way.as_ref()
    }

    /// True where an abort is owed.
    pub fn owes_abort(&self) -> bool
        ensures { result ≡ self.now.owes }
    {
        self.owes
    }

    /// How many tasks wait, 0 to 64.
    pub fn len(&self) -> u8
        ensures count { result ≡ length self.now.queue }
        ensures bound { result ≤ QUEUE_CAPACITY }
    {
        self.queue.len() as u8
    }

    /// True where no task waits.
    pub fn is_empty(&self) -> bool
        ensures { IsTrue result ↔ (self.now.queue ≡ []) }
    {
        self.queue.is_empty()
    }

    /// True where 64 tasks wait.
    pub fn is_full(&self) -> bool
        ensures { IsTrue result ↔ (length self.now.queue ≡ QUEUE_CAPACITY) }
    {
        self.queue.len() >= QUEUE_CAPACITY as usize
    }

    /// The task that has waited longest.
    pub fn front(&self) -> Option<&Task>
        ensures { option_copied result ≡ slice_get self.now.queue 0 }
    {
        self.queue.front()
    }

    /// A task waits after the others. The two of an interview come by `push_interview`.
    pub fn push(&mut self, task: Task)
        requires alone { StandsAlone task }
        requires room { length self.old.queue < QUEUE_CAPACITY }
        ensures { self.new ≡ after self.old (Pushes task) }
    {
        self.queue.push_back_reserved(task);
    }

    /// The two tasks of an interview wait after the others.
    pub fn push_interview(&mut self, node: NodeId)
        requires { length self.old.queue + 2 ≤ QUEUE_CAPACITY }
        ensures { self.new ≡ after self.old (PushesInterview node) }
    {
        self.queue.push_back_reserved(Task::First { node });
        self.queue.push_back_reserved(Task::Second { node });
    }

    /// The three tasks of a probe wait after the others.
    pub fn push_probe(&mut self)
        requires { length self.old.queue + 3 ≤ QUEUE_CAPACITY }
        ensures { self.new ≡ after self.old PushesProbe }
    {
        self.queue.push_back_reserved(Task::Version);
        self.queue.push_back_reserved(Task::MemoryId);
        self.queue.push_back_reserved(Task::Capabilities);
    }

    /// The callback id that the next SendData takes, 1 to 255.
    fn next_id(&self) -> u8
        ensures value { result ≡ next_id self.now.last_id }
        ensures from_one { 1 ≤ result }
    {
        self.last_id % MAX_CALLBACK_ID + 1
    }

    /// The frame of an abort.
    pub fn abort_frame(&self, alloc: Global) -> Result<Frame, NoMemory>
        ensures { IfOk result (λ frame.
            frame ≡ frame_of Abort (next_id self.now.last_id)) }
    {
        write_request(alloc, &Request::SendDataAbort)
    }

    /// The frame of the task that has waited longest, where one waits.
    pub fn front_frame(&self, alloc: Global) -> Result<Option<Frame>, NoMemory>
        ensures { IfOk result (λ frame. frame ≡ option_map (λ task.
            frame_of (Housekeeping task) (next_id self.now.last_id))
            (slice_get self.now.queue 0)) }
    {
        match self.queue.front() {
            Some(task) => Ok(Some(task_frame(alloc, task, self.next_id())?)),
            None => Ok(None),
        }
    }

    /// The frame of a part of an attempt.
    pub fn attempt_frame(
        &self,
        alloc: Global,
        node: NodeId,
        payload: &Payload,
    ) -> Result<Frame, NoMemory>
        requires { 1 ≤ length payload.now }
        ensures { IfOk result (λ frame.
            frame ≡ frame_of (Attempt node false payload.now)
            (next_id self.now.last_id)) }
    {
        let request = send(alloc, node, payload.bytes(), self.next_id())?;
        write_request(alloc, &request)
    }

    /// The owed abort is submitted to the link.
    pub fn begin_abort(&mut self)
        requires idle { self.old.under_way ≡ None }
        requires owed { IsTrue self.old.owes }
        ensures { self.new ≡ after self.old BeginsAbort }
    {
        self.owes = false;
        self.begin(Purpose::Abort);
    }

    /// The task that has waited longest is submitted to the link. Nothing is where none waits.
    pub fn begin_front(&mut self)
        requires idle { self.old.under_way ≡ None }
        requires paid { self.old.owes ≡ false }
        ensures { self.new ≡ after self.old BeginsPrefix }
    {
        if let Some(task) = self.queue.pop_front() {
            self.begin(Purpose::Housekeeping(task));
        }
    }

    /// A part of an attempt is submitted to the link. `more` says that it is a segment and not the last one.
    pub fn begin_attempt(&mut self, node: NodeId, more: bool, payload: Payload)
        requires idle { self.old.under_way ≡ None }
        requires paid { self.old.owes ≡ false }
        requires none_waits { self.old.queue ≡ [] }
        requires payload { 1 ≤ length payload }
        ensures { self.new ≡ after self.old (BeginsAttempt node more payload) }
    {
        self.begin(Purpose::Attempt {
            node,
            more,
            payload,
        });
    }

    /// A request is under way. A SendData takes the next callback id.
    fn begin(&mut self, purpose: Purpose)
        ensures { self.new ≡ begun self.old purpose }
    {
        if purpose.function() == SEND_DATA {
            self.last_id = self.next_id();
        }
        self.under_way = Some(UnderWay {
            purpose,
            progress: Progress::Submitted,
        });
    }

    /// The request under way goes on, or ends.
    fn take_next(&mut self, next: Next) -> Option<End>
        ensures state { self.new ≡ after_next self.old (λ _. next) }
        ensures end { result ≡ end_of_next self.old (λ _. next) }
    {
        let under_way = self.under_way.take()?;
        match next {
            Next::GoesOn(progress) => {
                self.under_way = Some(UnderWay {
                    purpose: under_way.purpose,
                    progress,
                });
                None
            }
            Next::Ends(how) => Some(self.finish(under_way, how)),
        }
    }

    /// The request under way has ended.
    fn finish(&mut self, under_way: UnderWay, how: How) -> End
        requires { self.old.under_way ≡ None }
        ensures state { self.new ≡ finished self.old under_way how }
        ensures end { result ≡
            record { purpose = under_way.purpose; how = how } }
    {
        self.owes = under_way.owes_abort(&how);
        self.first = how.capability();
        End {
            purpose: under_way.purpose,
            how,
        }
    }

    /// The link said that a frame was acknowledged.
    pub fn sent(&mut self) -> Option<End>
        ensures state { self.new ≡ after self.old IsSent }
        ensures end { result ≡ end_at self.old IsSent }
    {
        let next = self.under_way.as_ref()?.at_sent();
        self.take_next(next)
    }

    /// The link said that a frame was not acknowledged in any of its copies.
    pub fn failed(&mut self) -> Option<End>
        ensures state { self.new ≡ after self.old Fails }
        ensures end { result ≡ end_at self.old Fails }
    {
        self.take_next(Next::Ends(How::LinkFailed))
    }

    /// The chip sent a response.
    pub fn response(&mut self, response: Response) -> Option<End>
        ensures state { self.new ≡ after self.old (Responds response) }
        ensures end { result ≡ end_at self.old (Responds response) }
    {
        let next = self.under_way.as_ref()?.at_response(response);
        self.take_next(next)
    }

    /// The chip sent the callback of the SendData with this id.
    pub fn callback(&mut self, id: u8, status: TransmitStatus) -> Option<End>
        ensures state { self.new ≡ after self.old (CallsBack id status) }
        ensures end { result ≡ end_at self.old (CallsBack id status) }
    {
        let next = self
            .under_way
            .as_ref()?
            .at_callback(self.last_id, id, status);
        self.take_next(next)
    }

    /// The chip sent an ApplicationUpdate.
    pub fn update(&mut self, update: Update) -> Option<End>
        ensures state { self.new ≡ after self.old (Updates update) }
        ensures end { result ≡ end_at self.old (Updates update) }
    {
        let next = self.under_way.as_ref()?.at_update(self.first, update);
        self.take_next(next)
    }

    /// The capability byte of the interview that ends well at this update, where one does.
    pub fn interviewed_by(&self, update: &Update) -> Option<u8>
        ensures { result ≡ interviewed_by self.now update.now }
    {
        match update {
            Update::Received { .. } if self.under_way.as_ref()?.ends_at_update(update) =>
                self.first,
            _ => None,
        }
    }

    /// A tick of 100 ms.
    pub fn tick(&mut self) -> Option<End>
        ensures state { self.new ≡ after self.old Ticks }
        ensures end { result ≡ end_at self.old Ticks }
    {
        let next = self.under_way.as_ref()?.at_tick();
        self.take_next(next)
    }

    /// Everything is as at the beginning: the host starts anew.
    pub fn forget(&mut self)
        ensures { self.new ≡ after self.old Forgets }
    {
        self.under_way = None;
        self.owes = false;
        self.queue.clear();
        self.last_id = 0;
        self.first = None;
    }
}

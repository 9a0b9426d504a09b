//! What a user asks of the host.

ghost use Rattle.std.specs.Prelude.{◌≡◌, ◌+◌, ◌<◌, ◌≤◌, ◌∷◌, [], length, Some, None, Err, IfOk, OnOk, OnErr};
ghost use Rattle.host_keep.specs.Keeping.{Adds, Fails};
ghost use Rattle.host_orders.specs.Errands.{RefusesOrNone, send_refusal, send_text, get_refusal, get_text};
ghost use Rattle.host_orders.specs.Refusals.{Refuses, classes_of};
ghost use Rattle.host_requests.specs.Frames.{StandsAlone};
ghost use Rattle.host_requests.specs.declared.task.Task.TheVariants.{Plain};
ghost use Rattle.host_model.specs.Asking.{carriage_for, refusal_for, join_refusal, interview_refusal, places_refusal, Waits};
ghost use Rattle.host_parts.specs.Choices.{Judges};
ghost use Rattle.host_model.specs.State.{node_of};
ghost use Rattle.host_model.specs.May.{known_of};
ghost use Rattle.host_model.specs.Events.{Accepts, Cancels, Joins, Queues, Queues_interview};
ghost use Rattle.host_step_bytes.specs.Calls.{scene, Are, Does, DoesAlone};
ghost use Rattle.host_core.specs.Orders.{places_of, question_event, KeptOrRefused, CancelsOrNot};
ghost use Rattle.host_core.specs.Recorded.{TablesAreTold, SameTables};

use crate::Host;
use crate::laws::tables_stand_in_the_records;
use host_keep::Keeper;
use host_orders::{Refused, get_payload, send_payload};
use host_requests::{QUEUE_CAPACITY, Task};
use zw_base::{EndPoint, NoMemory, NodeId, Order, Payload, Word};

/// The requests of an interview, and those of a probe.
const INTERVIEW: u8 = 2;

const PROBE: u8 = 3;

/// The controller's own node.
const CONTROLLER: u8 = 1;

/// What may be asked of the chip.
#[derive(Clone, Copy, Debug, PartialEq, Eq)]
pub enum Question {
    /// Which nodes there are, and which chip it is.
    Members,
    /// Which nodes hear a node.
    Neighbours(NodeId),
    /// Whether the chip counts a node as failed.
    Failed(NodeId),
    /// The version of the chip, its home and its functions.
    Probe,
}

/// Why a command is not cancelled.
#[derive(Clone, Copy, Debug, PartialEq, Eq)]
pub enum CancelFault {
    /// It does not wait.
    NotWaiting,
    /// The keeper did not keep the record.
    KeeperFault,
    /// There was no memory.
    NoMemory,
}

impl From<NoMemory> for CancelFault {
    ghost use Rattle.std.specs.Prelude.{◌≡◌};
    ghost use Rattle.host_core.specs.declared.orders.CancelFault.TheVariants.{NoMemory as no_memory};

    ghost from_gives = { λ _ e. e ≡ no_memory };

    fn from(_error: NoMemory) -> CancelFault {
        CancelFault::NoMemory
    }
}

impl Host {
    /// A node joins, once that is kept.
    pub fn join<P: Keeper>(&mut self, node: NodeId, keeper: &mut P) -> Result<(), Refused>
        ensures judged { KeptOrRefused result
            (join_refusal self.old.state node) }
        ensures ok { OnOk result
            (Does (Are (Joins node ∷ []))
            (scene self.old.state [] (P.shelf keeper.old))
            (scene self.new.state [] (P.shelf keeper.new))) }
        ensures decoder { self.new.decoder ≡ self.old.decoder }
        ensures err { OnErr result (self.new ≡ self.old) }
        ensures no_record { OnErr result
            (Adds [] (P.shelf keeper.old) (P.shelf keeper.new)) }
        ensures failed { result ≡ Err Refused.KeeperFault →
            Fails (P.shelf keeper.old) (P.shelf keeper.new) }
        ensures never_falls { (P.shelf keeper.old).faults ≤ (P.shelf keeper.new).faults }
        ensures never_fewer { P.number keeper.old ≤ P.number keeper.new }
        ensures reads { P.reads keeper.new ≡ P.reads keeper.old }
        ensures tables { TablesAreTold
            (P.shelf keeper.old).records self.old.state →
            TablesAreTold (P.shelf keeper.new).records self.new.state }
    {
        if self.core.node(node).is_joined() || node.number() == CONTROLLER {
            return Err(Refused::AlreadyJoined);
        }
        if host_step_kept::join(&mut self.core, node, keeper)? {
            Ok(())
        } else {
            Err(Refused::KeeperFault)
        }
    }

    /// An order becomes the command of the next number, which waits for its node, once that is kept; or it is refused by the
    /// first of the rules that applies.
    pub fn command<P: Keeper>(&mut self, order: &Order, keeper: &mut P) -> Result<u32, Refused>
        ensures judged { Judges result (refusal_for self.old.state order.now) }
        ensures number { IfOk result (λ number.
            number ≡ length self.old.state.commands + 1) }
        ensures ok { OnOk result
            (Does (Are (Accepts order.now
            (carriage_for self.old.state order.now) ∷ []))
            (scene self.old.state [] (P.shelf keeper.old))
            (scene self.new.state [] (P.shelf keeper.new))) }
        ensures decoder { self.new.decoder ≡ self.old.decoder }
        ensures err { OnErr result (self.new ≡ self.old) }
        ensures no_record { OnErr result
            (Adds [] (P.shelf keeper.old) (P.shelf keeper.new)) }
        ensures failed { result ≡ Err Refused.KeeperFault →
            Fails (P.shelf keeper.old) (P.shelf keeper.new) }
        ensures never_falls { (P.shelf keeper.old).faults ≤ (P.shelf keeper.new).faults }
        ensures more { OnOk result (P.number keeper.old < P.number keeper.new) }
        ensures never_fewer { P.number keeper.old ≤ P.number keeper.new }
        ensures reads { P.reads keeper.new ≡ P.reads keeper.old }
        ensures tables { TablesAreTold
            (P.shelf keeper.old).records self.old.state →
            TablesAreTold (P.shelf keeper.new).records self.new.state }
    {
        tables_stand_in_the_records();
        self.core.accept(order, keeper)
    }

    /// A command that waits is taken out of its mailbox, once that is kept.
    pub fn cancel<P: Keeper>(&mut self, command: u32, keeper: &mut P) -> Result<(), CancelFault>
        ensures judged { CancelsOrNot result (Waits self.old.state command) }
        ensures ok { OnOk result
            (Does (Are (Cancels command ∷ []))
            (scene self.old.state [] (P.shelf keeper.old))
            (scene self.new.state [] (P.shelf keeper.new))) }
        ensures decoder { self.new.decoder ≡ self.old.decoder }
        ensures err { OnErr result (self.new ≡ self.old) }
        ensures no_record { OnErr result
            (Adds [] (P.shelf keeper.old) (P.shelf keeper.new)) }
        ensures failed { result ≡ Err CancelFault.KeeperFault →
            Fails (P.shelf keeper.old) (P.shelf keeper.new) }
        ensures never_falls { (P.shelf keeper.old).faults ≤ (P.shelf keeper.new).faults }
        ensures never_fewer { P.number keeper.old ≤ P.number keeper.new }
        ensures reads { P.reads keeper.new ≡ P.reads keeper.old }
        ensures tables { TablesAreTold
            (P.shelf keeper.old).records self.old.state →
            TablesAreTold (P.shelf keeper.new).records self.new.state }
    {
        let node = match self.core.command_at(command) {
            Some(found) => found.order().node,
            None => return Err(CancelFault::NotWaiting),
        };
        if !self.core.node(node).waits(command) {
            return Err(CancelFault::NotWaiting);
        }
        if host_step_kept::cancel(&mut self.core, node, command, keeper)? {
            Ok(())
        } else {
            Err(CancelFault::KeeperFault)
        }
    }

    /// A Set that is not reported waits to be sent.
    pub fn send(&mut self, node: NodeId, word: Word) -> Result<(), Refused>
        ensures judged { RefusesOrNone result
            (send_refusal (known_of (node_of self.old.state node))
            (length self.old.state.requests.queue) word) }
        ensures ok { OnOk result (DoesAlone
            (Are (Queues (Plain node
            (send_text (classes_of (known_of (node_of self.old.state node)))
            word)) ∷ []))
            self.old.state [] self.new.state []) }
        ensures decoder { self.new.decoder ≡ self.old.decoder }
        ensures err { OnErr result (self.new ≡ self.old) }
        ensures tables { SameTables self.old.state self.new.state }
    {
        let payload = self.set_text(node, word)?;
        self.core.queue(Task::Plain { node, payload });
        Ok(())
    }

    /// A Get waits to be sent.
    pub fn get(&mut self, node: NodeId, end: EndPoint) -> Result<(), Refused>
        ensures judged { RefusesOrNone result
            (get_refusal (known_of (node_of self.old.state node))
            (length self.old.state.requests.queue) end) }
        ensures ok { OnOk result (DoesAlone
            (Are (Queues (Plain node
            (get_text (classes_of (known_of (node_of self.old.state node)))
            end)) ∷ []))
            self.old.state [] self.new.state []) }
        ensures decoder { self.new.decoder ≡ self.old.decoder }
        ensures err { OnErr result (self.new ≡ self.old) }
        ensures tables { SameTables self.old.state self.new.state }
    {
        let payload = self.get_text(node, end)?;
        self.core.queue(Task::Plain { node, payload });
        Ok(())
    }

    /// The two requests of an interview wait to be submitted.
    pub fn interview(&mut self, node: NodeId) -> Result<(), Refused>
        ensures judged { Refuses result
            (interview_refusal self.old.state node) }
        ensures ok { OnOk result
            (DoesAlone (Are (Queues_interview node ∷ []))
            self.old.state [] self.new.state []) }
        ensures decoder { self.new.decoder ≡ self.old.decoder }
        ensures err { OnErr result (self.new ≡ self.old) }
        ensures tables { SameTables self.old.state self.new.state }
    {
        if !self.core.node(node).is_joined() {
            return Err(Refused::NotJoined);
        }
        self.need_places(INTERVIEW)?;
        self.core.queue_interview(node);
        Ok(())
    }

    /// A question to the chip waits to be submitted.
    pub fn ask(&mut self, question: Question) -> Result<(), Refused>
        ensures judged { Refuses result
            (places_refusal self.old.state (places_of question)) }
        ensures ok { OnOk result
            (DoesAlone (Are (question_event question ∷ []))
            self.old.state [] self.new.state []) }
        ensures decoder { self.new.decoder ≡ self.old.decoder }
        ensures err { OnErr result (self.new ≡ self.old) }
        ensures tables { SameTables self.old.state self.new.state }
    {
        match question {
            Question::Members => self.queue_one(Task::Members),
            Question::Neighbours(node) => self.queue_one(Task::Neighbours { node }),
            Question::Failed(node) => self.queue_one(Task::IsFailed { node }),
            Question::Probe => {
                self.need_places(PROBE)?;
                self.core.queue_probe();
                Ok(())
            }
        }
    }

    // The payload of a Set that is not reported, where no rule refuses it. Then there is a place for it.
    fn set_text(&self, node: NodeId, word: Word) -> Result<Payload, Refused>
        ensures judged { RefusesOrNone result
            (send_refusal (known_of (node_of self.now.state node))
            (length self.now.state.requests.queue) word) }
        ensures text { IfOk result (λ payload.
            payload ≡ send_text (classes_of
            (known_of (node_of self.now.state node))) word) }
        ensures some { IfOk result (λ payload. 1 ≤ length payload) }
        ensures room { OnOk result (length self.now.state.requests.queue < 64) }
    {
        let state = self.core.node(node);
        let queued = self.core.requests().len();
        send_payload(
            self.core.alloc(),
            state.is_joined(),
            state.class_list(),
            queued,
            word,
        )
    }

    // The same of a Get.
    fn get_text(&self, node: NodeId, end: EndPoint) -> Result<Payload, Refused>
        ensures judged { RefusesOrNone result
            (get_refusal (known_of (node_of self.now.state node))
            (length self.now.state.requests.queue) end) }
        ensures text { IfOk result (λ payload.
            payload ≡ get_text (classes_of
            (known_of (node_of self.now.state node))) end) }
        ensures some { IfOk result (λ payload. 1 ≤ length payload) }
        ensures room { OnOk result (length self.now.state.requests.queue < 64) }
    {
        let state = self.core.node(node);
        let queued = self.core.requests().len();
        get_payload(
            self.core.alloc(),
            state.is_joined(),
            state.class_list(),
            queued,
            end,
        )
    }

    // A task that stands alone waits after the others, where it finds a place.
    fn queue_one(&mut self, task: Task) -> Result<(), Refused>
        requires { StandsAlone task }
        ensures judged { Refuses result (places_refusal self.old.state 1) }
        ensures ok { OnOk result
            (DoesAlone (Are (Queues task ∷ []))
            self.old.state [] self.new.state []) }
        ensures decoder { self.new.decoder ≡ self.old.decoder }
        ensures err { OnErr result (self.new ≡ self.old) }
        ensures tables { SameTables self.old.state self.new.state }
    {
        self.need_places(1)?;
        self.core.queue(task);
        Ok(())
    }

    // Whether so many more requests may wait.
    fn need_places(&self, places: u8) -> Result<(), Refused>
        requires { places ≤ 3 }
        ensures { Refuses result (places_refusal self.now.state places) }
    {
        if self.core.requests().len() + places > QUEUE_CAPACITY as u8 {
            return Err(Refused::QueueFull(QUEUE_CAPACITY as u8));
        }
        Ok(())
    }
}

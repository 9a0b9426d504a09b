//! Waking and sleeping.

ghost use Rattle.std.specs.Prelude.{◌≡◌, IsTrue};
ghost use Rattle.host_node.specs.State.{wants_no_more};
ghost use Rattle.host_node.specs.Steps.{after_hold, after_notification, after_sleep, falls_asleep, after_no_more, after_no_more_end};

use crate::NoMore;
use crate::node::Node;

impl Node {
    /// Its Wake Up Notification came: it is awake, and this is an occasion for a new series.
    pub fn notified(&mut self)
        ensures { self.new ≡ after_notification self.old }
    {
        self.mailbox.set_awake(true);
        if matches!(self.no_more, NoMore::Dropped) {
            self.no_more = NoMore::Unasked;
        }
        self.take_occasion();
    }

    /// Holds it awake for the next hundred ticks: a final report of a node that does not listen asked for it.
    pub fn hold(&mut self)
        ensures { self.new ≡ after_hold self.old }
    {
        self.mailbox.hold();
    }

    /// Counts it as asleep, unless it listens. Answers whether it was awake till then.
    pub fn sleep(&mut self) -> bool
        ensures answer { result ≡ falls_asleep self.old }
        ensures state { self.new ≡ after_sleep self.old }
    {
        if self.listens {
            return false;
        }
        let was_awake = self.mailbox.is_awake();
        self.mailbox.set_awake(false);
        self.no_more = NoMore::Unasked;
        was_awake
    }

    /// No More Information for it was queued.
    pub fn queue_no_more(&mut self)
        requires { IsTrue (wants_no_more self.old) }
        ensures { self.new ≡ after_no_more self.old NoMore.Queued }
    {
        self.no_more = NoMore::Queued;
    }

    /// No More Information for it found the queue full.
    pub fn drop_no_more(&mut self)
        requires { IsTrue (wants_no_more self.old) }
        ensures { self.new ≡ after_no_more self.old NoMore.Dropped }
    {
        self.no_more = NoMore::Dropped;
    }

    /// The request with No More Information ended, in whatever way: it counts as asleep. Answers as `sleep`.
    pub fn end_no_more(&mut self) -> bool
        ensures answer { result ≡ falls_asleep self.old }
        ensures state { self.new ≡ after_no_more_end self.old }
    {
        self.no_more = NoMore::Unasked;
        self.sleep()
    }
}

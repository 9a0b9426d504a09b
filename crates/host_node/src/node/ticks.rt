//! Ticks and restarts.

ghost use Rattle.std.specs.Prelude.{◌≡◌};
ghost use Rattle.host_node.specs.Steps.{after_again_tick, after_attempt_tick, attempt_tick_end, after_tick, tick_end, as_recorded, after_restart};

use crate::node::Node;
use crate::{AttemptEnd, Moment, NoMore, Series};

impl Node {
    /// Counts one tick of 100 ms: its part of the host's tick. Answers whether an attempt ended.
    pub fn tick(&mut self) -> AttemptEnd
        ensures answer { result ≡ tick_end self.old }
        ensures state { self.new ≡ after_tick self.old }
    {
        self.blocked = false;
        self.mailbox.tick();
        self.tick_again();
        self.tick_attempt()
    }

    // The wait after a series: at its end a new one is due, if a command waits.
    fn tick_again(&mut self)
        ensures { self.new ≡ after_again_tick self.old }
    {
        if self.again_wait != 1 {
            self.again_wait = self.again_wait.saturating_sub(1);
            return;
        }
        self.again_wait = 0;
        if !self.mailbox.is_empty() {
            self.take_occasion();
        }
    }

    // The wait of the running attempt: at its end the attempt ends.
    fn tick_attempt(&mut self) -> AttemptEnd
        ensures answer { result ≡ attempt_tick_end self.old }
        ensures state { self.new ≡ after_attempt_tick self.old }
    {
        if self.attempt_wait == 1 {
            return self.end_attempt(Moment::BetweenTicks);
        }
        self.attempt_wait = self.attempt_wait.saturating_sub(1);
        AttemptEnd::NoneRan
    }

    /// The host starts from its records: what they do not say is forgotten, and a series is due for the open session of
    /// a node that listens.
    pub fn restart(&mut self)
        ensures { self.new ≡ after_restart self.old }
    {
        self.forget();
        self.take_occasion();
    }

    // Only what the records say is left.
    fn forget(&mut self)
        ensures { self.new ≡ as_recorded self.old }
    {
        self.drop_attempt();
        self.sessions.restart_series();
        self.series = Series::Idle;
        self.again_wait = 0;
        self.mailbox.set_awake(false);
        self.no_more = NoMore::Unasked;
        self.blocked = false;
    }
}

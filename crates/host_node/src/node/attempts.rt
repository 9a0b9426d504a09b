//! The attempts of the open session: what they give, and how they end.

ghost use Rattle.std.specs.Prelude.{◌≡◌, ◌<◌, Option, IsTrue};
ghost use Rattle.supervision.specs.Session.{IsStatus};
ghost use Rattle.supervision.specs.Host.{told_of};
ghost use Rattle.host_node.specs.State.{has_segment};
ghost use Rattle.host_node.specs.Steps.{
  without_attempt,
  after_start,
  after_segment,
  after_text,
  after_sign,
  after_attempt_end,
  attempt_end,
  after_report,
  again_from,
};
ghost use Rattle.host_node.specs.Events.{FitsPlan};

use crate::attempt::{AGAIN_TICKS, WAIT_TICKS};
use crate::node::Node;
use crate::{AttemptEnd, Moment, Plan, Series};
use supervision::{MAX_ATTEMPTS, Told};
use zw_base::Payload;

impl Node {
    /// The attempt that is due runs, and gives its first: the message, the first segment or a Nonce Get.
    pub fn start_attempt(&mut self, plan: Plan)
        requires due { self.old.series ≡ Series.Due }
        requires plan { FitsPlan plan }
        ensures { self.new ≡ after_start self.old plan }
    {
        self.series = Series::Running;
        match plan {
            Plan::Whole => {}
            Plan::Segments(count) => {
                self.next_segment = 1;
                self.segments = count;
            }
            Plan::Sealed(plain) => self.sender.ask(plain),
        }
    }

    /// The running attempt gives its next segment, whose number, from 0, is answered.
    pub fn give_segment(&mut self) -> u8
        requires { IsTrue (has_segment self.old) }
        ensures number { result ≡ self.old.next_segment }
        ensures state { self.new ≡ after_segment self.old }
    {
        let given = self.next_segment;
        self.next_segment += 1;
        given
    }

    /// The running attempt gives its sealed text, where it has one.
    pub fn give_text(&mut self) -> Option<Payload>
        ensures text { result ≡ self.old.text }
        ensures state { self.new ≡ after_text self.old }
    {
        self.text.take()
    }

    /// A request of the running attempt was called back as well received: the wait for its report begins anew. Where no
    /// attempt runs, the request was of an earlier one, and nothing changes.
    pub fn succeeded(&mut self)
        ensures { self.new ≡ after_sign self.old }
    {
        if self.series.is_running() {
            self.attempt_wait = WAIT_TICKS;
        }
    }

    /// The running attempt ends without a report. Where none runs, nothing changes.
    pub fn end_attempt(&mut self, moment: Moment) -> AttemptEnd
        ensures answer { result ≡ attempt_end self.old }
        ensures state { self.new ≡ after_attempt_end self.old moment }
    {
        if !self.series.is_running() {
            return AttemptEnd::NoneRan;
        }
        self.drop_attempt();
        if self.sessions.end_attempt() < MAX_ATTEMPTS {
            self.series = Series::Due;
            return AttemptEnd::Again;
        }
        self.series = Series::Idle;
        self.again_wait = again_from(moment);
        AttemptEnd::Unanswered(self.sleep())
    }

    /// Takes a Supervision Report with this id and status.
    pub fn report(&mut self, id: u8, status: u8) -> Told
        requires six_bits { id < 64 }
        requires known { IsStatus status }
        ensures answer { result ≡ told_of self.old.book id status }
        ensures state { self.new ≡ after_report self.old id status }
    {
        let told = self.told(id, status);
        match told {
            Told::Final(_) => {
                self.drop_attempt();
                let _final = self.sessions.report(id, status);
                self.sessions.restart_series();
                self.series = Series::Idle;
                self.again_wait = 0;
            }
            Told::Working => self.succeeded(),
            Told::Old => {}
        }
        told
    }

    // Nothing is left of the attempt.
    pub(super) fn drop_attempt(&mut self)
        ensures { self.new ≡ without_attempt self.old }
    {
        self.attempt_wait = 0;
        self.next_segment = 0;
        self.segments = 0;
        self.text = None;
        self.sender.drop_pending();
    }
}

// The wait after a series that ends then.
fn again_from(moment: Moment) -> u8
    ensures { result ≡ again_from moment }
{
    match moment {
        Moment::BetweenTicks => AGAIN_TICKS,
        Moment::BeforeItsTick => AGAIN_TICKS + 1,
    }
}

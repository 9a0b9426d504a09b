//! The sealed exchange of a session with a lock.

ghost use Rattle.std.specs.Prelude.{◌≡◌, ℕ, true, List, length, Option, Some, slice_index};
ghost use Rattle.s0_session.specs.Sending.{seen_after};
ghost use Rattle.class_info.specs.InfoSpelling.{form};
ghost use Rattle.class_info.specs.declared.message.InfoMessage.TheVariants.{NonceGet};
ghost use Rattle.device_sim.specs.State.{State};
ghost use Rattle.host_heard.specs.Telling.{heard_at};
ghost use Rattle.host_model.specs.Events.{HostEvent};
ghost use Rattle.host_model.specs.State.{HostState, node_of};
ghost use Rattle.host_model.specs.Taking.{PayloadEvents};
ghost use Rattle.proof_course.specs.HostNonceFacts.{NonceFacts as HostFacts};
ghost use Rattle.proof_course.specs.NodeNonceFacts.{NonceFacts as NodeFacts};
ghost use Rattle.proof_course.specs.HostNonces as host;
ghost use Rattle.proof_course.specs.NodeNonces.{taken_as};
ghost use Rattle.proof_messages.specs.Payloads.{report_of};
ghost use Rattle.proof_course_sealed.specs.Courses.{Courses};
ghost use Rattle.proof_course_sealed.specs.Exchange.{GivesOne, IsLiveOffer, TakesOne};
ghost use Rattle.proof_course_sealed.specs.Host.{AtHost};
ghost use Rattle.proof_course_sealed.specs.Labels.{Held};
ghost use Rattle.proof_course_sealed.specs.Lock.{AtLock};
ghost use Rattle.proof_course_sealed.specs.Meaning.{NodeMeans, Past};

/// In a sealed exchange each payload is what its hearer asks for next. A Nonce Report of a lock that has its live nonce brings the last that it gave; the host
/// takes that for the text that waits; to a Nonce Get it offers its live nonce or gives a new one; and the last that it gave is taken by a lock that waits for
/// one.
pub fn exchanges_go_on()
    ensures shows { (past : Past) (n : ℕ) (c : Courses) (device : State) (nonce payload : List ℕ) (held : Held) → AtLock past c device →
        device.given.live ≡ Some nonce → NodeMeans past n payload held → payload ≡ report_of nonce → IsLiveOffer past c payload }
    ensures counts { (past : Past) (n : ℕ) (c : Courses) (text : Option ℕ) (tasks : List ℕ) (h : HostState) (payload : List ℕ) →
        AtHost past n c text tasks h → NodeFacts c.node → (offers : IsLiveOffer past c payload) →
        seen_after (node_of h n).seen (slice_index offers.offer.nonce 0) ≡ Some c.node.given }
    ensures takes { (h : HostState) (n seen : ℕ) (plain nonce payload : List ℕ) (events : List HostEvent) → length nonce ≡ 8 →
        payload ≡ report_of nonce → (node_of h n).pending ≡ Some plain → seen_after (node_of h n).seen (slice_index nonce 0) ≡ Some seen →
        PayloadEvents h n payload (heard_at payload) events → TakesOne n seen nonce h events }
    ensures asked { (h : HostState) (n : ℕ) (payload : List ℕ) (events : List HostEvent) → payload ≡ form NonceGet →
        PayloadEvents h n payload (heard_at payload) events → GivesOne n events }
    ensures offered { (c : host.Nonces) → HostFacts c → c.is_live ≡ true → taken_as true c.seen c.given ≡ Some c.given }
{}

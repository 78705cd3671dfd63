// The sending end of the modulo 16 flow window (document 01, "The two counters"): which PS may be
// sent, and which PR is accepted; and how an RNR holds it off (document 02, Q-4). Each call takes
// the end by value and returns its answer with the next state of the end; a refused call returns
// the end unchanged.
ghost use Rattle.std.specs.Prelude.{◌≡◌};
ghost use Rattle.refusal.specs.Numbers.{value_by, refusal_number};
ghost use Rattle.window.specs.Sending.{grant_ps, fresh_sender, sender_in_order, send_verdict, send_of, acknowledge_verdict, acknowledge_by, acknowledge_of, ready_of, not_ready_of, reject_of};

use refusal::Refusal;
use sequence::{Counter, PacketNumber};

// A sending end: the lower edge of the window; the next PS; and the mark that an RNR holds the end
// off, so that nothing is granted, however far the window is open.
#[derive(Clone, Copy, Debug, PartialEq, Eq)]
pub struct Sender {
    pub edge: PacketNumber,
    pub ps: PacketNumber,
    pub held: bool,
}

// The answer to `send`, the PS of the next packet or why the call is refused; and the next state of
// the end.
#[derive(Clone, Copy, Debug, PartialEq, Eq)]
pub struct Sent {
    pub answer: Result<PacketNumber, Refusal>,
    pub next: Sender,
}

// The answer to a received PR, whichever packet carries it, and the next state of the end.
#[derive(Clone, Copy, Debug, PartialEq, Eq)]
pub struct Acknowledged {
    pub verdict: Result<(), Refusal>,
    pub next: Sender,
}

impl Sender {
    // A sending end that has sent nothing and is not held off.
    pub fn fresh() -> Sender
        ensures { result ≡ fresh_sender }
    {
        Sender {
            edge: PacketNumber(0),
            ps: PacketNumber(0),
            held: false,
        }
    }

    // Whether the end is in good order. A caller can write its fields, so that it may not be; every
    // call below then refuses it with 14. Either value of the mark is in good order.
    #[tactic(auto, unfolding(crate::specs::Sending::sender_in_order))]
    pub fn in_order(self) -> bool
        ensures { result ≡ sender_in_order self }
    {
        self.edge.0 <= 15 && self.ps.0 <= 15
    }

    // Whether a PS is granted: refused in the order 14, 9.
    #[tactic(auto, unfolding(crate::specs::Sending::send_verdict))]
    fn check_send(self) -> Result<(), Refusal>
        ensures { result ≡ send_verdict self }
    {
        if !self.in_order() {
            return Err(Refusal::NotInOrder);
        }
        if 14 < self.edge.distance_to(self.ps) || self.held {
            return Err(Refusal::WindowClosed);
        }
        Ok(())
    }

    // Asks for the PS of the next packet; refused in the order 14, 9. It is granted if the distance
    // from the edge to the next PS is at most 14 and no RNR holds the end off; the next PS then
    // goes up by one modulo 16.
    #[tactic(auto, unfolding(crate::specs::Sending::send_of))]
    pub fn send(self) -> Sent
        ensures whole { result ≡ send_of self }
        ensures number { refusal_number result.answer ≡ refusal_number (send_verdict self) }
        ensures value { grant_ps result.answer ≡ value_by (send_verdict self) self.ps.0 }
    {
        match self.check_send() {
            Ok(()) => Sent {
                answer: Ok(self.ps),
                next: Sender {
                    ps: self.ps.next(),
                    ..self
                },
            },
            Err(why) => Sent {
                answer: Err(why),
                next: self,
            },
        }
    }

    // Whether a PR is accepted: refused in the order 14, 1, 16.
    #[tactic(auto, unfolding(crate::specs::Sending::acknowledge_verdict))]
    fn check_acknowledge(self, pr: PacketNumber) -> Result<(), Refusal>
        ensures { result ≡ acknowledge_verdict self pr.0 }
    {
        if !self.in_order() {
            return Err(Refusal::NotInOrder);
        }
        if !pr.in_field() {
            return Err(Refusal::OutOfRange);
        }
        if self.edge.distance_to(self.ps) < self.edge.distance_to(pr) {
            return Err(Refusal::NeverSent);
        }
        Ok(())
    }

    // Takes a received PR; refused in the order 14, 1, 16. A PR that is accepted becomes the edge:
    // it acknowledges every packet before it. `held` is the mark afterwards, which a refusal leaves
    // as it was. No PR changes the next PS.
    fn take_pr(self, pr: PacketNumber, held: bool) -> Acknowledged
        ensures { result ≡ acknowledge_by (acknowledge_verdict self pr.0) self pr.0 held }
    {
        let verdict = self.check_acknowledge(pr);
        let next = match verdict {
            Ok(()) => Sender {
                edge: pr,
                held,
                ..self
            },
            Err(_why) => self,
        };
        Acknowledged { verdict, next }
    }

    // Takes the PR of a DATA packet. The mark stays as it is: DATA acknowledges packets and says
    // nothing of whether more are welcome.
    #[tactic(auto, unfolding(crate::specs::Sending::acknowledge_of))]
    pub fn acknowledge(self, pr: PacketNumber) -> Acknowledged
        ensures value { result ≡ acknowledge_of self pr.0 }
        ensures number { refusal_number result.verdict ≡ refusal_number (acknowledge_verdict self pr.0) }
    {
        self.take_pr(pr, self.held)
    }

    // Takes the PR of an RR. If it is accepted, the end is no longer held off.
    #[tactic(auto, unfolding(crate::specs::Sending::ready_of))]
    pub fn ready(self, pr: PacketNumber) -> Acknowledged
        ensures value { result ≡ ready_of self pr.0 }
        ensures number { refusal_number result.verdict ≡ refusal_number (acknowledge_verdict self pr.0) }
    {
        self.take_pr(pr, false)
    }

    // Takes the PR of an RNR. If it is accepted, the end is held off.
    #[tactic(auto, unfolding(crate::specs::Sending::not_ready_of))]
    pub fn not_ready(self, pr: PacketNumber) -> Acknowledged
        ensures value { result ≡ not_ready_of self pr.0 }
        ensures number { refusal_number result.verdict ≡ refusal_number (acknowledge_verdict self pr.0) }
    {
        self.take_pr(pr, true)
    }

    // Takes the PR of a REJECT. If it is accepted, the end is no longer held off; the next PS stays
    // as it is, so that no PS is granted a second time.
    #[tactic(auto, unfolding(crate::specs::Sending::reject_of))]
    pub fn reject(self, pr: PacketNumber) -> Acknowledged
        ensures value { result ≡ reject_of self pr.0 }
        ensures number { refusal_number result.verdict ≡ refusal_number (acknowledge_verdict self pr.0) }
    {
        self.take_pr(pr, false)
    }
}

// The receiving end of the modulo 16 flow window (document 01, "The two counters"): which PS is
// accepted, and when PR is due. Each call takes the end by value and returns its answer with the
// next state of the end; a refused call returns the end unchanged.
ghost use Rattle.std.specs.Prelude.{◌≡◌, ◌+◌, ◌≤◌, min};
ghost use Rattle.refusal.specs.Numbers.{value_by, flag_by, refusal_number};
ghost use Rattle.window.specs.Receiving.{receipt_due, telling_pr, fresh_receiver, receiver_in_order, other_ps, receive_verdict, due_after, receive_of, tell_verdict, tell_of};

use refusal::Refusal;
use sequence::{Counter, PacketNumber};

// A receiving end: the expected PS; the first-packet mark, which stands until a PS is accepted
// (refused packets leave it); and the count of packets not yet told.
#[derive(Clone, Copy, Debug, PartialEq, Eq)]
pub struct Receiver {
    pub expected: PacketNumber,
    pub first: bool,
    pub untold: u8,
}

// The answer to a received PS, whether PR is now due or why the PS is refused; and the next state of
// the end.
#[derive(Clone, Copy, Debug, PartialEq, Eq)]
pub struct Received {
    pub answer: Result<bool, Refusal>,
    pub next: Receiver,
}

// The PR to send, or why the call is refused; and the next state of the end.
#[derive(Clone, Copy, Debug, PartialEq, Eq)]
pub struct Told {
    pub answer: Result<PacketNumber, Refusal>,
    pub next: Receiver,
}

// The count of packets not yet told after one more: it goes up by one, but never over 8.
fn one_more(untold: u8) -> u8
    requires { untold ≤ 8 }
    ensures { result ≡ min 8 (untold + 1) }
{
    if untold < 8 { untold + 1 } else { untold }
}

impl Receiver {
    // A receiving end that has accepted nothing.
    pub fn fresh() -> Receiver
        ensures { result ≡ fresh_receiver }
    {
        Receiver {
            expected: PacketNumber(0),
            first: true,
            untold: 0,
        }
    }

    // Whether the end is in good order. A caller can write its fields, so that it may not be;
    // `receive` and `tell` then refuse it with 14.
    #[tactic(auto, unfolding(crate::specs::Receiving::receiver_in_order))]
    pub fn in_order(self) -> bool
        ensures { result ≡ receiver_in_order self }
    {
        if self.first {
            self.expected.0 == 0 && self.untold == 0
        } else {
            self.expected.0 <= 15 && self.untold <= 8
        }
    }

    // Why a PS other than the expected one is refused: 12 if the mark stands, else 10 or 11.
    #[tactic(auto, unfolding(crate::specs::Receiving::other_ps))]
    fn other(self, ps: PacketNumber) -> Refusal
        ensures { result ≡ other_ps self ps.0 }
    {
        if self.first {
            return Refusal::FirstNotZero;
        }
        if self.expected.distance_to(ps) == 15 {
            Refusal::OutsideWindow
        } else {
            Refusal::OutOfSequence
        }
    }

    // Whether a PS is accepted: refused in the order 14, 1, then 12, 10 or 11. The expected PS of
    // an end in good order fits its field, so that the comparison is made before the check of the
    // field.
    #[tactic(auto, unfolding(crate::specs::Receiving::receive_verdict, crate::specs::Receiving::receiver_in_order))]
    fn check_receive(self, ps: PacketNumber) -> Result<(), Refusal>
        ensures { result ≡ receive_verdict self ps.0 }
    {
        if !self.in_order() {
            return Err(Refusal::NotInOrder);
        }
        if ps.0 == self.expected.0 {
            return Ok(());
        }
        if !ps.in_field() {
            return Err(Refusal::OutOfRange);
        }
        Err(self.other(ps))
    }

    // Takes the PS of a received packet; refused in the order 14, 1, then 12, 10 or 11. The
    // expected PS is accepted: the mark falls, the expected PS goes up by one modulo 16, the count
    // of packets not yet told by one but never over 8, and at 8 the answer says that PR is due.
    #[tactic(auto, unfolding(crate::specs::Receiving::receive_of, crate::specs::Receiving::receive_verdict, crate::specs::Receiving::receiver_in_order))]
    pub fn receive(self, ps: PacketNumber) -> Received
        ensures whole { result ≡ receive_of self ps.0 }
        ensures number { refusal_number result.answer ≡ refusal_number (receive_verdict self ps.0) }
        ensures value { receipt_due result.answer ≡ flag_by (receive_verdict self ps.0) (due_after self) }
    {
        match self.check_receive(ps) {
            Ok(()) => {
                let untold = one_more(self.untold);
                Received {
                    answer: Ok(untold == 8),
                    next: Receiver {
                        expected: self.expected.next(),
                        first: false,
                        untold,
                    },
                }
            }
            Err(why) => Received {
                answer: Err(why),
                next: self,
            },
        }
    }

    // Answers the PR to send now, which is the expected PS, and sets the count of packets not yet
    // told to 0; the mark stays as it is. Refused with 14.
    #[tactic(auto, unfolding(crate::specs::Receiving::tell_of, crate::specs::Receiving::tell_verdict))]
    pub fn tell(self) -> Told
        ensures whole { result ≡ tell_of self }
        ensures number { refusal_number result.answer ≡ refusal_number (tell_verdict self) }
        ensures value { telling_pr result.answer ≡ value_by (tell_verdict self) self.expected.0 }
    {
        if !self.in_order() {
            return Told {
                answer: Err(Refusal::NotInOrder),
                next: self,
            };
        }
        Told {
            answer: Ok(self.expected),
            next: Receiver { untold: 0, ..self },
        }
    }
}

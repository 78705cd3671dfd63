// The two ends of the flow window in lent bytes, for callers that are not written in Rattle; `capi`
// exports the calls to C. The caller keeps the bytes of an end and lends them to each call. A
// sending end is 3 bytes: lower edge, next PS, mark "held off by RNR" as 0 or 1. A receiving end is
// 3 bytes: expected PS, first-packet mark as 0 or 1, count of packets not yet told. A call answers
// one number, the refusal number (0 for done) plus 256 times the value that its comment names; a
// refusal has the value 0 and writes nothing. 14 refuses bytes of another length, a mark over 1,
// and an end that is not in good order. specs/Stored.antt defines the layout and each answer.
#![tactic(auto)]

ghost use Rattle.std.specs.Prelude.{◌≡◌, ◌≢◌, true, length, get_or};
ghost use Rattle.refusal.specs.Numbers.{refusal_number};
ghost use Rattle.window.specs.History.{by_data, ready, not_ready, reject};
ghost use Rattle.window_bytes.specs.Stored.{is_sender, sender_in, sender_bytes, is_receiver, receiver_in, receiver_bytes, fresh_sender_answer, fresh_sender_bytes, sender_order_answer, send_answer, send_bytes, pr_answer, pr_bytes, fresh_receiver_answer, fresh_receiver_bytes, receiver_order_answer, receive_answer, receive_bytes, tell_answer, tell_bytes};

use refusal::Refusal;
use sequence::PacketNumber;
use window::receiver::Receiver;
use window::sender::{Acknowledged, Sender};

// The answer of a call that refuses a damaged state.
const NOT_IN_ORDER: u32 = Refusal::NotInOrder as u32;

// ---- the sending end

// Whether the bytes encode a sending end, in good order or not: there are 3, and the mark is 0 or
// 1.
#[tactic(auto, unfolding(crate::specs::Stored::is_sender))]
fn is_sender(state: &[u8]) -> bool
    ensures { result ≡ is_sender state.now }
{
    state.len() == 3 && state[2] <= 1
}

// The end that the bytes encode. The test is a function of its own: in one function that answers
// `Option<Sender>` the compiler reads both numbers at once, and `sender_acknowledge` followed by
// `sender_send` takes 11.9 ns in place of 7.5.
#[tactic(auto, unfolding(crate::specs::Stored::is_sender))]
fn sender_in(state: &[u8]) -> Sender
    requires { is_sender state.now ≡ true }
    ensures { result ≡ sender_in state.now }
{
    Sender {
        edge: PacketNumber(state[0]),
        ps: PacketNumber(state[1]),
        held: state[2] == 1,
    }
}

// Writes a sending end that has sent nothing to `state`, whatever its bytes were. There is no
// value. Refused with 14 if `state` has not 3 bytes.
#[tactic(auto, unfolding(crate::specs::Stored::fresh_sender_answer, crate::specs::Stored::fresh_sender_bytes))]
pub fn sender_fresh(state: &mut [u8]) -> u32
    ensures value { result ≡ fresh_sender_answer state.old }
    ensures state_after { state.new ≡ fresh_sender_bytes state.old }
{
    if state.len() != 3 {
        return NOT_IN_ORDER;
    }
    let end = Sender::fresh();
    state.copy_from_slice(&[end.edge.0, end.ps.0, little::flag(end.held)]);
    0
}

// Answers 0 if the bytes are a sending end in good order, else 14. There is no value.
#[tactic(auto, unfolding(crate::specs::Stored::sender_order_answer))]
pub fn sender_in_order(state: &[u8]) -> u32
    ensures { result ≡ sender_order_answer state.now }
{
    if is_sender(state) && sender_in(state).in_order() {
        0
    } else {
        NOT_IN_ORDER
    }
}

// Asks for the PS of the next packet, which is the value. Refused in the order 14, 9 (send window
// closed, or held off by RNR). If it is granted, only the byte of the next PS is written.
#[tactic(auto, unfolding(crate::specs::Stored::is_sender, crate::specs::Stored::send_answer, crate::specs::Stored::send_bytes, window::specs::Sending::send_of, window::specs::Sending::send_verdict))]
pub fn sender_send(state: &mut [u8]) -> u32
    ensures value { result ≡ send_answer state.old }
    ensures state_after { state.new ≡ send_bytes state.old }
{
    if !is_sender(state) {
        return NOT_IN_ORDER;
    }
    let end = sender_in(state);
    let sent = end.send();
    match sent.answer {
        Ok(ps) => {
            state[1] = sent.next.ps.0;
            256 * ps.0 as u32
        }
        Err(why) => why.number() as u32,
    }
}

// Writes the end after a received PR to `state`, and answers its refusal number. No PR changes the
// next PS and a refused one changes nothing, so that only the bytes of the edge and of the mark are
// written, and only if the PR is accepted.
fn put_pr(state: &mut [u8], acknowledged: Acknowledged) -> u32
    requires state_len { length state.old ≡ 3 }
    requires ps_value { acknowledged.next.ps.0 ≡ get_or state.old 1 0 }
    requires next_value { refusal_number acknowledged.verdict ≢ 0 → sender_bytes acknowledged.next ≡ state.old }
    ensures value { result ≡ refusal_number acknowledged.verdict }
    ensures state_after { state.new ≡ sender_bytes acknowledged.next }
{
    match acknowledged.verdict {
        Ok(()) => {
            state[0] = acknowledged.next.edge.0;
            state[2] = little::flag(acknowledged.next.held);
            0
        }
        Err(why) => why.number() as u32,
    }
}

// Takes the PR of a DATA packet, which becomes the lower edge; the mark stays as it is. There is no
// value. Refused in the order 14, 1 (PR over 15), 16 (PR acknowledges what was never sent).
#[tactic(auto, unfolding(crate::specs::Stored::is_sender, crate::specs::Stored::pr_answer, crate::specs::Stored::pr_bytes, window::specs::Sending::acknowledge_of, window::specs::Sending::acknowledge_verdict))]
pub fn sender_acknowledge(state: &mut [u8], pr: u8) -> u32
    ensures value { result ≡ pr_answer by_data state.old pr }
    ensures state_after { state.new ≡ pr_bytes by_data state.old pr }
{
    if !is_sender(state) {
        return NOT_IN_ORDER;
    }
    let end = sender_in(state);
    put_pr(state, end.acknowledge(PacketNumber(pr)))
}

// Takes the PR of an RR, as `sender_acknowledge` does; if it is accepted, the end is no longer held
// off.
#[tactic(auto, unfolding(crate::specs::Stored::is_sender, crate::specs::Stored::pr_answer, crate::specs::Stored::pr_bytes, window::specs::Sending::ready_of, window::specs::Sending::acknowledge_verdict))]
pub fn sender_ready(state: &mut [u8], pr: u8) -> u32
    ensures value { result ≡ pr_answer ready state.old pr }
    ensures state_after { state.new ≡ pr_bytes ready state.old pr }
{
    if !is_sender(state) {
        return NOT_IN_ORDER;
    }
    let end = sender_in(state);
    put_pr(state, end.ready(PacketNumber(pr)))
}

// Takes the PR of an RNR, as `sender_acknowledge` does; if it is accepted, the end is held off.
#[tactic(auto, unfolding(crate::specs::Stored::is_sender, crate::specs::Stored::pr_answer, crate::specs::Stored::pr_bytes, window::specs::Sending::not_ready_of, window::specs::Sending::acknowledge_verdict))]
pub fn sender_not_ready(state: &mut [u8], pr: u8) -> u32
    ensures value { result ≡ pr_answer not_ready state.old pr }
    ensures state_after { state.new ≡ pr_bytes not_ready state.old pr }
{
    if !is_sender(state) {
        return NOT_IN_ORDER;
    }
    let end = sender_in(state);
    put_pr(state, end.not_ready(PacketNumber(pr)))
}

// Takes the PR of a REJECT, as `sender_acknowledge` does; if it is accepted, the end is no longer
// held off. The next PS stays as it is.
#[tactic(auto, unfolding(crate::specs::Stored::is_sender, crate::specs::Stored::pr_answer, crate::specs::Stored::pr_bytes, window::specs::Sending::reject_of, window::specs::Sending::acknowledge_verdict))]
pub fn sender_reject(state: &mut [u8], pr: u8) -> u32
    ensures value { result ≡ pr_answer reject state.old pr }
    ensures state_after { state.new ≡ pr_bytes reject state.old pr }
{
    if !is_sender(state) {
        return NOT_IN_ORDER;
    }
    let end = sender_in(state);
    put_pr(state, end.reject(PacketNumber(pr)))
}

// ---- the receiving end

// Whether the bytes encode a receiving end, in good order or not: there are 3, and the mark is 0 or
// 1.
#[tactic(auto, unfolding(crate::specs::Stored::is_receiver))]
fn is_receiver(state: &[u8]) -> bool
    ensures { result ≡ is_receiver state.now }
{
    state.len() == 3 && state[1] <= 1
}

// The end that the bytes encode.
#[tactic(auto, unfolding(crate::specs::Stored::is_receiver))]
fn receiver_in(state: &[u8]) -> Receiver
    requires { is_receiver state.now ≡ true }
    ensures { result ≡ receiver_in state.now }
{
    Receiver {
        expected: PacketNumber(state[0]),
        first: state[1] == 1,
        untold: state[2],
    }
}

// Writes a receiving end that has accepted nothing to `state`, whatever its bytes were. There is no
// value. Refused with 14 if `state` has not 3 bytes.
#[tactic(auto, unfolding(crate::specs::Stored::fresh_receiver_answer, crate::specs::Stored::fresh_receiver_bytes))]
pub fn receiver_fresh(state: &mut [u8]) -> u32
    ensures value { result ≡ fresh_receiver_answer state.old }
    ensures state_after { state.new ≡ fresh_receiver_bytes state.old }
{
    if state.len() != 3 {
        return NOT_IN_ORDER;
    }
    let end = Receiver::fresh();
    state.copy_from_slice(&[end.expected.0, little::flag(end.first), end.untold]);
    0
}

// Answers 0 if the bytes are a receiving end in good order, else 14. There is no value.
#[tactic(auto, unfolding(crate::specs::Stored::receiver_order_answer))]
pub fn receiver_in_order(state: &[u8]) -> u32
    ensures { result ≡ receiver_order_answer state.now }
{
    if is_receiver(state) && receiver_in(state).in_order() {
        0
    } else {
        NOT_IN_ORDER
    }
}

// Takes the PS of a received packet. The value is 1 if PR is due, else 0. Refused in the order 14,
// 1 (PS over 15), then for a PS other than the expected one 12 (no PS has been accepted yet), 10
// (its distance from the expected PS is 15) or 11. Only an accepted PS writes.
#[tactic(auto, using(crate::proofs::Stored::receiver_bytes_back), unfolding(crate::specs::Stored::is_receiver, crate::specs::Stored::receive_answer, crate::specs::Stored::receive_bytes, window::specs::Receiving::receive_of, window::specs::Receiving::receive_verdict))]
pub fn receiver_receive(state: &mut [u8], ps: u8) -> u32
    ensures value { result ≡ receive_answer state.old ps }
    ensures state_after { state.new ≡ receive_bytes state.old ps }
{
    if !is_receiver(state) {
        return NOT_IN_ORDER;
    }
    let end = receiver_in(state);
    let received = end.receive(PacketNumber(ps));
    match received.answer {
        Ok(due) => {
            state[0] = received.next.expected.0;
            state[1] = little::flag(received.next.first);
            state[2] = received.next.untold;
            256 * little::flag(due) as u32
        }
        Err(why) => why.number() as u32,
    }
}

// Answers the PR to send now, which is the value, and sets the count of packets not yet told to 0.
// Refused with 14. If PR is told, only the byte of the count is written.
#[tactic(auto, using(crate::proofs::Stored::receiver_bytes_back), unfolding(crate::specs::Stored::is_receiver, crate::specs::Stored::tell_answer, crate::specs::Stored::tell_bytes, window::specs::Receiving::tell_of, window::specs::Receiving::tell_verdict))]
pub fn receiver_tell(state: &mut [u8]) -> u32
    ensures value { result ≡ tell_answer state.old }
    ensures state_after { state.new ≡ tell_bytes state.old }
{
    if !is_receiver(state) {
        return NOT_IN_ORDER;
    }
    let end = receiver_in(state);
    let told = end.tell();
    match told.answer {
        Ok(pr) => {
            state[2] = told.next.untold;
            256 * pr.0 as u32
        }
        Err(why) => why.number() as u32,
    }
}

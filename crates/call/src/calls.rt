// The calls themselves, and what they answer.
use crate::arguments::{Arguments, Numbers};
use crate::elements;
use crate::table::Call;
use std::fmt;

// What a call answers: the number itself, a value above a refusal number, or a position.
#[derive(Clone, Copy, Debug, PartialEq, Eq)]
pub enum Answer {
    Number(u8),
    Code(u32),
    LongCode(u64),
    Position(usize),
}

impl fmt::Display for Answer {
    fn fmt<W: fmt::Write>(&self, f: &mut fmt::Formatter<W>) -> fmt::Result {
        match self {
            Answer::Number(number) => write!(f, "{number:02X}"),
            Answer::Code(code) => write!(f, "{code:08X}"),
            Answer::LongCode(code) => write!(f, "{code:016X}"),
            Answer::Position(position) => write!(f, "at {position}"),
        }
    }
}

// Makes a call with the arguments of its line. Not inlined: printing has no need of the stack for
// it.
#[inline(never)]
pub fn make(call: Call, arguments: &mut Arguments) -> Answer {
    let Arguments { numbers, a, b, c } = arguments;
    let (n, a, b, c) = (*numbers, a.bytes_mut(), b.bytes_mut(), c.bytes_mut());
    match call {
        Call::LinkDistance => Answer::Number(capi::pk_link_distance(n.small(0), n.small(1))),
        Call::LinkNext => Answer::Number(capi::pk_link_next(n.small(0))),
        Call::PacketDistance => Answer::Number(capi::pk_packet_distance(n.small(0), n.small(1))),
        Call::PacketNext => Answer::Number(capi::pk_packet_next(n.small(0))),
        Call::Choose => Answer::Code(capi::pk_choose(n.large(0), n.large(1), n.large(2))),
        Call::SenderFresh => Answer::Code(capi::pk_sender_fresh(a)),
        Call::SenderInOrder => Answer::Code(capi::pk_sender_in_order(a)),
        Call::SenderSend => Answer::Code(capi::pk_sender_send(a)),
        Call::SenderAcknowledge => Answer::Code(capi::pk_sender_acknowledge(a, n.small(1))),
        Call::SenderReady => Answer::Code(capi::pk_sender_ready(a, n.small(1))),
        Call::SenderNotReady => Answer::Code(capi::pk_sender_not_ready(a, n.small(1))),
        Call::SenderReject => Answer::Code(capi::pk_sender_reject(a, n.small(1))),
        Call::ReceiverFresh => Answer::Code(capi::pk_receiver_fresh(a)),
        Call::ReceiverInOrder => Answer::Code(capi::pk_receiver_in_order(a)),
        Call::ReceiverReceive => Answer::Code(capi::pk_receiver_receive(a, n.small(1))),
        Call::ReceiverTell => Answer::Code(capi::pk_receiver_tell(a)),
        Call::ResequencerFresh => Answer::Code(capi::pk_resequencer_fresh(a)),
        Call::ResequencerInOrder => Answer::Code(capi::pk_resequencer_in_order(a)),
        Call::ResequencerArrive => arrive(a, c, n),
        Call::ResequencerClockEnd => clock_end(a, c, n),
        Call::FrameWrite => Answer::LongCode(capi::pk_frame_write(n.small(0), a, b, c)),
        Call::FrameRead => Answer::LongCode(capi::pk_frame_read(n.small(0), a, b)),
        Call::FrameFault => Answer::Position(capi::pk_frame_fault(n.small(0), a)),
        Call::RouteWrite => route_write(a, b, c, n),
        Call::MessageCut => cut(a, b, c, n),
        Call::MessageJoin => join(c, a, b, n),
        Call::MessageFault => fault(c, a, n),
        Call::TableEmpty => Answer::Code(capi::pk_table_empty(a)),
        Call::TableCodes => Answer::Code(capi::pk_table_codes(a, n.small(1))),
        Call::TableCount => Answer::Code(capi::pk_table_count(a, n.small(1))),
        Call::TableChoose => table_choose(a, n),
        Call::TableUpdate => Answer::Code(capi::pk_table_update(a, b, c)),
    }
}

fn arrive(state: &mut [u8], list: &mut [u8], n: Numbers) -> Answer {
    let mut tickets = [0; 2048];
    let count = elements::read_tickets(list, &mut tickets);
    let lent = &mut tickets[..count];
    let code = capi::pk_resequencer_arrive(state, lent, n.small(2), n.large(3));
    elements::write_tickets(&tickets, list);
    Answer::Code(code)
}

fn clock_end(state: &mut [u8], list: &mut [u8], n: Numbers) -> Answer {
    let mut tickets = [0; 2048];
    let count = elements::read_tickets(list, &mut tickets);
    let code = capi::pk_resequencer_clock_end(state, &mut tickets[..count], n.small(2));
    elements::write_tickets(&tickets, list);
    Answer::Code(code)
}

fn route_write(table: &[u8], extra: &[u8], out: &mut [u8], n: Numbers) -> Answer {
    let form = n.small(0);
    let initial = n.small(1);
    let optional = n.small(2);
    Answer::LongCode(capi::pk_route_write(form, initial, optional, table, extra, out))
}

fn table_choose(table: &[u8], n: Numbers) -> Answer {
    Answer::Code(capi::pk_table_choose(table, n.small(1), n.large(2), n.large(3)))
}

fn cut(message: &[u8], out: &mut [u8], list: &mut [u8], n: Numbers) -> Answer {
    let mut lengths = [0; 1024];
    let count = elements::read_lengths(list, &mut lengths);
    let form = n.small(0);
    let sn = n.small(1);
    let ps = n.small(2);
    let pr = n.small(3);
    let ch = n.small(4);
    let lent = &mut lengths[..count];
    let code = capi::pk_message_cut(form, sn, ps, pr, ch, message, out, lent);
    elements::write_lengths(&lengths, list);
    Answer::LongCode(code)
}

fn join(list: &[u8], frames: &[u8], out: &mut [u8], n: Numbers) -> Answer {
    let mut lengths = [0; 1024];
    let count = elements::read_lengths(list, &mut lengths);
    Answer::LongCode(capi::pk_message_join(n.small(0), &lengths[..count], frames, out))
}

fn fault(list: &[u8], frames: &[u8], n: Numbers) -> Answer {
    let mut lengths = [0; 1024];
    let count = elements::read_lengths(list, &mut lengths);
    let room = usize::from(n.large(3));
    Answer::Position(capi::pk_message_fault(n.small(0), &lengths[..count], frames, room))
}

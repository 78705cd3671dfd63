// The library's calls: their names, and their arguments in the header's order.
ghost use Rattle.std.specs.Prelude.{◌<◌, ◌≤◌};

use Argument::{Read, U8, U16, Written};
use Element::{Byte, Length, Ticket};
use Place::{A, B, C};

#[derive(Clone, Copy, Debug, PartialEq, Eq)]
pub enum Call {
    LinkDistance,
    LinkNext,
    PacketDistance,
    PacketNext,
    Choose,
    SenderFresh,
    SenderInOrder,
    SenderSend,
    SenderAcknowledge,
    SenderReady,
    SenderNotReady,
    SenderReject,
    ReceiverFresh,
    ReceiverInOrder,
    ReceiverReceive,
    ReceiverTell,
    ResequencerFresh,
    ResequencerInOrder,
    ResequencerArrive,
    ResequencerClockEnd,
    FrameWrite,
    FrameRead,
    FrameFault,
    RouteWrite,
    MessageCut,
    MessageJoin,
    MessageFault,
    TableEmpty,
    TableCodes,
    TableCount,
    TableChoose,
    TableUpdate,
}

// An argument: a number of one byte or of two; a list that the call reads, or one that it may
// write, which is printed.
#[derive(Clone, Copy, Debug, PartialEq, Eq)]
pub enum Argument {
    U8,
    U16,
    Read(Place, Element),
    Written(Place, Element),
}

// Which of the three lists of a line one is.
#[derive(Clone, Copy, Debug, PartialEq, Eq)]
pub enum Place {
    A,
    B,
    C,
}

// What a list is of.
#[derive(Clone, Copy, Debug, PartialEq, Eq)]
pub enum Element {
    Byte,
    Ticket,
    Length,
}

impl Element {
    // The hex digits that are one element.
    pub fn digits(self) -> usize
        ensures { 0 < result }
    {
        match self {
            Element::Byte => 2,
            Element::Ticket => 4,
            Element::Length => 8,
        }
    }

    // A list has at most 8,192 bytes, 2,048 tickets or 1,024 lengths, which are so many bytes.
    pub fn most_bytes(self) -> usize
        ensures { result ≤ 8192 }
    {
        match self {
            Element::Byte => 8192,
            Element::Ticket | Element::Length => 4096,
        }
    }
}

// Each call's name, the call and what it takes, in the header's order.
#[rattlefmt::skip]
const CALLS: [(&str, Call, &[Argument]); 32] = [
    ("pk_link_distance", Call::LinkDistance, &[U8, U8]),
    ("pk_link_next", Call::LinkNext, &[U8]),
    ("pk_packet_distance", Call::PacketDistance, &[U8, U8]),
    ("pk_packet_next", Call::PacketNext, &[U8]),
    ("pk_choose", Call::Choose, &[U16, U16, U16]),
    ("pk_sender_fresh", Call::SenderFresh, &[Written(A, Byte)]),
    ("pk_sender_in_order", Call::SenderInOrder, &[Read(A, Byte)]),
    ("pk_sender_send", Call::SenderSend, &[Written(A, Byte)]),
    ("pk_sender_acknowledge", Call::SenderAcknowledge, &[Written(A, Byte), U8]),
    ("pk_sender_ready", Call::SenderReady, &[Written(A, Byte), U8]),
    ("pk_sender_not_ready", Call::SenderNotReady, &[Written(A, Byte), U8]),
    ("pk_sender_reject", Call::SenderReject, &[Written(A, Byte), U8]),
    ("pk_receiver_fresh", Call::ReceiverFresh, &[Written(A, Byte)]),
    ("pk_receiver_in_order", Call::ReceiverInOrder, &[Read(A, Byte)]),
    ("pk_receiver_receive", Call::ReceiverReceive, &[Written(A, Byte), U8]),
    ("pk_receiver_tell", Call::ReceiverTell, &[Written(A, Byte)]),
    ("pk_resequencer_fresh", Call::ResequencerFresh, &[Written(A, Byte)]),
    ("pk_resequencer_in_order", Call::ResequencerInOrder, &[Read(A, Byte)]),
    ("pk_resequencer_arrive", Call::ResequencerArrive,
        &[Written(A, Byte), Written(C, Ticket), U8, U16]),
    ("pk_resequencer_clock_end", Call::ResequencerClockEnd,
        &[Written(A, Byte), Written(C, Ticket), U8]),
    ("pk_frame_write", Call::FrameWrite, &[U8, Read(A, Byte), Read(B, Byte), Written(C, Byte)]),
    ("pk_frame_read", Call::FrameRead, &[U8, Read(A, Byte), Written(B, Byte)]),
    ("pk_frame_fault", Call::FrameFault, &[U8, Read(A, Byte)]),
    ("pk_route_write", Call::RouteWrite,
        &[U8, U8, U8, Read(A, Byte), Read(B, Byte), Written(C, Byte)]),
    ("pk_message_cut", Call::MessageCut,
        &[U8, U8, U8, U8, U8, Read(A, Byte), Written(B, Byte), Written(C, Length)]),
    ("pk_message_join", Call::MessageJoin, &[U8, Read(C, Length), Read(A, Byte), Written(B, Byte)]),
    ("pk_message_fault", Call::MessageFault, &[U8, Read(C, Length), Read(A, Byte), U16]),
    ("pk_table_empty", Call::TableEmpty, &[Written(A, Byte)]),
    ("pk_table_codes", Call::TableCodes, &[Read(A, Byte), U8]),
    ("pk_table_count", Call::TableCount, &[Read(A, Byte), U8]),
    ("pk_table_choose", Call::TableChoose, &[Read(A, Byte), U8, U16, U16]),
    ("pk_table_update", Call::TableUpdate, &[Written(A, Byte), Read(B, Byte), Written(C, Byte)]),
];

// The call that has a name, and what it takes.
pub fn find(name: &[u8]) -> Option<(Call, &'static [Argument])> {
    let (_, call, takes) = CALLS.iter().find(|row| row.0.as_bytes() == name)?;
    Some((*call, *takes))
}

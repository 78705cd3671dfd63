// The calls of `libpepperknoll.a`, for C, C++, Ada and Rust; `capi_c` exports them. Each calls a
// function of `sequence`, `frame_reader`, `frame_writer` or of a crate named `.._bytes` and has the
// same contract; bindings/c/pepperknoll.h describes the calls to C programmers. A list is lent as a
// pointer and a length.
//
// A call answers one number, but for those whose comment says otherwise. Its low 8 bits are the
// refusal number of document 01, 0 for done; the bits above them hold the values that the call's
// comment names, which are 0 after a refusal. A refused call leaves every lent byte as it was.
// "Refused with 14, 1" means that 14 is checked before 1. Refusal 14 is given for a state or a
// table that has another length or is not in good order, and for nothing else. A list for results
// that has fewer places than the call writes is refused with 5; places past those keep what they
// held.
#![tactic(auto)]

ghost use Rattle.std.specs.Prelude.{◌≡◌, length};
ghost use Rattle.sequence.specs.Modular.{distance, next};
ghost use Rattle.window.specs.History.{by_data, ready, not_ready, reject};
ghost use Rattle.window_bytes.specs.Stored.{fresh_sender_answer, fresh_sender_bytes, sender_order_answer, send_answer, send_bytes, pr_answer, pr_bytes, fresh_receiver_answer, fresh_receiver_bytes, receiver_order_answer, receive_answer, receive_bytes, tell_answer, tell_bytes};
ghost use Rattle.resequencer_bytes.specs.Stored.{fresh_answer, fresh_bytes, order_answer, arrive_answer, arrive_bytes, arrive_tickets, clock_end_answer, clock_end_bytes, clock_end_tickets};
ghost use Rattle.frame_form.specs.Forms.{form_at};
ghost use Rattle.frame_writer.specs.Writing.{write_answer, write_bytes};
ghost use Rattle.frame_writer.specs.Routes.{route_answer, route_bytes};
ghost use Rattle.frame_reader.specs.Reading.{fault_answer, read_answer, read_bytes};
ghost use Rattle.message.specs.Cutting.{cut_of, cut_output, cut_lengths};
ghost use Rattle.message.specs.Joining.{join_of, join_output};
ghost use Rattle.message_bytes.specs.Answers.{start_at, cut_answer, joined_answer};
ghost use Rattle.route_bytes.specs.Stored.{empty_answer, empty_bytes, codes_answer, count_answer, choose_answer, choose_among_answer, update_answer, update_bytes, update_lost};
ghost use Rattle.refusal.specs.Positions.{fault_position};

use sequence::{Counter, LinkNumber, PacketNumber};

// ---- sequence numbers

// These four calls answer the number itself, not a refusal number. A number too large for its field
// is taken as its remainder.

// The distance from the link number `from` to `to`: `to` minus `from`, modulo 64.
pub fn pk_link_distance(from: u8, to: u8) -> u8
    ensures { result ≡ distance 64 from to }
{
    LinkNumber(from).distance_to(LinkNumber(to))
}

// The link number after `number`, modulo 64.
pub fn pk_link_next(number: u8) -> u8
    ensures { result ≡ next 64 number }
{
    let after = LinkNumber(number).next();
    after.0
}

// The distance from the packet number `from` to `to`: `to` minus `from`, modulo 16.
pub fn pk_packet_distance(from: u8, to: u8) -> u8
    ensures { result ≡ distance 16 from to }
{
    PacketNumber(from).distance_to(PacketNumber(to))
}

// The packet number after `number`, modulo 16.
pub fn pk_packet_next(number: u8) -> u8
    ensures { result ≡ next 16 number }
{
    let after = PacketNumber(number).next();
    after.0
}

// ---- the flow window, sending end: 3 bytes, the lower edge, the next PS, and 1 while an RNR holds
// the end off, else 0

// Writes a sending end that has sent nothing, whatever the bytes were. There is no value. Refused
// with 14.
pub fn pk_sender_fresh(state: &mut [u8]) -> u32
    ensures value { result ≡ fresh_sender_answer state.old }
    ensures state_after { state.new ≡ fresh_sender_bytes state.old }
{
    window_bytes::sender_fresh(state)
}

// Answers 0 if the bytes are a sending end in good order, else 14. There is no value.
pub fn pk_sender_in_order(state: &[u8]) -> u32
    ensures { result ≡ sender_order_answer state.now }
{
    window_bytes::sender_in_order(state)
}

// Asks for the PS of the next packet: bits 8 to 15. Refused with 14, 9 (the window is closed, or
// the end is held off).
pub fn pk_sender_send(state: &mut [u8]) -> u32
    ensures value { result ≡ send_answer state.old }
    ensures state_after { state.new ≡ send_bytes state.old }
{
    window_bytes::sender_send(state)
}

// Takes the PR of received DATA, which becomes the lower edge; the mark stays as it is. There is no
// value. Refused with 14, 1, 16.
pub fn pk_sender_acknowledge(state: &mut [u8], pr: u8) -> u32
    ensures value { result ≡ pr_answer by_data state.old pr }
    ensures state_after { state.new ≡ pr_bytes by_data state.old pr }
{
    window_bytes::sender_acknowledge(state, pr)
}

// Takes the PR of a received RR, and lifts the mark. There is no value. Refused with 14, 1, 16.
pub fn pk_sender_ready(state: &mut [u8], pr: u8) -> u32
    ensures value { result ≡ pr_answer ready state.old pr }
    ensures state_after { state.new ≡ pr_bytes ready state.old pr }
{
    window_bytes::sender_ready(state, pr)
}

// Takes the PR of a received RNR, and sets the mark. There is no value. Refused with 14, 1, 16.
pub fn pk_sender_not_ready(state: &mut [u8], pr: u8) -> u32
    ensures value { result ≡ pr_answer not_ready state.old pr }
    ensures state_after { state.new ≡ pr_bytes not_ready state.old pr }
{
    window_bytes::sender_not_ready(state, pr)
}

// Takes the PR of a received REJECT, and lifts the mark; the next PS stays as it is. There is no
// value. Refused with 14, 1, 16.
pub fn pk_sender_reject(state: &mut [u8], pr: u8) -> u32
    ensures value { result ≡ pr_answer reject state.old pr }
    ensures state_after { state.new ≡ pr_bytes reject state.old pr }
{
    window_bytes::sender_reject(state, pr)
}

// ---- the flow window, receiving end: 3 bytes, the expected PS, the first-packet mark as 0 or 1,
// and the count of packets not yet told

// Writes a receiving end that has accepted nothing, whatever the bytes were. There is no value.
// Refused with 14.
pub fn pk_receiver_fresh(state: &mut [u8]) -> u32
    ensures value { result ≡ fresh_receiver_answer state.old }
    ensures state_after { state.new ≡ fresh_receiver_bytes state.old }
{
    window_bytes::receiver_fresh(state)
}

// Answers 0 if the bytes are a receiving end in good order, else 14. There is no value.
pub fn pk_receiver_in_order(state: &[u8]) -> u32
    ensures { result ≡ receiver_order_answer state.now }
{
    window_bytes::receiver_in_order(state)
}

// Takes the PS of a received packet. Bit 8 is 1 if PR is due. Refused with 14, 1, then for a PS
// other than the expected one with 12, 10 or 11.
pub fn pk_receiver_receive(state: &mut [u8], ps: u8) -> u32
    ensures value { result ≡ receive_answer state.old ps }
    ensures state_after { state.new ≡ receive_bytes state.old ps }
{
    window_bytes::receiver_receive(state, ps)
}

// Answers the PR to send now, bits 8 to 15, and sets the count of packets not yet told to 0.
// Refused with 14.
pub fn pk_receiver_tell(state: &mut [u8]) -> u32
    ensures value { result ≡ tell_answer state.old }
    ensures state_after { state.new ≡ tell_bytes state.old }
{
    window_bytes::receiver_tell(state)
}

// ---- the resequencer: a state of 146 bytes, and 32 places for tickets

// Writes a state in which nothing has arrived, whatever the bytes were. There is no value. Refused
// with 14.
pub fn pk_resequencer_fresh(state: &mut [u8]) -> u32
    ensures value { result ≡ fresh_answer state.old }
    ensures state_after { state.new ≡ fresh_bytes state.old }
{
    resequencer_bytes::fresh(state)
}

// Answers 0 if the bytes are a state in good order, else 14. There is no value.
pub fn pk_resequencer_in_order(state: &[u8]) -> u32
    ensures { result ≡ order_answer state.now }
{
    resequencer_bytes::in_order(state)
}

// The packet with the number `sn` arrives; `ticket` is what the caller knows it by. Bits 8 to 15
// say what became of it: 0 held, 1 handed on, 2 old, 3 duplicate. Bits 16 to 23 are the number of
// tickets handed on; they are written to the first 32 places of `tickets` in order, and 0 to the
// others of these 32. Refused with 14, 1, 5 (fewer than 32 places).
pub fn pk_resequencer_arrive(state: &mut [u8], tickets: &mut [u16], sn: u8, ticket: u16) -> u32
    ensures value { result ≡ arrive_answer state.old (length tickets.old) sn ticket }
    ensures state_after { state.new ≡ arrive_bytes state.old (length tickets.old) sn ticket }
    ensures tickets_after { tickets.new ≡ arrive_tickets state.old tickets.old sn ticket }
{
    resequencer_bytes::arrive(state, tickets, sn, ticket)
}

// The clock of the number `sn` ends. Answers and writes as an arrival that hands on does. Refused
// with 14, 1, 5 (fewer than 32 places), 7.
pub fn pk_resequencer_clock_end(state: &mut [u8], tickets: &mut [u16], sn: u8) -> u32
    ensures value { result ≡ clock_end_answer state.old (length tickets.old) sn }
    ensures state_after { state.new ≡ clock_end_bytes state.old (length tickets.old) sn }
    ensures tickets_after { tickets.new ≡ clock_end_tickets state.old tickets.old sn }
{
    resequencer_bytes::clock_end(state, tickets, sn)
}

// ---- frames. A form is a number: 0 short uplink, 1 to 16 long downlink with that many segments,
// 17 long uplink. A packet is 10 bytes: its kind, then a byte for each field, then zero bytes.

// Writes a packet and its user data as one frame to the front of `out`; bytes beyond the frame keep
// what they held. Bits 8 and up are the frame's length. Refused with 1 (a packet that has not 10
// bytes, a kind, a form or a field that is not valid, ROUTE, a byte that the kind has no use for
// and that is not 0, or user data with a kind that has none), 23 (the short uplink), 13, 5.
pub fn pk_frame_write(form: u8, packet: &[u8], user: &[u8], out: &mut [u8]) -> u64
    ensures value { result ≡ write_answer form packet.now (length user.now) (length out.old) }
    ensures out_after { out.new ≡ write_bytes form packet.now user.now out.old }
{
    frame_writer::write(form, packet, user, out)
}

// Writes a ROUTE packet with its table and, if `optional` (OF) is 1, its optional data, which may
// be empty, as one frame to the front of `out`; bytes beyond the frame keep what they held.
// `initial` is IN. Bits 8 and up are the frame's length. Refused with 1 (the form, IN or OF over 1,
// or data although OF is 0), 23 (the short uplink), 13, 5.
pub fn pk_route_write(
    form: u8,
    initial: u8,
    optional: u8,
    table: &[u8],
    extra: &[u8],
    out: &mut [u8],
) -> u64
    ensures value { result ≡ route_answer form optional initial (length table.now) (length extra.now) (length out.old) }
    ensures out_after { out.new ≡ route_bytes form optional initial table.now extra.now out.old }
{
    frame_writer::write_route(form, optional, initial, table, extra, out)
}

// Reads a frame and writes its packet to the first 10 bytes of `packet`. Bits 8 to 15 are the index
// in `frame` where the user data starts, bits 16 and up its length; of a ROUTE, those of what
// follows RTL. Refused with 1 (the form), 2, 3, 13, 5 (fewer than 10 bytes).
pub fn pk_frame_read(form: u8, frame: &[u8], packet: &mut [u8]) -> u64
    ensures value { result ≡ read_answer form frame.now (length packet.old) }
    ensures packet_after { packet.new ≡ read_bytes form frame.now packet.old }
{
    frame_reader::read(form, frame, packet)
}

// Where a frame is bad: answers the position in `frame` of what `pk_frame_read` refuses it for, and
// no refusal number. For 2 it is the frame's length, for 3 the first byte with a wrong fixed field,
// fill, LV, length of a ROUTE or padding or past the segments of a packet without LV, for 13 the
// form's largest size; 0 for 1, and if the frame reads.
pub fn pk_frame_fault(form: u8, frame: &[u8]) -> usize
    ensures { result ≡ fault_answer form frame.now }
{
    frame_reader::fault(form, frame)
}

// ---- messages

// Cuts a message into DATA frames: writes them to `out`, one after the other, and their lengths to
// `lengths`; places beyond them keep what they held. SN and PS count up from `sn` and `ps`; `pr`
// and `ch` are the same on all frames. Bits 8 to 31 are the number of frames, bits 32 and up the
// number of their bytes. Refused with 1, 23 (the short uplink), 4, 5.
pub fn pk_message_cut(
    form: u8,
    sn: u8,
    ps: u8,
    pr: u8,
    ch: u8,
    message: &[u8],
    out: &mut [u8],
    lengths: &mut [usize],
) -> u64
    ensures value { result ≡ cut_answer (cut_of (form_at form) (start_at sn ps pr ch) message.now (length out.old) (length lengths.old)) }
    ensures out_after { out.new ≡ cut_output (form_at form) (start_at sn ps pr ch) message.now out.old (length lengths.old) }
    ensures lengths_after { lengths.new ≡ cut_lengths (form_at form) (start_at sn ps pr ch) message.now (length out.old) lengths.old }
{
    message_bytes::cut(form, sn, ps, pr, ch, message, out, lengths)
}

// Joins the DATA frames in `frames`, one after the other with the given lengths, and writes the
// message that they carry to the front of `out`. Bits 8 and up are the message's length. Refused
// with 1, 2 (the lengths do not sum to the bytes, or there are no frames), then frame by frame 2,
// 3, 13 as in reading, 3 (not DATA, or M = 0 before the last frame), 17, 2 (M = 1 on the last
// frame), then 4, 5.
pub fn pk_message_join(form: u8, lengths: &[usize], frames: &[u8], out: &mut [u8]) -> u64
    ensures value { result ≡ joined_answer (join_of (form_at form) lengths.now frames.now (length out.old)) }
    ensures out_after { out.new ≡ join_output (form_at form) lengths.now frames.now out.old }
{
    message_bytes::join(form, lengths, frames, out)
}

// Where frames are bad: answers the position in `frames` of what `pk_message_join` refuses them for
// with an output of `room` bytes, and no refusal number. A frame's own fault is at its start plus
// the position that `pk_frame_fault` gives; for 17, a wrong M and a frame that is not DATA it is
// the frame's first byte; for lengths that do not sum to the bytes, no frames, 4 and 5 the length
// of all the bytes; 0 for 1, and if the frames are joined.
pub fn pk_message_fault(form: u8, lengths: &[usize], frames: &[u8], room: usize) -> usize
    ensures { result ≡ fault_position (join_of (form_at form) lengths.now frames.now room) }
{
    message_bytes::fault(form, lengths, frames, room)
}

// ---- interrogators: a table of 512 bytes, for each of the 256 ground addresses the set of its
// codes II, bit n of the set for the code n

// Writes a table in which no address has a code, whatever the bytes were. There is no value.
// Refused with 14.
pub fn pk_table_empty(table: &mut [u8]) -> u32
    ensures value { result ≡ empty_answer table.old }
    ensures table_after { table.new ≡ empty_bytes table.old }
{
    route_bytes::empty(table)
}

// The set of an address's codes: bits 8 to 23. Refused with 14.
pub fn pk_table_codes(table: &[u8], address: u8) -> u32
    ensures { result ≡ codes_answer table.now address }
{
    route_bytes::codes(table, address)
}

// The number of interrogators of an address: bits 8 to 15. Refused with 14.
pub fn pk_table_count(table: &[u8], address: u8) -> u32
    ensures { result ≡ count_answer table.now address }
{
    route_bytes::count(table, address)
}

// Chooses an interrogator for an address: the last-used code `last` if the address has it and it is
// not in the set `failed`, else the lowest code of the address that is not in `failed`. `last` is
// 65535 if there is none. Bits 8 to 15 are the code. Refused with 14, 1 (`last` is over 15 and not
// 65535), 8, 15.
pub fn pk_table_choose(table: &[u8], address: u8, last: u16, failed: u16) -> u32
    ensures { result ≡ choose_answer table.now address last failed }
{
    route_bytes::choose(table, address, last, failed)
}

// Changes a table by a route list. The addresses that had a code before and have none after are
// written to the first 256 places of `lost`, rising, and 0 to the others of these 256; bits 8 and
// up are their number. Refused with 14, 5 (fewer than 256 places), 6.
pub fn pk_table_update(table: &mut [u8], list: &[u8], lost: &mut [u8]) -> u32
    ensures value { result ≡ update_answer table.old list.now (length lost.old) }
    ensures table_after { table.new ≡ update_bytes table.old list.now (length lost.old) }
    ensures lost_after { lost.new ≡ update_lost table.old list.now lost.old }
{
    route_bytes::update(table, list, lost)
}

// Chooses an interrogator from the set `codes`, and answers as `pk_table_choose` does. Refused with
// 1, 8, 15.
pub fn pk_choose(codes: u16, last: u16, failed: u16) -> u32
    ensures { result ≡ choose_among_answer codes last failed }
{
    route_bytes::choose_among(codes, last, failed)
}

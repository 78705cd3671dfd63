// The exported calls of `libpepperknoll.a`: one for each function of `capi`, which it calls, and
// whose contract it has. A crate is built as a library or as a static library, and the program
// `call` makes the same calls as a C program does: so the calls are in `capi`, and their symbols
// here. The comments of `capi` say what each does.
#![tactic(auto)]

ghost use Rattle.std.specs.Prelude.{◌≡◌, length};
ghost use Rattle.sequence.specs.Modular.{distance, next};
ghost use Rattle.window.specs.History.{by_data, ready, not_ready, reject};
ghost use Rattle.window_bytes.specs.Stored.{fresh_sender_answer, fresh_sender_bytes, sender_order_answer, send_answer, send_bytes, pr_answer, pr_bytes, fresh_receiver_answer, fresh_receiver_bytes, receiver_order_answer, receive_answer, receive_bytes, tell_answer, tell_bytes};
ghost use Rattle.resequencer_bytes.specs.Stored.{fresh_answer, fresh_bytes, order_answer, arrive_answer, arrive_bytes, arrive_tickets, clock_end_answer, clock_end_bytes, clock_end_tickets};
ghost use Rattle.frame_form.specs.Forms.{form_at};
ghost use Rattle.frame_writer.specs.Writing.{write_answer, write_bytes};
ghost use Rattle.frame_writer.specs.Routes.{route_answer, route_bytes};
ghost use Rattle.frame_reader.specs.Reading.{fault_answer, read_answer, read_bytes};
ghost use Rattle.message.specs.Cutting.{cut_of, cut_output, cut_lengths};
ghost use Rattle.message.specs.Joining.{join_of, join_output};
ghost use Rattle.message_bytes.specs.Answers.{start_at, cut_answer, joined_answer};
ghost use Rattle.route_bytes.specs.Stored.{empty_answer, empty_bytes, codes_answer, count_answer, choose_answer, choose_among_answer, update_answer, update_bytes, update_lost};
ghost use Rattle.refusal.specs.Positions.{fault_position};

// The symbol of `capi::pk_link_distance`.
#[unsafe(no_mangle)]
pub extern "C" fn pk_link_distance(from: u8, to: u8) -> u8
    ensures { result ≡ distance 64 from to }
{
    capi::pk_link_distance(from, to)
}

// The symbol of `capi::pk_link_next`.
#[unsafe(no_mangle)]
pub extern "C" fn pk_link_next(number: u8) -> u8
    ensures { result ≡ next 64 number }
{
    capi::pk_link_next(number)
}

// The symbol of `capi::pk_packet_distance`.
#[unsafe(no_mangle)]
pub extern "C" fn pk_packet_distance(from: u8, to: u8) -> u8
    ensures { result ≡ distance 16 from to }
{
    capi::pk_packet_distance(from, to)
}

// The symbol of `capi::pk_packet_next`.
#[unsafe(no_mangle)]
pub extern "C" fn pk_packet_next(number: u8) -> u8
    ensures { result ≡ next 16 number }
{
    capi::pk_packet_next(number)
}

// The symbol of `capi::pk_sender_fresh`.
#[unsafe(no_mangle)]
pub extern "C" fn pk_sender_fresh(state: &mut [u8]) -> u32
    ensures value { result ≡ fresh_sender_answer state.old }
    ensures state_after { state.new ≡ fresh_sender_bytes state.old }
{
    capi::pk_sender_fresh(state)
}

// The symbol of `capi::pk_sender_in_order`.
#[unsafe(no_mangle)]
pub extern "C" fn pk_sender_in_order(state: &[u8]) -> u32
    ensures { result ≡ sender_order_answer state.now }
{
    capi::pk_sender_in_order(state)
}

// The symbol of `capi::pk_sender_send`.
#[unsafe(no_mangle)]
pub extern "C" fn pk_sender_send(state: &mut [u8]) -> u32
    ensures value { result ≡ send_answer state.old }
    ensures state_after { state.new ≡ send_bytes state.old }
{
    capi::pk_sender_send(state)
}

// The symbol of `capi::pk_sender_acknowledge`.
#[unsafe(no_mangle)]
pub extern "C" fn pk_sender_acknowledge(state: &mut [u8], pr: u8) -> u32
    ensures value { result ≡ pr_answer by_data state.old pr }
    ensures state_after { state.new ≡ pr_bytes by_data state.old pr }
{
    capi::pk_sender_acknowledge(state, pr)
}

// The symbol of `capi::pk_sender_ready`.
#[unsafe(no_mangle)]
pub extern "C" fn pk_sender_ready(state: &mut [u8], pr: u8) -> u32
    ensures value { result ≡ pr_answer ready state.old pr }
    ensures state_after { state.new ≡ pr_bytes ready state.old pr }
{
    capi::pk_sender_ready(state, pr)
}

// The symbol of `capi::pk_sender_not_ready`.
#[unsafe(no_mangle)]
pub extern "C" fn pk_sender_not_ready(state: &mut [u8], pr: u8) -> u32
    ensures value { result ≡ pr_answer not_ready state.old pr }
    ensures state_after { state.new ≡ pr_bytes not_ready state.old pr }
{
    capi::pk_sender_not_ready(state, pr)
}

// The symbol of `capi::pk_sender_reject`.
#[unsafe(no_mangle)]
pub extern "C" fn pk_sender_reject(state: &mut [u8], pr: u8) -> u32
    ensures value { result ≡ pr_answer reject state.old pr }
    ensures state_after { state.new ≡ pr_bytes reject state.old pr }
{
    capi::pk_sender_reject(state, pr)
}

// The symbol of `capi::pk_receiver_fresh`.
#[unsafe(no_mangle)]
pub extern "C" fn pk_receiver_fresh(state: &mut [u8]) -> u32
    ensures value { result ≡ fresh_receiver_answer state.old }
    ensures state_after { state.new ≡ fresh_receiver_bytes state.old }
{
    capi::pk_receiver_fresh(state)
}

// The symbol of `capi::pk_receiver_in_order`.
#[unsafe(no_mangle)]
pub extern "C" fn pk_receiver_in_order(state: &[u8]) -> u32
    ensures { result ≡ receiver_order_answer state.now }
{
    capi::pk_receiver_in_order(state)
}

// The symbol of `capi::pk_receiver_receive`.
#[unsafe(no_mangle)]
pub extern "C" fn pk_receiver_receive(state: &mut [u8], ps: u8) -> u32
    ensures value { result ≡ receive_answer state.old ps }
    ensures state_after { state.new ≡ receive_bytes state.old ps }
{
    capi::pk_receiver_receive(state, ps)
}

// The symbol of `capi::pk_receiver_tell`.
#[unsafe(no_mangle)]
pub extern "C" fn pk_receiver_tell(state: &mut [u8]) -> u32
    ensures value { result ≡ tell_answer state.old }
    ensures state_after { state.new ≡ tell_bytes state.old }
{
    capi::pk_receiver_tell(state)
}

// The symbol of `capi::pk_resequencer_fresh`.
#[unsafe(no_mangle)]
pub extern "C" fn pk_resequencer_fresh(state: &mut [u8]) -> u32
    ensures value { result ≡ fresh_answer state.old }
    ensures state_after { state.new ≡ fresh_bytes state.old }
{
    capi::pk_resequencer_fresh(state)
}

// The symbol of `capi::pk_resequencer_in_order`.
#[unsafe(no_mangle)]
pub extern "C" fn pk_resequencer_in_order(state: &[u8]) -> u32
    ensures { result ≡ order_answer state.now }
{
    capi::pk_resequencer_in_order(state)
}

// The symbol of `capi::pk_resequencer_arrive`.
#[unsafe(no_mangle)]
pub extern "C" fn pk_resequencer_arrive(
    state: &mut [u8],
    tickets: &mut [u16],
    sn: u8,
    ticket: u16,
) -> u32
    ensures value { result ≡ arrive_answer state.old (length tickets.old) sn ticket }
    ensures state_after { state.new ≡ arrive_bytes state.old (length tickets.old) sn ticket }
    ensures tickets_after { tickets.new ≡ arrive_tickets state.old tickets.old sn ticket }
{
    capi::pk_resequencer_arrive(state, tickets, sn, ticket)
}

// The symbol of `capi::pk_resequencer_clock_end`.
#[unsafe(no_mangle)]
pub extern "C" fn pk_resequencer_clock_end(state: &mut [u8], tickets: &mut [u16], sn: u8) -> u32
    ensures value { result ≡ clock_end_answer state.old (length tickets.old) sn }
    ensures state_after { state.new ≡ clock_end_bytes state.old (length tickets.old) sn }
    ensures tickets_after { tickets.new ≡ clock_end_tickets state.old tickets.old sn }
{
    capi::pk_resequencer_clock_end(state, tickets, sn)
}

// The symbol of `capi::pk_frame_write`.
#[unsafe(no_mangle)]
pub extern "C" fn pk_frame_write(form: u8, packet: &[u8], user: &[u8], out: &mut [u8]) -> u64
    ensures value { result ≡ write_answer form packet.now (length user.now) (length out.old) }
    ensures out_after { out.new ≡ write_bytes form packet.now user.now out.old }
{
    capi::pk_frame_write(form, packet, user, out)
}

// The symbol of `capi::pk_route_write`.
#[unsafe(no_mangle)]
pub extern "C" fn pk_route_write(
    form: u8,
    initial: u8,
    optional: u8,
    table: &[u8],
    extra: &[u8],
    out: &mut [u8],
) -> u64
    ensures value { result ≡ route_answer form optional initial (length table.now) (length extra.now) (length out.old) }
    ensures out_after { out.new ≡ route_bytes form optional initial table.now extra.now out.old }
{
    capi::pk_route_write(form, initial, optional, table, extra, out)
}

// The symbol of `capi::pk_frame_read`.
#[unsafe(no_mangle)]
pub extern "C" fn pk_frame_read(form: u8, frame: &[u8], packet: &mut [u8]) -> u64
    ensures value { result ≡ read_answer form frame.now (length packet.old) }
    ensures packet_after { packet.new ≡ read_bytes form frame.now packet.old }
{
    capi::pk_frame_read(form, frame, packet)
}

// The symbol of `capi::pk_frame_fault`.
#[unsafe(no_mangle)]
pub extern "C" fn pk_frame_fault(form: u8, frame: &[u8]) -> usize
    ensures { result ≡ fault_answer form frame.now }
{
    capi::pk_frame_fault(form, frame)
}

// The symbol of `capi::pk_message_cut`.
#[unsafe(no_mangle)]
pub extern "C" fn pk_message_cut(
    form: u8,
    sn: u8,
    ps: u8,
    pr: u8,
    ch: u8,
    message: &[u8],
    out: &mut [u8],
    lengths: &mut [usize],
) -> u64
    ensures value { result ≡ cut_answer (cut_of (form_at form) (start_at sn ps pr ch) message.now (length out.old) (length lengths.old)) }
    ensures out_after { out.new ≡ cut_output (form_at form) (start_at sn ps pr ch) message.now out.old (length lengths.old) }
    ensures lengths_after { lengths.new ≡ cut_lengths (form_at form) (start_at sn ps pr ch) message.now (length out.old) lengths.old }
{
    capi::pk_message_cut(form, sn, ps, pr, ch, message, out, lengths)
}

// The symbol of `capi::pk_message_join`.
#[unsafe(no_mangle)]
pub extern "C" fn pk_message_join(form: u8, lengths: &[usize], frames: &[u8], out: &mut [u8]) -> u64
    ensures value { result ≡ joined_answer (join_of (form_at form) lengths.now frames.now (length out.old)) }
    ensures out_after { out.new ≡ join_output (form_at form) lengths.now frames.now out.old }
{
    capi::pk_message_join(form, lengths, frames, out)
}

// The symbol of `capi::pk_message_fault`.
#[unsafe(no_mangle)]
pub extern "C" fn pk_message_fault(form: u8, lengths: &[usize], frames: &[u8], room: usize) -> usize
    ensures { result ≡ fault_position (join_of (form_at form) lengths.now frames.now room) }
{
    capi::pk_message_fault(form, lengths, frames, room)
}

// The symbol of `capi::pk_table_empty`.
#[unsafe(no_mangle)]
pub extern "C" fn pk_table_empty(table: &mut [u8]) -> u32
    ensures value { result ≡ empty_answer table.old }
    ensures table_after { table.new ≡ empty_bytes table.old }
{
    capi::pk_table_empty(table)
}

// The symbol of `capi::pk_table_codes`.
#[unsafe(no_mangle)]
pub extern "C" fn pk_table_codes(table: &[u8], address: u8) -> u32
    ensures { result ≡ codes_answer table.now address }
{
    capi::pk_table_codes(table, address)
}

// The symbol of `capi::pk_table_count`.
#[unsafe(no_mangle)]
pub extern "C" fn pk_table_count(table: &[u8], address: u8) -> u32
    ensures { result ≡ count_answer table.now address }
{
    capi::pk_table_count(table, address)
}

// The symbol of `capi::pk_table_choose`.
#[unsafe(no_mangle)]
pub extern "C" fn pk_table_choose(table: &[u8], address: u8, last: u16, failed: u16) -> u32
    ensures { result ≡ choose_answer table.now address last failed }
{
    capi::pk_table_choose(table, address, last, failed)
}

// The symbol of `capi::pk_table_update`.
#[unsafe(no_mangle)]
pub extern "C" fn pk_table_update(table: &mut [u8], list: &[u8], lost: &mut [u8]) -> u32
    ensures value { result ≡ update_answer table.old list.now (length lost.old) }
    ensures table_after { table.new ≡ update_bytes table.old list.now (length lost.old) }
    ensures lost_after { lost.new ≡ update_lost table.old list.now lost.old }
{
    capi::pk_table_update(table, list, lost)
}

// The symbol of `capi::pk_choose`.
#[unsafe(no_mangle)]
pub extern "C" fn pk_choose(codes: u16, last: u16, failed: u16) -> u32
    ensures { result ≡ choose_among_answer codes last failed }
{
    capi::pk_choose(codes, last, failed)
}

// Frames read into lent bytes, and where a frame is bad (document 01, "Forms and frames"; document
// 02, Q-5): a form is a number, a packet is ten bytes, an answer is one number. `capi` exports
// `read` and `fault`; `frame` has the same for typed packets.
#![tactic(auto)]

ghost use Rattle.std.specs.Prelude.{◌≡◌, true, false, cond, [], ◌∷◌, ◌+◌, ◌*◌, ◌/◌, ◌%◌, ◌^◌, ◌<◌, ◌≤◌, length, drop};
ghost use Rattle.std.specs.Int.Count.{count_leading_zeros};
ghost use Rattle.lists.specs.Lists.{over};
ghost use Rattle.frame_fields.specs.Rows.{number_in};
ghost use Rattle.frame_form.specs.Forms.{seg_of, form_valid, form_at, is_uplink};
ghost use Rattle.frame_form.specs.Segments.{whole_segments};
ghost use Rattle.frame_form.specs.Frames.{all_zero};
ghost use Rattle.frame_kinds.specs.Kinds.{layout_of, route_layout};
ghost use Rattle.frame_reader.specs.Faults.{zeros_first};
ghost use Rattle.frame_reader.specs.Reading.{fault_answer, read_answer, read_bytes};
ghost use Rattle.frame_reader.specs.Parts.{layout_for, row_by, length_by_lv, length_by_strings, head_by, byte_for, spot, spots, places_by, found_number, tail_position, strings_of, SureZeros, Named, Headed, look_answer, look_bytes};

use frame_kinds::{Found, Kind};

// What is seen of a frame's header.
#[derive(Clone, Copy)]
struct Head {
    // its length in bytes
    size: usize,
    // its bytes as one number, the last byte lowest
    number: u64,
    // its bits that differ from a fixed field
    wrong: u64,
    // the packet's length; 0 if LV or a length is wrong
    len: usize,
}

// ---- the header

// The first `k` bytes of `frame` as one number, the first byte highest.
fn number_in(frame: &[u8], k: usize) -> u64
    requires { (k ≤ 8) × (k ≤ length frame.now) }
    ensures { result ≡ number_in k frame.now }
{
    let mut h: u64 = 0;
    for i in 0..k {
        h = h * 256 + frame[i] as u64;
    }
    h
}

// ---- the packet's length, and what is seen of a header. The form, the segment's size, the frame,
// what was found and the header are arguments of their own: as fields of one struct, a DATA frame
// takes a ninth longer to read (measured: 16.4 ns, not 14.8)

// The packet's length by LV `u`, in a frame of `len` bytes; 0 if LV is wrong.
fn length_by_lv(segment: usize, len: usize, size: usize, u: usize) -> usize
    requires { (segment ≤ len) × (len < 2 ^ 63) × (u < 16) }
    ensures { result ≡ length_by_lv segment len size u }
{
    let n = len - segment + u;
    let right = (1 <= u) & ((u <= segment) & (size <= n));
    if right { n } else { 0 }
}

// The end of the strings that follow a header of `size` bytes: one of `len` bytes, or also a second
// one, whose length is before it; 0 if one, or the length after the first, runs past the frame.
fn strings_end(frame: &[u8], size: usize, len: usize, second: bool) -> usize
    requires { (size ≤ 7) × (len < 256) }
    ensures { result ≡ length_by_strings frame.now size len second }
{
    let first = size + len;
    if second {
        if first < frame.len() {
            let end = first + 1 + frame[first] as usize;
            return if end <= frame.len() { end } else { 0 };
        }
        return 0;
    }
    if first <= frame.len() { first } else { 0 }
}

// What is seen of a header of `size` bytes with LV or without: `want` has its fixed fields, `mask`
// their bits, the header's last byte lowest.
#[tactic(auto, unfolding(crate::specs::Parts::head_by))]
fn head_by(segment: usize, frame: &[u8], size: usize, lv: bool, want: u64, mask: u64) -> Head
    requires { (size ≤ 7) × (size ≤ length frame.now) × (segment ≤ length frame.now) }
    ensures { result ≡ head_by segment (record { size = size; lv = lv; strings = false; want = want; mask = mask }) frame.now }
{
    let h = number_in(frame, size);
    let wrong = (h ^ want) & mask;
    let mut len = size;
    if lv {
        len = length_by_lv(segment, frame.len(), size, (h % 16) as usize);
    }
    Head {
        size,
        number: h,
        wrong,
        len,
    }
}

// The same of a CALL REQUEST or a CALL ACCEPT: the direction decides which of its bits are fixed.
fn head_of_call(form: u8, segment: usize, frame: &[u8], want: u64, ground: u64, air: u64) -> Head
    requires { (7 ≤ length frame.now) × (segment ≤ length frame.now) }
    ensures { result ≡ head_by segment (record { size = 5; lv = true; strings = false; want = want; mask = cond (is_uplink (form_at form)) ground air }) frame.now }
{
    if frame_form::is_uplink_at(form) {
        head_by(segment, frame, 5, true, want, ground)
    } else {
        head_by(segment, frame, 5, true, want, air)
    }
}

// The same of each kind: the header's length, whether it has LV, its fixed fields and their bits.
#[tactic(auto, unfolding(crate::specs::Parts::row_by))]
fn head_of(form: u8, segment: usize, kind: Kind, f: &[u8]) -> Head
    requires { (7 ≤ length f.now) × (segment ≤ length f.now) }
    ensures { result ≡ head_by segment (row_by (layout_of (form_at form) kind)) f.now }
{
    let s = segment;
    match kind {
        Kind::Data => head_by(s, f, 3, true, 0x80_0000, 0x80_0000),
        Kind::ClearRequest => head_by(s, f, 7, true, 0x58_0000_0000_0000, 0xFF_0000_0000_0060),
        Kind::ClearConfirmation => head_by(s, f, 4, false, 0x5C00_0000, 0xFF00_0000),
        Kind::CallRequest => head_of_call(
            form,
            s,
            f,
            0x50_0000_0000,
            0xFF_40C0_0000,
            0xFF_4000_0000,
        ),
        Kind::CallAccept => head_of_call(
            form,
            s,
            f,
            0x54_0000_0000,
            0xFF_C000_0060,
            0xFF_0000_0060,
        ),
        Kind::ReceiveReady => head_by(s, f, 3, false, 0x60_0000, 0xFF_C000),
        Kind::ReceiveNotReady => head_by(s, f, 3, false, 0x64_0000, 0xFF_C000),
        Kind::Reject => head_by(s, f, 3, false, 0x7D_0000, 0xFF_C000),
        Kind::Interrupt => head_by(s, f, 3, true, 0x74_0000, 0xFF_0000),
        Kind::InterruptConfirmation => head_by(s, f, 3, false, 0x7C_0000, 0xFF_C00F),
        Kind::Reset => head_by(s, f, 5, false, 0x68_0000_0000, 0xFF_C00F_0000),
        Kind::ResetConfirmation => head_by(s, f, 3, false, 0x6C_0000, 0xFF_C00F),
    }
}

// The same of a ROUTE, whose strings tell the packet's length.
#[tactic(auto, unfolding(crate::specs::Parts::head_by, crate::specs::Parts::row_by))]
fn head_of_route(frame: &[u8]) -> Head
    requires { 7 ≤ length frame.now }
    ensures { result ≡ head_by 0 (row_by route_layout) frame.now }
{
    let h = number_in(frame, 2);
    Head {
        size: 2,
        number: h,
        wrong: (h ^ 0x7000) & 0xFC00,
        len: strings_end(frame, 2, (h % 256) as usize, h / 512 % 2 == 1),
    }
}

// The same of what was found; where nothing was, it is not used.
#[tactic(auto, unfolding(crate::specs::Parts::head_by, crate::specs::Parts::row_by))]
fn head_for(form: u8, segment: usize, found: Found, frame: &[u8]) -> Head
    requires { (7 ≤ length frame.now) × (segment ≤ length frame.now) }
    ensures { result ≡ head_by segment (row_by (layout_for (form_at form) found)) frame.now }
{
    match found {
        Found::Known(kind) => head_of(form, segment, kind, frame),
        _ => head_of_route(frame),
    }
}

// ---- the bytes after a packet

// The index of the first byte from `from` on that is not 0; the frame's length if there is none.
fn zeros_end(frame: &[u8], from: usize) -> usize
    requires { from ≤ length frame.now }
    ensures { result ≡ from + zeros_first (drop from frame.now) }
{
    let mut i = from;
    // Tried as a `for` over the indices: reading DATA takes 141 instructions so, and 139 like this.
    while i < frame.len() {
        if frame[i] != 0 {
            return i;
        }
        i = i + 1;
    }
    i
}

// Whether the bytes from index `from` to the end are surely 0: at most eight, and the number that
// the last eight bytes encode ends in as many zeros.
fn ends_in_zeros(frame: &[u8], from: usize) -> bool
    requires { from ≤ length frame.now }
    ensures { SureZeros result (drop from frame.now) }
{
    let len = frame.len();
    if len < 8 {
        return false;
    }
    let start = len - 8;
    let zeros = u64::trailing_zeros(number_in(&frame[start..], 8)) as usize;
    len - from <= zeros / 8
}

// Whether all bytes from index `from` to the end are 0.
fn is_padded(frame: &[u8], from: usize) -> bool
    requires { from ≤ length frame.now }
    ensures { result ≡ all_zero (drop from frame.now) }
{
    if ends_in_zeros(frame, from) {
        return true;
    }
    zeros_end(frame, from) == frame.len()
}

// ---- the packet's ten bytes

// Writes five bytes.
fn put_five(out: &mut [u8], a: u8, b: u8, c: u8, d: u8, e: u8)
    requires { length out.old ≡ 5 }
    ensures { out.new ≡ a ∷ b ∷ c ∷ d ∷ e ∷ [] }
{
    out[0] = a;
    out[1] = b;
    out[2] = c;
    out[3] = d;
    out[4] = e;
}

// Writes four bytes.
fn put_four(out: &mut [u8], a: u8, b: u8, c: u8, d: u8)
    requires { length out.old ≡ 4 }
    ensures { out.new ≡ a ∷ b ∷ c ∷ d ∷ [] }
{
    out[0] = a;
    out[1] = b;
    out[2] = c;
    out[3] = d;
}

// The value of a field of `width` bits, with `shift` bits below it, in a header that is the number
// `h`; 0 of none. The remainders change nothing in the rows below, and no row owes a bound for
// them.
fn field(h: u64, shift: u64, width: u64) -> u8
    ensures { result ≡ spot h shift width }
{
    let w = width % 9;
    if w == 0 {
        return 0;
    }
    ((h >> (shift % 64)) % (1u64 << w)) as u8
}

// Writes the values of a header that is the number `h` into nine bytes; answered as a `[u8; 9]`,
// they take a quarter longer to read (measured: 19.4 ns a frame, not 15.5). Each byte of `shifts`, the
// highest first, is the number of bits below one of the first eight values, and the same byte of
// `widths` its width, 0 where there is no value. A ninth value, F, has `last` bits and four below
// it.
fn spread(places: &mut [u8], h: u64, shifts: u64, widths: u64, last: u64)
    requires { length places.old ≡ 9 }
    ensures { places.new ≡ spots h shifts widths last }
{
    put_five(
        &mut places[0..5],
        field(h, shifts >> 56, widths >> 56),
        field(h, (shifts >> 48) % 256, (widths >> 48) % 256),
        field(h, (shifts >> 40) % 256, (widths >> 40) % 256),
        field(h, (shifts >> 32) % 256, (widths >> 32) % 256),
        field(h, (shifts >> 24) % 256, (widths >> 24) % 256),
    );
    put_four(
        &mut places[5..9],
        field(h, (shifts >> 16) % 256, (widths >> 16) % 256),
        field(h, (shifts >> 8) % 256, (widths >> 8) % 256),
        field(h, shifts % 256, widths % 256),
        field(h, 4, last),
    );
}

// The nine bytes after the first, of a packet of kind `kind` whose header is the number `h`: a row
// for each kind, and for the CALL packets a row for each direction. Of a CALL REQUEST one direction
// has TC, the other CH; a CALL ACCEPT has TC on downlink frames only.
fn put_places(form: u8, kind: Kind, p: &mut [u8], h: u64)
    requires { length p.old ≡ 9 }
    ensures { p.new ≡ places_by (layout_of (form_at form) kind) h }
{
    match kind {
        Kind::Data => spread(p, h, 0x1610_0C08_0400_0000, 0x0106_0404_0400_0000, 0),
        Kind::ClearRequest => spread(p, h, 0x2E28_2420_1810_0807, 0x0206_0404_0808_0801, 1),
        Kind::ClearConfirmation => spread(p, h, 0x1610_0C08_0000_0000, 0x0206_0404_0800_0000, 0),
        Kind::CallRequest if frame_form::is_uplink_at(form) => {
            spread(p, h, 0x1F18_1414_1008_0705, 0x0106_0200_0408_0102, 1)
        }
        Kind::CallRequest => spread(p, h, 0x1F18_1814_1008_0705, 0x0106_0004_0408_0102, 1),
        Kind::CallAccept if frame_form::is_uplink_at(form) => {
            spread(p, h, 0x1E18_1410_0807_0400, 0x0006_0404_0801_0100, 0)
        }
        Kind::CallAccept => spread(p, h, 0x1E18_1410_0807_0400, 0x0206_0404_0801_0100, 0),
        Kind::ReceiveReady => spread(p, h, 0x0804_0000_0000_0000, 0x0604_0400_0000_0000, 0),
        Kind::ReceiveNotReady => spread(p, h, 0x0804_0000_0000_0000, 0x0604_0400_0000_0000, 0),
        Kind::Reject => spread(p, h, 0x0804_0000_0000_0000, 0x0604_0400_0000_0000, 0),
        Kind::Interrupt => spread(p, h, 0x0F0E_0804_0000_0000, 0x0101_0604_0000_0000, 0),
        Kind::InterruptConfirmation => spread(
            p,
            h,
            0x0804_0000_0000_0000,
            0x0604_0000_0000_0000,
            0,
        ),
        Kind::Reset => spread(p, h, 0x1814_0800_0000_0000, 0x0604_0808_0000_0000, 0),
        Kind::ResetConfirmation => spread(p, h, 0x0804_0000_0000_0000, 0x0604_0000_0000_0000, 0),
    }
}

// The same of what was found: a ROUTE has OF, IN and RTL.
fn put_values(form: u8, found: Found, p: &mut [u8], h: u64)
    requires { length p.old ≡ 9 }
    ensures { p.new ≡ places_by (layout_for (form_at form) found) h }
{
    match found {
        Found::Known(kind) => put_places(form, kind, p, h),
        _ => spread(p, h, 0x0908_0000_0000_0000, 0x0101_0800_0000_0000, 0),
    }
}

// The number of what was found.
fn number_of(found: Found) -> u8
    ensures { result ≡ found_number found }
{
    match found {
        Found::Known(kind) => kind.number(),
        _ => 12,
    }
}

// Writes a packet into the first ten bytes of `packet`; the others keep what they held.
fn put_packet(form: u8, found: Found, packet: &mut [u8], h: u64)
    requires { 10 ≤ length packet.old }
    ensures { packet.new ≡ over (found_number found ∷ places_by (layout_for (form_at form) found) h) packet.old }
{
    packet[0] = number_of(found);
    put_values(form, found, &mut packet[1..10], h);
}

// ---- where a frame is bad

// The byte of a header of `size` bytes that has the highest of its wrong bits.
fn first_wrong(wrong: u64, size: usize) -> usize
    requires { (1 ≤ size) × (size ≤ 8) × (wrong < 2 ^ (8 * size)) × (0 < wrong) }
    ensures { result ≡ count_leading_zeros (8 * size) wrong / 8 }
{
    let zeros = u64::leading_zeros(wrong) as usize;
    (zeros + 8 * size - 64) / 8
}

// The byte that is wrong if LV or a length is: the header's last one; but if the first string and
// the length after it are in the frame, that length.
fn length_byte(frame: &[u8], size: usize, strings: bool, h: u64) -> usize
    requires { (1 ≤ size) × (size ≤ 7) }
    ensures { result ≡ byte_for frame.now size strings h }
{
    let first = size + (h % 256) as usize;
    if strings & ((h / 512 % 2 == 1) & (first < frame.len())) {
        return first;
    }
    size - 1
}

// The same, if nothing is wrong in a packet of `n` bytes: the first byte after it that is not 0 or
// lies past its segments; then the largest size, if the packet is longer.
fn tail_fault(form: u8, frame: &[u8], n: usize) -> usize
    requires { (1 ≤ n) × (n ≤ length frame.now) × (length frame.now % seg_of (form_at form) ≡ 0) }
    ensures { result ≡ tail_position (form_at form) n frame.now }
{
    let segment = frame_form::segment_at(form);
    // the bytes past the packet's segments are whole segments
    let end = frame.len() - (frame.len() - n) / segment * segment;
    let at = zeros_end(frame, n);
    if at < end {
        return at;
    }
    if end < frame.len() {
        return end;
    }
    let most = frame_form::most_at(form);
    if most < n { most } else { 0 }
}

// Whether strings follow the header of what was found.
fn has_strings(found: Found) -> bool
    ensures { result ≡ strings_of found }
{
    match found {
        Found::Known(_kind) => false,
        _ => true,
    }
}

// The position of what a frame is refused for, whose header was seen; 0 if it reads.
fn fault_at(form: u8, found: Found, frame: &[u8], head: Head) -> usize
    requires { Headed (form_at form) frame.now found head }
    ensures { result ≡ fault_answer form frame.now }
{
    if head.wrong != 0 {
        return first_wrong(head.wrong, head.size);
    }
    if head.len == 0 {
        return length_byte(frame, head.size, has_strings(found), head.number);
    }
    tail_fault(form, frame, head.len)
}

// ---- reading

// Reads a frame whose header was seen, checked in the order 3, 13, 5. What is refused with 3 before
// the padding is looked at is asked in one test, so that a compiler has one branch.
fn read_at(
    form: u8,
    segment: usize,
    found: Found,
    frame: &[u8],
    head: Head,
    packet: &mut [u8],
) -> u64
    requires { Headed (form_at form) frame.now found head × (segment ≡ seg_of (form_at form)) }
    ensures value { result ≡ read_answer form frame.now (length packet.old) }
    ensures written { packet.new ≡ read_bytes form frame.now packet.old }
{
    let size = head.size;
    let n = head.len;
    let past = segment <= frame.len() - n;
    if (head.wrong != 0) | (n == 0) | past {
        return 3;
    }
    if is_padded(frame, n) {
        if frame_form::most_at(form) < n {
            return 13;
        }
        if packet.len() < 10 {
            return 5;
        }
        put_packet(form, found, packet, head.number);
        return 256 * (size as u64 + 256 * (n - size) as u64);
    }
    3
}

// Reads a frame whose kind was found; or, if `locate` is set, answers where it is bad, and writes
// nothing. Both see the header by the same code, which a compiler has once.
fn look_found(
    form: u8,
    segment: usize,
    found: Found,
    frame: &[u8],
    packet: &mut [u8],
    locate: bool,
) -> u64
    requires { Named (form_at form) frame.now found × (segment ≡ seg_of (form_at form)) }
    ensures value { result ≡ look_answer locate form frame.now (length packet.old) }
    ensures written { packet.new ≡ look_bytes locate form frame.now packet.old }
{
    let head = head_for(form, segment, found, frame);
    if locate {
        return fault_at(form, found, frame, head) as u64;
    }
    read_at(form, segment, found, frame, head, packet)
}

// The same of a frame of whole segments.
fn look_whole(form: u8, segment: usize, frame: &[u8], packet: &mut [u8], locate: bool) -> u64
    requires { (form_valid (form_at form) ≡ true) × (whole_segments (seg_of (form_at form)) (length frame.now) ≡ true) × (segment ≡ seg_of (form_at form)) }
    ensures value { result ≡ look_answer locate form frame.now (length packet.old) }
    ensures written { packet.new ≡ look_bytes locate form frame.now packet.old }
{
    let found = frame_kinds::named(frame[0]);
    match found {
        Found::Unknown => if locate { 0 } else { 3 },
        _ => look_found(form, segment, found, frame, packet, locate),
    }
}

// The same of any frame.
fn look(form: u8, frame: &[u8], packet: &mut [u8], locate: bool) -> u64
    ensures value { result ≡ look_answer locate form frame.now (length packet.old) }
    ensures written { packet.new ≡ look_bytes locate form frame.now packet.old }
{
    // a part of itself, so that a compiler has it in registers
    let frame = &frame[..];
    if frame_form::is_form(form) {
        if frame_form::is_whole_at(form, frame.len()) {
            return look_whole(form, frame_form::segment_at(form), frame, packet, locate);
        }
        return if locate { frame.len() as u64 } else { 2 };
    }
    if locate { 0 } else { 1 }
}

// Reads a frame, and writes its packet into the first ten bytes of `packet`; the others keep what
// they held. The answer is the refusal number, plus 256 times the index where the user data starts
// in the frame, plus 65,536 times its length. Refused with 1, 2, 3, 13, 5 (fewer than ten bytes).
pub fn read(form: u8, frame: &[u8], packet: &mut [u8]) -> u64
    ensures value { result ≡ read_answer form frame.now (length packet.old) }
    ensures written { packet.new ≡ read_bytes form frame.now packet.old }
{
    look(form, frame, packet, false)
}

// Where a frame is bad: the position of what `read` refuses it for. For 2 it is the frame's length,
// for 3 the first byte with a wrong fixed field, fill, LV, length or padding or past the segments
// of a packet without LV, for 13 the form's largest size; 0 for 1, and if the frame reads.
pub fn fault(form: u8, frame: &[u8]) -> usize
    ensures { result ≡ fault_answer form frame.now }
{
    let mut none = [0u8; 0];
    look(form, frame, &mut none, true) as usize
}

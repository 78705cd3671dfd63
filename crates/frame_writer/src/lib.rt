// Frames written from lent bytes (document 01, "Forms and frames"): a form is a number, a packet is
// ten bytes, an answer is one number. `capi` exports `write`; `frame` has the same for typed
// packets.
#![tactic(auto)]

ghost use Rattle.std.specs.Prelude.{◌≡◌, true, cond, [], ◌∷◌, ◌++◌, suc, ◌+◌, ◌-◌, ◌*◌, ◌%◌, ◌^◌, ◌<◌, ◌≤◌, ltb, length, drop, replicate};
ghost use Rattle.std.proofs.Math.Seq.{paste};
ghost use Rattle.refusal.specs.Numbers.{refusal_number};
ghost use Rattle.frame_fields.specs.Rows.{bytes_of};
ghost use Rattle.frame_fields.specs.Layouts.{within, header_number};
ghost use Rattle.frame_form.specs.Forms.{long_segment, seg_of, form_at};
ghost use Rattle.frame_form.specs.Segments.{padding, last_used, frame_length};
ghost use Rattle.frame_form.specs.Frames.{framed};
ghost use Rattle.frame_kinds.specs.Kinds.{layout_in};
ghost use Rattle.frame_writer.specs.Writing.{write_verdict, output_by, answer_by, data_places, write_answer_by, write_bytes_by, write_answer, write_bytes};
ghost use Rattle.frame_writer.specs.Routes.{route_length, route_answer, route_bytes};
ghost use Rattle.frame_writer.specs.Parts.{SameOrLong, in_place, frees, widths_in, shifts_in, sum_at, Row, Heading};

use frame_kinds::{Found, Kind};

// ---- any packet: a header that is given as a number

// Writes the eight bytes of `n` to the front of `out`, the highest first. A compiler makes this one
// store.
fn put_eight(out: &mut [u8], n: u64)
    requires { 8 ≤ length out.old }
    ensures { out.new ≡ bytes_of 8 n ++ drop 8 out.old }
{
    out[..8].copy_from_slice(&n.to_be_bytes());
}

// Sets `n` bytes of `out` to 0, starting at index `at`.
fn clear(out: &mut [u8], at: usize, n: usize)
    requires { at + n ≤ length out.old }
    ensures { out.new ≡ paste out.old at (replicate n 0) n }
{
    let end = at + n;
    out[at..end].fill(0);
}

// Writes the header (the lowest `size` bytes of `number`), the user data and `pad` zero bytes to
// the front of `out`. It clears the whole last segment first, because a compiler clears a known
// number of bytes with two stores; the segment's bytes before the padding are written afterwards.
// The header is written with zeros after it, eight bytes in all, which is one store: a frame of a
// long form has ten bytes or more, and the user data goes over the zeros that are not padding.
fn put_frame(out: &mut [u8], size: usize, number: u64, user: &[u8], pad: usize)
    requires pad_le_long_segment { (pad ≤ long_segment) × (long_segment ≤ size + length user.now + pad) × (size + length user.now + pad ≤ length out.old) }
    requires header { (1 ≤ size) × (size ≤ 7) }
    ensures { out.new ≡ (bytes_of size number ++ (user.now ++ replicate pad 0))
        ++ drop (size + length user.now + pad) out.old }
{
    let end = size + user.len();
    let from = end + pad - 10;
    clear(out, from, 10);
    put_eight(out, number << (64 - 8 * size as u64));
    lists::copy_in(&mut out[size..end], user);
}

// The number of zero bytes that fill `n` bytes up to whole segments of a long form.
fn padding_of(n: usize) -> usize
    requires { n + 9 < 2 ^ 64 }
    ensures value { result ≡ padding long_segment n }
    ensures few { result ≤ 9 }
{
    9 - (n + 9) % 10
}

// What is added to the header's number for LV, the number of bytes used in the last segment, where
// `pad` bytes are not used; 0 for a header without LV.
fn lv_of(lv: bool, pad: usize) -> u64
    requires { pad ≤ 9 }
    ensures value { result ≡ cond lv (10 - pad) 0 }
    ensures few { result ≤ 10 }
{
    if lv {
        return (10 - pad) as u64;
    }
    0
}

// The refusal number for a packet of `n` bytes that is to be written into `room` bytes, checked in
// the order 1, 23, 13, 5; 0 if there is none.
fn check_put(form: u8, fits: bool, n: usize, pad: usize, room: usize) -> u64
    requires { pad ≡ padding long_segment n }
    ensures { result ≡ refusal_number (write_verdict (form_at form) fits n room) }
{
    if frame_form::is_form(form) & fits {
        if form == 0 {
            return 23;
        }
        if frame_form::most_at(form) < n {
            return 13;
        }
        if room < n + pad {
            return 5;
        }
        return 0;
    }
    1
}

// Writes a frame to the front of `out`: the header, the user data and zero bytes up to whole
// segments. `fits` is whether every value fits its field, `lv` whether the header ends in LV, and
// `number` the header with LV 0: LV is added here, where the padding is known.
fn put(form: u8, fits: bool, size: usize, lv: bool, number: u64, user: &[u8], out: &mut [u8]) -> u64
    requires { (1 ≤ size) × (size ≤ 7) × (number < 2 ^ 60) }
    ensures value { result ≡ answer_by (write_verdict (form_at form) fits (size + length user.now) (length out.old))
        (frame_length (seg_of (form_at form)) (size + length user.now)) }
    ensures written { out.new ≡ output_by (write_verdict (form_at form) fits (size + length user.now) (length out.old))
        (framed (seg_of (form_at form)) (bytes_of size (number + cond lv (last_used long_segment (size + length user.now)) 0)) user.now) out.old }
{
    let n = size + user.len();
    let pad = padding_of(n);
    let refusal = check_put(form, fits, n, pad, out.len());
    if refusal != 0 {
        return refusal;
    }
    let header = number + lv_of(lv, pad);
    put_frame(out, size, header, user, pad);
    256 * (n + pad) as u64
}

// ---- a packet of each kind. `places` are the nine bytes after the first of a packet's ten

// What the header of a packet is made of: whether every value fits its field, the header's length
// in bytes, whether it ends in LV, and the header as a number, with LV 0.
#[derive(Clone, Copy)]
struct Made {
    fits: bool,
    size: usize,
    lv: bool,
    number: u64,
}

// Whether a value fits the field of a place: the lowest four bits of `width` are its width.
fn below(value: u8, width: u64) -> bool
    ensures { result ≡ ltb value (2 ^ (width % 16)) }
{
    (value as u64) < (1u64 << (width % 16))
}

// A value in its place of the header: the lowest six bits of `shift` are the number of bits below
// its field, and the lowest four of `width` its width. A field of 0 bits has the value 0: with the
// product, a compiler that knows the width leaves it out. No row of the table has a shift of 48 or
// more: the remainder is there so that no row owes a proof of it.
fn at(value: u8, shift: u64, width: u64) -> u64
    ensures value { result ≡ in_place value (shift % 64 % 48) (width % 16) }
    ensures few { result < 2 ^ 55 }
{
    (value as u64) * (((width % 16 != 0) as u64) << (shift % 64 % 48))
}

// Whether every place fits its field.
fn all_below(places: &[u8; 9], widths: u64) -> bool
    ensures { result ≡ within (frees (widths_in widths)) places.now }
{
    below(places[0], widths >> 32)
        & below(places[1], widths >> 28)
        & below(places[2], widths >> 24)
        & below(places[3], widths >> 20)
        & below(places[4], widths >> 16)
        & below(places[5], widths >> 12)
        & below(places[6], widths >> 8)
        & below(places[7], widths >> 4)
        & below(places[8], widths)
}

// The sum of all places in the header.
fn all_at(places: &[u8; 9], shifts: u64, widths: u64) -> u64
    ensures value { result ≡ sum_at (shifts_in shifts) (widths_in widths) places.now }
    ensures few { result < 9 * 2 ^ 55 }
{
    at(places[0], shifts >> 48, widths >> 32)
        + at(places[1], shifts >> 42, widths >> 28)
        + at(places[2], shifts >> 36, widths >> 24)
        + at(places[3], shifts >> 30, widths >> 20)
        + at(places[4], shifts >> 24, widths >> 16)
        + at(places[5], shifts >> 18, widths >> 12)
        + at(places[6], shifts >> 12, widths >> 8)
        + at(places[7], shifts >> 6, widths >> 4)
        + at(places[8], shifts, widths)
}

// The header of a kind, from a row of the table. A row is the header's length; its first byte where
// no value is, which has all fixed bits that are 1; whether it ends in LV; and two numbers for the
// nine places, the first place highest. `shifts` has two octal digits for each: where its field
// ends, the byte counted from the header's last and the bit in that byte. `widths` has one
// hexadecimal digit for each: the width of its field, 0 for a place that the kind has no use for.
// User data without LV does not fit, because it could not be read back.
fn row(p: &[u8; 9], user: usize, size: usize, first: u8, lv: bool, shifts: u64, widths: u64) -> Made
    requires { (1 ≤ size) × (size ≤ 7) }
    ensures { Row size first lv shifts widths p.now user result }
{
    let fits = all_below(p, widths) & (lv | (user == 0));
    let number = ((first as u64) << (8 * size as u64 - 8)) + all_at(p, shifts, widths);
    Made {
        fits,
        size,
        lv,
        number,
    }
}

// The header of a packet of kind `kind`: the table of kinds, a row for each, and for the CALL
// packets a row for each direction. A compiler makes code for each row, in which all of it is
// constant. `p` are the places, `u` is the length of the user data: with short names a row is one
// line.
fn header_of(form: u8, kind: Kind, p: &[u8; 9], u: usize) -> Made
    ensures { Heading (form_at form) kind p.now u result }
{
    match kind {
        Kind::Data => row(p, u, 3, 0x80, true, 0o262014100400000000, 0x164440000),
        Kind::ClearRequest => row(p, u, 7, 0x58, true, 0o565044403020100704, 0x264488811),
        Kind::ClearConfirmation => row(p, u, 4, 0x5C, false, 0o262014100000000000, 0x264480000),
        Kind::CallRequest => {
            if frame_form::is_uplink_at(form) {
                row(p, u, 5, 0x50, true, 0o373024242010070504, 0x162048121)
            } else {
                row(p, u, 5, 0x50, true, 0o373030242010070504, 0x160448121)
            }
        }
        Kind::CallAccept => {
            if frame_form::is_uplink_at(form) {
                row(p, u, 5, 0x54, true, 0o363024201007040000, 0x064481100)
            } else {
                row(p, u, 5, 0x54, true, 0o363024201007040000, 0x264481100)
            }
        }
        Kind::ReceiveReady => row(p, u, 3, 0x60, false, 0o100400000000000000, 0x644000000),
        Kind::ReceiveNotReady => row(p, u, 3, 0x64, false, 0o100400000000000000, 0x644000000),
        Kind::Reject => row(p, u, 3, 0x7D, false, 0o100400000000000000, 0x644000000),
        Kind::Interrupt => row(p, u, 3, 0x74, true, 0o171610040000000000, 0x116400000),
        Kind::InterruptConfirmation => row(p, u, 3, 0x7C, false, 0o100400000000000000, 0x640000000),
        Kind::Reset => row(p, u, 5, 0x68, false, 0o302410000000000000, 0x648800000),
        Kind::ResetConfirmation => row(p, u, 3, 0x6C, false, 0o100400000000000000, 0x640000000),
    }
}

// The header of a DATA packet as one number, "first bit highest", with LV 0: each field in turn is
// appended below those before it.
fn data_header(m: u8, sn: u8, ps: u8, pr: u8, ch: u8) -> u64
    ensures value { result ≡ header_number (layout_in true Kind.Data) 0 (m ∷ sn ∷ ps ∷ pr ∷ ch ∷ []) }
    ensures few { result < 2 ^ 60 }
{
    let h = 2 + m as u64;
    let h = h * 64 + sn as u64;
    let h = h * 16 + ps as u64;
    let h = h * 16 + pr as u64;
    let h = h * 16 + ch as u64;
    h * 16
}

// Writes a DATA packet with these values: what `write` does for its ten bytes. For `frame`, which
// has the values and writes many of them.
pub fn write_data(
    form: u8,
    m: u8,
    sn: u8,
    ps: u8,
    pr: u8,
    ch: u8,
    user: &[u8],
    out: &mut [u8],
) -> u64
    ensures value { result ≡ write_answer_by (Found.Known Kind.Data) form (data_places m sn ps pr ch) (length user.now) (length out.old) }
    ensures written { out.new ≡ write_bytes_by (Found.Known Kind.Data) form (data_places m sn ps pr ch) user.now out.old }
{
    let fits = (m < 2) & (sn < 64) & (ps < 16) & (pr < 16) & (ch < 16);
    let number = data_header(m, sn, ps, pr, ch);
    put(form, fits, 3, true, number, user, out)
}

// Writes a packet of kind `kind`.
fn write_known(form: u8, kind: Kind, places: &[u8; 9], user: &[u8], out: &mut [u8]) -> u64
    ensures value { result ≡ write_answer_by (Found.Known kind) form places.now (length user.now) (length out.old) }
    ensures written { out.new ≡ write_bytes_by (Found.Known kind) form places.now user.now out.old }
{
    let m = header_of(form, kind, places, user.len());
    put(form, m.fits, m.size, m.lv, m.number, user, out)
}

// Writes a packet and its user data as one frame to the front of `out`; bytes beyond the frame keep
// what they held. The answer is the refusal number plus 256 times the frame's length. Refusal 1 is
// for a `packet` that is not ten bytes long, an unknown kind, a form or a value that is not valid,
// a byte other than 0 that the kind has no use for, and user data without LV; then 23, 13, 5.
pub fn write(form: u8, packet: &[u8], user: &[u8], out: &mut [u8]) -> u64
    ensures value { result ≡ write_answer form packet.now (length user.now) (length out.old) }
    ensures written { out.new ≡ write_bytes form packet.now user.now out.old }
{
    let [number, rest @ ..] = packet else {
        return 1;
    };
    let Ok(places) = <&[u8; 9]>::try_from(rest) else {
        return 1;
    };
    match frame_kinds::kind_at(*number) {
        Found::Known(kind) => write_known(form, kind, places, user, out),
        Found::Route => 1,
        Found::Unknown => 1,
    }
}

// ---- ROUTE, which has two strings in the place of user data

// The packet's length; if a string has more than 255 bytes, another number over every form's
// largest packet, because the sum of two lengths could overflow.
fn route_length(optional: u8, table: usize, extra: usize) -> usize
    ensures same_or_long { SameOrLong result (route_length optional table extra) }
    ensures few { (2 ≤ result) × (result ≤ 1000) }
{
    if 255 < table {
        return 1000;
    }
    if optional == 1 {
        if 255 < extra {
            return 1000;
        }
        return 2 + (table + (1 + extra));
    }
    2 + table
}

// Writes the length of a string in a byte, and the string.
fn put_counted(out: &mut [u8], extra: &[u8])
    requires { (length out.old ≡ suc (length extra.now)) × (length extra.now < 256) }
    ensures { out.new ≡ length extra.now ∷ extra.now }
{
    let end = 1 + extra.len();
    lists::copy_in(&mut out[1..end], extra);
    out[0] = extra.len() as u8;
}

// Writes a string from index `at` on, and after it the length of another one and that string.
fn put_strings(out: &mut [u8], at: usize, table: &[u8], extra: &[u8])
    requires { (at + (length table.now + (1 + length extra.now)) ≤ length out.old) × (length extra.now < 256) }
    ensures { out.new ≡ paste out.old at (table.now ++ (length extra.now ∷ extra.now)) (length table.now + (1 + length extra.now)) }
{
    let first = at + table.len();
    let end = first + 1 + extra.len();
    lists::copy_in(&mut out[at..first], table);
    put_counted(&mut out[first..end], extra);
}

// Writes the header (two bytes, the number `header`), the two strings with the second one's length
// before it, and `pad` zero bytes to the front of `out`. The bytes are written in the order of
// `put_frame`.
fn put_route(out: &mut [u8], header: u64, table: &[u8], extra: &[u8], pad: usize)
    requires pad_le_long_segment { (pad ≤ long_segment) × (long_segment ≤ 2 + (length table.now + (1 + length extra.now)) + pad) × (2 + (length table.now + (1 + length extra.now)) + pad ≤ length out.old) }
    requires short { length extra.now < 256 }
    ensures { out.new ≡ (bytes_of 2 header ++ ((table.now ++ (length extra.now ∷ extra.now)) ++ replicate pad 0))
        ++ drop (2 + (length table.now + (1 + length extra.now)) + pad) out.old }
{
    let end = 2 + (table.len() + (1 + extra.len()));
    let last = end + pad - 10;
    clear(out, last, 10);
    put_eight(out, header << 48);
    put_strings(out, 2, table, extra);
}

// Writes a ROUTE packet as one frame to the front of `out`, and answers as `write` does. `optional`
// is OF and `initial` IN, as 0 or 1; `extra` is the optional data. The table is not looked into.
// Refused with 1 (the form, a flag over 1, or data although OF is 0), 23, 13, 5.
pub fn write_route(
    form: u8,
    optional: u8,
    initial: u8,
    table: &[u8],
    extra: &[u8],
    out: &mut [u8],
) -> u64
    ensures value { result ≡ route_answer form optional initial (length table.now) (length extra.now) (length out.old) }
    ensures written { out.new ≡ route_bytes form optional initial table.now extra.now out.old }
{
    let fits = (optional < 2) & ((initial < 2) & ((optional == 1) | (extra.len() == 0)));
    let n = route_length(optional, table.len(), extra.len());
    let pad = padding_of(n);
    let refusal = check_put(form, fits, n, pad, out.len());
    if refusal != 0 {
        return refusal;
    }
    // SP = 3 and ST = 0, then OF, IN and RTL
    let header = 0x7000 + 512 * optional as u64 + 256 * initial as u64 + table.len() as u64;
    if optional == 1 {
        put_route(out, header, table, extra, pad);
        return 256 * (n + pad) as u64;
    }
    put_frame(out, 2, header, table, pad);
    256 * (n + pad) as u64
}

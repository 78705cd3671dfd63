// What the capture program prints of a file (document 02, Q-12): a line for each frame, or why the
// file is refused. specs/Report.antt has the text.
#![tactic(auto)]

ghost use Rattle.std.specs.Prelude.{◌≡◌, [], ◌∷◌, ◌++◌, ◌+◌, ◌-◌, ◌≤◌, ◌<◌, length};
ghost use Rattle.refusal.specs.Numbers.{refusal_number};
ghost use Rattle.text.specs.Decimal.{spaced};
ghost use Rattle.text.specs.Writing.{Wrote};
ghost use Rattle.frame.specs.Packets.{kind_of};
ghost use Rattle.capture.specs.Opening.{opened_count, open_by, form_in, count_in, frames_from};
ghost use Rattle.capture_text.specs.Report.{kind_text, read_text, hex_digit, hex_byte, hex_bytes, marked, around, fault_text, line_text, lines_text, file_verdict, room_verdict, report_of, report_output};
ghost use Rattle.capture_text.specs.Parts.{packet_text, not_read_text, refused_line, from_here, column};

use capture::Opened;
use frame::{Contents, Packet, UserData};
use frame_form::Form;
use refusal::{Fault, Refusal};

// What the call answers: whether the report was written or refused; its length in bytes; and
// whether the file opened.
#[derive(Clone, Copy, Debug, PartialEq, Eq)]
pub struct Report {
    pub verdict: Result<(), Refusal>,
    pub written: usize,
    pub file: Result<(), Refusal>,
}

// Writes the report of a capture file to the front of `out`, with the column of the fault in each
// line if `hex` is set; bytes past it keep what they held. Refused with 5, and nothing is written,
// if `out` has less than 65,536 bytes, which the report of any file fits.
pub fn write_report(file: &[u8], hex: bool, out: &mut [u8]) -> Report
    ensures value { result ≡ report_of hex file.now (length out.old) }
    ensures number { refusal_number result.verdict ≡ refusal_number (room_verdict (length out.old)) }
    ensures written { out.new ≡ report_output hex file.now out.old }
    ensures inside { result.written ≤ length out.old }
{
    if out.len() < 65536 {
        return Report {
            verdict: Err(Refusal::OutputTooShort),
            written: 0,
            file: Ok(()),
        };
    }
    match judge(file) {
        Ok(Opened { form, count }) => Report {
            verdict: Ok(()),
            written: put_lines(out, hex, Form::from(form), file, count),
            file: Ok(()),
        },
        Err(why) => Report {
            verdict: Ok(()),
            written: put_refused(out, why),
            file: Err(why),
        },
    }
}

// Opens the file, unless it is longer than any capture: then it is refused with 4 unread.
fn judge(file: &[u8]) -> Result<Opened, Refusal>
    ensures value { result ≡ open_by (file_verdict file.now) (form_in file.now) (count_in file.now) }
    ensures few { opened_count result ≤ 512 }
{
    if 83980 < file.len() {
        return Err(Refusal::MessageTooLong);
    }
    capture::open_file(file)
}

// ---- lines. Each function below writes its text to `out` starting at `from`, and returns the
// index after its text. The room that it requires begins at `from`, which moves with each text: a
// type for it would be made anew at each call.

// Writes the line of each frame, from the front of `out` on.
fn put_lines(out: &mut [u8], hex: bool, form: Form, file: &[u8], count: usize) -> usize
    requires { (count ≤ 512) × (65536 ≤ length out.old) }
    ensures { Wrote out.old out.new 0 result 65536 (lines_text hex form (frames_from file.now 0 count)) }
{
    let mut end = 0;
    for i in 0..count {
        let frame = capture::frame_of(file, i);
        end = put_line(out, end, hex, form, frame);
    }
    end
}

// Writes the word `refused`, the number and a line end, to the front of `out`.
fn put_refused(out: &mut [u8], why: Refusal) -> usize
    requires { 14 ≤ length out.old }
    ensures { Wrote out.old out.new 0 result 14 (refused_line why) }
{
    let word = text::put_word(out, 0, b"refused");
    let number = text::put_spaced(out, word, why.number() as u32);
    text::put_byte(out, number, b'\n')
}

// Writes the line of a frame: at most 128 bytes.
fn put_line(out: &mut [u8], from: usize, hex: bool, form: Form, frame: &[u8]) -> usize
    requires { from + 128 ≤ length out.old }
    ensures { Wrote out.old out.new from result 128 (line_text hex form frame.now) }
{
    let read = frame::read_frame(form, frame);
    let end = put_read(out, from, read);
    let fault = put_column(out, end, hex, read, frame);
    text::put_byte(out, fault, b'\n')
}

// ---- what reading a frame answers

// Writes SN, kind and number: at most 40 bytes.
fn put_read(out: &mut [u8], from: usize, read: Result<Contents, Fault>) -> usize
    requires { from + 40 ≤ length out.old }
    ensures { Wrote out.old out.new from result 40 (read_text read) }
{
    match read {
        Ok(contents) => put_contents(out, from, contents),
        Err(fault) => put_not_read(out, from, fault.why),
    }
}

// The same of a frame that was read.
fn put_contents(out: &mut [u8], from: usize, contents: Contents) -> usize
    requires { from + 40 ≤ length out.old }
    ensures { Wrote out.old out.new from result 40 (read_text (Ok contents)) }
{
    match contents {
        Contents::Packet(packet, _user) => put_packet(out, from, packet),
        Contents::Route(_route) => text::put_word(out, from, b"- ROUTE 0"),
    }
}

// Writes SN, kind and 0.
fn put_packet(out: &mut [u8], from: usize, packet: Packet) -> usize
    requires { from + 30 ≤ length out.old }
    ensures { Wrote out.old out.new from result 30 (packet_text packet) }
{
    let sn = text::put_number(out, from, packet.sn().0 as u32);
    let blank = text::put_byte(out, sn, b' ');
    let kind = put_kind(out, blank, packet);
    text::put_word(out, kind, b" 0")
}

// Writes two dashes and the refusal number.
fn put_not_read(out: &mut [u8], from: usize, why: Refusal) -> usize
    requires { from + 9 ≤ length out.old }
    ensures { Wrote out.old out.new from result 9 (not_read_text why) }
{
    let dashes = text::put_word(out, from, b"- -");
    text::put_spaced(out, dashes, why.number() as u32)
}

// Writes the name of the packet's kind.
fn put_kind(out: &mut [u8], from: usize, packet: Packet) -> usize
    requires { from + 22 ≤ length out.old }
    ensures { Wrote out.old out.new from result 22 (kind_text (kind_of packet)) }
{
    match packet {
        Packet::Data(_d) => text::put_word(out, from, b"DATA"),
        Packet::ClearRequest(_d) => text::put_word(out, from, b"CLEAR REQUEST"),
        Packet::ClearConfirmation(_d) => text::put_word(out, from, b"CLEAR CONFIRMATION"),
        Packet::CallRequest(_d) => text::put_word(out, from, b"CALL REQUEST"),
        Packet::CallAccept(_d) => text::put_word(out, from, b"CALL ACCEPT"),
        Packet::ReceiveReady(_d) => text::put_word(out, from, b"RR"),
        Packet::ReceiveNotReady(_d) => text::put_word(out, from, b"RNR"),
        Packet::Reject(_d) => text::put_word(out, from, b"REJECT"),
        Packet::Interrupt(_d) => text::put_word(out, from, b"INTERRUPT"),
        Packet::InterruptConfirmation(_d) => text::put_word(out, from, b"INTERRUPT CONFIRMATION"),
        Packet::Reset(_d) => text::put_word(out, from, b"RESET"),
        Packet::ResetConfirmation(_d) => text::put_word(out, from, b"RESET CONFIRMATION"),
    }
}

// ---- the column of the fault

// Writes the column if it is asked for, else nothing.
fn put_column(
    out: &mut [u8],
    from: usize,
    hex: bool,
    read: Result<Contents, Fault>,
    frame: &[u8],
) -> usize
    requires { from + 35 ≤ length out.old }
    ensures { Wrote out.old out.new from result 35 (column hex read frame.now) }
{
    if hex {
        return put_fault(out, from, read, frame);
    }
    from
}

// Writes the position of the fault and the bytes around it; a dash if the frame was read.
fn put_fault(out: &mut [u8], from: usize, read: Result<Contents, Fault>, frame: &[u8]) -> usize
    requires { from + 35 ≤ length out.old }
    ensures { Wrote out.old out.new from result 35 (fault_text read frame.now) }
{
    match read {
        Ok(_contents) => text::put_word(out, from, b" -"),
        Err(fault) => put_around(out, from, fault.at, frame),
    }
}

// Writes the position and the bytes around it.
fn put_around(out: &mut [u8], from: usize, at: usize, frame: &[u8]) -> usize
    requires { from + 35 ≤ length out.old }
    ensures { Wrote out.old out.new from result 35 (spaced at ++ around at frame.now) }
{
    let number = text::put_spaced(out, from, printed(at));
    let start = four_before(at);
    let place = UserData {
        at: start,
        len: at - start,
    };
    let before = put_hex(out, number, frame::user_data(frame, place));
    put_from(out, before, at, frame)
}

// Writes the byte at the position, in brackets, and up to four bytes after it.
fn put_from(out: &mut [u8], from: usize, at: usize, frame: &[u8]) -> usize
    requires { from + 17 ≤ length out.old }
    ensures { Wrote out.old out.new from result 17 (from_here at frame.now) }
{
    if at < frame.len() {
        let here = put_marked(out, from, frame[at]);
        let place = UserData { at: at + 1, len: 4 };
        return put_hex(out, here, frame::user_data(frame, place));
    }
    text::put_word(out, from, b" []")
}

// The index four before `at`; 0 if there is none.
fn four_before(at: usize) -> usize
    ensures { (result ≡ at - 4) × (result ≤ at) }
{
    if at < 4 { 0 } else { at - 4 }
}

// A number of which the same five digits are printed as of `n`, which may have more: a position is
// a `usize`, and the functions of `text` take a `u32`.
fn printed(n: usize) -> u32
    ensures { spaced result ≡ spaced n }
{
    if n < 100000 {
        return n as u32;
    }
    (100000 + n % 100000) as u32
}

// ---- bytes in hexadecimal

// Writes up to four bytes, each with a blank in front.
fn put_hex(out: &mut [u8], from: usize, bytes: &[u8]) -> usize
    requires { (length bytes.now ≤ 4) × (from + 12 ≤ length out.old) }
    ensures { Wrote out.old out.new from result 12 (hex_bytes bytes.now) }
{
    let mut end = from;
    for byte in bytes {
        let blank = text::put_byte(out, end, b' ');
        end = put_hex_byte(out, blank, *byte);
    }
    end
}

// Writes a byte in brackets, with a blank in front.
fn put_marked(out: &mut [u8], from: usize, byte: u8) -> usize
    requires { from + 5 ≤ length out.old }
    ensures { Wrote out.old out.new from result 5 (marked (byte ∷ [])) }
{
    let bracket = text::put_word(out, from, b" [");
    let end = put_hex_byte(out, bracket, byte);
    text::put_byte(out, end, b']')
}

// Writes the two digits of a byte.
fn put_hex_byte(out: &mut [u8], from: usize, byte: u8) -> usize
    requires { from + 2 ≤ length out.old }
    ensures { Wrote out.old out.new from result 2 (hex_byte byte) }
{
    let high = text::put_byte(out, from, hex_digit(byte / 16));
    text::put_byte(out, high, hex_digit(byte % 16))
}

// The digit of a number below 16: `0` to `9`, `A` to `F`.
fn hex_digit(d: u8) -> u8
    requires { d < 16 }
    ensures { result ≡ hex_digit d }
{
    if d < 10 { 48 + d } else { 55 + d }
}

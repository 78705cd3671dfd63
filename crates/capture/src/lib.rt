// Captures: frames saved in a file that field staff can open (document 02, Q-12). specs/Files.antt
// has the file. All calls work on lent bytes.
#![tactic(auto)]

ghost use Rattle.std.specs.Prelude.{◌≡◌, ◌+◌, ◌*◌, ◌≤◌, ◌<◌, length};
ghost use Rattle.std.proofs.Math.Seq.{paste};
ghost use Rattle.refusal.specs.Numbers.{value_by, refusal_number};
ghost use Rattle.lists.specs.Lists.{over};
ghost use Rattle.lists.specs.Frames.{sum};
ghost use Rattle.frame_fields.specs.Rows.{bytes_of};
ghost use Rattle.capture.specs.Files.{header_size, header_of, file_of, none_over};
ghost use Rattle.capture.specs.Saving.{saved_bytes, file_size, save_verdict, save_of, save_output};
ghost use Rattle.capture.specs.Opening.{opened_form, opened_count, number_at, count_in, form_in, open_verdict, open_of, place_in, frame_in};
ghost use Rattle.capture.specs.Parts.{limits_verdict, Saveable, Headed, with_offsets, offsets_verdict};

use refusal::Refusal;

// A file that was opened: the number of its form, and the count of its frames.
#[derive(Clone, Copy, Debug, PartialEq, Eq)]
pub struct Opened {
    pub form: u8,
    pub count: usize,
}

// Where a frame is in a file: the index of its first byte, and its length in bytes.
#[derive(Clone, Copy, Debug, PartialEq, Eq)]
pub struct Place {
    pub at: usize,
    pub len: usize,
}

// ---- 32-bit numbers, the highest byte first

// Writes the lowest four bytes of a number into `out`, from index `at` on.
fn put_number(out: &mut [u8], at: usize, n: usize)
    requires { at + 4 ≤ length out.old }
    ensures { out.new ≡ paste out.old at (bytes_of 4 n) 4 }
{
    out[at..at + 4].copy_from_slice(&(n as u64).to_be_bytes()[4..]);
}

// The number in the four bytes from index `at` on.
fn number_at(file: &[u8], at: usize) -> usize
    requires { at + 4 ≤ length file.now }
    ensures value { result ≡ number_at file.now at }
    ensures few { result < 4294967296 }
{
    u32::from_be_bytes([file[at], file[at + 1], file[at + 2], file[at + 3]]) as usize
}

// ---- saving

// Whether no length is over 160 bytes.
fn none_over(lengths: &[usize]) -> bool
    ensures { result ≡ none_over 160 lengths.now }
{
    lengths.iter().all(|l| *l <= 160)
}

// Checks the limits of what is to be saved, whose lengths sum to the data: 4, 5. The file's length
// is computed only where it is known to be small.
#[tactic(auto, unfolding(crate::specs::Parts::limits_verdict))]
fn check_limits(lengths: &[usize], frames: &[u8], room: usize) -> Result<(), Refusal>
    requires { sum lengths.now ≡ length frames.now }
    ensures { result ≡ limits_verdict lengths.now frames.now room }
{
    if 512 < lengths.len() {
        return Err(Refusal::MessageTooLong);
    }
    if !none_over(lengths) {
        return Err(Refusal::MessageTooLong);
    }
    if room < 12 + 4 * lengths.len() + frames.len() {
        return Err(Refusal::OutputTooShort);
    }
    Ok(())
}

// Checks what is to be saved, for an output of `room` bytes, in the order 1, 2, 4, 5.
#[tactic(auto, unfolding(crate::specs::Saving::save_verdict, crate::specs::Parts::limits_verdict))]
fn check_save(form: u8, lengths: &[usize], frames: &[u8], room: usize) -> Result<(), Refusal>
    ensures { result ≡ save_verdict form lengths.now frames.now room }
{
    if !frame_form::is_form(form) {
        return Err(Refusal::OutOfRange);
    }
    if !lists::sums_to(lengths, frames.len()) {
        return Err(Refusal::Malformed);
    }
    check_limits(lengths, frames, room)
}

// Writes the offsets into `out`, after the count and the form.
fn put_offsets(lengths: &[usize], out: &mut [u8])
    requires { Headed lengths.now (length out.old) }
    ensures { out.new ≡ with_offsets lengths.now out.old }
{
    let mut offset = 12 + 4 * lengths.len();
    for (i, l) in lengths.iter().enumerate() {
        put_number(out, 8 + 4 * i, offset);
        offset += *l;
    }
    put_number(out, 8 + 4 * lengths.len(), offset);
}

// Writes the header to the front of `out`.
fn put_header(form: u8, lengths: &[usize], out: &mut [u8])
    requires { Headed lengths.now (length out.old) }
    ensures { out.new ≡ over (header_of form lengths.now) out.old }
{
    put_number(out, 0, lengths.len());
    put_number(out, 4, form as usize);
    put_offsets(lengths, out);
}

// Writes the file, which has passed the checks, to the front of `out`. Returns its length in bytes.
fn put_file(form: u8, lengths: &[usize], frames: &[u8], out: &mut [u8]) -> usize
    requires { Saveable form lengths.now frames.now (length out.old) }
    ensures value { result ≡ file_size lengths.now frames.now }
    ensures written { out.new ≡ over (file_of form lengths.now frames.now) out.old }
{
    put_header(form, lengths, out);
    let header = 12 + 4 * lengths.len();
    lists::copy_in(&mut out[header..], frames);
    header + frames.len()
}

// Saves frames in a capture of the form with the number `form`. `frames` holds the frames one after
// the other, `lengths` their lengths. The file is written to the front of `out`; bytes past it keep
// what they held. The frames are not read. Returns the file's length in bytes; a refusal leaves
// `out` as it was.
#[tactic(auto, unfolding(crate::specs::Saving::save_of, crate::specs::Saving::save_output))]
pub fn save(form: u8, lengths: &[usize], frames: &[u8], out: &mut [u8]) -> Result<usize, Refusal>
    ensures whole { result ≡ save_of form lengths.now frames.now (length out.old) }
    ensures written { out.new ≡ save_output form lengths.now frames.now out.old }
    ensures number { refusal_number result ≡ refusal_number (save_verdict form lengths.now frames.now (length out.old)) }
    ensures value { saved_bytes result ≡ value_by (save_verdict form lengths.now frames.now (length out.old)) (file_size lengths.now frames.now) }
{
    check_save(form, lengths, frames, out.len())?;
    Ok(put_file(form, lengths, frames, out))
}

// ---- opening

// Judges the offsets of a file whose header is whole: 2 if they fall or do not run from the
// header's end to the file's end, 4 if a frame has over 160 bytes.
fn check_offsets(file: &[u8], count: usize) -> Result<(), Refusal>
    requires { (count ≤ 512) × (header_size count ≤ length file.now) × (count ≡ count_in file.now) }
    ensures { result ≡ offsets_verdict file.now }
{
    let header = 12 + 4 * count;
    let mut offset = number_at(file, 8);
    if offset != header {
        return Err(Refusal::Malformed);
    }
    let mut short = true;
    for i in 0..count {
        let next = number_at(file, 12 + 4 * i);
        if next < offset {
            return Err(Refusal::Malformed);
        }
        short = short & (next - offset <= 160);
        offset = next;
    }
    if offset == file.len() {
        if short {
            return Ok(());
        }
        return Err(Refusal::MessageTooLong);
    }
    Err(Refusal::Malformed)
}

// Judges a whole file: its form and the count of its frames, or why it is refused; checked in the
// order 2 (no whole count and form), 1 (an unknown form), 4 (over 512 frames), 2 (a cut header, or
// wrong offsets), 4 (a frame over 160 bytes).
#[tactic(auto, unfolding(crate::specs::Opening::open_of, crate::specs::Opening::open_verdict, crate::specs::Parts::offsets_verdict))]
pub fn open_file(file: &[u8]) -> Result<Opened, Refusal>
    ensures value { result ≡ open_of file.now }
    ensures number { refusal_number result ≡ refusal_number (open_verdict file.now) }
    ensures form { opened_form result ≡ value_by (open_verdict file.now) (form_in file.now) }
    ensures count { opened_count result ≡ value_by (open_verdict file.now) (count_in file.now) }
{
    if file.len() < 8 {
        return Err(Refusal::Malformed);
    }
    let count = number_at(file, 0);
    let form = number_at(file, 4);
    if 17 < form {
        return Err(Refusal::OutOfRange);
    }
    if 512 < count {
        return Err(Refusal::MessageTooLong);
    }
    if file.len() < 12 + 4 * count {
        return Err(Refusal::Malformed);
    }
    check_offsets(file, count)?;
    Ok(Opened {
        form: form as u8,
        count,
    })
}

// ---- the frames of a file

// Where frame `i` is in a file, which is not judged as a whole. The place is that of the frame if
// `i` is below the count, both offsets of the frame are in the file, and they do not fall and lie
// within it; else it is empty, at the file's start. In a file that opens, all frames have theirs.
#[tactic(auto, unfolding(crate::specs::Opening::place_in, crate::specs::Opening::has_frame))]
pub fn place_of(file: &[u8], i: usize) -> Place
    ensures value { result ≡ place_in file.now i }
    ensures inside { result.at + result.len ≤ length file.now }
{
    let nowhere = Place { at: 0, len: 0 };
    if file.len() < 16 {
        return nowhere;
    }
    if number_at(file, 0) <= i {
        return nowhere;
    }
    let at = 8 + 4 * i;
    if file.len() < at + 8 {
        return nowhere;
    }
    let start = number_at(file, at);
    let end = number_at(file, at + 4);
    if end < start {
        return nowhere;
    }
    if file.len() < end {
        return nowhere;
    }
    Place {
        at: start,
        len: end - start,
    }
}

// Frame `i` of a file, as a part of the file; an empty part if there is no such frame.
pub fn frame_of(file: &[u8], i: usize) -> &[u8]
    ensures { result.now ≡ frame_in file.now i }
{
    let place = place_of(file, i);
    let at = place.at;
    let end = at + place.len;
    &file[at..end]
}

// Captures for callers that are not written in Rattle: an answer is one number. That of saving and
// of opening has the refusal number in its low byte and the values above it; a place is never
// refused, and has none. `capi` exports these calls.
#![tactic(auto)]

ghost use Rattle.std.specs.Prelude.{◌≡◌, length};
ghost use Rattle.capture.specs.Saving.{save_of, save_output};
ghost use Rattle.capture.specs.Opening.{open_of, place_in};
ghost use Rattle.capture_bytes.specs.Answers.{saved_answer, opened_answer, place_answer};

// Saves frames in a capture, as `capture::save` does: the file goes to the front of `out`. The
// answer holds the refusal number in bits 0 to 7 and the file's length from bit 8 up.
pub fn save(form: u8, lengths: &[usize], frames: &[u8], out: &mut [u8]) -> u64
    ensures value { result ≡ saved_answer (save_of form lengths.now frames.now (length out.old)) }
    ensures written { out.new ≡ save_output form lengths.now frames.now out.old }
{
    match capture::save(form, lengths, frames, out) {
        Ok(n) => 256 * n as u64,
        Err(why) => why.number() as u64,
    }
}

// Judges a whole file, as `capture::open_file` does. The answer holds the refusal number in bits 0
// to 7, the form in bits 8 to 15 and the count of frames from bit 16 up.
pub fn open_file(file: &[u8]) -> u64
    ensures { result ≡ opened_answer (open_of file.now) }
{
    match capture::open_file(file) {
        Ok(opened) => 256 * opened.form as u64 + 65536 * opened.count as u64,
        Err(why) => why.number() as u64,
    }
}

// Where frame `i` of a file is, as `capture::place_of` tells it. The answer holds the index of the
// frame's first byte in bits 0 to 31 and the frame's length from bit 32 up; both are 0 if the file
// has no such frame.
pub fn place(file: &[u8], i: usize) -> u64
    ensures { result ≡ place_answer (place_in file.now i) }
{
    let place = capture::place_of(file, i);
    place.at as u64 + 4294967296 * place.len as u64
}

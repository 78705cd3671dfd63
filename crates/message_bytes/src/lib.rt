// Cutting and joining for callers that are not written in Rattle: a form is given as a number, and
// an answer is one number, with the refusal number in its low byte and the values above it. `capi`
// exports these calls.
#![tactic(auto)]

ghost use Rattle.std.specs.Prelude.{◌≡◌, length};
ghost use Rattle.frame_form.specs.Forms.{form_at};
ghost use Rattle.message.specs.Cutting.{cut_of, cut_output, cut_lengths};
ghost use Rattle.message.specs.Joining.{join_of, join_output};
ghost use Rattle.message_bytes.specs.Answers.{start_at, cut_answer, joined_answer};
ghost use Rattle.refusal.specs.Positions.{fault_position};

use frame_form::Form;
use message::cutting::Start;
use sequence::{LinkNumber, PacketNumber};

// Cuts a message into DATA frames, as `message::cutting::cut_message` does: the frames go to `out`,
// their lengths to `lengths`; `sn` and `ps` are those of the first frame. The answer holds the
// refusal number in bits 0 to 7, the number of frames in bits 8 to 31 and the sum of their bytes
// from bit 32 up.
#[tactic(auto, using(crate::proofs::Sizes::cut_few))]
pub fn cut(
    form: u8,
    sn: u8,
    ps: u8,
    pr: u8,
    ch: u8,
    message: &[u8],
    out: &mut [u8],
    lengths: &mut [usize],
) -> u64
    ensures value { result ≡ cut_answer (cut_of (form_at form) (start_at sn ps pr ch) message.now (length out.old) (length lengths.old)) }
    ensures written { out.new ≡ cut_output (form_at form) (start_at sn ps pr ch) message.now out.old (length lengths.old) }
    ensures listed { lengths.new ≡ cut_lengths (form_at form) (start_at sn ps pr ch) message.now (length out.old) lengths.old }
{
    let start = Start {
        sn: LinkNumber(sn),
        ps: PacketNumber(ps),
        pr: PacketNumber(pr),
        ch,
    };
    match message::cutting::cut_message(Form::from(form), start, message, out, lengths) {
        Ok(cut) => 256 * cut.frames as u64 + 4294967296 * cut.bytes as u64,
        Err(why) => why.number() as u64,
    }
}

// Joins DATA frames to the message that they carry, as `message::joining::join_frames` does, and
// writes it to `out`. The answer holds the refusal number in bits 0 to 7 and the message's length
// from bit 8 up.
#[tactic(auto, using(crate::proofs::Sizes::join_few))]
pub fn join(form: u8, lengths: &[usize], frames: &[u8], out: &mut [u8]) -> u64
    ensures value { result ≡ joined_answer (join_of (form_at form) lengths.now frames.now (length out.old)) }
    ensures written { out.new ≡ join_output (form_at form) lengths.now frames.now out.old }
{
    match message::joining::join_frames(Form::from(form), lengths, frames, out) {
        Ok(n) => 256 * n as u64,
        Err(fault) => fault.why.number() as u64,
    }
}

// Where frames are bad: the position within `frames` of what `join` refuses them for, with an
// output of `room` bytes; 0 if they are joined. Nothing is written.
pub fn fault(form: u8, lengths: &[usize], frames: &[u8], room: usize) -> usize
    ensures { result ≡ fault_position (join_of (form_at form) lengths.now frames.now room) }
{
    let judged = message::joining::check_frames(Form::from(form), lengths, frames, room);
    refusal::fault_position_in(&judged)
}

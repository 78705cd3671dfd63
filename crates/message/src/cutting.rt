// Cuts a message into DATA frames (document 01, "Cutting and joining").
ghost use Rattle.std.specs.Prelude.{◌≡◌, true, ◌+◌, ◌*◌, ◌≤◌, length, set};
ghost use Rattle.refusal.specs.Numbers.{value_by, refusal_number};
ghost use Rattle.lists.specs.Frames.{bytes_in, lengths_of};
ghost use Rattle.lists.specs.Lists.{over};
ghost use Rattle.frame_form.specs.Forms.{long_segment, form_valid, is_long};
ghost use Rattle.frame_form.specs.Segments.{frame_length};
ghost use Rattle.frame.specs.Writing.{frame_of};
ghost use Rattle.message.specs.Cutting.{cut_count, cut_bytes, share_of, full_frames, data_of, next_start, frames_of, cut_verdict, cut_by, cut_of, cut_output, cut_lengths};
ghost use Rattle.message.specs.CuttingParts.{TellsFit, splice, room_for, Room, Ready};

use frame::{Data, Packet};
use frame_form::Form;
use refusal::Refusal;
use sequence::{Counter, LinkNumber, PacketNumber};

// The numbers in the header of a message's first frame. SN and PS count up from here; PR and CH are
// the same on all frames.
#[derive(Clone, Copy, Debug, PartialEq, Eq)]
pub struct Start {
    pub sn: LinkNumber,
    pub ps: PacketNumber,
    pub pr: PacketNumber,
    // channel, 0 to 15
    pub ch: u8,
}

// What cutting answers: the number of frames and the sum of their bytes.
#[derive(Clone, Copy, Debug, PartialEq, Eq)]
pub struct Cut {
    pub frames: usize,
    pub bytes: usize,
}

// ---- one frame's numbers, and the next one's

impl Start {
    // Whether SN, PS, PR and CH each fit their field.
    #[tactic(auto, unfolding(frame_writer::specs::Writing::values_fit))]
    fn fits(self) -> bool
        ensures { TellsFit self result }
    {
        self.sn.in_field() & self.ps.in_field() & self.pr.in_field() & (self.ch < 16)
    }

    // The DATA packet with these numbers; M is `more`, which says that more of the message follows.
    fn packet(self, more: bool) -> Data
        ensures { Packet.Data result ≡ data_of self more }
    {
        Data {
            m: more,
            sn: self.sn,
            ps: self.ps,
            pr: self.pr,
            ch: self.ch,
        }
    }

    // The numbers of the next frame: SN and PS go up by one, modulo 64 and modulo 16.
    fn next(self) -> Start
        ensures { result ≡ next_start self }
    {
        Start {
            sn: self.sn.next(),
            ps: self.ps.next(),
            ..self
        }
    }
}

// ---- the number of frames and their lengths: computed from the message's length, before anything
// is written

// The bytes of user data in a full frame: the form's largest packet less the 3 bytes of the header.
fn share_of(form: Form) -> usize
    requires { form_valid form ≡ true }
    ensures value { result ≡ share_of form }
    ensures range { (7 ≤ result) × (result ≤ 157) }
{
    form.most() - 3
}

// The number of frames before the last, for a message of `n` bytes and full frames that carry
// `share` bytes.
#[tactic(auto, using(crate::proofs::Sizes::one_frame, crate::proofs::Sizes::full_least), unfolding(crate::specs::Cutting::full_frames))]
fn full_frames(share: usize, n: usize) -> usize
    requires { 1 ≤ share }
    ensures value { result ≡ full_frames share n }
    ensures few { (result ≤ n) × (result * share ≤ n) }
{
    n.saturating_sub(1) / share
}

// The length of a DATA frame with `n` bytes of user data, in a long form: header and user data,
// rounded up to whole segments. `frame_writer` divides the same sum by 10, and a compiler makes one
// division of both.
#[tactic(auto, unfolding(frame_form::specs::Segments::padding))]
fn frame_length(n: usize) -> usize
    requires { n ≤ 4096 }
    ensures value { result ≡ frame_length long_segment (3 + n) }
    ensures few { result ≤ 4108 }
{
    let packet = 3 + n;
    (packet + 9) / 10 * 10
}

// The sum of the lengths of all frames of a message of `n` bytes, in a long form.
#[tactic(auto, using(crate::proofs::Sizes::room_product))]
fn needed(form: Form, n: usize) -> usize
    requires { (form_valid form ≡ true) × (is_long form ≡ true) × (n ≤ 4096) }
    ensures { result ≡ room_for form (full_frames (share_of form) n) n }
{
    let share = share_of(form);
    let full = full_frames(share, n);
    let last = n - full * share;
    full * frame_length(share) + frame_length(last)
}

// Whether the message may be cut, with `room` bytes for the frames and `places` places for their
// lengths; checked in the order 1, 23, 4, 5.
#[tactic(auto, unfolding(crate::specs::Cutting::cut_verdict), using(crate::proofs::Sizes::message_room, crate::proofs::Sizes::message_count))]
fn check_cut(
    form: Form,
    start: Start,
    message: &[u8],
    room: usize,
    places: usize,
) -> Result<(), Refusal>
    ensures { result ≡ cut_verdict form start message.now room places }
{
    let n = message.len();
    if !(form.is_valid() && start.fits()) {
        return Err(Refusal::OutOfRange);
    }
    if !form.is_long() {
        return Err(Refusal::ShortForm);
    }
    if 4096 < n {
        return Err(Refusal::MessageTooLong);
    }
    if room < needed(form, n) || places <= full_frames(share_of(form), n) {
        return Err(Refusal::OutputTooShort);
    }
    Ok(())
}

// ---- writing

// Writes one frame into its part of `out`, from index `at`, and its length to `lengths[i]`; returns
// the index where the frame ends.
#[tactic(auto, using(crate::proofs::Sizes::share_range))]
fn put_one(
    form: Form,
    packet: Data,
    user: &[u8],
    out: &mut [u8],
    at: usize,
    lengths: &mut [usize],
    i: usize,
) -> usize
    requires { Ready form (Packet.Data packet) (length user.now) at (length out.old) i (length lengths.old) }
    ensures value { result ≡ at + length (frame_of form (Packet.Data packet) user.now) }
    ensures written { out.new ≡ splice at (frame_of form (Packet.Data packet) user.now) out.old }
    ensures listed { lengths.new ≡ set lengths.old i (length (frame_of form (Packet.Data packet) user.now)) }
{
    let len = frame_length(user.len());
    let end = at + len;
    // it refuses nothing: every check has passed, and the part has the frame's length
    let _ = frame::write_data(form, packet, user, &mut out[at..end]);
    lengths[i] = len;
    end
}

// Writes all frames of a message that passed the checks. The last frame is written by the same call
// as those before it: with one call site a compiler inlines it into the loop.
#[tactic(auto, using(crate::proofs::Steps::starts, crate::proofs::Steps::lengths_kept))]
fn put_frames(
    form: Form,
    start: Start,
    message: &[u8],
    out: &mut [u8],
    lengths: &mut [usize],
) -> Cut
    requires { Room form start message.now (length out.old) (length lengths.old) }
    ensures value { Ok result ≡ cut_by (Ok tt) (frames_of form start message.now) }
    ensures written { out.new ≡ over (bytes_in (frames_of form start message.now)) out.old }
    ensures listed { lengths.new ≡ over (lengths_of (frames_of form start message.now)) lengths.old }
{
    let share = share_of(form);
    let full = full_frames(share, message.len());
    let mut next = start;
    let mut from = 0;
    let mut at = 0;
    let mut i = 0;
    loop {
        let more = i < full;
        let to = (from + share).min(message.len());
        let end = put_one(
            form,
            next.packet(more),
            &message[from..to],
            out,
            at,
            lengths,
            i,
        );
        if more {
            next = next.next();
            from = to;
            at = end;
            i = i + 1;
        } else {
            return Cut {
                frames: i + 1,
                bytes: end,
            };
        }
    }
}

// Cuts a message into DATA frames. Each frame is written straight into its part of `out`, and its
// length to its place in `lengths`; places past the result keep what they held. A refusal changes
// neither list.
#[tactic(auto, unfolding(crate::specs::Cutting::cut_of, crate::specs::Cutting::cut_output, crate::specs::Cutting::cut_lengths), using(crate::proofs::Passed::passed))]
pub fn cut_message(
    form: Form,
    start: Start,
    message: &[u8],
    out: &mut [u8],
    lengths: &mut [usize],
) -> Result<Cut, Refusal>
    ensures value { result ≡ cut_of form start message.now (length out.old) (length lengths.old) }
    ensures written { out.new ≡ cut_output form start message.now out.old (length lengths.old) }
    ensures listed { lengths.new ≡ cut_lengths form start message.now (length out.old) lengths.old }
    ensures number { refusal_number result ≡ refusal_number (cut_verdict form start message.now (length out.old) (length lengths.old)) }
    ensures frames { cut_count result ≡ value_by (cut_verdict form start message.now (length out.old) (length lengths.old)) (length (frames_of form start message.now)) }
    ensures bytes { cut_bytes result ≡ value_by (cut_verdict form start message.now (length out.old) (length lengths.old)) (length (bytes_in (frames_of form start message.now))) }
{
    check_cut(form, start, message, out.len(), lengths.len())?;
    Ok(put_frames(form, start, message, out, lengths))
}

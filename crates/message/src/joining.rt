// Joins DATA frames to the message that they carry (document 01, "Cutting and joining").
ghost use Rattle.std.specs.Prelude.{◌≡◌, true, ◌+◌, ◌≤◌, length};
ghost use Rattle.std.proofs.Math.Seq.{paste};
ghost use Rattle.refusal.specs.Numbers.{value_by};
ghost use Rattle.refusal.specs.Positions.{verdict_of, fault_number, fault_position};
ghost use Rattle.lists.specs.Lists.{over};
ghost use Rattle.lists.specs.Frames.{parts_of, sum};
ghost use Rattle.frame.specs.Reading.{read_of};
ghost use Rattle.message.specs.Joining.{user_in, joined_bytes, follows, data_verdict, frames_checks, message_in, join_checks, join_by, join_of, join_output};
ghost use Rattle.message.specs.JoiningParts.{turn_of, sized, is_data, Joinable};

use frame::Data;
use frame_form::Form;
use refusal::{Fault, Refusal};
use sequence::Counter;

// ---- checks

// Whether SN, PS and CH of the packet `d` continue the run of the packet `before`; true for the
// first frame, which has no packet before it.
fn goes_on(before: Option<Data>, d: Data) -> bool
    ensures { result ≡ follows before d }
{
    match before {
        None => true,
        Some(b) => { (d.sn == b.sn.next()) & ((d.ps == b.ps.next()) & (d.ch == b.ch)) }
    }
}

// Checks a DATA packet in the order 3 (M = 0 before the last frame), 17 (SN, PS or CH breaks the
// run), 2 (M = 1 on the last frame).
#[tactic(auto, unfolding(crate::specs::Joining::data_verdict))]
fn check_data(before: Option<Data>, last: bool, d: Data) -> Result<(), Refusal>
    ensures { result ≡ data_verdict before last d }
{
    if !(last | d.m) {
        return Err(Refusal::FormatError);
    }
    if !goes_on(before, d) {
        return Err(Refusal::RunBroken);
    }
    if last & d.m {
        return Err(Refusal::Malformed);
    }
    Ok(())
}

// Reads and checks one frame; `last` is whether it is the last of the message. Answers its DATA
// packet, with which the next frame is compared, and the length of its user data; or the refusal,
// and the position of the fault within the frame.
#[tactic(auto, using(crate::proofs::Judging::data_turn))]
fn judge_frame(
    form: Form,
    before: Option<Data>,
    last: bool,
    frame: &[u8],
) -> Result<(Option<Data>, usize), Fault>
    ensures { result ≡ turn_of before last (read_of form frame.now) frame.now }
{
    match frame::read_data(form, frame)? {
        Some((d, place)) => {
            check_data(before, last, d)?;
            Ok((Some(d), place.len))
        }
        None => Err(Fault::from(Refusal::FormatError)),
    }
}

// Reads and checks all frames in order: the sum of the lengths of their user data, or the first
// refusal.
#[tactic(auto, using(crate::proofs::Places::frame_in, crate::proofs::Judging::starts, crate::proofs::Judging::turns))]
fn judge_frames(form: Form, lengths: &[usize], frames: &[u8]) -> Result<usize, Fault>
    requires { sum lengths.now ≡ length frames.now }
    ensures { result ≡ join_by (frames_checks form None 0 (parts_of lengths.now frames.now))
        (length (message_in form (parts_of lengths.now frames.now))) }
{
    let mut before = None;
    let mut total = 0;
    let mut p = 0;
    for i in 0..lengths.len() {
        let e = p + lengths[i];
        let turn = judge_frame(form, before, i + 1 == lengths.len(), &frames[p..e]);
        match turn {
            Ok((next, user)) => {
                before = next;
                total += user;
            }
            Err(fault) => return Err(Fault {
                at: p + fault.at,
                ..fault
            }),
        }
        p = e;
    }
    Ok(total)
}

// Checks the length of a message that is to be written to `room` bytes, in the order 4, 5, both at
// the length `all` of the data; a refusal by an earlier check stays.
fn check_size(judged: Result<usize, Fault>, room: usize, all: usize) -> Result<usize, Fault>
    ensures { result ≡ sized judged room all }
{
    let n = judged?;
    if 4096 < n {
        return Err(Fault {
            why: Refusal::MessageTooLong,
            at: all,
        });
    }
    if room < n {
        return Err(Fault {
            why: Refusal::OutputTooShort,
            at: all,
        });
    }
    Ok(n)
}

// What `join_frames` answers for an output of `room` bytes, without a byte being written: the
// length of the message, or the refusal and its position; checked in the order 1, 2 (the sum of the
// lengths), 2 (no frames), each frame in turn, 4, 5.
#[tactic(auto, unfolding(crate::specs::Joining::join_of, crate::specs::Joining::join_checks))]
pub fn check_frames(
    form: Form,
    lengths: &[usize],
    frames: &[u8],
    room: usize,
) -> Result<usize, Fault>
    ensures { result ≡ join_of form lengths.now frames.now room }
{
    if !form.is_valid() {
        return Err(Fault::from(Refusal::OutOfRange));
    }
    let all = frames.len();
    if !lists::sums_to(lengths, all) || lengths.is_empty() {
        return Err(Fault {
            why: Refusal::Malformed,
            at: all,
        });
    }
    check_size(judge_frames(form, lengths, frames), room, all)
}

// ---- copying

// Copies a DATA frame's user data into `out`, from index `at`, and returns its length. The frame
// has passed the checks: its user data begins after the 3 bytes of the header and ends LV bytes
// into the last segment; LV is the low half of the third byte.
#[tactic(auto, using(crate::proofs::Users::data_frame, crate::proofs::Users::user_long))]
fn copy_user(form: Form, frame: &[u8], out: &mut [u8], at: usize) -> usize
    requires { (is_data (read_of form frame.now) ≡ true) × (at + length (user_in form frame.now) ≤ length out.old) }
    ensures value { result ≡ length (user_in form frame.now) }
    ensures written { out.new ≡ paste out.old at (user_in form frame.now) (length (user_in form frame.now)) }
{
    let lv = frame[2] % 16;
    let end = frame.len() - form.segment() + lv as usize;
    let user = end - 3;
    let to = at + user;
    lists::copy_in(&mut out[at..to], &frame[3..end]);
    user
}

// Copies the user data of all frames, which have passed the checks, to the front of `out`, one
// after the other.
#[tactic(auto, using(crate::proofs::Places::frame_in, crate::proofs::Copying::starts, crate::proofs::Copying::asks, crate::proofs::Copying::turns))]
fn copy_users(form: Form, lengths: &[usize], frames: &[u8], out: &mut [u8])
    requires { Joinable form lengths.now frames.now (length out.old) }
    ensures { out.new ≡ over (message_in form (parts_of lengths.now frames.now)) out.old }
{
    let mut at = 0;
    let mut p = 0;
    for i in 0..lengths.len() {
        let e = p + lengths[i];
        at += copy_user(form, &frames[p..e], out, at);
        p = e;
    }
}

// Joins DATA frames to the message that they carry. `frames` holds the frames one after the other,
// `lengths` their lengths. The message is written to the front of `out` after every check has
// passed; a refusal leaves `out` as it was.
#[tactic(auto, using(crate::proofs::Answers::joinable), unfolding(crate::specs::Joining::join_of, crate::specs::Joining::join_output))]
pub fn join_frames(
    form: Form,
    lengths: &[usize],
    frames: &[u8],
    out: &mut [u8],
) -> Result<usize, Fault>
    ensures whole { result ≡ join_of form lengths.now frames.now (length out.old) }
    ensures written { out.new ≡ join_output form lengths.now frames.now out.old }
    ensures number { fault_number result ≡ fault_number (join_checks form lengths.now frames.now (length out.old)) }
    ensures position { fault_position result ≡ fault_position (join_checks form lengths.now frames.now (length out.old)) }
    ensures value { joined_bytes result ≡ value_by (verdict_of (join_checks form lengths.now frames.now (length out.old))) (length (message_in form (parts_of lengths.now frames.now))) }
{
    let n = check_frames(form, lengths, frames, out.len())?;
    copy_users(form, lengths, frames, out);
    Ok(n)
}

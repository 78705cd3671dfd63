// Carries a message across a link that disorders frames. The message, of at most 4,096 bytes, is
// read from standard input and cut into long downlink frames; the frames arrive at a resequencer
// out of order, some of them twice; the frames that are handed on are joined again. Every event is
// printed.
//
// The last thing that it does is to write a mark to descriptor 3, from which tools/run-proved makes
// a status; `Ending` has the marks. Where descriptor 3 is no pipe, nothing is written to it.
#![tactic(auto)]

ghost use Rattle.std.specs.Prelude.{◌≡◌, true, List, [], map, ℕ, ◌+◌, ◌≤◌, ◌<◌, min, length};
ghost use Rattle.lists.specs.Frames.{parts_of};
ghost use Rattle.frame.specs.Reading.{read_of, sn_in};
ghost use Rattle.resequencer.specs.Events.{handed, arrive_of};
ghost use Rattle.transfer_claims.specs.Circuit.{frame_at, frame_answer, frames_handed_on};
ghost use Rattle.transfer_claims.specs.Rule.{demo_form, call_at, takes_place, all_calls};
ghost use Rattle.transfer_demo.specs.Calls.{event_of};
ghost use Rattle.transfer_demo.specs.Kept.{keep_one, keep_all, Holds};

mod output;

use frame::Contents;
use frame_form::Form;
use message::cutting::Start;
use output::Printer;
use refusal::Fault;
use resequencer::{Answer, Outcome, Resequencer};
use sequence::{LinkNumber, PacketNumber};

// What happens on the link: the frame at a place of the list arrives; something else arrives, with
// an SN over 63; or the clock of an SN ends.
#[derive(Clone, Copy, Debug, PartialEq, Eq)]
enum Event {
    Frame(usize),
    Stray(u8),
    ClockEnd(u8),
}

// How much has been handed on: the number of frames, and the sum of their bytes.
#[derive(Clone, Copy, Debug, PartialEq, Eq)]
struct Handed {
    frames: usize,
    bytes: usize,
}

fn main(rt: HostRuntime) {
    let mut message = [0u8; 4097];
    let mut frames = [0u8; 4592];
    let mut lengths = [0usize; 164];
    let mut out = Printer::new(&rt);
    let n = out.read_all(&mut message);
    carry(&mut out, &message[..n], &mut frames, &mut lengths);
    output::mark(&rt, out.ending());
}

// Cuts the message from SN 0 and sends the frames across the link.
fn carry(out: &mut Printer, message: &[u8], frames: &mut [u8], lengths: &mut [usize])
    requires { length lengths.old ≤ 164 }
{
    let start = Start {
        sn: LinkNumber(0),
        ps: PacketNumber(0),
        pr: PacketNumber(0),
        ch: 1,
    };
    let cut = message::cutting::cut_message(Form::LongDownlink(3), start, message, frames, lengths);
    match cut {
        Ok(made) => {
            out.number(message.len());
            out.text(b" bytes, frames: ");
            out.number(made.frames);
            out.text(b"\n");
            cross(out, message, &lengths[..made.frames], &frames[..made.bytes]);
        }
        // the numbers are in range and the lists have room for every message: only 4 is possible
        Err(why) => out.refuse(why),
    }
}

// Lets the frames arrive, joins those that are handed on, and prints whether this gives the
// message.
fn cross(out: &mut Printer, message: &[u8], lengths: &[usize], frames: &[u8])
    requires { length lengths.now ≤ 164 }
{
    let mut received = [0u8; 4592];
    let mut sizes = [0usize; 164];
    let handed = receive(out, lengths, frames, &mut received, &mut sizes);
    let mut joined = [0u8; 4096];
    let answer = message::joining::join_frames(
        Form::LongDownlink(3),
        &sizes[..handed.frames],
        &received[..handed.bytes],
        &mut joined,
    );
    tell_joined(out, answer, message, &joined);
}

// ---- the link

// The rule by which frames are disordered and repeated: the frames of each eight arrive in the
// order 2 0 2 5 1 3 7 4 0 6; after 3 a clock ends that is not running, and at the end something
// with SN 64 arrives. No frame is more than 6 places from the one expected.
fn event_at(step: usize) -> Event
    requires { step < 252 }
    ensures { event_of result ≡ call_at step }
{
    let first = step / 12 * 8;
    match step % 12 {
        0 => Event::Frame(first + 2),
        1 => Event::Frame(first),
        2 => Event::Frame(first + 2),
        3 => Event::Frame(first + 5),
        4 => Event::Frame(first + 1),
        5 => Event::Frame(first + 3),
        6 => Event::ClockEnd(((first + 2) % 64) as u8),
        7 => Event::Frame(first + 7),
        8 => Event::Frame(first + 4),
        9 => Event::Frame(first),
        10 => Event::Frame(first + 6),
        _ => Event::Stray(64),
    }
}

// Whether the event takes place, if there are `count` frames: a frame past the last does not
// arrive.
fn happens(event: Event, count: usize) -> bool
    ensures { result ≡ takes_place count (event_of event) }
{
    match event {
        Event::Frame(place) => place < count,
        Event::Stray(_) | Event::ClockEnd(_) => true,
    }
}

// Goes through all events. The frames that are handed on are stored one after the other in
// `received`, and their lengths in `sizes`.
fn receive(
    out: &mut Printer,
    lengths: &[usize],
    frames: &[u8],
    received: &mut [u8],
    sizes: &mut [usize],
) -> Handed
    requires { length lengths.now ≤ 164 }
    ensures { Holds received.new sizes.new result (keep_all (length received.old) (length sizes.old) []
        (frames_handed_on demo_form (parts_of lengths.now frames.now) (all_calls (length lengths.now)))) }
{
    let steps = (lengths.len() + 7) / 8 * 12;
    let mut state = Resequencer::fresh();
    let mut handed = Handed {
        frames: 0,
        bytes: 0,
    };
    for i in 0..steps {
        let event = event_at(i);
        if !happens(event, lengths.len()) {
            continue;
        }
        let answer = answer_to(state, event, lengths, frames);
        tell(out, event, answer);
        handed = hand_on(answer, lengths, frames, received, sizes, handed);
        state = answer.next;
    }
    handed
}

// The resequencer's answer to an event.
fn answer_to(state: Resequencer, event: Event, lengths: &[usize], frames: &[u8]) -> Answer
    requires { (takes_place (length lengths.now) (event_of event) ≡ true) × (length lengths.now ≤ 65536) }
    ensures { result ≡ frame_answer demo_form (parts_of lengths.now frames.now) state (event_of event) }
{
    match event {
        Event::Frame(place) => arrive(state, frame_at(lengths, frames, place), place),
        Event::Stray(sn) => state.arrive(LinkNumber(sn), 0),
        Event::ClockEnd(sn) => state.clock_end(LinkNumber(sn)),
    }
}

// The arrival of a frame, with the SN that is read in it; its ticket is its place in the list.
fn arrive(state: Resequencer, frame: &[u8], place: usize) -> Answer
    requires { place < 65536 }
    ensures { result ≡ arrive_of state (sn_in (read_of demo_form frame.now)) place }
{
    let sn = number_of(frame::read_frame(Form::LongDownlink(3), frame));
    state.arrive(LinkNumber(sn), place as u16)
}

// The SN of the packet that was read; 64, which its field cannot hold, of a ROUTE, which has none,
// and if the frame was refused.
fn number_of(read: Result<Contents, Fault>) -> u8
    ensures { result ≡ sn_in read }
{
    match read {
        Ok(Contents::Packet(packet, _place)) => packet.sn().0,
        Ok(Contents::Route(_)) | Err(_) => 64,
    }
}

// The frame at a place of the list, as a part of `frames`; no bytes if there are fewer frames.
fn frame_at<'a>(lengths: &[usize], frames: &'a [u8], place: usize) -> &'a [u8]
    ensures { result.now ≡ frame_at (parts_of lengths.now frames.now) place }
{
    let mut at = 0;
    for i in 0..lengths.len() {
        let end = part_end(at, lengths[i], frames.len());
        if i == place {
            return &frames[at..end];
        }
        at = end;
    }
    &frames[..0]
}

// Where a part of `n` bytes from index `at` ends, at `all` at the latest.
fn part_end(at: usize, n: usize, all: usize) -> usize
    requires { at ≤ all }
    ensures { result ≡ min (at + n) all }
{
    if n <= all - at { at + n } else { all }
}

// The number of tickets that an answer hands on, at most 32.
fn count_handed(answer: Answer) -> usize
    ensures { (result ≡ length (handed answer)) × (result ≤ 32) }
{
    (answer.count as usize).min(32)
}

// Stores the frames that an answer hands on, in the order of its tickets, after those stored
// before.
fn hand_on(
    answer: Answer,
    lengths: &[usize],
    frames: &[u8],
    received: &mut [u8],
    sizes: &mut [usize],
    before: Handed,
) -> Handed
    requires { (before.frames ≤ length sizes.old) × (before.bytes ≤ length received.old) }
    ensures frames_in_bounds { (result.frames ≤ length sizes.new) × (result.bytes ≤ length received.new) }
    ensures written { (ks : List (List ℕ)) → Holds received.old sizes.old before ks
        → Holds received.new sizes.new result (keep_all (length received.old) (length sizes.old) ks
        (map (frame_at (parts_of lengths.now frames.now)) (handed answer))) }
{
    let count = count_handed(answer);
    let mut kept = before;
    for i in 0..count {
        let place = answer.tickets[i] as usize;
        kept = keep(frame_at(lengths, frames, place), received, sizes, kept);
    }
    kept
}

// Stores a frame in `received` after those kept before, and its length in `sizes`. If one of the
// two lists has no room, the frame is left out.
fn keep(frame: &[u8], received: &mut [u8], sizes: &mut [usize], kept: Handed) -> Handed
    requires { (kept.frames ≤ length sizes.old) × (kept.bytes ≤ length received.old) }
    ensures frames_in_bounds { (result.frames ≤ length sizes.new) × (result.bytes ≤ length received.new) }
    ensures written { (ks : List (List ℕ)) → Holds received.old sizes.old kept ks
        → Holds received.new sizes.new result (keep_one (length received.old) (length sizes.old) ks frame.now) }
{
    let count = kept.frames;
    let at = kept.bytes;
    if frame.len() <= received.len() - at {
        if count < sizes.len() {
            sizes[count] = frame.len();
            let end = at + frame.len();
            lists::copy_in(&mut received[at..end], frame);
            return Handed {
                frames: count + 1,
                bytes: end,
            };
        }
    }
    kept
}

// ---- what is printed

// Prints one event: what arrived or ended, the outcome, and the held numbers and running clocks
// afterwards.
fn tell(out: &mut Printer, event: Event, answer: Answer) {
    match event {
        Event::Frame(place) => {
            out.text(b"frame ");
            out.number(place);
            out.text(b" SN ");
            out.number(place % 64);
        }
        Event::Stray(sn) => {
            out.text(b"stray SN ");
            out.number(sn as usize);
        }
        Event::ClockEnd(sn) => {
            out.text(b"clock end ");
            out.number(sn as usize);
        }
    }
    tell_outcome(out, answer);
    tell_set(out, b"; held", answer.next.held);
    tell_set(out, b"; clocks", answer.next.clocks);
    out.text(b"\n");
}

// Prints the numbers of a set.
fn tell_set(out: &mut Printer, title: &[u8], set: u64) {
    out.text(title);
    if set == 0 {
        out.text(b" -");
    }
    for number in 0..64 {
        if wordset::member(set, number) {
            out.listed(number as usize);
        }
    }
}

// Prints the outcome of an event: what is handed on, or why nothing is.
fn tell_outcome(out: &mut Printer, answer: Answer) {
    match answer.outcome {
        Ok(Outcome::HandedOn) => {
            out.text(b": hands on");
            tell_tickets(out, answer);
        }
        Ok(Outcome::Held) => out.text(b": early"),
        Ok(Outcome::Old) => out.text(b": old"),
        Ok(Outcome::Duplicate) => out.text(b": duplicate"),
        Err(why) => {
            out.text(b": refused ");
            out.number(why.number() as usize);
        }
    }
}

// Prints the places of the frames that are handed on, which are their tickets.
fn tell_tickets(out: &mut Printer, answer: Answer) {
    let count = count_handed(answer);
    for i in 0..count {
        out.listed(answer.tickets[i] as usize);
    }
}

// Prints whether the message that was joined is the one that was sent.
fn tell_joined(out: &mut Printer, answer: Result<usize, Fault>, message: &[u8], joined: &[u8]) {
    match answer {
        Ok(n) => {
            out.text(b"joined ");
            out.number(n);
            if n == message.len() && joined.starts_with(message) {
                out.text(b" bytes: the message\n");
            } else {
                out.text(b" bytes: not the message\n");
            }
        }
        Err(fault) => {
            out.text(b"not joined: refused ");
            out.number(fault.why.number() as usize);
            out.text(b"\n");
        }
    }
}

// Turns a replay script into its report (document 01, "The replay program"). The script comes in
// parts of any size; between two parts a `Replay` keeps the state of the resequencer and the
// beginning of an unfinished line.
#![tactic(auto)]

ghost use Rattle.std.specs.Prelude.{◌≡◌, ◌∷◌, ◌+◌, ◌*◌, ◌≤◌, length, take, position};
ghost use Rattle.refusal.specs.Numbers.{number_of, refusal_number};
ghost use Rattle.text.specs.Decimal.{spaced};
ghost use Rattle.text.specs.Writing.{Wrote};
ghost use Rattle.replay_script.specs.Text.{is_blank, decimal_in, all_spaced};
ghost use Rattle.replay_script.specs.Lines.{word, after_word, arrival_of, line_in, line_answer, tickets_text, result_text, answer_text, report_header};
ghost use Rattle.replay_script.specs.Feeding.{fresh_replay, feed_next, feed_text, feed_verdict, feed_of, feed_out, finish_verdict, finish_of, finish_out};
ghost use Rattle.replay_script.specs.Writing.{least, narrowed};

use refusal::Refusal;
use resequencer::{Answer, Outcome, Resequencer};
use sequence::LinkNumber;

// The first line of every report, with its line end.
#[tactic(auto, unfolding(crate::specs::Lines::report_header))]
pub fn header() -> [u8; 24]
    ensures { result ≡ report_header }
{
    *b"nesn held clocks result\n"
}

// A line of the script, as read. A malformed line is none.
#[derive(Clone, Copy, Debug, PartialEq, Eq)]
pub enum Line {
    Arrival { sn: u16, ticket: u16 },
    ClockEnd { sn: u16 },
}

// What is kept between two parts: the resequencer, and an unfinished line in the first `have` bytes
// of `line`. No well-formed line has more than 13 bytes, so 14 bytes are enough to see that a
// longer line is malformed. The library uses no heap, so that the line is an array with its length.
#[derive(Clone, Copy)]
pub struct Replay {
    pub state: Resequencer,
    pub line: [u8; 14],
    pub have: u8,
}

// The answer of `feed`: whether the part was run or refused, how many bytes of report were written,
// and the `Replay` for the next call.
#[derive(Clone, Copy)]
pub struct Fed {
    pub verdict: Result<(), Refusal>,
    pub written: usize,
    pub next: Replay,
}

// The answer of `finish`: whether the end of the script was run or refused, how many bytes of
// report were written, and what is kept: after a refusal the `Replay` that was given.
#[derive(Clone, Copy)]
pub struct Finished {
    pub verdict: Result<(), Refusal>,
    pub written: usize,
    pub next: Replay,
}

// The `Replay` after some bytes of the script, and where the report ends in the lent output.
#[derive(Clone, Copy)]
struct Step {
    next: Replay,
    end: usize,
}

impl Replay {
    // The start: nothing of the script has come yet.
    pub fn fresh() -> Replay
        ensures { result ≡ fresh_replay }
    {
        Replay {
            state: Resequencer::fresh(),
            line: [0u8; 14],
            have: 0,
        }
    }

    // Runs the next part of the script, and writes the report of each line that ends in it to the
    // front of `out`. Refused with 5 if `out` has less than 256 bytes for each byte of the part,
    // since each byte may end a line.
    pub fn feed(self, part: &[u8], out: &mut [u8]) -> Fed
        ensures value { result ≡ feed_of self part.now out.old }
        ensures number { refusal_number result.verdict ≡ refusal_number (feed_verdict part.now out.old) }
        ensures written { out.new ≡ feed_out self part.now out.old }
    {
        if out.len() / 256 < part.len() {
            return Fed {
                verdict: Err(Refusal::OutputTooShort),
                written: 0,
                next: self,
            };
        }
        let step = self.run_part(part, out);
        Fed {
            verdict: Ok(()),
            written: step.end,
            next: step.next,
        }
    }

    // Ends the script: if an unfinished line is left, runs it as the last line and writes its
    // report to the front of `out`. Refused with 5 if `out` has less than 256 bytes.
    pub fn finish(self, out: &mut [u8]) -> Finished
        ensures value { result ≡ finish_of self out.old }
        ensures number { refusal_number result.verdict ≡ refusal_number (finish_verdict out.old) }
        ensures written { out.new ≡ finish_out self out.old }
    {
        if out.len() < 256 {
            return Finished {
                verdict: Err(Refusal::OutputTooShort),
                written: 0,
                next: self,
            };
        }
        if self.have == 0 {
            return Finished {
                verdict: Ok(()),
                written: 0,
                next: self,
            };
        }
        let answer = kept_answer(self.state, self.line, self.have);
        let written = put_answer(out, 0, answer);
        Finished {
            verdict: Ok(()),
            written,
            next: Replay {
                state: answer.next,
                have: 0,
                ..self
            },
        }
    }

    // Runs the bytes of the part one after the other: a line end runs the line kept so far, any
    // other byte is added to it; the 15th and later bytes of a line are dropped. What is kept is in
    // three locals, and becomes a `Replay` at the end only: one that is made at each byte is copied
    // at each byte.
    fn run_part(self, part: &[u8], out: &mut [u8]) -> Step
        requires { length part.now * 256 ≤ length out.old }
        ensures { (result.next ≡ feed_next self part.now) × Wrote out.old out.new 0 result.end (256 * length part.now) (feed_text self part.now) }
    {
        let mut state = self.state;
        let mut line = self.line;
        let mut have = self.have;
        let mut end = 0;
        for byte in part {
            if *byte == b'\n' {
                let answer = kept_answer(state, line, have);
                end = put_answer(out, end, answer);
                state = answer.next;
                have = 0;
            } else if have < 14 {
                line[have as usize] = *byte;
                have += 1;
            }
        }
        Step {
            next: Replay { state, line, have },
            end,
        }
    }
}

// ---- running a line

// The resequencer's answer to the line in the first `have` bytes.
fn kept_answer(state: Resequencer, line: [u8; 14], have: u8) -> Answer
    ensures { result ≡ line_answer state (line_in (take have line)) }
{
    let size = at_most(have, 14);
    answer_to(state, read_line(&line[..size]))
}

// The resequencer's answer to a line. A malformed line is refused with 2 and changes nothing.
#[tactic(auto, unfolding(crate::specs::Lines::line_answer, resequencer::specs::Events::plain))]
fn answer_to(state: Resequencer, line: Option<Line>) -> Answer
    ensures { result ≡ line_answer state line }
{
    match line {
        Some(Line::Arrival { sn, ticket }) => state.arrive(LinkNumber(narrow(sn)), ticket),
        Some(Line::ClockEnd { sn }) => state.clock_end(LinkNumber(narrow(sn))),
        None => Answer {
            outcome: Err(Refusal::Malformed),
            count: 0,
            tickets: [0u16; 32],
            next: state,
        },
    }
}

// A sequence number as the byte that the resequencer takes: those over 63 become 255, as all of
// them are refused alike.
fn narrow(sn: u16) -> u8
    ensures { result ≡ narrowed sn }
{
    if sn <= 63 { sn as u8 } else { 255 }
}

// ---- reading a line

// Reads a line: a letter, a blank, and one or two numbers. None if the line is malformed.
#[tactic(auto, unfolding(crate::specs::Lines::line_in, crate::specs::Lines::clock_end_line))]
fn read_line(text: &[u8]) -> Option<Line>
    ensures { result ≡ line_in text.now }
{
    match text {
        [b'A', b' ', numbers @ ..] => read_arrival(numbers),
        [b'E', b' ', numbers @ ..] => Some(Line::ClockEnd {
            sn: number(numbers)?,
        }),
        _ => None,
    }
}

// Reads the rest of an arrival line after the letter A and its blank: the sequence number, a blank
// and the ticket.
fn read_arrival(text: &[u8]) -> Option<Line>
    ensures { result ≡ arrival_of (decimal_in (word text.now)) (decimal_in (after_word text.now)) }
{
    let blank = blank_in(text)?;
    let sn = number(&text[..blank])?;
    let ticket = number(&text[blank + 1..])?;
    Some(Line::Arrival { sn, ticket })
}

// The index of the first blank.
fn blank_in(text: &[u8]) -> Option<usize>
    ensures { result ≡ position is_blank text.now }
{
    text.iter().position(|byte| *byte == b' ')
}

// The value of a text of one to five digits, at most 65,535; none for any other text.
fn number(text: &[u8]) -> Option<u16>
    ensures { result ≡ decimal_in text.now }
{
    if text.len() == 0 {
        return None;
    }
    if 5 < text.len() {
        return None;
    }
    let mut value: u16 = 0;
    for byte in text {
        if !byte.is_ascii_digit() {
            return None;
        }
        value = value.checked_mul(10)?.checked_add((byte - b'0') as u16)?;
    }
    Some(value)
}

// ---- reporting a line. Each function writes its text to `out` starting at `from`, and returns the
// index after its text. The room that it requires begins at `from`, which moves with each text: a
// type for it would be made anew at each call.

// Writes NESN, the number held, the number of clocks, the result and a line end: at most 210 bytes.
fn put_answer(out: &mut [u8], from: usize, answer: Answer) -> usize
    requires { from + 210 ≤ length out.old }
    ensures { Wrote out.old out.new from result 210 (answer_text answer) }
{
    let nesn = text::put_number(out, from, answer.next.nesn.0 as u32);
    let held = text::put_spaced(out, nesn, wordset::count(answer.next.held) as u32);
    let clocks = text::put_spaced(out, held, wordset::count(answer.next.clocks) as u32);
    let count = at_most(answer.count, 32);
    let result = put_result(out, clocks, answer.outcome, answer.tickets, count);
    text::put_byte(out, result, b'\n')
}

// Writes the result, with its blank in front: `-`, the tickets, `old`, `dup` or `refused n`.
fn put_result(
    out: &mut [u8],
    from: usize,
    outcome: Result<Outcome, Refusal>,
    tickets: [u16; 32],
    count: usize,
) -> usize
    requires { (count ≤ 32) × (from + 192 ≤ length out.old) }
    ensures { Wrote out.old out.new from result 192 (result_text outcome (take count tickets)) }
{
    match outcome {
        Ok(Outcome::Held) => text::put_word(out, from, b" -"),
        Ok(Outcome::HandedOn) => put_handed(out, from, tickets, count),
        Ok(Outcome::Old) => text::put_word(out, from, b" old"),
        Ok(Outcome::Duplicate) => text::put_word(out, from, b" dup"),
        Err(why) => put_refusal(out, from, why),
    }
}

// Writes the word `refused` and the refusal number.
fn put_refusal(out: &mut [u8], from: usize, why: Refusal) -> usize
    requires { from + 192 ≤ length out.old }
    ensures { Wrote out.old out.new from result 192 (32 ∷ 114 ∷ 101 ∷ 102 ∷ 117 ∷ 115 ∷ 101 ∷ 100 ∷ spaced (number_of why)) }
{
    let end = text::put_word(out, from, b" refused");
    text::put_spaced(out, end, why.number() as u32)
}

// Writes the tickets, or a dash if there are none.
fn put_handed(out: &mut [u8], from: usize, tickets: [u16; 32], count: usize) -> usize
    requires { (count ≤ 32) × (from + 192 ≤ length out.old) }
    ensures { Wrote out.old out.new from result 192 (tickets_text (take count tickets)) }
{
    if count == 0 {
        return text::put_word(out, from, b" -");
    }
    put_tickets(out, from, tickets, count)
}

// Writes the first `count` tickets, each with a blank in front.
fn put_tickets(out: &mut [u8], from: usize, tickets: [u16; 32], count: usize) -> usize
    requires { (count ≤ 32) × (from + 192 ≤ length out.old) }
    ensures { Wrote out.old out.new from result 192 (all_spaced (take count tickets)) }
{
    let mut end = from;
    for i in 0..count {
        end = text::put_spaced(out, end, tickets[i] as u32);
    }
    end
}

// `n`, but at most `most`: a count that stays within an array even if a damaged `Replay` or answer
// has a larger one.
#[tactic(auto, unfolding(crate::specs::Writing::least))]
fn at_most(n: u8, most: usize) -> usize
    ensures { (result ≤ most) × (result ≡ least n most) }
{
    (n as usize).min(most)
}

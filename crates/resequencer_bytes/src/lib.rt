// The resequencer on 146 bytes that the caller lends, for callers that are not written in Rattle.
// The calls and their rules are those of `resequencer` (document 01, "The resequencer");
// specs/Stored.antt gives the layout of the bytes.
#![tactic(auto)]

ghost use Rattle.std.specs.Prelude.{◌≡◌, cond, ◌++◌, ◌+◌, ◌≤◌, ◌<◌, eqb, length, get_or, set, take, drop};
ghost use Rattle.std.proofs.Math.Seq.{paste};
ghost use Rattle.refusal.specs.Numbers.{refusal_number};
ghost use Rattle.little.specs.Little.{little_of, little_bytes};
ghost use Rattle.wordset.specs.Sets.{every};
ghost use Rattle.resequencer.specs.State.{in_order};
ghost use Rattle.resequencer.specs.Events.{places};
ghost use Rattle.resequencer.specs.Parts.{ticket_fits, tickets_left, arrived_tickets, held_tickets_from};
ghost use Rattle.resequencer.specs.Numbers.{numbers_of, step_tickets, step_state, step_answer};
ghost use Rattle.resequencer_bytes.specs.Stored.{state_in, state_bytes, packed_answer, arrive_checks, arrive_answer, arrive_bytes, arrive_tickets, clock_end_answer, clock_end_bytes, clock_end_tickets, fresh_answer, fresh_bytes, order_answer};
ghost use Rattle.resequencer_bytes.specs.Parts.{tickets_in, with_numbers, with_tickets, HandOnFits, AnswerFits};

use resequencer::{Numbers, Outcome, Step};
use sequence::{Counter, LinkNumber};

// The word that eight of the bytes encode, lowest byte first.
fn word(state: &[u8; 146], at: usize) -> u64
    requires { at ≤ 138 }
    ensures { result ≡ little_of (take 8 (drop at state.now)) }
{
    u64::from_le_bytes([
        state[at],
        state[at + 1],
        state[at + 2],
        state[at + 3],
        state[at + 4],
        state[at + 5],
        state[at + 6],
        state[at + 7],
    ])
}

// The state's bytes read without the tickets.
fn numbers_in(state: &[u8; 146]) -> Numbers
    ensures { result ≡ numbers_of (state_in state.now) }
{
    Numbers {
        nesn: LinkNumber(state[0]),
        hsnr: LinkNumber(state[1]),
        held: word(state, 2),
        clocks: word(state, 10),
    }
}

// The ticket of `number`.
fn ticket_of(state: &[u8; 146], number: usize) -> u16
    requires { number < 64 }
    ensures { result ≡ get_or (tickets_in (drop 18 state.now)) number 0 }
{
    let at = 18 + 2 * number;
    u16::from_le_bytes([state[at], state[at + 1]])
}

// Adds the tickets of the eight numbers starting at `p` to `stray`, the bitwise or of the tickets
// of numbers not held. In blocks of eight, so that the compiler can use vector instructions. In
// `resequencer` the tickets are an array: one function for both, over a trait for where a ticket is,
// would have two impls, a law and a wrapper beside these lines.
fn gather_eight(stray: u16, held: u64, state: &[u8; 146], p: usize) -> u16
    requires { (p ≤ 56) × (eqb stray 0 ≡ every p (ticket_fits held (tickets_in (drop 18 state.now)))) }
    ensures { eqb result 0 ≡ every (p + 8) (ticket_fits held (tickets_in (drop 18 state.now))) }
{
    let eight = ((held >> p) % 256) as u16;
    let mut ones = stray;
    for j in 0..8 {
        let ticket = ticket_of(state, p + j);
        ones = resequencer::gather_stray(ones, (eight >> j) & 1 == 1, ticket);
    }
    ones
}

// Whether the tickets of numbers not in `held` are all 0.
fn none_stray(held: u64, state: &[u8; 146]) -> bool
    ensures { result ≡ every 64 (ticket_fits held (tickets_in (drop 18 state.now))) }
{
    let mut stray: u16 = 0;
    for block in 0..8 {
        stray = gather_eight(stray, held, state, 8 * block);
    }
    stray == 0
}

// Whether all tickets are 0: the same test for the case that nothing is held.
fn all_zero(state: &[u8; 146]) -> bool
    ensures { result ≡ every 64 (ticket_fits 0 (tickets_in (drop 18 state.now))) }
{
    let mut stray: u16 = 0;
    for number in 0..64 {
        stray = resequencer::gather_stray(stray, false, ticket_of(state, number));
    }
    stray == 0
}

// Whether the tickets of numbers not held are all 0. Most of the time nothing is held, and then the
// test is made at a quarter of the cost. The calls make this test before they read the numbers, so
// that the numbers need not be kept in registers meanwhile.
fn tickets_in_order(state: &[u8; 146]) -> bool
    ensures { result ≡ every 64 (ticket_fits (state_in state.now).held (state_in state.now).tickets) }
{
    let held = word(state, 2);
    if held == 0 {
        all_zero(state)
    } else {
        none_stray(held, state)
    }
}

// Whether the state is in good order.
fn good_order(state: &[u8; 146]) -> bool
    ensures { result ≡ in_order (state_in state.now) }
{
    tickets_in_order(state) && numbers_in(state).in_order()
}

// Writes `n` in `k` bytes starting at index `at`, lowest byte first.
fn put(state: &mut [u8; 146], at: usize, k: usize, n: u64)
    requires { at + k ≤ 146 }
    ensures { state.new ≡ paste state.old at (little_bytes k n) k }
{
    let mut rest = n;
    for i in 0..k {
        state[at + i] = (rest % 256) as u8;
        rest = rest / 256;
    }
}

// Writes the first 18 bytes of a state: everything but the tickets.
fn put_numbers(state: &mut [u8; 146], numbers: Numbers)
    ensures { state.new ≡ with_numbers state.old numbers }
{
    put(state, 0, 1, numbers.nesn.0 as u64);
    put(state, 1, 1, numbers.hsnr.0 as u64);
    put(state, 2, 8, numbers.held);
    put(state, 10, 8, numbers.clocks);
}

// Returns the ticket of `number` and sets it to 0 in the state.
fn take_ticket(state: &mut [u8; 146], number: u8) -> u16
    requires { number < 64 }
    ensures value { result ≡ get_or (tickets_in (drop 18 state.old)) number 0 }
    ensures state_after { state.new ≡ with_tickets state.old (set (tickets_in (drop 18 state.old)) number 0) }
{
    let ticket = ticket_of(state, number as usize);
    put(state, 18 + 2 * (number as usize), 2, 0);
    ticket
}

// Writes the tickets to be handed on to `out`, which is all 0 before, and returns their count. They
// are `ticket`, the one of the packet that has just arrived, if `d` is 1, and then those of the
// held numbers among the `m` numbers starting at `start`, in window order; these become 0 in the
// state. The tickets of the other numbers passed are 0 already.
fn hand_on(
    state: &mut [u8; 146],
    out: &mut [u16],
    held: u64,
    start: u8,
    d: u8,
    ticket: u16,
    m: u8,
) -> u8
    requires { HandOnFits state.old out.old held start d ticket m }
    ensures value { result ≡ length (arrived_tickets d ticket ++ held_tickets_from held (tickets_in (drop 18 state.old)) start m) }
    ensures out_after { out.new ≡ places (arrived_tickets d ticket ++ held_tickets_from held (tickets_in (drop 18 state.old)) start m) }
    ensures state_after { state.new ≡ with_tickets state.old (tickets_left (tickets_in (drop 18 state.old)) (state_in state.old).nesn.0 (d + m)) }
{
    out[0] = ticket;
    let mut count = d;
    let mut left = wordset::stretch(held, start, m);
    // no `for`: each turn takes the lowest number out of the set
    while left != 0 {
        let to = count as usize;
        out[to] = take_ticket(state, (start + wordset::lowest(left)) % 64);
        left = wordset::without_lowest(left);
        count += 1;
    }
    count
}

// Carries out `step` on the lent memory and returns the call's answer: the refusal number in the
// lowest byte, the kind of outcome in the second byte, the count of tickets handed on above. A
// refused call writes nothing; a dropped packet writes only 0 to the places for tickets. The hint
// saves a call by which an arrival in order would take 211 instructions instead of 158.
#[inline]
fn answer(
    state: &mut [u8; 146],
    out: &mut [u16],
    numbers: Numbers,
    step: Step,
    d: u8,
    sn: u8,
    ticket: u16,
) -> u32
    requires { AnswerFits state.old out.old numbers step d sn ticket }
    ensures value { result ≡ packed_answer (step_answer (state_in state.old) step d sn ticket) }
    ensures state_after { state.new ≡ cond (eqb (refusal_number step.outcome) 0) (state_bytes (step_state (state_in state.old) step sn ticket)) state.old }
    ensures out_after { out.new ≡ cond (eqb (refusal_number step.outcome) 0) (places (step_tickets (state_in state.old) step d ticket)) out.old }
{
    let outcome = match step.outcome {
        Ok(outcome) => outcome,
        Err(why) => return why.number() as u32,
    };
    out.fill(0);
    match outcome {
        Outcome::Held => {
            put(state, 18 + 2 * (sn as usize), 2, ticket as u64);
            put_numbers(state, step.next);
            0
        }
        Outcome::HandedOn => {
            let start = numbers.nesn.0 + d;
            let count = hand_on(state, out, numbers.held, start, d, ticket, step.passed - d);
            put_numbers(state, step.next);
            256 + 65536 * (count as u32)
        }
        Outcome::Old => 512,
        Outcome::Duplicate => 768,
    }
}

// Writes the fresh state to the bytes and returns 0. Refused with 14 if there are not 146 bytes.
pub fn fresh(state: &mut [u8]) -> u32
    ensures value { result ≡ fresh_answer state.old }
    ensures state_after { state.new ≡ fresh_bytes state.old }
{
    let Some(state) = state.as_mut_array::<146>() else {
        return 14;
    };
    state.fill(0);
    0
}

// Returns 0 if the bytes are a state in good order, else 14.
pub fn in_order(state: &[u8]) -> u32
    ensures { result ≡ order_answer state.now }
{
    let Some(state) = state.as_array::<146>() else {
        return 14;
    };
    if good_order(state) { 0 } else { 14 }
}

// What `arrive` and `clock_end` return if there are fewer than 32 places: 14 or 1 if that comes
// first, else 5. Those calls make the tests of 14 and 1 together with the step. They are made again
// here, so that a call with 32 places pays for one comparison only.
#[tactic(auto, unfolding(crate::specs::Stored::arrive_checks, resequencer::specs::Events::arrive_verdict))]
fn short_answer(state: &[u8; 146], sn: u8) -> u32
    ensures { result ≡ refusal_number (arrive_checks state.now 0 sn) }
{
    if !good_order(state) {
        return 14;
    }
    let number = LinkNumber(sn);
    if number.in_field() { 5 } else { 1 }
}

// A packet with the sequence number `sn` arrives: writes the next state to `state` and the tickets
// handed on to the first 32 places of `tickets`, with 0 in the unused ones; places past these 32
// keep what they held. Returns the refusal number in the lowest byte, the outcome in the next (0
// held, 1 handed on, 2 old, 3 duplicate) and the count of tickets handed on above. Refused with 14
// if `state` is not 146 bytes or not in good order, 1 if `sn` is over 63, 5 if there are fewer than
// 32 places; a refusal writes nothing.
pub fn arrive(state: &mut [u8], tickets: &mut [u16], sn: u8, ticket: u16) -> u32
    ensures value { result ≡ arrive_answer state.old (length tickets.old) sn ticket }
    ensures state_after { state.new ≡ arrive_bytes state.old (length tickets.old) sn ticket }
    ensures tickets_after { tickets.new ≡ arrive_tickets state.old tickets.old sn ticket }
{
    let Some(state) = state.as_mut_array::<146>() else {
        return 14;
    };
    if tickets.len() < 32 {
        return short_answer(state, sn);
    }
    let fits = tickets_in_order(state);
    let numbers = numbers_in(state);
    let step = numbers.arrive(fits, LinkNumber(sn));
    answer(state, &mut tickets[..32], numbers, step, 1, sn, ticket)
}

// The clock of `sn` ends: writes and returns as `arrive` does. Refused with 14, 1, 5 as an arrival,
// then with 7 if no clock runs for `sn`; a refusal writes nothing.
pub fn clock_end(state: &mut [u8], tickets: &mut [u16], sn: u8) -> u32
    ensures value { result ≡ clock_end_answer state.old (length tickets.old) sn }
    ensures state_after { state.new ≡ clock_end_bytes state.old (length tickets.old) sn }
    ensures tickets_after { tickets.new ≡ clock_end_tickets state.old tickets.old sn }
{
    let Some(state) = state.as_mut_array::<146>() else {
        return 14;
    };
    if tickets.len() < 32 {
        return short_answer(state, sn);
    }
    let fits = tickets_in_order(state);
    let numbers = numbers_in(state);
    let step = numbers.clock_end(fits, LinkNumber(sn));
    answer(state, &mut tickets[..32], numbers, step, 0, sn, 0)
}

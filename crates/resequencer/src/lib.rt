// The resequencer (document 01, "The resequencer"): it hands packets on in the order of their link
// sequence number SN, which wraps at 64. Each event takes the state by value and returns the next
// one. `Numbers` decides what an event does to NESN, HSNR and the two sets; `Resequencer` adds the
// tickets.
#![tactic(auto)]

ghost use Rattle.std.specs.Prelude.{◌≡◌, true, [], ◌++◌, ◌+◌, ◌^◌, ◌≤◌, ◌<◌, eqb, length, replicate};
ghost use Rattle.refusal.specs.Numbers.{check, refusal_number};
ghost use Rattle.refusal.specs.declared.Refusal.TheVariants.{NotInOrder};
ghost use Rattle.sequence.specs.Numbers.{link};
ghost use Rattle.wordset.specs.Sets.{member, every};
ghost use Rattle.resequencer.specs.State.{fresh_state, in_order};
ghost use Rattle.resequencer.specs.Events.{plain, places, hand_on, advance, starts_clock, hold, take_arrival, arrive_verdict, arrive_of, take_clock_end, clock_end_verdict, clock_end_of};
ghost use Rattle.resequencer.specs.Parts.{window_in_order, hsnr_in_order, ticket_fits, gather_stray, passed_numbers, tickets_left, hsnr_left, arrived_tickets, held_tickets_from};
ghost use Rattle.resequencer.specs.Numbers.{numbers_of, bare, numbers_in_order, step_by, arrive_step, clock_end_step, StepFits, step_answer};
ghost use Rattle.resequencer.specs.declared.Outcome.TheVariants.{Held};

use refusal::Refusal;
use sequence::{Counter, LinkNumber};

// The state. `nesn` is the next number expected. Bit n of `held` is 1 exactly if number n is held,
// and bit n of `clocks` exactly if its clock runs. `tickets[n]` is the ticket of the held number n.
// In good order `hsnr` is the held number furthest from NESN, or 0 if nothing is held, and the
// tickets of numbers not held are 0.
#[derive(Clone, Copy)]
pub struct Resequencer {
    pub nesn: LinkNumber,
    pub hsnr: LinkNumber,
    pub held: u64,
    pub clocks: u64,
    pub tickets: [u16; 64],
}

// What happened on an arrival or a clock end that is not refused. A clock end gives `HandedOn`.
#[derive(Clone, Copy, Debug, PartialEq, Eq)]
pub enum Outcome {
    Held,
    HandedOn,
    Old,
    Duplicate,
}

// The answer to an arrival or a clock end: the outcome or the refusal, the tickets handed on and the
// next state.
// The first `count` places of `tickets` are the tickets handed on, in order; the other places are
// 0. The library uses no heap, so that a list of any length is an array with its count.
#[derive(Clone, Copy)]
pub struct Answer {
    pub outcome: Result<Outcome, Refusal>,
    pub count: u8,
    pub tickets: [u16; 32],
    pub next: Resequencer,
}

// A state without its tickets. `Resequencer` decides each event on it. It is public, with its
// calls, for `resequencer_bytes`, which keeps the tickets in lent bytes; it is not meant for other
// callers and is part of no promise to users.
#[derive(Clone, Copy)]
pub struct Numbers {
    pub nesn: LinkNumber,
    pub hsnr: LinkNumber,
    pub held: u64,
    pub clocks: u64,
}

// What an arrival or a clock end does to a `Numbers`: the outcome, the next `Numbers`, and by how
// much NESN went up (`passed`). Public for `resequencer_bytes`, as `Numbers` is; not meant for
// other callers.
#[derive(Clone, Copy)]
pub struct Step {
    pub outcome: Result<Outcome, Refusal>,
    pub next: Numbers,
    pub passed: u8,
}

// Whether the two sets meet the clauses of good order that concern them alone, tested on whole
// words. `h` and `c` are the held set and the clock set rotated so that bit d is the number at
// distance d from NESN. Held numbers are at distance 1 to 31, which means that `h` is even and
// below 2^32; every clock is on a held number; no two clocks are on neighbours.
fn window_in_order(h: u64, c: u64) -> bool
    ensures { result ≡ window_in_order h c }
{
    h % 2 == 0 && (h < 4294967296 && (wordset::difference(c, h) == 0 && c & (c << 1) == 0))
}

// Whether HSNR, at distance `e` from NESN, meets the clauses of good order: HSNR is 0 if nothing is
// held; else it is the furthest held number, and a clock runs in the unbroken run of held numbers
// that ends at it. Such a clock exists exactly if adding `h` and `c` carries out of bit `e`.
fn hsnr_in_order(h: u64, c: u64, e: u8, hsnr: LinkNumber) -> bool
    requires { (e < 64) × (h + c < 2 ^ 64) }
    ensures { result ≡ hsnr_in_order h c e hsnr.0 }
{
    if h == 0 {
        hsnr.0 == 0
    } else {
        hsnr.in_field() && (h >> e == 1 && 2 <= (h + c) >> e)
    }
}

// Adds one ticket to `stray`, the bitwise or of the tickets so far whose number is not held; in
// good order it stays 0. Public for `resequencer_bytes`, which makes the same test on lent bytes;
// not meant for other callers.
pub fn gather_stray(stray: u16, held: bool, ticket: u16) -> u16
    ensures { result ≡ gather_stray stray held ticket }
{
    if held { stray } else { stray | ticket }
}

// Adds the tickets of the eight numbers starting at `p` to `stray`. In blocks of eight, so that the
// compiler can use vector instructions.
fn gather_eight(stray: u16, held: u64, tickets: &[u16; 64], p: usize) -> u16
    requires { (p ≤ 56) × (eqb stray 0 ≡ every p (ticket_fits held tickets.now)) }
    ensures { eqb result 0 ≡ every (p + 8) (ticket_fits held tickets.now) }
{
    let eight = ((held >> p) % 256) as u16;
    let mut ones = stray;
    for j in 0..8 {
        ones = gather_stray(ones, (eight >> j) & 1 == 1, tickets[p + j]);
    }
    ones
}

// Whether the tickets of numbers not held are all 0.
fn tickets_in_order(held: u64, tickets: &[u16; 64]) -> bool
    ensures { result ≡ every 64 (ticket_fits held tickets.now) }
{
    let mut stray: u16 = 0;
    for block in 0..8 {
        stray = gather_eight(stray, held, tickets, 8 * block);
    }
    stray == 0
}

// The set of the `m` numbers starting at NESN. (That the count `m` is below 64 stands in four
// contracts: a type for it would be a wrapper that each of them takes off again.)
fn passed_numbers(nesn: u8, m: u8) -> u64
    requires { (nesn < 64) × (m < 64) }
    ensures { result ≡ passed_numbers nesn m }
{
    wordset::rotate((1u64 << m) - 1, 64 - nesn)
}

// Sets the tickets of the `m` numbers starting at NESN to 0.
fn clear_passed(tickets: &mut [u16; 64], nesn: u8, m: u8)
    requires { (nesn < 64) × ((m < 64) × (length tickets.old ≡ 64)) }
    ensures { tickets.new ≡ tickets_left tickets.old nesn m }
{
    for i in 0..m {
        let at = ((nesn + i) % 64) as usize;
        tickets[at] = 0;
    }
}

// Writes the tickets to be handed on to `out`, which is all 0 before, and returns their count. They
// are `ticket`, the one of the packet that has just arrived, if `d` is 1, and then those of the
// held numbers among the `m` numbers starting at `start`, in window order.
fn gather_held(
    out: &mut [u16; 32],
    held: u64,
    tickets: &[u16; 64],
    start: u8,
    d: u8,
    ticket: u16,
    m: u8,
) -> u8
    requires { (out.old ≡ replicate 32 0) × ((start ≤ 64) × ((d ≤ 1) × ((d + m ≤ 32) × (d ≡ 0 → ticket ≡ 0)))) }
    ensures value { result ≡ length (arrived_tickets d ticket ++ held_tickets_from held tickets.now start m) }
    ensures out_after { out.new ≡ places (arrived_tickets d ticket ++ held_tickets_from held tickets.now start m) }
{
    out[0] = ticket;
    let mut count = d;
    let mut left = wordset::stretch(held, start, m);
    // no `for`: each turn takes the lowest number out of the set
    while left != 0 {
        let from = ((start + wordset::lowest(left)) % 64) as usize;
        let to = count as usize;
        out[to] = tickets[from];
        left = wordset::without_lowest(left);
        count += 1;
    }
    count
}

// HSNR after NESN has moved on: 0 if nothing is left in `held`, else unchanged.
fn hsnr_left(held: u64, hsnr: LinkNumber) -> LinkNumber
    ensures { result ≡ hsnr_left held hsnr }
{
    if held == 0 { LinkNumber(0) } else { hsnr }
}

impl Numbers {
    // Whether every clause of good order holds that does not concern the tickets.
    pub fn in_order(self) -> bool
        ensures { result ≡ numbers_in_order self }
    {
        if !self.nesn.in_field() {
            return false;
        }
        let h = wordset::rotate(self.held, self.nesn.0);
        let c = wordset::rotate(self.clocks, self.nesn.0);
        window_in_order(h, c) && hsnr_in_order(h, c, self.nesn.distance_to(self.hsnr), self.hsnr)
    }

    // The step that changes nothing.
    fn stay(self, outcome: Result<Outcome, Refusal>) -> Step
        ensures { result ≡ step_by self (plain outcome (bare self)) }
    {
        Step {
            outcome,
            next: self,
            passed: 0,
        }
    }

    // NESN goes up by `m`. The `m` numbers passed are no longer held and their clocks stop.
    fn advance(self, m: u8) -> Numbers
        requires { (self.nesn.0 < 64) × (m < 64) }
        ensures { result ≡ numbers_of (advance (bare self) m) }
    {
        let passed = passed_numbers(self.nesn.0, m);
        let held = wordset::difference(self.held, passed);
        Numbers {
            nesn: LinkNumber((self.nesn.0 + m) % 64),
            hsnr: hsnr_left(held, self.hsnr),
            held,
            clocks: wordset::difference(self.clocks, passed),
        }
    }

    // The step that hands on: NESN goes up by `m`.
    fn pass(self, m: u8) -> Step
        requires { (self.nesn.0 < 64) × (m < 64) }
        ensures { result ≡ step_by self (hand_on [] (advance (bare self) m)) }
    {
        Step {
            outcome: Ok(Outcome::HandedOn),
            next: self.advance(m),
            passed: m,
        }
    }

    // Whether holding `sn` starts a clock: no clock runs, or `sn` is further from NESN than HSNR +
    // 1.
    fn starts_clock(self, sn: LinkNumber) -> bool
        ensures { result ≡ starts_clock (bare self) sn.0 }
    {
        self.clocks == 0 || self.nesn.distance_to(self.hsnr) + 1 < self.nesn.distance_to(sn)
    }

    // HSNR after `sn` is held: `sn` if it starts a clock or is HSNR + 1, else unchanged.
    fn hsnr_with(self, sn: LinkNumber) -> LinkNumber
        ensures { result ≡ (hold (bare self) sn.0 0).hsnr }
    {
        if self.starts_clock(sn) {
            sn
        } else if self.nesn.distance_to(sn) == self.nesn.distance_to(self.hsnr) + 1 {
            sn
        } else {
            self.hsnr
        }
    }

    // The clock set after `sn` is held.
    fn clocks_with(self, sn: LinkNumber) -> u64
        ensures { result ≡ (hold (bare self) sn.0 0).clocks }
    {
        if self.starts_clock(sn) {
            wordset::with(self.clocks, sn.0)
        } else {
            self.clocks
        }
    }

    // The step that holds `sn`.
    fn hold(self, sn: LinkNumber) -> Step
        ensures { result ≡ step_by self (plain (Ok Held) (hold (bare self) sn.0 0)) }
    {
        Step {
            outcome: Ok(Outcome::Held),
            next: Numbers {
                hsnr: self.hsnr_with(sn),
                held: wordset::with(self.held, sn.0),
                clocks: self.clocks_with(sn),
                ..self
            },
            passed: 0,
        }
    }

    // Whether an arrival of `sn` is refused: 14 if the state is not in good order, then 1 if `sn`
    // is over 63. `fits` is whether the tickets of numbers not held are all 0.
    #[tactic(auto, unfolding(crate::specs::Events::arrive_verdict))]
    fn check_arrive(self, fits: bool, sn: LinkNumber) -> Result<(), Refusal>
        ensures { result ≡ check fits NotInOrder (arrive_verdict (bare self) sn.0) }
    {
        if !(fits && self.in_order()) {
            return Err(Refusal::NotInOrder);
        }
        if !sn.in_field() {
            return Err(Refusal::OutOfRange);
        }
        Ok(())
    }

    // The step of an arrival that is not refused.
    fn take_arrival(self, sn: LinkNumber) -> Step
        requires { (numbers_in_order self ≡ true) × (sn.0 < 64) }
        ensures { result ≡ step_by self (take_arrival (bare self) sn.0 0) }
    {
        let d = self.nesn.distance_to(sn);
        if 31 < d {
            self.stay(Ok(Outcome::Old))
        } else if wordset::member(self.held, sn.0) {
            self.stay(Ok(Outcome::Duplicate))
        } else if d == 0 {
            let after = self.nesn.next();
            self.pass(wordset::run(self.held, after.0) + 1)
        } else {
            self.hold(sn)
        }
    }

    // The step of an arrival of `sn`. `fits` is whether the tickets of numbers not held are all 0;
    // the caller, who keeps the tickets, tests this.
    pub fn arrive(self, fits: bool, sn: LinkNumber) -> Step
        ensures value { result ≡ arrive_step fits self sn.0 }
        ensures number { refusal_number result.outcome ≡ refusal_number (check fits NotInOrder (arrive_verdict (bare self) sn.0)) }
    {
        match self.check_arrive(fits, sn) {
            Ok(()) => self.take_arrival(sn),
            Err(why) => self.stay(Err(why)),
        }
    }

    // Whether a clock end of `sn` is refused: 14 if the state is not in good order, then 1 if `sn`
    // is over 63, then 7 if no clock runs for it.
    #[tactic(auto, unfolding(crate::specs::Events::clock_end_verdict))]
    fn check_clock_end(self, fits: bool, sn: LinkNumber) -> Result<(), Refusal>
        ensures { result ≡ check fits NotInOrder (clock_end_verdict (bare self) sn.0) }
    {
        if !(fits && self.in_order()) {
            return Err(Refusal::NotInOrder);
        }
        if !sn.in_field() {
            return Err(Refusal::OutOfRange);
        }
        if !wordset::member(self.clocks, sn.0) {
            return Err(Refusal::NoClock);
        }
        Ok(())
    }

    // The step of a clock end that is not refused: NESN becomes the first number after `sn` that is
    // not held.
    fn take_clock_end(self, sn: LinkNumber) -> Step
        requires { (numbers_in_order self ≡ true) × ((sn.0 < 64) × (member self.clocks sn.0 ≡ true)) }
        ensures { result ≡ step_by self (take_clock_end (bare self) sn.0) }
    {
        let after = sn.next();
        let run = wordset::run(self.held, after.0);
        self.pass(self.nesn.distance_to(sn) + 1 + run)
    }

    // The step of a clock end of `sn`. `fits` as for `arrive`.
    pub fn clock_end(self, fits: bool, sn: LinkNumber) -> Step
        ensures value { result ≡ clock_end_step fits self sn.0 }
        ensures number { refusal_number result.outcome ≡ refusal_number (check fits NotInOrder (clock_end_verdict (bare self) sn.0)) }
    {
        match self.check_clock_end(fits, sn) {
            Ok(()) => self.take_clock_end(sn),
            Err(why) => self.stay(Err(why)),
        }
    }
}

impl Resequencer {
    // The fresh state: nothing has arrived yet, and every field is 0.
    pub fn fresh() -> Resequencer
        ensures { result ≡ fresh_state }
    {
        Resequencer {
            nesn: LinkNumber(0),
            hsnr: LinkNumber(0),
            held: 0,
            clocks: 0,
            tickets: [0u16; 64],
        }
    }

    // The state without its tickets, for the calls of this crate; not meant for other callers.
    pub fn numbers(self) -> Numbers
        ensures { result ≡ numbers_of self }
    {
        Numbers {
            nesn: self.nesn,
            hsnr: self.hsnr,
            held: self.held,
            clocks: self.clocks,
        }
    }

    // Whether the state is in good order. The fields are public, so a caller can damage a state;
    // `arrive` and `clock_end` refuse a damaged state with 14.
    pub fn in_order(self) -> bool
        ensures { result ≡ in_order self }
    {
        tickets_in_order(self.held, &self.tickets) && self.numbers().in_order()
    }

    // The answer that `step` gives in this state: moves the tickets. For an arrival `d` is 1, and
    // `ticket`, the packet's own, is handed on first or held at `sn`; for a clock end `d` and
    // `ticket` are 0. The next state is put together at the end: filled in place, its tickets are
    // copied once more, and a line of a script takes 909 instructions instead of 803.
    #[inline]
    fn answer(self, step: Step, d: u8, sn: LinkNumber, ticket: u16) -> Answer
        requires { StepFits self.nesn.0 step d sn.0 ticket }
        ensures { result ≡ step_answer self step d sn.0 ticket }
    {
        let outcome = step.outcome;
        let next = step.next;
        let nesn = next.nesn;
        let hsnr = next.hsnr;
        let start = self.nesn.0;
        let mut tickets = self.tickets;
        let mut out = [0u16; 32];
        let mut count: u8 = 0;
        match outcome {
            Ok(Outcome::HandedOn) => {
                count = gather_held(
                    &mut out,
                    self.held,
                    &tickets,
                    start + d,
                    d,
                    ticket,
                    step.passed - d,
                );
                clear_passed(&mut tickets, start, step.passed);
            }
            Ok(Outcome::Held) => tickets[sn.0 as usize] = ticket,
            Ok(Outcome::Old) => {}
            Ok(Outcome::Duplicate) => {}
            Err(_why) => {}
        }
        Answer {
            outcome,
            count,
            tickets: out,
            next: Resequencer {
                nesn,
                hsnr,
                held: next.held,
                clocks: next.clocks,
                tickets,
            },
        }
    }

    // A packet with the sequence number `sn` arrives. It is held, handed on with the held packets
    // that follow it unbroken, dropped as old or duplicate, or refused: 14 if the state is not in
    // good order, 1 if `sn` is over 63.
    pub fn arrive(self, sn: LinkNumber, ticket: u16) -> Answer
        ensures value { result ≡ arrive_of self sn.0 ticket }
        ensures number { refusal_number result.outcome ≡ refusal_number (arrive_verdict self sn.0) }
    {
        let fits = tickets_in_order(self.held, &self.tickets);
        let step = self.numbers().arrive(fits, sn);
        self.answer(step, 1, sn, ticket)
    }

    // The clock of `sn` ends: the missing numbers before `sn` are given up, and all held packets
    // before the first number after `sn` that is not held are handed on. Refused: 14 if the state
    // is not in good order, 1 if `sn` is over 63, 7 if no clock runs for `sn`.
    pub fn clock_end(self, sn: LinkNumber) -> Answer
        ensures value { result ≡ clock_end_of self sn.0 }
        ensures number { refusal_number result.outcome ≡ refusal_number (clock_end_verdict self sn.0) }
    {
        let fits = tickets_in_order(self.held, &self.tickets);
        let step = self.numbers().clock_end(fits, sn);
        self.answer(step, 0, sn, 0)
    }
}

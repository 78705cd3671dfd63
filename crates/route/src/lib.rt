// The table of interrogator codes against ground addresses, and the route lists that change it
// (document 01, "Interrogators and ground addresses").
#![tactic(auto)]

ghost use Rattle.std.specs.Prelude.{◌≡◌, false, not, ◌&&◌, [], ◌+◌, ◌<◌, ◌≤◌, eqb};
ghost use Rattle.refusal.specs.declared.Refusal.TheVariants.{RouteListMalformed};
ghost use Rattle.refusal.specs.Numbers.{value_by, refusal_number};
ghost use Rattle.route_choice.specs.Choosing.{choice_code, usable, choose_verdict, chosen_code};
ghost use Rattle.route.specs.Entries.{entries_in};
ghost use Rattle.route.specs.Updating.{empty_table, codes_of, count_of, choose_for, those, reported, update_verdict, update_of};
ghost use Rattle.route.specs.Parts.{mark, change, taken, taken_of, collected_by, Found, settled, report_of, noted, lost_in, NoneFrom, Told};

use refusal::Refusal;

// For each of the 256 ground addresses the set of the codes II of its interrogators: bit i of
// `codes[a]` is code i at address a.
#[derive(Clone, Copy)]
pub struct Table {
    pub codes: [u16; 256],
}

// The answer of `Table::update`. `next` is the table after it, the same table after a refusal. The
// first `count` places of `lost` hold the addresses that had a code before and have none after,
// rising; the other places are 0. The library uses no heap, so that this is no `Vec`.
#[derive(Clone, Copy)]
pub struct Updated {
    pub verdict: Result<(), Refusal>,
    pub next: Table,
    pub count: u16,
    pub lost: [u8; 256],
}

// Adds `code` to the set of each of these addresses.
fn mark_all(sets: &mut [u16; 256], addresses: &[u8], code: u8)
    ensures { sets.new ≡ mark code addresses.now sets.old }
{
    for address in addresses {
        let a = *address as usize;
        sets[a] = wordset::with(sets[a], code);
    }
}

// Reads the first entry of `rest` and adds its pairs of code and address to `added` or to
// `deleted`. Returns the size of the entry in bytes, 0 if it is cut. The pairs of all entries are
// collected before the table is changed, since every addition is made before any deletion; the sets
// are lent, so that no entry costs a copy of them.
#[tactic(auto, unfolding(crate::specs::Parts::taken_of, crate::specs::Parts::step))]
fn take_entry(rest: &[u8], added: &mut [u16; 256], deleted: &mut [u16; 256]) -> usize
    ensures { taken result added.new deleted.new ≡ taken_of rest.now (change added.old deleted.old) }
{
    if rest.len() < 2 {
        return 0;
    }
    let head = rest[0];
    let size = (head % 8) as usize + 2;
    if rest.len() < size {
        return 0;
    }
    let code = head / 16;
    if head / 8 % 2 == 1 {
        mark_all(added, &rest[1..size], code);
        size
    } else {
        mark_all(deleted, &rest[1..size], code);
        size
    }
}

// Collects the additions and the deletions of a route list in `added` and `deleted`: "Each entry is
// read as the rest of the list from where the last one ended." Returns false if the last entry is
// cut.
fn collect_list(list: &[u8], added: &mut [u16; 256], deleted: &mut [u16; 256]) -> bool
    ensures { Found (collected_by (entries_in list.now) (change added.old deleted.old)) result
        (change added.new deleted.new) }
{
    let mut at: usize = 0;
    // No `for`: each entry says how far the next one is, which the loop learns by reading it.
    while at < list.len() {
        let size = take_entry(&list[at..], added, deleted);
        if size == 0 {
            return false;
        }
        at = at + size;
    }
    true
}

// The sets of the table after all additions are made, and then all deletions.
fn settle(codes: &[u16; 256], added: &[u16; 256], deleted: &[u16; 256]) -> [u16; 256]
    ensures { result ≡ settled codes.now (change added.now deleted.now) }
{
    let mut next = [0u16; 256];
    for a in 0..256 {
        next[a] = wordset::difference(wordset::union(codes[a], added[a]), deleted[a]);
    }
    next
}

// Whether an address is lost: it had a code before and has none after.
fn is_lost(before: u16, after: u16) -> bool
    ensures { result ≡ (not (eqb before 0) && eqb after 0) }
{
    if before == 0 { false } else { after == 0 }
}

// Whether any of the 16 addresses starting at `from` is lost. Few addresses are, so this test skips
// most blocks of a table.
fn any_lost(before: &[u16; 256], after: &[u16; 256], from: usize) -> bool
    requires { from + 16 ≤ 256 }
    ensures { result ≡ false → NoneFrom from 16 (lost_in before.now after.now) }
{
    let mut any = false;
    for a in from..from + 16 {
        any = any | is_lost(before[a], after[a]);
    }
    any
}

// A report that is being written: the first `count` places of `lost` hold the addresses in it, the
// other places are 0.
struct Report {
    lost: [u8; 256],
    count: u16,
}

impl Report {
    // Writes address `a` to the next free place if `gone` is true.
    #[tactic(auto, unfolding(crate::specs::Parts::noted))]
    fn note(&mut self, a: usize, gone: bool)
        requires { (a < 256) × (self.old.count < 256) }
        ensures { self.new ≡ noted self.old a gone }
    {
        if gone {
            let at = self.count as usize;
            self.lost[at] = a as u8;
            self.count = self.count + 1;
        }
    }

    // Adds those of the 16 addresses starting at `from` that are lost.
    fn note_each(&mut self, before: &[u16; 256], after: &[u16; 256], from: usize)
        requires { Told before.now after.now from self.old }
        ensures { self.new ≡ report_of (those (from + 16) (lost_in before.now after.now)) }
    {
        for a in from..from + 16 {
            self.note(a, is_lost(before[a], after[a]));
        }
    }

    // The same, but a block of 16 addresses of which none is lost costs only the test `any_lost`.
    fn note_any(&mut self, before: &[u16; 256], after: &[u16; 256], from: usize)
        requires { Told before.now after.now from self.old }
        ensures { self.new ≡ report_of (those (from + 16) (lost_in before.now after.now)) }
    {
        if any_lost(before, after, from) {
            self.note_each(before, after, from);
        }
    }
}

// The report of the addresses that lost their last code, rising.
fn lost_between(before: &[u16; 256], after: &[u16; 256]) -> Report
    ensures { result ≡ report_of (those 256 (lost_in before.now after.now)) }
{
    let mut report = Report {
        lost: [0u8; 256],
        count: 0,
    };
    for block in 0..16 {
        report.note_any(before, after, block * 16);
    }
    report
}

// The answer to a refused list: refusal 6, the same table, no address reported.
fn refuse(table: Table) -> Updated
    ensures { result ≡ reported (Err RouteListMalformed) table [] }
{
    Updated {
        verdict: Err(Refusal::RouteListMalformed),
        next: table,
        count: 0,
        lost: [0u8; 256],
    }
}

impl Table {
    // The table at the start: no address has a code.
    pub fn empty() -> Table
        ensures { result ≡ empty_table }
    {
        Table { codes: [0u16; 256] }
    }

    // The set of the codes of `address`: bit i is code i.
    pub fn codes_of(self, address: u8) -> u16
        ensures { result ≡ codes_of self address }
    {
        let codes = self.codes;
        codes[address as usize]
    }

    // The number of interrogators of `address`.
    pub fn count_of(self, address: u8) -> u8
        ensures { result ≡ count_of self address }
    {
        wordset::count(self.codes_of(address))
    }

    // Chooses an interrogator for `address` by `route_choice::choose`, which describes the choice
    // and its refusals.
    pub fn choose_for(self, address: u8, last: Option<u8>, failed: u16) -> Result<u8, Refusal>
        ensures whole { result ≡ choose_for self address last failed }
        ensures number { refusal_number result ≡ refusal_number (choose_verdict (codes_of self address) last failed) }
        ensures value { choice_code result ≡ value_by (choose_verdict (codes_of self address) last failed) (chosen_code (usable (codes_of self address) failed) last) }
    {
        route_choice::choose(self.codes_of(address), last, failed)
    }

    // Changes the table by a route list, all additions before any deletion, and reports the
    // addresses that lost their last code. Refuses with 6 if the list has more than 255 bytes or
    // its last entry is cut.
    pub fn update(self, list: &[u8]) -> Updated
        ensures value { result ≡ update_of self list.now }
        ensures number { refusal_number result.verdict ≡ refusal_number (update_verdict list.now) }
    {
        if 255 < list.len() {
            return refuse(self);
        }
        let mut added = [0u16; 256];
        let mut deleted = [0u16; 256];
        if collect_list(list, &mut added, &mut deleted) {
            let before = self.codes;
            let codes = settle(&before, &added, &deleted);
            let Report { lost, count } = lost_between(&before, &codes);
            Updated {
                verdict: Ok(()),
                next: Table { codes },
                count,
                lost,
            }
        } else {
            refuse(self)
        }
    }
}

// The table of interrogators in 512 bytes that the caller lends, for callers that are not written
// in Rattle (document 01, "Interrogators and ground addresses"). Every answer is one number: the
// refusal number of document 01, 0 for done, plus 256 times the value. After a refusal the value is
// 0 and no lent byte has changed. A table that does not have 512 bytes is refused with 14, and
// fewer than 256 places for the report of an update with 5. specs/Stored.antt defines the layout of
// the bytes and of the answers.
#![tactic(auto)]

ghost use Rattle.std.specs.Prelude.{◌≡◌, ◌≤◌, ◌<◌, length};
ghost use Rattle.lists.specs.Lists.{over};
ghost use Rattle.route.specs.Updating.{codes_of};
ghost use Rattle.route_bytes.specs.Stored.{table_in, table_bytes, empty_answer, empty_bytes, codes_answer, count_answer, choose_answer, choose_among_answer, update_answer, update_bytes, update_lost};

use route::Table;

// ---- the bytes of a table

// The set of the codes of `address`. Only its two bytes are read.
fn set_at(table: &[u8; 512], address: usize) -> u16
    requires { address < 256 }
    ensures { result ≡ codes_of (table_in table.now) address }
{
    let at = address * 2;
    table[at] as u16 + 256 * (table[at + 1] as u16)
}

// The sets of all addresses.
fn read_table(table: &[u8; 512]) -> [u16; 256]
    ensures { result ≡ (table_in table.now).codes }
{
    let mut codes = [0u16; 256];
    for a in 0..256 {
        codes[a] = set_at(table, a);
    }
    codes
}

// Writes the sets of all addresses to `table`.
fn write_table(table: &mut [u8; 512], codes: &[u16; 256])
    ensures { table.new ≡ table_bytes (record { codes = codes.entry.now }) }
{
    for a in 0..256 {
        let set = codes[a];
        let at = a * 2;
        table[at] = (set % 256) as u8;
        table[at + 1] = (set / 256) as u8;
    }
}

// Copies the report of an update to the front of `out`; the rest of `out` keeps what it held.
fn write_lost(out: &mut [u8], lost: &[u8])
    requires { (256 ≤ length out.old) × (length lost.now ≡ 256) }
    ensures { out.new ≡ over lost.now out.old }
{
    lists::copy_in(out, lost);
}

// Makes `table` an empty table. Refuses with 14 if it does not have 512 bytes.
pub fn empty(table: &mut [u8]) -> u32
    ensures value { result ≡ empty_answer table.old }
    ensures table_after { table.new ≡ empty_bytes table.old }
{
    if table.len() == 512 {
        table.fill(0);
        0
    } else {
        14
    }
}

// ---- questions about one address

// The set of the codes of `address`: bit i of the value is code i. Refuses with 14 if `table` does
// not have 512 bytes.
pub fn codes(table: &[u8], address: u8) -> u32
    ensures { result ≡ codes_answer table.now address }
{
    let Some(table) = table.as_array::<512>() else {
        return 14;
    };
    256 * (set_at(table, address as usize) as u32)
}

// The number of interrogators of `address`. Refuses with 14 if `table` does not have 512 bytes.
pub fn count(table: &[u8], address: u8) -> u32
    ensures { result ≡ count_answer table.now address }
{
    let Some(table) = table.as_array::<512>() else {
        return 14;
    };
    256 * (wordset::count(set_at(table, address as usize)) as u32)
}

// Chooses an interrogator for `address`; `last` is the last-used code or 65535 for none, `failed`
// the set of the failed codes. The value is the code. Refuses with 14 if `table` does not have 512
// bytes, then as `choose_among`.
pub fn choose(table: &[u8], address: u8, last: u16, failed: u16) -> u32
    ensures { result ≡ choose_answer table.now address last failed }
{
    let Some(table) = table.as_array::<512>() else {
        return 14;
    };
    choose_among(set_at(table, address as usize), last, failed)
}

// The same choice from a set of codes that the caller has. Refuses with 1 if `last` is over 15 and
// not 65535, then with 8 if `codes` is empty, then with 15 if all of `codes` have failed.
#[tactic(auto, unfolding(route_choice::specs::Choosing::choose_of, route_choice::specs::Choosing::choose_verdict))]
pub fn choose_among(codes: u16, last: u16, failed: u16) -> u32
    ensures { result ≡ choose_among_answer codes last failed }
{
    // Slower if the answer is made once for both: 2 instructions more, 7 for a code that has failed.
    if last < 16 {
        match route_choice::choose(codes, Some(last as u8), failed) {
            Ok(code) => 256 * (code as u32),
            Err(why) => why.number() as u32,
        }
    } else if last == 65535 {
        match route_choice::choose(codes, None, failed) {
            Ok(code) => 256 * (code as u32),
            Err(why) => why.number() as u32,
        }
    } else {
        1
    }
}

// ---- the update

// Changes the table by a route list, and writes the report to the front of `lost`, which has room
// for it. Refuses with 6 if `list` has more than 255 bytes or its last entry is cut, and leaves both
// as they were then.
#[tactic(auto, unfolding(crate::specs::Stored::update_in, crate::specs::Stored::update_checks, crate::specs::Stored::update_answer, crate::specs::Stored::update_bytes, crate::specs::Stored::update_lost))]
fn update_array(table: &mut [u8; 512], list: &[u8], lost: &mut [u8]) -> u32
    requires { 256 ≤ length lost.old }
    ensures value { result ≡ update_answer table.old list.now (length lost.old) }
    ensures table_after { table.new ≡ update_bytes table.old list.now (length lost.old) }
    ensures lost_after { lost.new ≡ update_lost table.old list.now lost.old }
{
    let before = Table {
        codes: read_table(table),
    };
    let updated = before.update(list);
    if let Err(why) = updated.verdict {
        return why.number() as u32;
    }
    write_table(table, &updated.next.codes);
    write_lost(lost, &updated.lost);
    256 * (updated.count as u32)
}

// Changes the table by a route list, and reports the addresses that lost their last code: the value
// is their count, and the first 256 places of `lost` get these addresses, rising, and then 0;
// places past them keep what they held. Refuses with 14 if `table` does not have 512 bytes, then
// with 5 if `lost` has fewer than 256 places, then with 6 if `list` has more than 255 bytes or its
// last entry is cut; a refusal leaves both as they were.
#[tactic(auto, unfolding(crate::specs::Stored::update_in, crate::specs::Stored::update_checks, crate::specs::Stored::update_answer, crate::specs::Stored::update_bytes, crate::specs::Stored::update_lost))]
pub fn update(table: &mut [u8], list: &[u8], lost: &mut [u8]) -> u32
    ensures value { result ≡ update_answer table.old list.now (length lost.old) }
    ensures table_after { table.new ≡ update_bytes table.old list.now (length lost.old) }
    ensures lost_after { lost.new ≡ update_lost table.old list.now lost.old }
{
    let Some(table) = table.as_mut_array::<512>() else {
        return 14;
    };
    if lost.len() < 256 {
        return 5;
    }
    update_array(table, list, lost)
}

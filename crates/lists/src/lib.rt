// Lists of numbers. specs/ has the definitions that several crates share, proofs/ the laws proved
// of them. The only code is `copy_in`, which copies bytes into lent memory, and `sums_to`, which
// checks the sum of a list of lengths.
#![tactic(auto)]

ghost use Rattle.std.specs.Prelude.{◌≡◌, ◌+◌, ◌≤◌, eqb, length, take, drop};
ghost use Rattle.std.proofs.Math.Seq.{paste};
ghost use Rattle.lists.specs.Lists.{over};
ghost use Rattle.lists.specs.Frames.{sum};

// The sixteen bytes of `bytes` that start at index `at`.
fn block_at(bytes: &[u8], at: usize) -> [u8; 16]
    requires { at + 16 ≤ length bytes.now }
    ensures { result ≡ take 16 (drop at bytes.now) }
{
    let mut block = [0u8; 16];
    for i in 0..16 {
        block[i] = bytes[at + i];
    }
    block
}

// Writes `block` into `out`, starting at index `at`.
fn put_block(out: &mut [u8], at: usize, block: [u8; 16])
    requires { (at + 16 ≤ length out.old) × (length block ≡ 16) }
    ensures { out.new ≡ paste out.old at block 16 }
{
    for i in 0..16 {
        out[at + i] = block[i];
    }
}

// Copies `bytes` into `out`, starting at index `at`, one byte at a time.
fn copy_few(out: &mut [u8], at: usize, bytes: &[u8])
    requires { at + length bytes.now ≤ length out.old }
    ensures { out.new ≡ paste out.old at bytes.now (length bytes.now) }
{
    for i in 0..bytes.len() {
        out[at + i] = bytes[i];
    }
}

// Copies `bytes` into `out`, starting at index `at`, sixteen bytes at a time. A block is read whole
// before it is written, so that the compiler can use wide loads and stores without knowing that the
// two lists do not overlap. The last block ends where `bytes` ends, so it may write bytes of the
// block before it a second time, with the same values. The library's `copy_from_slice` is no
// choice: it calls memmove, and the archive for C asks for no more from outside than memcpy and
// memset.
fn copy_blocks(out: &mut [u8], at: usize, bytes: &[u8])
    requires { at + length bytes.now ≤ length out.old }
    ensures { out.new ≡ paste out.old at bytes.now (length bytes.now) }
{
    if bytes.len() < 16 {
        copy_few(out, at, bytes);
        return;
    }
    let last = bytes.len() - 16;
    let mut i = 0;
    // no `for`: a turn goes on by a block
    while i < last {
        put_block(out, at + i, block_at(bytes, i));
        i = i + 16;
    }
    put_block(out, at + last, block_at(bytes, last));
}

// Copies `bytes` to the front of `out`, as many of them as there is room for; the rest of `out`
// keeps what it held. For the crates of this repository that write bytes into lent memory.
pub fn copy_in(out: &mut [u8], bytes: &[u8])
    ensures { out.new ≡ over (take (length out.old) bytes.now) out.old }
{
    let n = bytes.len().min(out.len());
    copy_blocks(out, 0, &bytes[..n]);
}

// Whether the lengths sum to `n`. Each length is subtracted from `n` in turn, so that no sum can
// overflow. For the crates of this repository that are lent frames and the list of their lengths.
pub fn sums_to(lengths: &[usize], n: usize) -> bool
    ensures { result ≡ eqb (sum lengths.now) n }
{
    let mut rest = n;
    for l in lengths {
        if rest < *l {
            return false;
        }
        rest -= *l;
    }
    rest == 0
}

// Text written into lent bytes: a byte, a word, a number in decimal. Each public function writes
// its text to `out` starting at index `from`, and returns the index after the text, where the next
// text starts. If there are fewer bytes from `from` on than its text may have, it writes nothing
// and returns `from`. It tests the room once; the private functions that write have no test.
#![tactic(auto)]

ghost use Rattle.std.specs.Prelude.{◌≡◌, true, false, [], ◌∷◌, ◌+◌, ◌≤◌, ◌<◌, length};
ghost use Rattle.text.specs.Decimal.{digit_at, decimal, spaced};
ghost use Rattle.text.specs.Writing.{Wrote, Puts};

// Writes one byte.
pub fn put_byte(out: &mut [u8], from: usize, byte: u8) -> usize
    ensures { Puts out.old out.new from result 1 (byte ∷ []) }
{
    if has_room(out.len(), from, 1) {
        return write_byte(out, from, byte);
    }
    from
}

// Writes `text`.
pub fn put_word(out: &mut [u8], from: usize, text: &[u8]) -> usize
    ensures { Puts out.old out.new from result (length text.now) text.now }
{
    if has_room(out.len(), from, text.len()) {
        return write_word(out, from, text);
    }
    from
}

// Writes `n`, which is to be below 100,000, in decimal with no zeros in front: at most five digits.
// Of a larger number the last five digits are written.
pub fn put_number(out: &mut [u8], from: usize, n: u32) -> usize
    ensures { Puts out.old out.new from result 5 (decimal n) }
{
    if has_room(out.len(), from, 5) {
        return write_number(out, from, n);
    }
    from
}

// Writes a blank, and `n` as `put_number` does: at most six bytes.
pub fn put_spaced(out: &mut [u8], from: usize, n: u32) -> usize
    ensures { Puts out.old out.new from result 6 (spaced n) }
{
    if has_room(out.len(), from, 6) {
        let end = write_byte(out, from, b' ');
        return write_number(out, end, n);
    }
    from
}

// Whether there are `most` bytes from index `from` on, where there are `size` in all. The sum of
// `from` and `most` may overflow, so `from` is compared with the last index that leaves room, which
// stays the same from one call to the next.
fn has_room(size: usize, from: usize, most: usize) -> bool
    ensures { (result ≡ true → from + most ≤ size) × (result ≡ false → size < from + most) }
{
    most <= size && from <= size - most
}

// ---- writing where there is room

// Writes `text`.
fn write_word(out: &mut [u8], from: usize, text: &[u8]) -> usize
    requires { from + length text.now ≤ length out.old }
    ensures { Wrote out.old out.new from result (length text.now) text.now }
{
    let end = from + text.len();
    lists::copy_in(&mut out[from..end], text);
    end
}

// Writes `n` in decimal, from its digit at 10,000 on.
fn write_number(out: &mut [u8], from: usize, n: u32) -> usize
    requires { from + 5 ≤ length out.old }
    ensures { Wrote out.old out.new from result 5 (decimal n) }
{
    let a = write_digit(out, from, 10000, n);
    let b = write_digit(out, a, 1000, n);
    let c = write_digit(out, b, 100, n);
    let d = write_digit(out, c, 10, n);
    write_byte(out, d, b'0' + (n % 10) as u8)
}

// Writes the digit of `n` at `power`, a power of ten, if `n` is at least `power`; so no zeros come
// in front.
fn write_digit(out: &mut [u8], from: usize, power: u32, n: u32) -> usize
    requires { (from < length out.old) × (0 < power) }
    ensures { Wrote out.old out.new from result 1 (digit_at power n) }
{
    if power <= n {
        return write_byte(out, from, b'0' + (n / power % 10) as u8);
    }
    from
}

// Writes one byte.
fn write_byte(out: &mut [u8], from: usize, byte: u8) -> usize
    requires { from < length out.old }
    ensures { Wrote out.old out.new from result 1 (byte ∷ []) }
{
    out[from] = byte;
    from + 1
}

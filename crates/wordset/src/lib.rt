// Sets of small numbers in one machine word, with one bit for each number: bit n, counted from the
// lowest, is 1 exactly if n is in the set. A u16 holds a set of the codes II, the numbers 0 to 15;
// a u64 one of link sequence numbers, 0 to 63. Every call accepts any word and any number; a number
// that the word has no bit for is in no set. The definitions (specs/Sets.antt) take the width of
// the word as a parameter, and each call takes any word, so that it is proved once. They serve the
// crates of the resequencer and of routes.
#![tactic(auto)]

ghost use Rattle.std.specs.Prelude.{◌≡◌, ℕ, ◌%◌, ◌^◌, ◌<◌, ◌≤◌, count_ones};
ghost use Rattle.std.specs.Int.Count.{count_trailing_zeros};
ghost use Rattle.std.proofs.Common.{lit<};
ghost use Rattle.wordset.specs.Sets.{member, with, union, difference, count, lowest, without_lowest, rotate, run, stretch, first_from};

// A word of `WIDTH` bits, at most 64. Its ones and the zeros at its low end are counted in the word
// itself. All else is made of the word as a u64, which is the same number, and cut to the width.
pub trait Word: Copy {
    ghost WIDTH: { ℕ };

    // The number that the word is.
    ghost value: { Self → ℕ };

    const WIDTH: u8;

    // The word as a u64.
    fn wide(self) -> u64
        ensures same { result ≡ value self }
        ensures fits { result < 2 ^ WIDTH };

    // The lowest `WIDTH` bits of a u64.
    fn cut(bits: u64) -> Self
        ensures { value result ≡ bits % 2 ^ WIDTH };

    // The number of ones.
    fn ones(self) -> u8
        ensures same { result ≡ count_ones (value self) }
        ensures fits { value self < 2 ^ WIDTH };

    // The number of zeros at the low end: the width if the word is 0.
    fn zeros(self) -> u8
        ensures { result ≡ count_trailing_zeros WIDTH (value self) };

    ghost some: { 0 < WIDTH };

    ghost most: { WIDTH ≤ 64 };
}

impl Word for u16 {
    ghost WIDTH = { 16 };

    ghost value = { λ w. w };

    const WIDTH: u8 = 16;

    fn wide(self) -> u64 {
        self as u64
    }

    fn cut(bits: u64) -> u16 {
        (bits % 65536) as u16
    }

    fn ones(self) -> u8 {
        u16::count_ones(self) as u8
    }

    fn zeros(self) -> u8 {
        u16::trailing_zeros(self) as u8
    }

    ghost some = { lit< tt };

    ghost most = { lit< tt };
}

impl Word for u64 {
    ghost WIDTH = { 64 };

    ghost value = { λ w. w };

    const WIDTH: u8 = 64;

    fn wide(self) -> u64 {
        self
    }

    fn cut(bits: u64) -> u64 {
        bits
    }

    fn ones(self) -> u8 {
        u64::count_ones(self) as u8
    }

    fn zeros(self) -> u8 {
        u64::trailing_zeros(self) as u8
    }

    ghost some = { lit< tt };

    ghost most = { lit< tt };
}

// Whether `number` is in the set; a number that the word has no bit for never is. The cut takes no
// bit away: by it LLVM sees that a u16 is shifted, and tests the bit in one instruction.
pub fn member<W: Word>(set: W, number: u8) -> bool
    ensures { result ≡ member (W.value set) number }
{
    let word = set.wide();
    if number < W::WIDTH {
        W::cut(word >> number).wide() & 1 == 1
    } else {
        false
    }
}

// The set with `number` added; a number that the word has no bit for changes nothing.
pub fn with<W: Word>(set: W, number: u8) -> W
    ensures { W.value result ≡ with W.WIDTH (W.value set) number }
{
    let word = set.wide();
    if number < W::WIDTH {
        W::cut(word | (1 << number))
    } else {
        set
    }
}

// The numbers that are in `a` or in `b`.
pub fn union<W: Word>(a: W, b: W) -> W
    ensures { W.value result ≡ union W.WIDTH (W.value a) (W.value b) }
{
    W::cut(a.wide() | b.wide())
}

// The numbers that are in `a` and not in `b`.
pub fn difference<W: Word>(a: W, b: W) -> W
    ensures { W.value result ≡ difference W.WIDTH (W.value a) (W.value b) }
{
    W::cut(a.wide() & !b.wide())
}

// How many numbers are in the set.
pub fn count<W: Word>(set: W) -> u8
    ensures { result ≡ count W.WIDTH (W.value set) }
{
    set.ones()
}

// The lowest number in the set; the width of the word if it is empty.
pub fn lowest<W: Word>(set: W) -> u8
    ensures { result ≡ lowest W.WIDTH (W.value set) }
{
    set.zeros()
}

// The set without its lowest number; an empty set stays empty.
pub fn without_lowest<W: Word>(set: W) -> W
    ensures { W.value result ≡ without_lowest W.WIDTH (W.value set) }
{
    let word = set.wide();
    W::cut(word & word.wrapping_sub(1))
}

// The set rotated down by `start`: j is in the result exactly if `start` + j modulo the width is in
// the set.
pub fn rotate<W: Word>(set: W, start: u8) -> W
    ensures { W.value result ≡ rotate W.WIDTH (W.value set) start }
{
    let word = set.wide();
    let width = W::WIDTH as u64;
    let n = start as u64 % width;
    W::cut((word >> n) | (word << ((width - n) % width)))
}

// The first number in the set going up from `start`, the width - 1 being followed by 0; the width
// of the word if the set is empty.
pub fn first_from<W: Word>(set: W, start: u8) -> u8
    ensures { result ≡ first_from W.WIDTH (W.value set) start }
{
    let word = set.wide();
    let width = W::WIDTH;
    if word == 0 {
        width
    } else {
        (start % width + rotate(set, start).zeros()) % width
    }
}

// How many numbers starting at `start` are in the set without a gap, the width - 1 being followed
// by 0; the width of the word if all are.
pub fn run<W: Word>(set: W, start: u8) -> u8
    ensures { result ≡ run W.WIDTH (W.value set) start }
{
    (!rotate(set, start).wide()).trailing_zeros() as u8
}

// The members among the `size` numbers starting at `start`, the width - 1 being followed by 0, each
// as its distance from `start`. Nothing is rotated for a size of 0, which an arrival in order asks
// for.
pub fn stretch<W: Word>(set: W, start: u8, size: u8) -> W
    ensures { W.value result ≡ stretch W.WIDTH (W.value set) start size }
{
    if size == 0 {
        W::cut(0)
    } else if size < W::WIDTH {
        W::cut(rotate(set, start).wide() & ((1 << size) - 1))
    } else {
        rotate(set, start)
    }
}

// A list of a line, in fixed memory.
ghost use Rattle.std.specs.Prelude.{◌<◌, ◌≤◌, length};

use crate::faults::BadArgument;
use crate::table::Element;
use crate::text;

// The elements are kept as their bytes, the highest first. Tickets and lengths take at most half of
// the memory.
#[derive(Drop)]
pub struct List {
    memory: [u8; 8192],
    len: usize,
    ghost in_memory: { len ≤ 8192 },
}

impl List {
    pub fn new() -> List {
        List {
            memory: [0; 8192],
            len: 0,
        }
    }

    pub fn bytes(&self) -> &[u8]
        ensures { length result.now ≤ 8192 }
    {
        &self.memory[..self.len]
    }

    pub fn bytes_mut(&mut self) -> &mut [u8] {
        let len = self.len;
        front(&mut self.memory, len)
    }

    // Reads parts, joined by commas. Each of them is looked at, also where the list is too long
    // before: one that is no part decides.
    pub fn read(&mut self, word: &[u8], element: Element) -> Result<(), BadArgument> {
        if word == b"-".as_slice() {
            return Ok(());
        }
        let mut fits = Ok(());
        for text in word.split(|b| *b == b',') {
            let part = Part::read(text, element)?;
            if fits.is_ok() {
                fits = self.add(&part, element.most_bytes());
            }
        }
        fits
    }

    // Adds a part as often as it is repeated, but stops where the list has more than `most` bytes.
    fn add(&mut self, part: &Part, most: usize) -> Result<(), BadArgument>
        requires { most ≤ 8192 }
    {
        for _ in 0..part.times {
            self.add_once(part.digits, most)?;
        }
        Ok(())
    }

    // Adds a byte for each two digits.
    fn add_once(&mut self, digits: &[u8], most: usize) -> Result<(), BadArgument>
        requires { most ≤ 8192 }
    {
        let (pairs, _) = digits.as_chunks::<2>();
        for pair in pairs {
            if most <= self.len {
                return Err(BadArgument::ListTooLong);
            }
            self.memory[self.len] = 16 * digit_value(pair[0]) + digit_value(pair[1]);
            self.len += 1;
        }
        Ok(())
    }
}

// Elements in hex digits, and how often they are repeated.
#[derive(Clone, Copy, Debug)]
struct Part<'a> {
    digits: &'a [u8],
    times: u32,
}

impl<'a> Part<'a> {
    // Whole elements, at least one, and after a star how often, or once where there is none.
    fn read(text: &'a [u8], element: Element) -> Result<Part<'a>, BadArgument> {
        let (digits, times) = match text::split_once(text, b'*') {
            Some((digits, times)) => (digits, text::decimal(times)),
            None => (text, Some(1)),
        };
        let times = times.ok_or(BadArgument::NotAList)?;
        let is_whole = !digits.is_empty() && digits.len() % element.digits() == 0;
        if is_whole && digits.iter().all(|b| b.is_ascii_hexdigit()) {
            Ok(Part { digits, times })
        } else {
            Err(BadArgument::NotAList)
        }
    }
}

// The value of a hex digit of either case; another byte has none, and gives 0.
fn digit_value(digit: u8) -> u8
    ensures { result < 16 }
{
    char::from(digit)
        .to_digit(16)
        .map_or(0, |value| value as u8)
}

// The first bytes of a list's memory. A function of its own, since the check has no rule yet for a
// struct with a ghost field that lends out a slice of a field.
fn front(memory: &mut [u8; 8192], count: usize) -> &mut [u8]
    requires { count ≤ 8192 }
{
    &mut memory[..count]
}

// Cutting bytes, and decimal numbers.
ghost use Rattle.std.specs.Prelude.{◌+◌, ◌≡◌, length, IfSome};

// What is before the first of a byte and what is after it, as `str::split_once`.
pub fn split_once(text: &[u8], byte: u8) -> Option<(&[u8], &[u8])>
    ensures { IfSome result (λ parts. length parts.0.now + 1 + length parts.1.now ≡ length text.now) }
{
    let at = text.iter().position(|b| *b == byte)?;
    Some((&text[..at], &text[at + 1..]))
}

// The number that one to five decimal digits are. Nothing else is one: `parse` would take a sign
// and more digits. The sums and products of five digits all fit.
pub fn decimal(word: &[u8]) -> Option<u32> {
    if word.is_empty() || 5 < word.len() {
        return None;
    }
    let mut value = 0u32;
    for b in word {
        let digit = char::from(*b).to_digit(10)?;
        value = value.checked_mul(10)?.checked_add(digit)?;
    }
    Some(value)
}

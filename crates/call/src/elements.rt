// Tickets and lengths, and the bytes of a list's memory as which they are read and printed: two and
// four of them, the highest first.
ghost use Rattle.std.specs.Prelude.{◌≤◌, length};

// The tickets of a list, and how many they are.
pub fn read_tickets(list: &[u8], tickets: &mut [u16]) -> usize
    ensures { result ≤ length tickets.old }
{
    let (pairs, _) = list.as_chunks::<2>();
    for (ticket, pair) in tickets.iter_mut().zip(pairs) {
        *ticket = u16::from_be_bytes(*pair);
    }
    pairs.len().min(tickets.len())
}

// The lengths of a list, and how many they are.
pub fn read_lengths(list: &[u8], lengths: &mut [usize]) -> usize
    ensures { result ≤ length lengths.old }
{
    let (fours, _) = list.as_chunks::<4>();
    for (length, four) in lengths.iter_mut().zip(fours) {
        *length = u32::from_be_bytes(*four) as usize;
    }
    fours.len().min(lengths.len())
}

// Writes as many tickets as the list has.
pub fn write_tickets(tickets: &[u16], list: &mut [u8]) {
    let (pairs, _) = list.as_chunks_mut::<2>();
    for (pair, ticket) in pairs.iter_mut().zip(tickets) {
        *pair = ticket.to_be_bytes();
    }
}

// The same of lengths.
pub fn write_lengths(lengths: &[usize], list: &mut [u8]) {
    let (fours, _) = list.as_chunks_mut::<4>();
    for (four, length) in fours.iter_mut().zip(lengths) {
        *four = ((*length & 0xffff_ffff) as u32).to_be_bytes();
    }
}

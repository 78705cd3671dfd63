// Refusals. A call that can refuse answers a `Result` whose error is a `Refusal`, or a `Fault` where
// it says besides where the fault is. The numbers are those of document 01's table "Refusal numbers"
// and of document 02's requests; specs/Numbers.antt defines them.
#![tactic(auto)]

ghost use Rattle.std.specs.Prelude.{◌≡◌};
ghost use Rattle.refusal.specs.Numbers.{number_of, refusal_at, refusal_number, Numbered};
ghost use Rattle.refusal.specs.Positions.{fault_number, fault_position};

// Why a call is refused. The comment of each case is its row in document 01's table; past 17, what
// the request of document 02 says.
#[derive(Clone, Copy, Debug, PartialEq, Eq)]
pub enum Refusal {
    // 1: an argument exceeds its field (SN over 63, PS or PR over 15, CH, AM or II over 15, TC over
    // 3, downlink segments not 1 to 16)
    OutOfRange = 1,
    // 2: a frame is empty or no whole number of segments; lengths don't sum to the data; no frames;
    // the last frame has M = 1; a script line is malformed
    Malformed = 2,
    // 3: a fixed field, fill, LV or padding byte is wrong; M = 0 before the last frame
    FormatError = 3,
    // 4: message over 4,096 bytes
    MessageTooLong = 4,
    // 5: lent output shorter than needed
    OutputTooShort = 5,
    // 6: route list over 255 bytes, or its last entry is cut
    RouteListMalformed = 6,
    // 7: no clock runs for that number
    NoClock = 7,
    // 8: ground address has no interrogator
    NoInterrogator = 8,
    // 9: send window closed
    WindowClosed = 9,
    // 10: received PS outside the window
    OutsideWindow = 10,
    // 11: received PS out of sequence
    OutOfSequence = 11,
    // 12: first received PS not 0: no PS has been accepted yet, and this one is not 0
    FirstNotZero = 12,
    // 13: packet over the form's largest size
    PacketTooLong = 13,
    // 14: the state is not in good order
    NotInOrder = 14,
    // 15: every interrogator of that address has failed
    AllFailed = 15,
    // 16: PR acknowledges what was never sent
    NeverSent = 16,
    // 17: SN, PS or CH breaks the run while joining
    RunBroken = 17,
    // 23: writing or cutting in the short form, short uplink (Q-14)
    ShortForm = 23,
}

// A refusal, and the position of the fault.
#[derive(Clone, Copy, Debug, PartialEq, Eq)]
pub struct Fault {
    pub why: Refusal,
    pub at: usize,
}

// A number that is none of the table's.
#[derive(Clone, Copy, Debug, PartialEq, Eq)]
pub struct UnknownNumber(pub u8);

impl Refusal {
    // The refusal's number in the table, 1 to 17 or 23.
    pub fn number(self) -> u8
        ensures { result ≡ number_of self }
    {
        self as u8
    }

    // The refusal with the number `n` in the table; `OutOfRange` if there is none.
    pub fn at(n: u8) -> Refusal
        ensures { result ≡ refusal_at n }
    {
        match Refusal::try_from(n) {
            Ok(why) => why,
            Err(UnknownNumber(_n)) => Refusal::OutOfRange,
        }
    }
}

impl From<Refusal> for u8 {
    ghost from_gives = { λ why n. n ≡ number_of why };

    fn from(why: Refusal) -> u8 {
        why as u8
    }
}

impl TryFrom<u8> for Refusal {
    type Error = UnknownNumber;

    ghost try_from_gives = { Numbered };

    fn try_from(n: u8) -> Result<Refusal, UnknownNumber> {
        match n {
            1 => Ok(Refusal::OutOfRange),
            2 => Ok(Refusal::Malformed),
            3 => Ok(Refusal::FormatError),
            4 => Ok(Refusal::MessageTooLong),
            5 => Ok(Refusal::OutputTooShort),
            6 => Ok(Refusal::RouteListMalformed),
            7 => Ok(Refusal::NoClock),
            8 => Ok(Refusal::NoInterrogator),
            9 => Ok(Refusal::WindowClosed),
            10 => Ok(Refusal::OutsideWindow),
            11 => Ok(Refusal::OutOfSequence),
            12 => Ok(Refusal::FirstNotZero),
            13 => Ok(Refusal::PacketTooLong),
            14 => Ok(Refusal::NotInOrder),
            15 => Ok(Refusal::AllFailed),
            16 => Ok(Refusal::NeverSent),
            17 => Ok(Refusal::RunBroken),
            23 => Ok(Refusal::ShortForm),
            _ => Err(UnknownNumber(n)),
        }
    }
}

// A refusal by a check that has no position of its own is at the first byte.
impl From<Refusal> for Fault {
    ghost from_gives = { λ why fault. fault ≡ record { why = why; at = 0 } };

    fn from(why: Refusal) -> Fault {
        Fault { why, at: 0 }
    }
}

// The number of an answer in the table: 0 for done, else the refusal's number.
pub fn number_in<T>(answer: &Result<T, Refusal>) -> u8
    ensures { result ≡ refusal_number answer.now }
{
    match answer {
        Ok(_done) => 0,
        Err(why) => why.number(),
    }
}

// The same of an answer that also says where the fault is.
pub fn fault_number_in<T>(answer: &Result<T, Fault>) -> u8
    ensures { result ≡ fault_number answer.now }
{
    match answer {
        Ok(_value) => 0,
        Err(fault) => fault.why.number(),
    }
}

// The position of the fault; 0 if there is none.
pub fn fault_position_in<T>(answer: &Result<T, Fault>) -> usize
    ensures { result ≡ fault_position answer.now }
{
    match answer {
        Ok(_whole) => 0,
        Err(fault) => fault.at,
    }
}

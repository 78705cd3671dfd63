// The kinds of packets: their layouts, the number of each, and what names them in a frame (document
// 01, "Forms and frames", and document 02, Q-4). specs/Kinds.antt has the layouts.
#![tactic(auto)]

ghost use Rattle.std.specs.Prelude.{◌≡◌, ◌<◌};
ghost use Rattle.frame_kinds.specs.Kinds.{kinds, kind_number, kind_at, first_named};

// The kinds of packets but for ROUTE, which has strings in the place of user data.
// The discriminant of each is its number.
#[derive(Clone, Copy, Debug, PartialEq, Eq)]
pub enum Kind {
    Data = 0,
    ClearRequest = 1,
    ClearConfirmation = 2,
    CallRequest = 3,
    CallAccept = 4,
    // RR
    ReceiveReady = 5,
    // RNR
    ReceiveNotReady = 6,
    Reject = 7,
    Interrupt = 8,
    InterruptConfirmation = 9,
    Reset = 10,
    ResetConfirmation = 11,
}

// The kind that a number or a frame's first byte names, if it names one. It is no `Option`: the
// definitions and claims speak of the three cases, `Unknown` among them.
#[derive(Clone, Copy, Debug, PartialEq, Eq)]
pub enum Found {
    Known(Kind),
    Route,
    Unknown,
}

impl Kind {
    // The number of a kind, the first of a packet's ten bytes.
    pub fn number(self) -> u8
        ensures { result ≡ kind_number self }
    {
        self as u8
    }
}

// The kind with the number `n`.
#[tactic(auto, unfolding(crate::specs::Kinds::kind_at))]
pub fn kind_at(n: u8) -> Found
    ensures { result ≡ kind_at n }
{
    match n {
        0 => Found::Known(Kind::Data),
        1 => Found::Known(Kind::ClearRequest),
        2 => Found::Known(Kind::ClearConfirmation),
        3 => Found::Known(Kind::CallRequest),
        4 => Found::Known(Kind::CallAccept),
        5 => Found::Known(Kind::ReceiveReady),
        6 => Found::Known(Kind::ReceiveNotReady),
        7 => Found::Known(Kind::Reject),
        8 => Found::Known(Kind::Interrupt),
        9 => Found::Known(Kind::InterruptConfirmation),
        10 => Found::Known(Kind::Reset),
        11 => Found::Known(Kind::ResetConfirmation),
        12 => Found::Route,
        _ => Found::Unknown,
    }
}

// The kind of a packet that is not DATA: DP, MP, SP and ST, the first six bits of the frame's first
// byte, decide; if SP and ST are 3, so do the last two, SS. As a `match`, reading a DATA frame takes
// an eighth longer (measured: 16.6 ns, not 14.8).
fn supervisory(first: u8) -> Found
    requires { first < 128 }
    ensures { result ≡ first_named kinds first }
{
    let bits = first / 4;
    if bits == 20 {
        Found::Known(Kind::CallRequest)
    } else if bits == 21 {
        Found::Known(Kind::CallAccept)
    } else if bits == 22 {
        Found::Known(Kind::ClearRequest)
    } else if bits == 23 {
        Found::Known(Kind::ClearConfirmation)
    } else if bits == 24 {
        Found::Known(Kind::ReceiveReady)
    } else if bits == 25 {
        Found::Known(Kind::ReceiveNotReady)
    } else if bits == 26 {
        Found::Known(Kind::Reset)
    } else if bits == 27 {
        Found::Known(Kind::ResetConfirmation)
    } else if bits == 29 {
        Found::Known(Kind::Interrupt)
    } else if first == 124 {
        Found::Known(Kind::InterruptConfirmation)
    } else if first == 125 {
        Found::Known(Kind::Reject)
    } else if bits == 28 {
        Found::Route
    } else {
        Found::Unknown
    }
}

// The kind that a frame's first byte names: DP = 1 is DATA.
pub fn named(first: u8) -> Found
    ensures { result ≡ first_named kinds first }
{
    if first < 128 {
        supervisory(first)
    } else {
        Found::Known(Kind::Data)
    }
}

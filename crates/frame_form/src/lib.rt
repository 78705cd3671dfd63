// The forms of a frame, and how a packet's bytes fill their segments (document 01, "Forms and
// frames").
#![tactic(auto)]

ghost use Rattle.std.specs.Prelude.{◌≡◌, ◌≤◌};
ghost use Rattle.frame_form.specs.Forms.{seg_of, most_of, form_valid, is_long, form_at, is_uplink, form_code};
ghost use Rattle.frame_form.specs.Segments.{whole_segments};

// The form of a frame: it gives the size of a segment and the size of the largest packet.
#[derive(Clone, Copy, Debug, PartialEq, Eq)]
pub enum Form {
    ShortUplink,
    LongUplink,
    // With the most segments that a frame may have: 1 to 16 in a valid form.
    LongDownlink(u8),
}

impl Form {
    // The number of a valid form; 255, which is no form's, for another.
    #[tactic(auto, unfolding(crate::specs::Forms::form_code))]
    pub fn number(self) -> u8
        ensures { result ≡ form_code self }
    {
        match self {
            Form::ShortUplink => 0,
            Form::LongUplink => 17,
            Form::LongDownlink(n) if self.is_valid() => n,
            Form::LongDownlink(_n) => 255,
        }
    }

    // Whether the form is valid: a long downlink has 1 to 16 segments. Writing, reading, cutting
    // and joining refuse an invalid form with 1.
    pub fn is_valid(self) -> bool
        ensures { result ≡ form_valid self }
    {
        match self {
            Form::ShortUplink => true,
            Form::LongUplink => true,
            Form::LongDownlink(n) => 1 <= n && n <= 16,
        }
    }

    // Whether the form is a long one. Writing and cutting refuse the short one with 23.
    pub fn is_long(self) -> bool
        ensures { result ≡ is_long self }
    {
        match self {
            Form::ShortUplink => false,
            Form::LongUplink => true,
            Form::LongDownlink(_n) => true,
        }
    }

    // The size of a segment in bytes.
    pub fn segment(self) -> usize
        ensures value { result ≡ seg_of self }
        ensures some { (7 ≤ result) × (result ≤ 10) }
    {
        match self {
            Form::ShortUplink => 7,
            Form::LongUplink => 10,
            Form::LongDownlink(_n) => 10,
        }
    }

    // The size of the largest packet in bytes.
    pub fn most(self) -> usize
        ensures { result ≡ most_of self }
    {
        match self {
            Form::ShortUplink => 28,
            Form::LongUplink => 152,
            Form::LongDownlink(n) => 10 * n as usize,
        }
    }
}

// The form with the number `n`, for `message_bytes`: 0 is the short uplink, 1 to 16 the long downlink
// with that many segments, 17 the long uplink. The form is not valid if `n` is over 17.
impl From<u8> for Form {
    ghost from_gives = { λ n form. form ≡ form_at n };

    #[tactic(auto, unfolding(crate::specs::Forms::form_at))]
    fn from(n: u8) -> Form {
        match n {
            0 => Form::ShortUplink,
            17 => Form::LongUplink,
            _ => Form::LongDownlink(n),
        }
    }
}

// ---- forms by their numbers, for `frame_reader` and `frame_writer`. Nothing is made of a number
// that has to be taken apart again

// Whether `n` is the number of a form.
#[tactic(auto, unfolding(crate::specs::Forms::form_at))]
pub fn is_form(n: u8) -> bool
    ensures { result ≡ form_valid (form_at n) }
{
    n <= 17
}

// The size of a segment of the form with the number `n`, in bytes.
#[tactic(auto, unfolding(crate::specs::Forms::form_at))]
pub fn segment_at(n: u8) -> usize
    ensures { result ≡ seg_of (form_at n) }
{
    if n == 0 { 7 } else { 10 }
}

// The size of the largest packet of the form with the number `n`, in bytes.
#[tactic(auto, unfolding(crate::specs::Forms::form_at))]
pub fn most_at(n: u8) -> usize
    ensures { result ≡ most_of (form_at n) }
{
    match n {
        0 => 28,
        17 => 152,
        _ => 10 * n as usize,
    }
}

// Whether `len` bytes are a whole number of segments, at least one, of the form with the number
// `n`.
#[tactic(auto, unfolding(crate::specs::Forms::form_at, crate::specs::Segments::whole_segments))]
pub fn is_whole_at(n: u8, len: usize) -> bool
    ensures { result ≡ whole_segments (seg_of (form_at n)) len }
{
    if len == 0 {
        return false;
    }
    if n == 0 {
        return len % 7 == 0;
    }
    len % 10 == 0
}

// Whether frames of the form with the number `n` go up to the aircraft.
#[tactic(auto, unfolding(crate::specs::Forms::form_at))]
pub fn is_uplink_at(n: u8) -> bool
    ensures { result ≡ is_uplink (form_at n) }
{
    (n == 0) | (n == 17)
}

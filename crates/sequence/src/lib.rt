// The two counters of the link (document 01, "The two counters"): the link sequence number SN,
// which wraps at 64 and gives order on the link, and the packet sequence numbers PS and PR, which
// wrap at 16 and give permission to send. They are two types, so that one is never compared with
// the other, and one trait: each counts modulo a number that divides 256, and that is all that the
// calls rest on. Every call accepts any u8; `distance_to` and `next` take a number that is too
// large for its field as its remainder modulo 64 or 16.
#![tactic(auto)]

ghost use Rattle.std.specs.Prelude.{◌≡◌, ℕ, ◌%◌, ◌<◌, refl};
ghost use Rattle.std.proofs.Common.{lit<};
ghost use Rattle.sequence.specs.Modular.{distance, next};
ghost use Rattle.sequence.specs.Numbers.{link, packet, in_field};

// A number of one byte that counts modulo `MODULUS`.
pub trait Counter: Copy {
    ghost MODULUS: { ℕ };

    // The number as a counter, and a counter's number.
    ghost counter: { ℕ → Self };

    ghost value: { Self → ℕ };

    const MODULUS: u8;

    // The counter with this number, which need not fit its field.
    fn of(number: u8) -> Self
        ensures { result ≡ counter number };

    // The number of this counter.
    fn get(self) -> u8
        ensures { result ≡ value self };

    // A counter has the number that it was made of. And the modulus divides 256, so that
    // subtraction that wraps at 256 gives the distance.
    ghost kept: { (n : ℕ) → value (counter n) ≡ n };

    ghost counts: { 0 < MODULUS };

    ghost divides: { 256 % MODULUS ≡ 0 };

    // Whether the number fits its field: it is below the modulus.
    final fn in_field(self) -> bool
        ensures { result ≡ in_field MODULUS (value self) }
    {
        self.get() < Self::MODULUS
    }

    // The distance from this number to `to`: `to` minus this number, modulo the modulus.
    final fn distance_to(self, to: Self) -> u8
        ensures { result ≡ distance MODULUS (value self) (value to) }
    {
        to.get().wrapping_sub(self.get()) % Self::MODULUS
    }

    // The number after this one, modulo the modulus.
    final fn next(self) -> Self
        ensures { result ≡ counter (next MODULUS (value self)) }
    {
        Self::of((self.get() % Self::MODULUS + 1) % Self::MODULUS)
    }
}

// A link sequence number: SN, 0 to 63 in its field of 6 bits.
#[derive(Clone, Copy, Debug, PartialEq, Eq)]
pub struct LinkNumber(pub u8);

// A packet sequence number: PS or PR, 0 to 15 in its field of 4 bits.
#[derive(Clone, Copy, Debug, PartialEq, Eq)]
pub struct PacketNumber(pub u8);

impl Counter for LinkNumber {
    ghost MODULUS = { 64 };

    ghost counter = { link };

    ghost value = { λ n. n.0 };

    const MODULUS: u8 = 64;

    fn of(number: u8) -> LinkNumber {
        LinkNumber(number)
    }

    fn get(self) -> u8 {
        let LinkNumber(number) = self;
        number
    }

    ghost kept = { λ n. refl };

    ghost counts = { lit< tt };

    ghost divides = { refl };
}

impl Counter for PacketNumber {
    ghost MODULUS = { 16 };

    ghost counter = { packet };

    ghost value = { λ n. n.0 };

    const MODULUS: u8 = 16;

    fn of(number: u8) -> PacketNumber {
        PacketNumber(number)
    }

    fn get(self) -> u8 {
        let PacketNumber(number) = self;
        number
    }

    ghost kept = { λ n. refl };

    ghost counts = { lit< tt };

    ghost divides = { refl };
}

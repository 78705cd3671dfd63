// How numbers and flags are stored in the bytes that a caller lends. For flags there is a function;
// for numbers there are only definitions (specs/) and laws (proofs/), which the crates named
// `.._bytes` use.
#![tactic(auto)]

ghost use Rattle.std.specs.Prelude.{◌≡◌};
ghost use Rattle.little.specs.Little.{flag};

// A flag as a byte: 1 for true, 0 for false. For `window_bytes` and `frame`; not meant for
// other callers.
pub fn flag(holds: bool) -> u8
    ensures { result ≡ flag holds }
{
    u8::from(holds)
}

// The choice of an interrogator for a ground address, from the set of codes of that address
// (document 01, "Interrogators and ground addresses"). A set of codes is a word of 16 bits: bit i
// is code i.
#![tactic(auto)]

ghost use Rattle.std.specs.Prelude.{◌≡◌, cond, eqb};
ghost use Rattle.refusal.specs.Numbers.{value_by, refusal_number};
ghost use Rattle.route_choice.specs.Choosing.{choice_code, usable, choose_verdict, chosen_code, choose_of, clearing_cause, clearing_diagnostic, clearing_of};

use refusal::Refusal;

// The codes with which a call is cleared: the clearing cause CC and the diagnostic code DC.
#[derive(Clone, Copy, Debug, PartialEq, Eq)]
pub struct Clearing {
    pub cause: u8,
    pub diagnostic: u8,
}

// CC 141 and DC 162 for refusal 8, an address without interrogators; no codes for a choice that is
// made or for any other refusal.
pub fn clearing_for(answer: Result<u8, Refusal>) -> Option<Clearing>
    ensures value { result ≡ clearing_of answer }
    ensures cause { clearing_cause result ≡ cond (eqb (refusal_number answer) 8) 141 0 }
    ensures diagnostic { clearing_diagnostic result ≡ cond (eqb (refusal_number answer) 8) 162 0 }
{
    match answer {
        Err(Refusal::NoInterrogator) => Some(Clearing {
            cause: 141,
            diagnostic: 162,
        }),
        _ => None,
    }
}

// The choice if there is no last-used code or it is not usable: the lowest of `codes` that is not
// in `failed`. Refuses with 8 if `codes` is empty, then with 15 if all of `codes` have failed.
#[tactic(auto, unfolding(crate::specs::Choosing::choose_of, crate::specs::Choosing::choose_verdict))]
fn choose_lowest(codes: u16, failed: u16) -> Result<u8, Refusal>
    ensures { result ≡ choose_of codes None failed }
{
    let usable = wordset::difference(codes, failed);
    if usable != 0 {
        Ok(wordset::lowest(usable))
    } else if codes == 0 {
        Err(Refusal::NoInterrogator)
    } else {
        Err(Refusal::AllFailed)
    }
}

// Chooses one of `codes` that is not in `failed`: the last-used code if it is one of these, else
// the lowest one. Refuses with 1 for a last-used code over 15, then with 8 if `codes` is empty,
// then with 15 if all of `codes` have failed.
#[tactic(auto, unfolding(crate::specs::Choosing::choose_of, crate::specs::Choosing::choose_verdict))]
pub fn choose(codes: u16, last: Option<u8>, failed: u16) -> Result<u8, Refusal>
    ensures whole { result ≡ choose_of codes last failed }
    ensures number { refusal_number result ≡ refusal_number (choose_verdict codes last failed) }
    ensures value { choice_code result ≡ value_by (choose_verdict codes last failed) (chosen_code (usable codes failed) last) }
{
    match last {
        Some(code) if 15 < code => Err(Refusal::OutOfRange),
        Some(code) if wordset::member(wordset::difference(codes, failed), code) => Ok(code),
        _ => choose_lowest(codes, failed),
    }
}

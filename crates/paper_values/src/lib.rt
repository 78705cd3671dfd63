// Document 01's values to check, P1 to P12, as one claim: specs/Values.antt states it, and
// proofs/Values.antt proves it by computation. The crate has no code.
#![tactic(auto)]

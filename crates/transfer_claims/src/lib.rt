// End to end: messages are cut into frames, resequenced and joined again. This crate has no code:
// specs/Claims.antt has the claims, about the definitions that the contracts of the calls cite.
#![tactic(auto)]

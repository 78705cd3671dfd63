// Claims about whole histories of the resequencer: lists of arrivals and clock ends from a fresh
// state. specs/ states the claims, proofs/ proves them. This crate has no code.
#![tactic(auto)]

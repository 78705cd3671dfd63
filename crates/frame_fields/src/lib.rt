// Headers as lists of fields, for `frame_kinds` and the crates above it: specs/ has the
// definitions, proofs/ the laws. There is no code here.
#![tactic(auto)]

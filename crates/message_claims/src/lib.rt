// The claims about messages: a message cut and then joined comes back the same, frames joined and
// then cut again are the same, cutting makes as few frames as possible, a refused call changes
// nothing, and the position of a refused joining is that of its first bad frame. specs/ states
// them, proofs/ proves them. There is no code here.
#![tactic(auto)]

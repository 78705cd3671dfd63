// Messages (document 01, "Cutting and joining"): a message cut into DATA frames, and DATA frames
// joined to a message.
#![tactic(auto)]

pub mod cutting;
pub mod joining;

// What is claimed of reading and of the position of a fault, beyond single calls: specs/ has the
// claims, proofs/ their proofs. There is no code here.
#![tactic(auto)]

// Claims about captures; there is no code here. specs/ says what is claimed (document 02, Q-12),
// proofs/ has the proofs.
#![tactic(auto)]

// The meaning of demand. This crate has no code: specs/ says what the words mean, proofs/ has the laws about them.
#![tactic(auto)]

// R-8: definitions and proofs only.
#![tactic(auto)]

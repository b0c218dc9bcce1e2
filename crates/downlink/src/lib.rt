// Demand 3: definitions and proofs only.
#![tactic(auto)]

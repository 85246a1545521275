// The image of what is stored, as definitions and proofs alone.

#![tactic(auto)]

// The incremental method, as definitions and proofs alone.

#![tactic(auto)]

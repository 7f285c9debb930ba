// The standard and document 01 as definitions (specs/) and their laws (proofs/); no code.
#![tactic(auto)]

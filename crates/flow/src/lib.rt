// Payload bytes that flow from packet to packet, for any shape, as definitions (specs/) and their laws (proofs/); no code.
#![tactic(auto)]

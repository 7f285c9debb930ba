// Payload bytes that flow from packet to packet, 13 at once, and one forward pass over a message that keeps, passes over and gives bytes.
#![tactic(auto)]

pub mod held;
pub mod merging;
pub mod pending;
pub mod thirteen;

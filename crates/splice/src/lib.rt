// Packing a message in its fewest-packet form, and splicing its payload, in the words where it stands.
#![tactic(auto)]

mod header;
mod packing;
pub mod replacing;
mod splicing;
pub mod sysex8;

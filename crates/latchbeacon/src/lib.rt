// The static library for Rust and C: the calls of the libraries under plain names. Numbers go in, a slice as pointer and length, and
// each answer is a struct with the number of the refusal, 0 if the call is accepted, its place and the values, which are 0 where it
// is refused.
#![tactic(auto, using(crate::proofs::Laws::told, crate::proofs::Laws::told_leaving))]

mod chains;
mod cursors;
mod edits;
mod fields;
mod looks;
mod messages;
mod packets;
mod receiving;
mod splices;
mod streams;

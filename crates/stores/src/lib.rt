// What the samples of the store of dumps share: what the calls answer to a store, samples of it, and stores of many records.
#![tactic(auto)]

pub mod answers;
pub mod patterns;
pub mod samples;

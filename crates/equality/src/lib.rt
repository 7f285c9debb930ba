// Lists compared by the slices' own `==`, with what the answer tells as a promise: words, numbers, and lists that are padded.
#![tactic(auto)]

pub mod numbers;
pub mod padded;
pub mod words;

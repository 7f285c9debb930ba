// Messages in lent words: the check, payload bytes, and the setters; SysEx8 and SysEx7.
#![tactic(auto)]

pub mod bytes;
mod heads;
mod scan;
pub mod sysex7;
pub mod sysex8;

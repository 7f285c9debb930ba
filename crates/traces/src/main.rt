// Samples of where an octet comes from, through the public call: a line for each, `ok` or `WRONG`.
#![tactic(auto)]

use compare::report;
use std::io;

mod origins;

// Writes a line for each sample.
fn main(rt: HostRuntime) -> io::Result<()> {
    report(&rt, b"P6", origins::p6())?;
    report(&rt, b"P7", origins::p7())?;
    report(&rt, b"P8", origins::p8())?;
    report(&rt, b"P9", origins::p9())?;
    report(&rt, b"P8 with words behind", origins::behind())?;
    report(&rt, b"refused edits", origins::edits())?;
    report(&rt, b"refused lengths", origins::lengths())?;
    report(&rt, b"refused messages", origins::messages())?;
    report(&rt, b"16,385 words", origins::long())?;
    Ok(())
}

// The samples of document 01 that read a message or a packet or list a message, run through the public calls: a line for each, `ok` or
// `WRONG`.
#![tactic(auto)]

use compare::report;
use std::io;

mod listings;
mod messages;
mod packets;

// Writes a line for each sample.
fn main(rt: HostRuntime) -> io::Result<()> {
    report(&rt, b"P1", messages::p1())?;
    report(&rt, b"P2", messages::p2())?;
    report(&rt, b"P10", packets::p10())?;
    report(&rt, b"P11", packets::p11())?;
    report(&rt, b"P4, first five words", messages::five_words())?;
    report(&rt, b"sx8list, P5", listings::p5())?;
    report(
        &rt,
        b"sx8list, P4, first five words",
        listings::five_words(),
    )?;
    report(
        &rt,
        b"sx8list, a packet of another type",
        listings::foreign(),
    )?;
    Ok(())
}

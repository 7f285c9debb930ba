// The samples of document 01 that change a message, and the refusals of the calls that pack one, run through the public calls: a line for
// each, `ok` or `WRONG`.
#![tactic(auto)]

use compare::report;
use std::io;

mod edits;
mod packings;
mod refusals;

// Writes a line for each sample.
fn main(rt: HostRuntime) -> io::Result<()> {
    report(&rt, b"P3", packings::p3())?;
    report(&rt, b"P4", packings::p4())?;
    report(&rt, b"P5", packings::p5())?;
    report(&rt, b"P6", packings::p6())?;
    report(&rt, b"P7", packings::p7())?;
    report(&rt, b"P8", edits::p8())?;
    report(&rt, b"P9", edits::p9())?;
    report(
        &rt,
        b"words for 0, 13, 14, 26, 27 bytes",
        packings::words_needed(),
    )?;
    report(&rt, b"53,248 and 53,249 bytes", packings::most_bytes())?;
    report(&rt, b"packing what is packed", packings::packed())?;
    refusals::packing(&rt)?;
    refusals::splicing(&rt)?;
    Ok(())
}

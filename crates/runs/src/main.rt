// Samples of the run of one edit (02, T-08), through the public calls: a line for each, `ok` or `WRONG`.
#![tactic(auto)]

use compare::report;
use std::io;

mod parts;

// Writes a line for each sample.
fn main(rt: HostRuntime) -> io::Result<()> {
    report(&rt, b"each side of an edit", parts::borders())?;
    report(&rt, b"an empty edit", parts::empty())?;
    report(&rt, b"an edit without replacement", parts::cut())?;
    report(&rt, b"an edit at 0", parts::at_start())?;
    report(&rt, b"an edit at the end", parts::at_end())?;
    report(&rt, b"the whole replaced", parts::whole())?;
    report(&rt, b"refused edits", parts::bad_edits())?;
    report(&rt, b"53,248 and one more", parts::most())?;
    report(&rt, b"the largest numbers", parts::largest())?;
    Ok(())
}

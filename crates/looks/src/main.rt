// Samples of one byte of an edited dump (02, T-08), through the public calls: a line for each, `ok` or `WRONG`. The runs of one edit are
// program runs'.
#![tactic(auto)]

use compare::report;
use std::io;

mod dumps;
mod lists;
mod messages;

// Writes a line for each sample.
fn main(rt: HostRuntime) -> io::Result<()> {
    report(&rt, b"a list", lists::each())?;
    report(&rt, b"no edits", lists::no_edits())?;
    report(&rt, b"two edits at one place", lists::one_place())?;
    report(&rt, b"refused lists", lists::refused())?;
    report(&rt, b"P9 in its message", messages::each())?;
    report(&rt, b"refused messages", messages::refused())?;
    report(&rt, b"a whole dump and deltas", dumps::each())?;
    report(&rt, b"refused dumps", dumps::refused())?;
    report(&rt, b"refused stores", dumps::unsound())?;
    Ok(())
}

// Samples of reclaiming a store of 256 dumps (02, T-13), run through the public calls: a line for each, `ok` or `WRONG`.
#![tactic(auto)]

use std::io;

mod shapes;
mod walks;

// Writes a line for each sample.
fn main(rt: HostRuntime) -> io::Result<()> {
    shapes::report_chains(&rt)?;
    shapes::report_stars(&rt)?;
    walks::report_walks(&rt)?;
    Ok(())
}

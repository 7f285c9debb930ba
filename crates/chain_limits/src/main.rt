// Samples of the store of dumps (02, T-02) that are large, run through the public calls: a line for each, `ok` or `WRONG`.
#![tactic(auto)]

use std::io;

mod limits;

// Writes a line for each sample.
fn main(rt: HostRuntime) -> io::Result<()> {
    limits::report_counts(&rt)?;
    limits::report_long_walks(&rt)?;
    limits::report_sizes(&rt)?;
    limits::report_small_sizes(&rt)?;
    limits::report_described(&rt)
}

// Samples of dumps before marking or collecting and after it (02, T-13), run through the public calls: a line for each, `ok` or `WRONG`.
#![tactic(auto)]

use std::io;
use stores::samples::report_all;

mod reading;
mod restoring;

// Writes a line for each sample.
fn main(rt: HostRuntime) -> io::Result<()> {
    reading::report_read(&rt)?;
    report_all(&rt, &restoring::SAME)?;
    report_all(&rt, &restoring::FREED)?;
    restoring::report_after(&rt)
}

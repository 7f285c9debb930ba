// Samples of what a store of dumps may look like (02, T-02): Format and Twice, and dumps that are not wanted any more (T-13), which are
// read as before, run through the public calls: a line for each, `ok` or `WRONG`.
#![tactic(auto)]

use std::io;
use stores::samples::report_all;

mod records;
mod unwanted;

// Writes a line for each sample.
fn main(rt: HostRuntime) -> io::Result<()> {
    report_all(&rt, &records::KINDS)?;
    report_all(&rt, &records::BODIES)?;
    report_all(&rt, &records::PLACES)?;
    report_all(&rt, &records::ORDER)?;
    report_all(&rt, &unwanted::READ)?;
    report_all(&rt, &unwanted::REFUSED)?;
    unwanted::report_counts(&rt)
}

// Samples of marking a dump unwanted (02, T-13), run through the public calls: a line for each, `ok` or `WRONG`. Full is program
// collection_limits'.
#![tactic(auto)]

use std::io;
use stores::samples::report_all;

mod marking;

// Writes a line for each sample.
fn main(rt: HostRuntime) -> io::Result<()> {
    report_all(&rt, &marking::MARKED)?;
    report_all(&rt, &marking::FOUND)?;
    report_all(&rt, &marking::MISSING)?;
    report_all(&rt, &marking::REFUSED)
}

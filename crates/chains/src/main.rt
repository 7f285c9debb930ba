// Samples of the delta chain (02, T-02), run through the public calls: a line for each, `ok` or `WRONG`. Those of Format and Twice are
// program formats', those of many dumps, long walks and large payloads are program chain_limits'.
#![tactic(auto)]

use std::io;
use stores::samples::report_all;

mod descriptions;
mod dumps;
mod edits;
mod walks;

// Writes a line for each sample.
fn main(rt: HostRuntime) -> io::Result<()> {
    report_all(&rt, &dumps::WHOLE)?;
    report_all(&rt, &dumps::DELTAS)?;
    report_all(&rt, &walks::RINGS)?;
    report_all(&rt, &walks::MISSING)?;
    report_all(&rt, &edits::RANGES)?;
    report_all(&rt, &edits::ROOMS)?;
    report_all(&rt, &edits::ON_THE_WAY)?;
    report_all(&rt, &descriptions::GIVEN)?;
    report_all(&rt, &descriptions::REFUSED)
}

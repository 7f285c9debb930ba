// Samples of collecting a store of dumps (02, T-13), run through the public calls: a line for each, `ok` or `WRONG`. Each store that is
// collected is collected again. Those of many dumps are programs collection_shapes' and collection_limits'.
#![tactic(auto)]

use std::io;
use stores::samples::report_all;

mod freeing;
mod keeping;

// Writes a line for each sample.
fn main(rt: HostRuntime) -> io::Result<()> {
    report_all(&rt, &keeping::WHOLE)?;
    report_all(&rt, &keeping::WALKS)?;
    report_all(&rt, &freeing::FREED)?;
    report_all(&rt, &freeing::MOVED)?;
    report_all(&rt, &freeing::REFUSED)
}

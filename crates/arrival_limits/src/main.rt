// Samples of interleaved streams (02, T-07), through the public call: the most words. A line for each, `ok` or `WRONG`.
#![tactic(auto)]

use compare::report;
use std::io;

mod limits;

// Writes a line for each sample.
fn main(rt: HostRuntime) -> io::Result<()> {
    for (name, right) in [
        ("Long: 16,385 words", limits::long_words()),
        ("Long: 16,385 words of output", limits::long_output()),
        ("16,384 words of both", limits::not_long()),
        ("a part of 1,024 words, filled", limits::longest()),
    ] {
        report(&rt, name.as_bytes(), right)?;
    }
    Ok(())
}

// Samples of byte streams, those of document 01 and those of clock bytes inside a dump, run through the public call: a line for each,
// `ok` or `WRONG`.
#![tactic(auto)]

use compare::report;
use std::io;

mod clock;
mod plain;

// Writes a line for each sample.
fn main(rt: HostRuntime) -> io::Result<()> {
    report(&rt, b"P12", plain::p12())?;
    report(&rt, b"F0 F7", plain::no_data())?;
    report(&rt, b"one byte F0", plain::one_byte())?;
    report(&rt, b"F0 90 F7", plain::high_byte())?;
    report(&rt, b"F0 F8 01 FE 02 F7", clock::passed_over())?;
    report(&rt, b"F0 F8 F7", clock::no_data())?;
    report(&rt, b"all eight real-time bytes", clock::all_eight())?;
    report(&rt, b"F0 01 F7 02 F7", clock::end_inside())?;
    report(&rt, b"F0 F8 F8 90 F7", clock::high_byte())?;
    report(&rt, b"F8 F0 F7", clock::before())?;
    report(&rt, b"F0 F7 F8", clock::behind())?;
    report(
        &rt,
        b"80 behind a clock byte, and no room",
        clock::byte_before_room(),
    )?;
    report(&rt, b"49,152 data bytes, clock between all", clock::full())?;
    report(
        &rt,
        b"49,153 data bytes, clock between all",
        clock::no_room(),
    )?;
    report(&rt, b"a million clock bytes around three", clock::million())?;
    Ok(())
}

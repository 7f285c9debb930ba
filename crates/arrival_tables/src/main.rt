// Samples of interleaved streams (02, T-07), through the public call: the parts of the words and the output, the packet reader's refusals,
// other ports, and any table. A line for each, `ok` or `WRONG`.
#![tactic(auto)]

use compare::report;
use std::io;

mod parts;
mod refusals;
mod tables;

// How many words are lent.
fn report_parts(rt: &impl Print) -> io::Result<()> {
    for (name, right) in [
        ("128 words, an exact fit", parts::exact()),
        ("64 words, an exact fit", parts::smallest()),
        ("127 words, rounded down", parts::rounded()),
        ("63 words, 15 and none", parts::too_few()),
        ("restart without room", parts::restart_without_room()),
        ("output short, and just long enough", parts::output_short()),
        ("output past the message", parts::output_stays()),
    ] {
        report(rt, name.as_bytes(), right)?;
    }
    Ok(())
}

// The packet reader's refusals, and other ports.
fn report_refusals(rt: &impl Print) -> io::Result<()> {
    for (name, right) in [
        ("3, 5, 15, 10", refusals::unread()),
        ("3, 5, 15, 10 before Port", refusals::unread_before_port()),
        ("Port", refusals::port()),
        ("words behind the packet", refusals::words_behind()),
    ] {
        report(rt, name.as_bytes(), right)?;
    }
    Ok(())
}

// Any table.
fn report_tables(rt: &impl Print) -> io::Result<()> {
    for (name, right) in [
        ("equal keys", tables::equal_keys()),
        ("16 equal keys", tables::sixteen_equal()),
        ("lengths above the part", tables::long_lengths()),
        ("other lengths", tables::other_lengths()),
        ("keys of no port", tables::no_port()),
        ("a table of all ones", tables::all_ones()),
    ] {
        report(rt, name.as_bytes(), right)?;
    }
    Ok(())
}

// Writes a line for each sample.
fn main(rt: HostRuntime) -> io::Result<()> {
    report_parts(&rt)?;
    report_refusals(&rt)?;
    report_tables(&rt)?;
    Ok(())
}

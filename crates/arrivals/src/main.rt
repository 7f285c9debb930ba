// Samples of interleaved streams (02, T-07), through the public call: messages that interleave, slots, and what each kind of packet does. A
// line for each, `ok` or `WRONG`.
#![tactic(auto)]

use compare::report;
use std::io;

mod interleaved;
mod slots;
mod streams;

// Messages that interleave.
fn report_interleaved(rt: &impl Print) -> io::Result<()> {
    for (name, right) in [
        ("two ports", interleaved::two_ports()),
        ("two stream ids", interleaved::two_ids()),
        ("two groups", interleaved::two_groups()),
        ("16 streams, 12 and 4", interleaved::sixteen()),
        ("16 streams, parts filled", interleaved::sixteen_full()),
    ] {
        report(rt, name.as_bytes(), right)?;
    }
    Ok(())
}

// How many streams are open.
fn report_slots(rt: &impl Print) -> io::Result<()> {
    for (name, right) in [
        ("Share: a 13th of a port", slots::share()),
        ("Full: 12 and 4, one more", slots::full()),
        ("Full: 8 and 8, one more", slots::full_of_equals()),
        ("Share, Full, Room in order", slots::order()),
        ("four beside twelve", slots::fewer_than_four()),
        ("restarts at 12 and at 16", slots::restarts()),
        ("slots and words used again", slots::used_again()),
        ("a port's slots used again", slots::share_again()),
        ("complete takes no slot", slots::complete_takes_none()),
    ] {
        report(rt, name.as_bytes(), right)?;
    }
    Ok(())
}

// What each kind of packet does.
fn report_streams(rt: &impl Print) -> io::Result<()> {
    for (name, right) in [
        ("restart", streams::restart()),
        ("complete closes its stream", streams::complete_closes()),
        ("complete without a stream", streams::complete_alone()),
        ("complete without room", streams::complete_without_room()),
        ("unexpected end, valid", streams::valid_end()),
        ("unexpected end, invalid", streams::invalid_end()),
        ("the same, nothing lent", streams::invalid_end_alone()),
        ("Closed, before Room", streams::closed()),
        ("Closed beside open streams", streams::closed_beside()),
    ] {
        report(rt, name.as_bytes(), right)?;
    }
    Ok(())
}

// Writes a line for each sample.
fn main(rt: HostRuntime) -> io::Result<()> {
    report_interleaved(&rt)?;
    report_slots(&rt)?;
    report_streams(&rt)?;
    Ok(())
}

// Samples of checking what other senders write (02, T-04), through the public call: a line for each, `ok` or `WRONG`.
#![tactic(auto)]

use compare::report;
use std::io;

mod answer;
mod noes;
mod packings;
mod refusals;

// Writes a line for each sample.
fn main(rt: HostRuntime) -> io::Result<()> {
    report(&rt, b"P5's message", packings::uneven())?;
    report(&rt, b"empty payloads", packings::empty())?;
    report(&rt, b"13, 14, 26 and 27 bytes", packings::full())?;
    report(&rt, b"empty packets and any filler", packings::filled())?;
    report(&rt, b"words behind the message", packings::behind())?;
    report(&rt, b"a wrong byte", noes::wrong_byte())?;
    report(
        &rt,
        b"a wrong byte behind an empty packet",
        noes::behind_empty(),
    )?;
    report(&rt, b"one byte more, one less", noes::sizes())?;
    report(&rt, b"another group, another stream id", noes::heads())?;
    report(&rt, b"what is said first", noes::order())?;
    report(&rt, b"1 to 4", refusals::framed())?;
    report(&rt, b"5 to 12", refusals::packets())?;
    report(&rt, b"a group above 15", refusals::field())?;
    Ok(())
}

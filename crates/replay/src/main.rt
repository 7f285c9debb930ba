// Recorded answers on standard input, a line each, compared with ours: the number of each group and the lines that differ.
#![tactic(auto)]

mod input;
mod record;
mod reply;
mod tally;

use std::io;
use tally::Tally;

// Room for the longest line. A line must have an end: bytes behind the last whole line, or that fill the room, are no record.
fn main(rt: HostRuntime) -> io::Result<()> {
    let mut buffer = [0; 65536];
    let mut tally = Tally::new();
    if input::replay(&rt, &mut buffer, &mut tally)? > 0 {
        tally.count_line();
        tally.count_wrong(&rt)?;
    }
    tally.write(&rt)
}

// Lists the SysEx8 message on standard input, packet by packet.
#![tactic(auto)]

use std::io;

fn main(rt: HostRuntime) -> io::Result<()> {
    listing_program::run(&rt)
}

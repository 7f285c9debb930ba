// The program on 65,537 bytes: refused 1.
#![tactic(auto)]

use std::io;

fn main(rt: HostRuntime) -> io::Result<()> {
    listing_program::run(&rt)
}

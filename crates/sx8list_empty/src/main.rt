// The program on no bytes: refused 3.
#![tactic(auto)]

use std::io;

fn main(rt: HostRuntime) -> io::Result<()> {
    listing_program::run(&rt)
}

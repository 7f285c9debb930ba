// The program on a ring of two: refused 25.
#![tactic(auto)]

use std::io;

fn main(rt: HostRuntime) -> io::Result<()> {
    restorer::run(&rt)
}

// Restores a dump of the store on standard input: a delta on a delta on a whole dump.
#![tactic(auto)]

use std::io;

fn main(rt: HostRuntime) -> io::Result<()> {
    restorer::run(&rt)
}

// Standard input, read whole into the bytes lent. The bodies of sx8list and sx8restore read by it.
#![tactic(auto)]

ghost use Rattle.std.specs.Prelude.{◌≤◌, length, IfOk};

use std::io;
use std::io::Read;

// Reads standard input until the buffer is full, the input ends or a read fails; a read may bring less than there is room for.
pub fn read_input(rt: &impl io::Input, buffer: &mut [u8]) -> io::Result<usize>
    ensures { IfOk result (λ size. size ≤ length buffer.new) }
{
    let mut reader = rt.reader();
    let mut size = 0;
    while size < buffer.len() {
        let more = reader.read(&mut buffer[size..])?;
        if more == 0 {
            return Ok(size);
        }
        size += more;
    }
    Ok(size)
}

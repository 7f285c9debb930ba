// The body of program sx8restore: the store on standard input, the number of a dump as the one argument, the restored bank's words on
// standard output, four bytes each, highest first; or the line `refused NO at PLACE`, as sx8list prints it.
//
// A store of more than 1,048,576 bytes is refused as Long, `refused 1 at 0`, as sx8list refuses an input over its limit; nothing else is
// Long here, since as many words are lent as a message may have. The argument is 1 to 64 decimal digits, and a number above 65,535 is
// one that no dump has: Missing, `refused 24 at 0`. No argument, two, or one that is no such number: nothing is read or written, and a
// line on standard error says how the program is called. The program ends with status 0 in all these cases, and where a read or a write
// fails; only where the line on standard error cannot be written does it end with an error.
#![tactic(auto)]

mod argument;
pub mod output;

use std::env::{Env, FillError};
use std::io;

// The number that the program is called with: its one argument.
fn asked(rt: &impl Env) -> Option<usize> {
    let mut digits = [0u8; 64];
    let size = rt.arg(1, &mut digits).ok()?;
    let Err(FillError::NotPresent) = rt.arg(2, &mut []) else {
        return None;
    };
    argument::number_in(&digits[..size])
}

// Writes the dump of this number to standard output, at once. The error says why not all of it was written.
fn write_dump(rt: &impl Print, store: &[u8], number: usize, text: &mut [u8]) -> io::Result<()> {
    let Ok(size) = output::write(store, number, text) else {
        return Err(io::Error::other("no room for the dump"));
    };
    rt.write_all(&text[..size])
}

// Restores from the store on standard input; a failed read or write is told on standard error.
fn restore_input(
    rt: &(impl io::Input + Print + Eprint),
    number: usize,
    bytes: &mut [u8],
    text: &mut [u8],
) -> io::Result<()> {
    let size = match standard_input::read_input(rt, bytes) {
        Ok(size) => size,
        Err(error) => return eprintln!(rt; "sx8restore: read: {error}"),
    };
    write_dump(rt, &bytes[..size], number, text).or_else(|error| eprintln!(rt;
        "sx8restore: write: {error}"
    ))
}

// Room for one byte over the longest store, which is enough to refuse a longer one, and for the longest message.
fn restore_number(rt: &(impl io::Input + Print + Eprint), number: usize) -> io::Result<()> {
    let mut bytes = [0u8; 1_048_577];
    let mut text = [0u8; output::TEXT];
    restore_input(rt, number, &mut bytes, &mut text)
}

// The program. An error says that standard error could not be written.
pub fn run(rt: &(impl Env + io::Input + Print + Eprint)) -> io::Result<()> {
    match asked(rt) {
        Some(given) => restore_number(rt, given),
        None => eprintln!(rt; "usage: sx8restore NUMBER < STORE"),
    }
}

// The body of program sx8list: the message on standard input is listed on standard output.
#![tactic(auto)]

use std::io;

// Writes the listing of the message in these bytes to standard output, at once. The error says why not all of it was written.
fn write_listing(rt: &impl Print, bytes: &[u8], text: &mut [u8]) -> io::Result<()> {
    let Ok(size) = listing::list(bytes, text) else {
        return Err(io::Error::other("no room for the listing"));
    };
    rt.write_all(&text[..size])
}

// Lists the message on standard input; a failed read or write is told on standard error.
fn list_input(
    rt: &(impl io::Input + Print + Eprint),
    bytes: &mut [u8],
    text: &mut [u8],
) -> io::Result<()> {
    let size = match standard_input::read_input(rt, bytes) {
        Ok(size) => size,
        Err(error) => return eprintln!(rt; "sx8list: read: {error}"),
    };
    write_listing(rt, &bytes[..size], text).or_else(|error| eprintln!(rt;
        "sx8list: write: {error}"
    ))
}

// The program: room for one byte over 65,536, which is enough to refuse a longer input, and for the longest listing.
// An error says that standard error could not be written.
pub fn run(rt: &(impl io::Input + Print + Eprint)) -> io::Result<()> {
    let mut bytes = [0u8; 65537];
    let mut text = [0u8; listing::TEXT];
    list_input(rt, &mut bytes, &mut text)
}

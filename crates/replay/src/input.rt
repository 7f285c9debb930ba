// Standard input, read in pieces and replayed a line at a time.
ghost use Rattle.std.specs.Prelude.{◌≤◌, length, IfOk};

use crate::record;
use crate::tally::Tally;
use std::io;
use std::io::Read;

// The most reads: an input of so many bytes ends even where each read brings one.
const READS: usize = 4_194_304;

// Replays a line. One that is empty or a comment is passed over.
fn replay_line(rt: &impl Print, line: &[u8], tally: &mut Tally) -> io::Result<()> {
    tally.count_line();
    match line {
        [] | [b'#', ..] => Ok(()),
        _ => match record::replay(line) {
            Some(compared) => tally.count_record(rt, compared),
            None => tally.count_wrong(rt),
        },
    }
}

// Replays the whole lines of a text; answers where the line without an end begins.
fn replay_lines(rt: &impl Print, text: &[u8], tally: &mut Tally) -> io::Result<usize>
    ensures { IfOk result (λ place. place ≤ length text.now) }
{
    let mut from = 0;
    while let Some(size) = text[from..].iter().position(|byte| *byte == b'\n') {
        replay_line(rt, &text[from..from + size], tally)?;
        from += size + 1;
    }
    Ok(from)
}

// Replays standard input; answers how many bytes stand behind its last whole line. Where a line without an end fills the buffer, nothing
// more is read.
pub(crate) fn replay(
    rt: &(impl io::Input + Print),
    buffer: &mut [u8],
    tally: &mut Tally,
) -> io::Result<usize> {
    let mut reader = rt.reader();
    let mut kept = 0;
    for _ in 0..READS {
        let size = kept + reader.read(&mut buffer[kept..])?;
        if size == kept {
            return Ok(kept);
        }
        let done = replay_lines(rt, &buffer[..size], tally)?;
        buffer.copy_within(done..size, 0);
        kept = size - done;
    }
    Ok(kept)
}

// SysEx7 messages: the check.
ghost use Rattle.std.specs.Prelude.{◌≡◌};
ghost use Rattle.ump.specs.Packet.{sysex7};
ghost use Rattle.ump.specs.Check.{checked};
ghost use Rattle.message.specs.Meaning.{check_meaning7};

use layout::Sysex7;
use refusal::Fault;

// What a message says: group, payload size and words.
#[derive(Clone, Copy, Debug, PartialEq, Eq)]
pub struct Summary {
    pub group: u8,
    pub size: usize,
    pub words: usize,
}

// Checks the message in the first `length` of the words lent: refusals 1 to 11, each over all packets before the next.
pub fn check(words: &[u32], length: usize) -> Result<Summary, Fault>
    ensures { check_meaning7 result ≡ checked sysex7 words.now length }
{
    let size = crate::scan::size_found::<Sysex7>(words, length)?;
    let first = words[0];
    Ok(Summary {
        group: layout::group_of(first),
        size,
        words: length,
    })
}

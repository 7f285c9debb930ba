// Where a byte of the result stands, if all edits of a list are done at once.
ghost use Rattle.std.specs.Prelude.{◌≡◌};
ghost use Rattle.ump.specs.Edits.{edits_of};
ghost use Rattle.edit.specs.Meaning.{placed_meaning};
ghost use Rattle.edit.specs.Placed.{placed, BeginsAt};

use crate::EditByte;
use crate::listed::{Edits, NUMBERS, edit_at};
use refusal::{Fault, Refusal};

// Where a byte stands: in the dump, or in the replacement of an edit, where it is this byte of all replacement bytes.
#[derive(Clone, Copy, Debug, PartialEq, Eq)]
pub(crate) enum Standing {
    Dump(usize),
    Edit(EditByte, usize),
}

// A byte of the dump, or of all replacement bytes end to end.
#[derive(Clone, Copy, Debug, PartialEq, Eq)]
pub enum Placed {
    Dump(usize),
    Bytes(usize),
}

impl Edits<'_> {
    // Byte `position` of the result; none past it. One walk over the edits: `left` is the position behind those passed, the last of which
    // ends at `end`, and `start` is where the bytes of the next begin.
    pub(crate) fn find_byte(&self, position: usize) -> Option<Standing>
        ensures { BeginsAt self.now.size (edits_of self.now.numbers.now) position result }
    {
        let mut end = 0;
        let mut start = 0;
        let mut left = position;
        for index in 0..self.numbers.len() / NUMBERS {
            let edit = edit_at(self.numbers, index);
            let gap = edit.from - end;
            if left < gap {
                return Some(Standing::Dump(end + left));
            }
            let byte = left - gap;
            if byte < edit.length {
                return Some(Standing::Edit(EditByte { edit: index, byte }, start + byte));
            }
            left = byte - edit.length;
            start += edit.length;
            end = edit.to;
        }
        if left < self.size - end {
            return Some(Standing::Dump(end + left));
        }
        None
    }
}

// Where the byte at `position` stands, once all edits of a list are done to a payload of `size` bytes, with `bytes` replacement
// bytes. Range for the edits or the number of bytes, Overlap, then Range for the position.
pub fn place(numbers: &[usize], size: usize, bytes: usize, position: usize) -> Result<Placed, Fault>
    ensures { placed_meaning result ≡ placed size bytes numbers.now position }
{
    let edits = Edits::checked(numbers, size, bytes)?;
    match edits.find_byte(position).ok_or(Refusal::Range)? {
        Standing::Dump(at) => Ok(Placed::Dump(at)),
        Standing::Edit(_, at) => Ok(Placed::Bytes(at)),
    }
}

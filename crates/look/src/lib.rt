// Looking at bytes of an edited dump without restoring it (02, T-08): the run of one edit, lent and not copied, and one byte of a list of
// edits, of a payload or of a message in packets.
#![tactic(auto)]

ghost use Rattle.std.specs.Prelude.{◌≡◌};
ghost use Rattle.edit.specs.Meaning.{edit_meaning};
ghost use Rattle.look.specs.Look.{find, part_lent};
ghost use Rattle.look.specs.Meaning.{run_meaning};

use edit::Edit;
use refusal::{Fault, Refusal};

mod list;

pub use list::{byte, byte_of_message};

// The bytes start..end of a source. Not std's Range: theorems (Unique, ShutOut) name this type.
#[derive(Clone, Copy, Debug, PartialEq, Eq)]
pub struct Part {
    pub start: usize,
    pub end: usize,
}

// Where a run of bytes stands: in the dump before the edit, in the replacement, in the dump behind the edit.
#[derive(Clone, Copy, Debug, PartialEq, Eq)]
pub enum Found {
    Before(Part),
    Within(Part),
    Behind(Part),
}

// The longest run of bytes that starts at `position` of a dump of `size` bytes with one edit: its source, start and end. Range for the
// edit, then for the position.
pub fn find(size: usize, edit: Edit, position: usize) -> Result<Found, Fault>
    ensures { run_meaning result ≡ find size (edit_meaning edit) position }
{
    if edit::is_bad(edit) || edit.to > size {
        return Err(Refusal::Range.into());
    }
    if position < edit.from {
        return Ok(Found::Before(Part {
            start: position,
            end: edit.from,
        }));
    }
    let within = position - edit.from;
    if within < edit.length {
        return Ok(Found::Within(Part {
            start: within,
            end: edit.length,
        }));
    }
    let behind = within - edit.length;
    if behind < size - edit.to {
        return Ok(Found::Behind(Part {
            start: edit.to + behind,
            end: size,
        }));
    }
    Err(Refusal::Range.into())
}

// That run itself: a part of the payload or of the replacement, lent and not copied. It is empty exactly if `find` refuses.
pub fn run<'a>(
    payload: &'a [u8],
    from: usize,
    to: usize,
    replacement: &'a [u8],
    position: usize,
) -> &'a [u8]
    ensures { (result.ref_ptr, result.now)
        ≡ part_lent payload.entry.ref_ptr replacement.entry.ref_ptr payload.now from to replacement.now position }
{
    let edit = Edit {
        from,
        to,
        length: replacement.len(),
    };
    let Ok(found) = find(payload.len(), edit, position) else {
        return &payload[..0];
    };
    match found {
        Found::Before(part) | Found::Behind(part) => &payload[part.start..part.end],
        Found::Within(part) => &replacement[part.start..part.end],
    }
}

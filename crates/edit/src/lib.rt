// Edits of a payload: growth, moving a pending edit past a done one, all edits of a list at once, and where an octet or a byte then
// comes from.
#![tactic(auto)]

ghost use Rattle.std.specs.Prelude.{◌≡◌, ◌≤◌};
ghost use Rattle.ump.specs.Limits.{most_bytes};
ghost use Rattle.ump.specs.Edits.{growth, bad_edit, moved_past, move_edit};
ghost use Rattle.edit.specs.Meaning.{edit_meaning, moved_meaning};
ghost use Rattle.edit.specs.Growth.{growth_of, Sound};
ghost use Rattle.refusal.specs.Meaning.{answer_of};

use refusal::{Fault, Refusal};

mod all;
mod listed;
mod origins;
mod placing;

pub use all::splice_all;
pub use origins::{EditByte, HeaderOctet, OctetOrigin, origin};
pub use placing::{Placed, place};

// An edit is from, to and replacement length.
#[derive(Clone, Copy, Debug, PartialEq, Eq)]
pub struct Edit {
    pub from: usize,
    pub to: usize,
    pub length: usize,
}

// The bytes from..to of a payload. Not std's Range: theorems (ShutOut, AnswersFixed) name this type.
#[derive(Clone, Copy, Debug, PartialEq, Eq)]
pub struct Range {
    pub from: usize,
    pub to: usize,
}

// Whether an edit is reversed, or a number within it is above the most bytes.
pub fn is_bad(edit: Edit) -> bool
    ensures { result ≡ bad_edit (edit_meaning edit) }
{
    edit.to < edit.from || edit.to > layout::MOST_BYTES || edit.length > layout::MOST_BYTES
}

// Growth, replacement length minus range length, may be below zero.
fn growth_of(edit: Edit) -> i64
    requires { Sound (edit_meaning edit) }
    ensures { result ≡ growth (edit_meaning edit) }
{
    edit.length as i64 - (edit.to - edit.from) as i64
}

// A place behind a done edit, moved by its growth.
fn moved_past(done: Edit, place: usize) -> usize
    requires { (Sound (edit_meaning done)) × (done.to ≤ place) × (place ≤ most_bytes) }
    ensures { result ≡ moved_past (edit_meaning done) place }
{
    (place as i64 + growth_of(done)) as usize
}

// The growth of an edit; Range for one that is reversed or has a number above the most bytes.
pub fn growth(edit: Edit) -> Result<i64, Fault>
    ensures { answer_of result ≡ growth_of (edit_meaning edit) }
{
    if is_bad(edit) {
        return Err(Refusal::Range.into());
    }
    Ok(growth_of(edit))
}

// The pending edit's new range, both as of the message just before the done one was spliced: moved by the growth if the done edit
// is first, else unmoved. Range (either edit), then Overlap (first's to above second's from).
pub fn move_edit(done: Edit, pending: Edit, done_first: bool) -> Result<Range, Fault>
    ensures { moved_meaning result ≡ move_edit (edit_meaning done) (edit_meaning pending) done_first }
{
    if is_bad(done) || is_bad(pending) {
        return Err(Refusal::Range.into());
    }
    if done_first {
        if pending.from < done.to {
            return Err(Refusal::Overlap.into());
        }
        Ok(Range {
            from: moved_past(done, pending.from),
            to: moved_past(done, pending.to),
        })
    } else {
        if done.from < pending.to {
            return Err(Refusal::Overlap.into());
        }
        Ok(Range {
            from: pending.from,
            to: pending.to,
        })
    }
}

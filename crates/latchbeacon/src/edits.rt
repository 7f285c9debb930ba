// The exported calls on edits.
ghost use Rattle.std.specs.Prelude.{◌≡◌};
ghost use Rattle.ump.specs.Edits.{move_edit};
ghost use Rattle.edit.specs.Growth.{growth_of};
ghost use Rattle.answers.specs.Answers.{growth_answer, range_answer};

use answers::{GrowthAnswer, RangeAnswer};
use edit::Edit;

// The growth of an edit, replacement length minus range length; Range.
#[unsafe(no_mangle)]
pub extern "C" fn latchbeacon_growth(from: usize, to: usize, length: usize) -> GrowthAnswer
    ensures { result ≡ growth_answer (growth_of (record { from = from; to = to; length = length })) }
{
    answers::answer(edit::growth(Edit { from, to, length }))
}

// The pending edit's new range, both as of the message just before the done one was spliced; Range, then Overlap.
#[unsafe(no_mangle)]
pub extern "C" fn latchbeacon_move_edit(
    done_from: usize,
    done_to: usize,
    done_length: usize,
    pending_from: usize,
    pending_to: usize,
    pending_length: usize,
    done_first: bool,
) -> RangeAnswer
    ensures { result
        ≡ range_answer (move_edit (record { from = done_from; to = done_to; length = done_length })
        (record { from = pending_from; to = pending_to; length = pending_length }) done_first) }
{
    let done = Edit {
        from: done_from,
        to: done_to,
        length: done_length,
    };
    let pending = Edit {
        from: pending_from,
        to: pending_to,
        length: pending_length,
    };
    answers::answer(edit::move_edit(done, pending, done_first))
}

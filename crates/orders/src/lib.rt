// Document 01 section 7, its second paragraph, on running calls: two corrections of one book, merged in both orders. Where all four merges are
// accepted and the regions are separate, the two books and the two charges are equal and each reference keeps its meaning.
#![tactic(auto)]

ghost use Rattle.std.specs.Prelude.{◌≡◌};
ghost use Rattle.model.specs.Merge.{room_of, stored_of};
ghost use Rattle.model.specs.Demand3.{cut_behind};
ghost use Rattle.edit.specs.Values.{edit_value};
ghost use Rattle.books.specs.Values.{stored_value, correction_value};
ghost use Rattle.refusal.specs.Refusal.{checked};
ghost use Rattle.output.specs.Answer.{answers_of};
ghost use Rattle.orders.specs.Orders.{MergedInOrder, MergedBothOrders};

use books::{Correction, Stored};
use edit::Edit;
use output::{BothOrders, IncrementalOutput};
use refusal::Refusal;
use span::SourceOffset;

// Where an offset stands once an edit is made, cut at the largest u32.
fn moved(offset: SourceOffset, edit: &Edit) -> SourceOffset
    ensures { result.0 ≡ cut_behind (edit_value edit.now) offset.0 }
{
    let longer = offset.0 as usize + edit.replacement.len();
    let removed = edit.end.0.saturating_sub(edit.start.0) as usize;
    SourceOffset(u32::try_from(longer.saturating_sub(removed)).unwrap_or(u32::MAX))
}

// What two calls answer, the second on the result of the first.
#[derive(Clone, Copy)]
struct InOrder {
    first: Result<IncrementalOutput, Refusal>,
    second: Result<IncrementalOutput, Refusal>,
}

// One correction merged into the book, and another into the result; of a refused first merge nothing is left to be read. The buffers are
// the caller's, two pairs of them, and a struct of lent ones would have to say of each that it is still the same.
fn merge_in_order(
    book: &Stored,
    first: &Correction,
    second: &Correction,
    out_tape: &mut [u8],
    out_bytes: &mut [u8],
    next_tape: &mut [u8],
    next_bytes: &mut [u8],
    work: &mut [u32],
) -> InOrder
    ensures { MergedInOrder (stored_value book.now) (correction_value first.now) (correction_value second.now)
        (room_of out_tape.old out_bytes.old work.old)
        (room_of next_tape.old next_bytes.old work.old)
        (checked result.first) (checked result.second) (stored_of out_tape.new out_bytes.new) (stored_of next_tape.new next_bytes.new) work.new }
{
    let one = incremental::merge(book, first, out_tape, out_bytes, work);
    let (tape_end, bytes_end) = output::taken(one);
    let merged = Stored {
        tape: &out_tape[0..tape_end],
        bytes: &out_bytes[0..bytes_end],
    };
    let two = incremental::merge(&merged, second, next_tape, next_bytes, work);
    InOrder {
        first: one,
        second: two,
    }
}

// Demand 3. The earlier correction and, on its result, the later one, moved by the change in length; and the other way round, each into
// buffers of its own. All four calls are made, whatever they answer. The four pairs are the caller's, lent one by one as C has them.
pub fn merge_both_orders(
    book: &Stored,
    earlier: &Correction,
    later: &Correction,
    tape1: &mut [u8],
    bytes1: &mut [u8],
    tape2: &mut [u8],
    bytes2: &mut [u8],
    tape3: &mut [u8],
    bytes3: &mut [u8],
    tape4: &mut [u8],
    bytes4: &mut [u8],
    work: &mut [u32],
) -> BothOrders
    ensures { MergedBothOrders (stored_value book.now) (correction_value earlier.now) (correction_value later.now)
        (room_of tape1.old bytes1.old work.old)
        (room_of tape2.old bytes2.old work.old)
        (room_of tape3.old bytes3.old work.old)
        (room_of tape4.old bytes4.old work.old)
        (answers_of result) (stored_of tape1.new bytes1.new) (stored_of tape2.new bytes2.new)
        (stored_of tape3.new bytes3.new) (stored_of tape4.new bytes4.new) work.new }
{
    let edit = &later.edit;
    let moved = Correction {
        edit: Edit {
            start: moved(edit.start, &earlier.edit),
            end: moved(edit.end, &earlier.edit),
            replacement: edit.replacement,
        },
        reading: later.reading,
    };
    let a = merge_in_order(book, earlier, &moved, tape1, bytes1, tape2, bytes2, work);
    let b = merge_in_order(book, later, earlier, tape3, bytes3, tape4, bytes4, work);
    BothOrders {
        earlier_first: a.first,
        later_second: a.second,
        later_first: b.first,
        earlier_second: b.second,
    }
}

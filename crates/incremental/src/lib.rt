// Document 01 section 7: the entry `merge`, numbers 1 to 18 in their order: the book is opened (1 to 7), then 8 to 17 (crate fitting), then 18 and
// the result. What is not result is cleared at the end, so that a refusal leaves zeros everywhere.
#![tactic(auto)]

ghost use Rattle.std.specs.Prelude.{◌≡◌};
ghost use Rattle.model.specs.Merge.{stored_of, room_of};
ghost use Rattle.model.specs.Demand3.{merge_of};
ghost use Rattle.books.specs.Values.{stored_value, correction_value};
ghost use Rattle.refusal.specs.Refusal.{checked};
ghost use Rattle.output.specs.Answer.{Written, Merged};

use books::{Correction, Stored};
use output::IncrementalOutput;
use refusal::Refusal;
use tape::Book;

// The three buffers are written, so they are lent one by one: of a struct that held them each function would have to promise that they are
// still the same.

// Numbers 8 to 18 of an opened book, which is not checked again; what is not result is not cleared.
pub fn merge_opened<'a>(
    book: &Book<'a>,
    correction: &Correction<'a>,
    out_tape: &mut [u8],
    out_bytes: &mut [u8],
    work: &mut [u32],
) -> Result<IncrementalOutput, Refusal>
    ensures { Written (merge_of (stored_of book.now.tape.now book.now.bytes.now) (correction_value correction.now) (room_of out_tape.old out_bytes.old work.old)) (checked result) out_tape.old out_bytes.old work.old out_tape.new out_bytes.new work.new }
{
    let m = fitting::fit_opened(book, correction, work)?;
    result::put_result(&m, out_tape, out_bytes, work)
}

// Numbers 1 to 18; what is not result is not cleared.
fn merge_stored<'a>(
    book: &Stored<'a>,
    correction: &Correction<'a>,
    out_tape: &mut [u8],
    out_bytes: &mut [u8],
    work: &mut [u32],
) -> Result<IncrementalOutput, Refusal>
    ensures { Written (merge_of (stored_value book.now) (correction_value correction.now) (room_of out_tape.old out_bytes.old work.old)) (checked result) out_tape.old out_bytes.old work.old out_tape.new out_bytes.new work.new }
{
    let opened = tape::open_book(book.tape, book.bytes)?;
    merge_opened(&opened, correction, out_tape, out_bytes, work)
}

// `merge`: the merged book in both result buffers, zeros behind it, and zeros in all work words; after a refusal zeros everywhere.
pub fn merge(
    book: &Stored,
    correction: &Correction,
    out_tape: &mut [u8],
    out_bytes: &mut [u8],
    work: &mut [u32],
) -> Result<IncrementalOutput, Refusal>
    ensures { Merged (merge_of (stored_value book.now) (correction_value correction.now) (room_of out_tape.old out_bytes.old work.old)) (room_of out_tape.old out_bytes.old work.old) (checked result) out_tape.new out_bytes.new work.new }
{
    let r = merge_stored(book, correction, out_tape, out_bytes, work);
    let (tape_end, bytes_end) = output::taken(r);
    output::clear_rest(out_tape, out_bytes, work, tape_end, bytes_end);
    r
}

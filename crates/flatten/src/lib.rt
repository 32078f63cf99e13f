// Wish 6: flattening. The nodes' trees of a book of up to 32 layers are grafted in order into one fresh layer; texts and lists are copied as they
// stand. The entry tests 1 to 7 first, then 18; it has no `requires`. What is not result is cleared at the end, so that a refusal leaves zeros
// everywhere.
#![tactic(auto)]

ghost use Rattle.std.specs.Prelude.{◌≡◌, length};
ghost use Rattle.model.specs.Bytes.{AreBytes, zeros};
ghost use Rattle.model.specs.Merge.{stored_of, room_of};
ghost use Rattle.model.specs.Lookup.{copied_tape, copied_bytes};
ghost use Rattle.model.specs.Demand3.{shown};
ghost use Rattle.model.specs.Flatten.{flat_checked, flatten_book};
ghost use Rattle.refusal.specs.Refusal.{checked};
ghost use Rattle.tape.specs.StringBytes.{book_of};
ghost use Rattle.copy.specs.Copying.{copied_of};
ghost use Rattle.flatten.specs.Answer.{tape_taken, bytes_taken, Written};
ghost use Rattle.flatten.specs.Stages.{has_room};

use copy::Copied;
use layer::Place;
use numbers::{HEAD_SIZE, MIN_WORK_WORDS};
use refusal::Refusal;
use store::Totals;
use tape::Book;

// Number 18 as far as it is known before the graft: the work words, both texts and the head have room.
fn has_room(text: usize, tape: usize, bytes: usize, work: usize) -> bool
    ensures { result ≡ has_room text tape bytes work }
{
    MIN_WORK_WORDS <= work && text <= bytes && HEAD_SIZE <= tape
}

// Number 18, and the flat book, of a book that passed 1 to 7. The layer goes above no other, the lists stand as they stood.
fn flatten_passed(
    book: &Book,
    out_tape: &mut [u8],
    out_bytes: &mut [u8],
    work: &mut [u32],
) -> Result<Copied, Refusal>
    requires { AreBytes book.now.tape.now }
    ensures { Written (flat_checked (shown (book_of book.now)) (room_of out_tape.old out_bytes.old work.old)) (checked result) out_tape.new out_bytes.new }
{
    let p = book.places;
    let text = p.text.0 as usize + p.normalized.0 as usize;
    if !has_room(text, out_tape.len(), out_bytes.len(), work.len()) {
        return Err(Refusal::NoRoom);
    }
    wire::copy_at(out_bytes, 0, &book.bytes[0..text]);
    // Both texts are as long as they were.
    wire::copy_at(out_tape, 0, &book.tape[0..HEAD_SIZE]);
    let to = Place {
        below: Totals {
            strings: 0,
            contents: 0,
            segments: 0,
        },
        at: HEAD_SIZE,
        base: text,
    };
    let l = layer::graft_layer(book, to, out_tape, work, out_bytes).ok_or(Refusal::NoRoom)?;
    let at = HEAD_SIZE + l.len + (p.pairs.at - p.nodes.at);
    let lists = &book.tape[p.pairs.at..book.tape.len()];
    if out_tape.len() - at < lists.len() {
        return Err(Refusal::NoRoom);
    }
    wire::copy_at(out_tape, at, lists);
    Ok(Copied {
        tape: at + lists.len(),
        bytes: l.state.used,
    })
}

// Numbers 1 to 7 and 18; what is not result is not cleared.
fn flatten_checked(
    tape: &[u8],
    bytes: &[u8],
    out_tape: &mut [u8],
    out_bytes: &mut [u8],
    work: &mut [u32],
) -> Result<Copied, Refusal>
    ensures { Written (flatten_book (stored_of tape.now bytes.now) (room_of out_tape.old out_bytes.old work.old)) (checked result) out_tape.new out_bytes.new }
{
    let book = tape::open_book(tape, bytes)?;
    flatten_passed(&book, out_tape, out_bytes, work)
}

// How many bytes of the two result buffers the book takes: none after a refusal.
fn taken(a: Result<Copied, Refusal>) -> (usize, usize)
    ensures { (result.0 ≡ tape_taken (checked a)) × (result.1 ≡ bytes_taken (checked a)) }
{
    match a {
        Ok(Copied { tape, bytes }) => (tape, bytes),
        Err(_) => (0, 0),
    }
}

// `flatten_book`: the flat book in both result buffers, zeros behind it, and zeros in all work words; after a refusal zeros everywhere.
pub fn flatten_book(
    tape: &[u8],
    bytes: &[u8],
    out_tape: &mut [u8],
    out_bytes: &mut [u8],
    work: &mut [u32],
) -> Result<Copied, Refusal>
    ensures { let flat = flatten_book (stored_of tape.now bytes.now) (room_of out_tape.old out_bytes.old work.old) in
        (checked result ≡ copied_of flat)
        × (out_tape.new ≡ copied_tape (length out_tape.old) flat)
        × (out_bytes.new ≡ copied_bytes (length out_bytes.old) flat)
        × (work.new ≡ zeros (length work.old)) }
{
    let r = flatten_checked(tape, bytes, out_tape, out_bytes, work);
    let (tape_end, bytes_end) = taken(r);
    output::clear_rest(out_tape, out_bytes, work, tape_end, bytes_end);
    r
}

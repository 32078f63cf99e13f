// Wish 2: price before the merge. Numbers 1 to 17 as the merge gives them, and in place of the result what grafting would add and how long
// the byte buffer gets. No result buffer is lent; the work words may be any number, also none, and are 0 at the end.
#![tactic(auto)]

ghost use Rattle.std.specs.Prelude.{◌≡◌, length};
ghost use Rattle.model.specs.Bytes.{zeros};
ghost use Rattle.model.specs.Estimate.{estimate};
ghost use Rattle.edit.specs.Values.{edit_value};
ghost use Rattle.books.specs.Values.{stored_value};
ghost use Rattle.refusal.specs.Refusal.{checked};
ghost use Rattle.splice.specs.Window.{window_value};
ghost use Rattle.tape.specs.StringBytes.{book_of};
ghost use Rattle.estimate.specs.Pricing.{over_price, price_by, price_value, estimate_of, price_in};

use books::{Correction, Stored};
use fitting::Merging;
use refusal::Refusal;

// Number 3's limit, here of a price; those of `texts` and `layer` are private to them.
const MAX_POOL: u32 = numbers::MAX_POOL as u32;

const OVER: u32 = MAX_POOL + 1;

// What the merge would make: the reading's nodes, calls of `intern`, contents and segments added, and the length of the byte buffer without
// the new layer's strings. The three are 1048576 where one of them is above 1048575.
#[derive(Clone, Copy, Debug, PartialEq, Eq)]
pub struct Price {
    pub reread: u32,
    pub calls: u32,
    pub contents: u32,
    pub segments: u32,
    pub bytes: usize,
}

fn over(reread: u32, bytes: usize) -> Price
    ensures { result ≡ over_price reread bytes }
{
    Price {
        reread,
        calls: OVER,
        contents: OVER,
        segments: OVER,
        bytes,
    }
}

// Wish 2. If one of the three is above 1048575, all three are given as 1048576. There are no sizes where contents or segments pass it.
fn price_by(reread: u32, s: Option<sizes::Sizes>, bytes: usize) -> Price
    ensures { result ≡ price_by reread s bytes }
{
    let Some(s) = s else {
        return over(reread, bytes);
    };
    if MAX_POOL < s.calls {
        return over(reread, bytes);
    }
    Price {
        reread,
        calls: s.calls,
        contents: s.contents,
        segments: s.segments,
        bytes,
    }
}

// The price of what passed 1 to 17.
fn price_fitted(m: &Merging) -> Price
    ensures { result ≡ price_value (price_in (book_of m.now.book) (edit_value m.now.edit) (book_of m.now.reading) (window_value m.now.window)) }
{
    let l = merged_lists::new_lengths(m);
    let room = sizes::Room {
        contents: MAX_POOL,
        segments: MAX_POOL,
    };
    let s = sizes::reading_sizes(&m.reading, room);
    price_by(m.reading.places.nodes.count as u32, s, l.base)
}

// Numbers 1 to 17, then the price; the work words are not cleared.
fn estimate_stored(
    book: &Stored,
    correction: &Correction,
    work: &mut [u32],
) -> Result<Price, Refusal>
    ensures { checked result ≡ estimate_of (estimate (stored_value book.now) (edit_value correction.now.edit) (stored_value correction.now.reading)) }
{
    let m = fitting::fit(book, correction, work)?;
    Ok(price_fitted(&m))
}

// `estimate`: the merge's 1 to 17 as the merge gives them, or the price; all work words are 0 at the end.
pub fn estimate(book: &Stored, correction: &Correction, work: &mut [u32]) -> Result<Price, Refusal>
    ensures { (checked result ≡ estimate_of (estimate (stored_value book.now) (edit_value correction.now.edit) (stored_value correction.now.reading)))
        × (work.new ≡ zeros (length work.old)) }
{
    let r = estimate_stored(book, correction, work);
    wire::zero_words(work);
    r
}

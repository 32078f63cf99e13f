// Numbers 1 to 17 of a merge, in their order, document 01 section 7: what the merge and its estimate (wish 2) have in common. Each of the three
// functions `fit_*` takes what the ones before it have shown: two opened books, an opened book, a stored book. The lent words may be any number,
// also none; they are not cleared.
#![tactic(auto)]

ghost use Rattle.std.specs.Prelude.{◌≡◌, ◌≤◌, ◌<◌, ◌^◌, length};
ghost use Rattle.model.specs.Region.{Edit as RegionEdit};
ghost use Rattle.model.specs.Merge.{normalized_offset, stored_of, fitting};
ghost use Rattle.edit.specs.Values.{edit_value};
ghost use Rattle.books.specs.Values.{stored_value};
ghost use Rattle.refusal.specs.Refusal.{number_in, checked, checked_map};
ghost use Rattle.span.specs.Values.{span_of};
ghost use Rattle.splice.specs.Window.{window_value};
ghost use Rattle.tape.specs.StringBytes.{book_of};
ghost use Rattle.fitting.specs.Fits.{nodes_of, RegionOf};
ghost use Rattle.fitting.specs.Numbers.{cut_number, reading_number};
ghost use Rattle.fitting.specs.Window.{window_from, CutsOf};
ghost use Rattle.fitting.specs.Stages.{FitsOrRefused};

mod merging;

use books::{Correction, Stored};
use edit::Edit;
pub use merging::Merging;
use refusal::Refusal;
use span::{NormalizedOffset, NormalizedSpan, Span};
use splice::Window;
use tape::Book;

// The words are written, so they are lent beside and in no struct.

// `MergeWindow`. `normal` is the region in the normalized text, `normalized` the length of the reading's normalized text.
fn window(region: Span, normal: NormalizedSpan, edit: &Edit, normalized: NormalizedOffset) -> Window
    requires { (edit.now.start.0 ≤ edit.now.end.0) × (normal.start.0 ≤ normal.end.0) × (length edit.now.replacement.now < 2 ^ 63) }
    ensures { window_value result ≡ window_from region.start.0 region.end.0 normal.start.0 normal.end.0 (length edit.now.replacement.now) edit.now.start.0 edit.now.end.0 normalized.0 }
{
    Window {
        source: region,
        normalized: normal,
        source_delta: span::difference(
            edit.replacement.len() as u64,
            (edit.end.0 - edit.start.0) as u64,
        ),
        normalized_delta: span::difference(
            normalized.0 as u64,
            (normal.end.0 - normal.start.0) as u64,
        ),
    }
}

// The region of an edit, as a window.
fn region_window(book: &Book, edit: &Edit, region: Span, normalized: NormalizedOffset) -> Window
    requires { RegionOf book.now (edit_value edit.now) (span_of region) }
    ensures { window_value result ≡ window_from region.start.0 region.end.0
        (normalized_offset (nodes_of book.now) region.start.0) (normalized_offset (nodes_of book.now) region.end.0)
        (length edit.now.replacement.now) edit.now.start.0 edit.now.end.0 normalized.0 }
{
    let nodes = book.places.nodes;
    let normal = NormalizedSpan {
        start: reading::normalized_offset(book.tape, nodes, region.start),
        end: reading::normalized_offset(book.tape, nodes, region.end),
    };
    window(region, normal, edit, normalized)
}

// Numbers 15 to 17.
fn check_cuts(book: &Book, window: Window, reading: &Book, work: &mut [u32]) -> Result<(), Refusal>
    requires { CutsOf book.now window }
    ensures { (e : RegionEdit) → number_in result ≡ cut_number (book_of book.now) e (span_of window.source) (book_of reading.now) }
{
    if introduces::introduces_ruby_format_dependency(book, reading, work, window.source) {
        return Err(Refusal::NewRubyFormatDependency);
    }
    let p = book.places;
    let first = p.text.0 as usize;
    let normalized = &book.bytes[first..first + p.normalized.0 as usize];
    if !passage::cuts_ok(normalized, window.normalized) {
        return Err(Refusal::CutInCharacter);
    }
    if passage::layer_missing(reading.places.nodes.count, p.layers) {
        return Err(Refusal::LayersFull);
    }
    Ok(())
}

// Numbers 12 to 17.
fn check_fitting(
    book: &Book,
    edit: &Edit,
    window: Window,
    reading: &Book,
    work: &mut [u32],
) -> Result<(), Refusal>
    requires region { RegionOf book.now (edit_value edit.now) (span_of window.source) }
    requires cuts { CutsOf book.now window }
    ensures { number_in result ≡ reading_number (book_of book.now) (edit_value edit.now) (span_of window.source) (book_of reading.now) }
{
    let region = window.source;
    let p = book.places;
    let q = reading.places;
    // Both texts are cut out where they are read: each is asked for once.
    let text = &book.bytes[0..p.text.0 as usize];
    let old_text = region::region_text(text, region);
    let new_text = &reading.bytes[0..q.text.0 as usize];
    let first = (edit.start.0 - region.start.0) as usize;
    let last = (edit.end.0 - region.start.0) as usize;
    if !passage::is_region_text(old_text, first, last, edit.replacement, new_text) {
        return Err(Refusal::OtherText);
    }
    if !reading::balanced_nodes(reading.tape, q.nodes) {
        return Err(Refusal::Unbalanced);
    }
    if reading::has_unclosed(reading.tape, q.diagnostics)
        || reading::mark_at_empty_region(book.tape, p.diagnostics, region)
    {
        return Err(Refusal::Unclosed);
    }
    check_cuts(book, window, reading, work)
}

// Numbers 12 to 17 of an opened book, the region of an edit on it, and an opened reading: a number, or the window.
pub fn fit_reading(
    book: &Book,
    edit: &Edit,
    region: Span,
    reading: &Book,
    work: &mut [u32],
) -> Result<Window, Refusal>
    requires { RegionOf book.now (edit_value edit.now) (span_of region) }
    ensures { checked_map window_value (checked result) ≡ fitting (book_of book.now) (edit_value edit.now) (span_of region) (book_of reading.now) }
{
    let window = region_window(book, edit, region, reading.places.normalized);
    check_fitting(book, edit, window, reading, work)?;
    Ok(window)
}

// Numbers 8 to 17 of an opened book: the edit's, the reading's 1 to 7, then 12 to 17.
pub fn fit_opened<'a>(
    book: &Book<'a>,
    correction: &Correction<'a>,
    work: &mut [u32],
) -> Result<Merging<'a>, Refusal>
    ensures { FitsOrRefused (stored_of book.now.tape.now book.now.bytes.now) (edit_value correction.now.edit) (stored_value correction.now.reading) result }
{
    let region = region::chosen_region(book, &correction.edit, work)?;
    let reading = tape::open_reading(correction.reading.tape, correction.reading.bytes)?;
    let window = fit_reading(book, &correction.edit, region, &reading, work)?;
    // Of a slice that comes in as a parameter it is known that its items are bytes, and not of one out of a struct.
    Stored::new(book.tape, book.bytes);
    Ok(Merging {
        book: *book,
        edit: correction.edit,
        window,
        reading,
    })
}

// Numbers 1 to 17 in their order.
pub fn fit<'a>(
    book: &Stored<'a>,
    correction: &Correction<'a>,
    work: &mut [u32],
) -> Result<Merging<'a>, Refusal>
    ensures { FitsOrRefused (stored_value book.now) (edit_value correction.now.edit) (stored_value correction.now.reading) result }
{
    let opened = tape::open_book(book.tape, book.bytes)?;
    fit_opened(&opened, correction, work)
}

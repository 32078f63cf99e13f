// Document 01 sections 3 and 7: what is asked of a book. Each entry tests 1 to 7 first; a lookup without an answer is `None`. No entry has a
// `requires`; specs/ says for each answer which values of the model it is. Each takes what C hands over, one by one.
#![tactic(auto)]

ghost use Rattle.std.specs.Prelude.{◌≡◌, ◌≤◌, ◌<◌, ◌^◌};
ghost use Rattle.model.specs.Tape.{content_codec, segment_codec};
ghost use Rattle.model.specs.Lookup.{ask_book, diagnostics_allow_incremental, node_at_source, lookup_contents, lookup_segments, lookup_str, lookup_str_span, contents_ok, segments_ok};
ghost use Rattle.refusal.specs.Refusal.{checked};
ghost use Rattle.bounds.specs.Search.{found_of};
ghost use Rattle.store.specs.Stored.{store_at};
ghost use Rattle.store.specs.Pools.{range_in};
ghost use Rattle.store.specs.Standing.{content_place, segment_place};
ghost use Rattle.lookup.specs.Ranges.{range_if, range_shown};
ghost use Rattle.strings.specs.Starts.{lengths_in, Readable};
ghost use Rattle.lookup.specs.Strings.{str_if, str_shown, span_from};

use refusal::Refusal;
use span::{SourceOffset, StrId};
use store::Store;

// Where the first record of a range stands in the tape, and how many they are: the length asked for, a `u32` where a `Run` has a `usize`.
#[derive(Clone, Copy, Debug, PartialEq, Eq)]
pub struct RangeAt {
    pub place: usize,
    pub count: u32,
}

// Where a string starts and ends in the byte buffer, whose bytes may be more than the 32 bits of a `Span` count.
#[derive(Clone, Copy, Debug, PartialEq, Eq)]
pub struct StrAt {
    pub start: usize,
    pub end: usize,
}

// `diagnostics_allow_incremental` of a book.
pub fn diagnostics_allow_incremental(tape: &[u8], bytes: &[u8]) -> Result<bool, Refusal>
    ensures { checked result ≡ ask_book tape.now bytes.now (λ b. diagnostics_allow_incremental b.diagnostics) }
{
    let diagnostics = tape::open_book(tape, bytes)?.places.diagnostics;
    Ok(bounds::diagnostics_allow_incremental(tape, diagnostics))
}

// Section 7. `node_at_source` of a book: the node's place in the list.
pub fn node_at_source(
    tape: &[u8],
    bytes: &[u8],
    offset: SourceOffset,
) -> Result<Option<usize>, Refusal>
    ensures { checked result ≡ ask_book tape.now bytes.now (λ b. found_of (node_at_source b.source_nodes offset.0)) }
{
    let nodes = tape::open_book(tape, bytes)?.places.nodes;
    Ok(bounds::node_at_source(tape, nodes, offset))
}

// For segments the same below: each is two questions to the store, by methods of that pool. One function for both would take the second as a closure,
// with a clause for what it asks and one for what it tells.
fn contents_in(st: &Store, start: u32, len: u32) -> Option<RangeAt>
    requires { st.now.layers ≤ 32 }
    ensures { result ≡ range_if (range_in st.now.contents st.now.layers st.now.totals.contents start len) (content_place st.now start) len }
{
    if !st.has_contents(start, len) {
        return None;
    }
    Some(RangeAt {
        place: st.content_place(start),
        count: len,
    })
}

fn segments_in(st: &Store, start: u32, len: u32) -> Option<RangeAt>
    requires { st.now.layers ≤ 32 }
    ensures { result ≡ range_if (range_in st.now.segments st.now.layers st.now.totals.segments start len) (segment_place st.now start) len }
{
    if !st.has_segments(start, len) {
        return None;
    }
    Some(RangeAt {
        place: st.segment_place(start),
        count: len,
    })
}

// Section 3. The contents of a range: where they stand, and that those are the contents asked for.
pub fn lookup_contents(
    tape: &[u8],
    bytes: &[u8],
    start: u32,
    len: u32,
) -> Result<Option<RangeAt>, Refusal>
    ensures { (checked result ≡ ask_book tape.now bytes.now (λ b. range_if (contents_ok start len b) (content_place (store_at tape.now) start) len))
        × (range_shown content_codec tape.now (checked result) ≡ ask_book tape.now bytes.now (λ b. lookup_contents b start len)) }
{
    let book = tape::open_book(tape, bytes)?;
    Ok(contents_in(&book.store, start, len))
}

// Section 3. The segments of a range.
pub fn lookup_segments(
    tape: &[u8],
    bytes: &[u8],
    start: u32,
    len: u32,
) -> Result<Option<RangeAt>, Refusal>
    ensures { (checked result ≡ ask_book tape.now bytes.now (λ b. range_if (segments_ok start len b) (segment_place (store_at tape.now) start) len))
        × (range_shown segment_codec tape.now (checked result) ≡ ask_book tape.now bytes.now (λ b. lookup_segments b start len)) }
{
    let book = tape::open_book(tape, bytes)?;
    Ok(segments_in(&book.store, start, len))
}

// The string of an id, whose pool's bytes begin at `from`.
fn str_in(tape: &[u8], st: &Store, room: usize, from: usize, id: StrId) -> Option<StrAt>
    requires readable { Readable tape.now st.now room }
    requires from_bound { from < 2 ^ 63 }
    ensures { result ≡ str_if (span_from st.now.totals.strings from (lengths_in tape.now) id.0) }
{
    if !st.has_string(id) {
        return None;
    }
    let start = strings::start_from(tape, st, room, 0, id.0, 0);
    let len = strings::string_length(tape, st, id);
    Some(StrAt {
        start: from + start,
        end: from + start + len,
    })
}

// Section 3. The string of an id: where it stands behind both texts, and that this is the string asked for.
pub fn lookup_str(tape: &[u8], bytes: &[u8], id: StrId) -> Result<Option<StrAt>, Refusal>
    ensures { (checked result ≡ ask_book tape.now bytes.now (λ b. str_if (lookup_str_span b id.0)))
        × (str_shown bytes.now (checked result) ≡ ask_book tape.now bytes.now (λ b. lookup_str b id.0)) }
{
    let book = tape::open_book(tape, bytes)?;
    let p = book.places;
    let from = p.text.0 as usize + p.normalized.0 as usize;
    Ok(str_in(tape, &book.store, bytes.len(), from, id))
}

// Document 01 section 3: a resolved string is shown as a part of the old string bytes or of the new layer's. A tape says how
// long its strings are and not where they begin, so `index_strings` writes every k-th start into lent words, k as small as the
// words allow, and `string_start` walks from the last of them. specs/Starts.antt says what a start is.
#![tactic(auto)]

mod lent;

ghost use Rattle.std.specs.Prelude.{◌≡◌, true, List, ◌∷◌, [], ℕ, ◌≤◌, ◌<◌, ◌^◌, min, get_or};
ghost use Rattle.model.specs.Store.{string_span, resolve_content_range};
ghost use Rattle.records.specs.Values.{content_of};
ghost use Rattle.store.specs.Pools.{range_in};
ghost use Rattle.wire.specs.Overwrite.{overwrite};
ghost use Rattle.strings.specs.Starts.{lengths_in, store_in, start_in, OfTape, Readable, Between, run_end, InLayer};
ghost use Rattle.strings.specs.Index.{step_of, index_in, Indexed};
ghost use Rattle.strings.specs.PlainContent.{plain_of};
ghost use Rattle.strings.specs.Shown.{old_strings, Lies, part_of};

pub use lent::Strings;
use span::StrId;
use store::Store;

// The word for a start that does not fit one: the index stands in lent words, of 32 bits each.
const NOT_STORED: u32 = u32::MAX;

// Section 4, command 3: how long a string is.
pub fn string_length(tape: &[u8], st: &Store, id: StrId) -> usize
    requires of_tape { OfTape tape.now st.now }
    requires id_lt_strings { id.0 < st.now.totals.strings }
    ensures { result ≡ get_or (lengths_in tape.now) id.0 0 }
{
    let at = st.string_place(id);
    wire::u32_at(tape, at + 1) as usize
}

// Where the layer of string i ends in the pool, or `to` if that comes first.
#[tactic(auto, using(store::specs::Pools::layer_few), unfolding(crate::specs::Starts::run_end))]
fn run_end(st: &Store, i: u32, to: u32) -> u32
    requires { st.now.layers ≤ 32 }
    ensures { result ≡ run_end st.now i to }
{
    to.min(st.string_start(st.string_layer(StrId(i)) + 1))
}

// The start of string `next`, from that of string i of the same layer. Tape, store and room are named one by one, here and below: those who ask where a
// string starts have them at hand in another form (`Strings`, a book, the walk of a graft, two variables), and ask once.
fn start_after(tape: &[u8], st: &Store, room: usize, i: u32, next: u32, start: usize) -> usize
    requires readable { Readable tape.now st.now room }
    requires in_layer { InLayer st.now i next }
    requires start_value { start ≡ start_in tape.now i }
    ensures { result ≡ start_in tape.now next }
{
    let at = st.string_place(StrId(i));
    start + places::strings_length(tape, at, (next - i) as usize, room)
}

// The start of string `to`, from that of string `from`: one step a string, and a search for the layer a layer.
pub fn start_from(tape: &[u8], st: &Store, room: usize, from: u32, to: u32, start: usize) -> usize
    requires readable { Readable tape.now st.now room }
    requires between { Between st.now from to }
    requires start_value { start ≡ start_in tape.now from }
    ensures { result ≡ start_in tape.now to }
{
    let mut i = from;
    let mut place = start;
    // From layer to layer, or to `to`.
    while i < to {
        let next = run_end(st, i, to);
        place = start_after(tape, st, room, i, next, place);
        i = next;
    }
    place
}

// Every how many strings a start is stored, so that the words hold them all.
#[tactic(auto, unfolding(crate::specs::Index::step_of))]
fn step_of(count: u32, words: usize) -> usize
    requires { words < 2 ^ 63 }
    ensures { result ≡ step_of count words }
{
    count as usize / (words + 1) + 1
}

// A start as a word, if it is below `NOT_STORED`.
fn entry_of(start: usize) -> u32
    ensures { result ≡ min start 4294967295 }
{
    u32::try_from(start).unwrap_or(NOT_STORED)
}

// Every k-th start, k as small as the words allow; the rest of the words is kept.
pub fn index_strings(tape: &[u8], st: &Store, room: usize, words: &mut [u32])
    requires { Readable tape.now st.now room }
    ensures { words.new ≡ overwrite words.old 0 (index_in (lengths_in tape.now) words.old) }
{
    let count = st.totals.strings;
    let step = step_of(count, words.len());
    // `from` is added up beside j: as j * step it would be a product to bound at each turn.
    let mut from = 0;
    let mut start = 0;
    for j in 0..count as usize / step {
        let next = from + step;
        start = start_from(tape, st, room, from as u32, next as u32, start);
        words[j] = entry_of(start);
        from = next;
    }
}

// Section 3. Where a string begins: from the last start that the index has at or before it.
pub fn string_start(tape: &[u8], st: &Store, room: usize, words: &[u32], id: StrId) -> usize
    requires readable { Readable tape.now st.now room }
    requires indexed { Indexed (lengths_in tape.now) words.now }
    requires id_lt_strings { id.0 < st.now.totals.strings }
    ensures { result ≡ (string_span (lengths_in tape.now) id.0).start }
{
    let step = step_of(st.totals.strings, words.len());
    let q = id.0 as usize / step;
    if q == 0 {
        return start_from(tape, st, room, 0, id.0, 0);
    }
    let start = words[q - 1];
    if start == NOT_STORED {
        return start_from(tape, st, room, 0, id.0, 0);
    }
    start_from(tape, st, room, (q * step) as u32, id.0, start as usize)
}

// By `if`, as the definition has it; `then_some` would say the same of the same two things.
#[tactic(auto, unfolding(crate::specs::PlainContent::plain_of))]
fn plain_of(c: records::Content) -> Option<StrId>
    ensures { result ≡ plain_of (content_of c ∷ []) }
{
    if c.is_plain() {
        Some(StrId(c.first))
    } else {
        None
    }
}

// Section 6. A range of exactly one Plain content gives its string, all others none.
pub fn content_range_as_plain(tape: &[u8], st: &Store, start: u32, len: u32) -> Option<StrId>
    requires of_tape { OfTape tape.now st.now }
    requires len_value { range_in st.now.contents st.now.layers st.now.totals.contents start len ≡ true }
    ensures { (b : List ℕ) → result ≡ plain_of (resolve_content_range (store_in tape.now b) start len) }
{
    if len != 1 {
        return None;
    }
    let at = st.content_place(start);
    plain_of(records::content_at(tape, at))
}

pub fn old_strings(st: &Store) -> u32
    requires { (0 < st.now.layers) × (st.now.layers ≤ 32) }
    ensures { result ≡ old_strings st.now }
{
    st.string_start(st.layers - 1)
}

// Section 3. A part of the old string bytes or of the new layer's, chosen by the id: the old strings come first.
fn resolve<'a>(
    old: &'a [u8],
    new: &'a [u8],
    olds: u32,
    id: StrId,
    start: usize,
    len: usize,
) -> &'a [u8]
    requires { Lies old.now new.now olds id.0 start len }
    ensures { result.now ≡ part_of old.now new.now olds id.0 start len }
{
    if id.0 < olds {
        return &old[start..start + len];
    }
    let at = start - old.len();
    &new[at..at + len]
}

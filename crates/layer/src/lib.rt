// Document 01 section 5: one new layer of the result, with the trees of a source's nodes grafted into it and those nodes' records
// behind it. The walk of crate `graft` writes as if the layer had no strings; its bytes are then moved up and the strings'
// records written into the gap, so that each tree is walked once.
#![tactic(auto)]

mod grafting;
mod place;

ghost use Rattle.std.specs.Prelude.{◌≡◌, ◌&&◌, ◌∷◌, ◌++◌, ◌+◌, ◌-◌, ◌*◌, ◌%◌, ◌^◌, ◌≤◌, ◌<◌, leb, length, take, drop};
ghost use Rattle.model.specs.Limits.{max_pool, max_new_strings, min_work_words};
ghost use Rattle.model.specs.Tape.{record_bytes, records_bytes, string_codec};
ghost use Rattle.wire.specs.Overwrite.{overwrite};
ghost use Rattle.table.specs.Layout.{start_in};
ghost use Rattle.strings.specs.Starts.{lengths_in, Readable};
ghost use Rattle.strings.specs.Index.{Indexed};
ghost use Rattle.model.specs.Store.{resolve_str};
ghost use Rattle.representatives.specs.Pairs.{Pairs};
ghost use Rattle.graft.specs.Named.{source_store};
ghost use Rattle.graft.specs.Walk.{index_words};
ghost use Rattle.layer.specs.Lengths.{new_length, new_lengths, Rising};
ghost use Rattle.layer.specs.Layered.{room_left, plan_of, source_adds, grafted_into};
ghost use Rattle.layer.specs.Walked.{offsets_of, WalkRoom, Walked};
ghost use Rattle.layer.specs.Answers.{LayerTold};

use graft::Walk;
use grafting::Grafting;
use interner::StrInterner;
use numbers::{CONTENT_SIZE, INDEX_AT, MAX_POOL, STRING_SIZE};
pub use place::Place;
use store::Totals;
use table::STARTS;
use tape::Book;

// The layer that was written: the bytes of its records, its command with them, how many items it has, and its interner.
#[derive(Clone, Copy, Debug, PartialEq, Eq)]
pub struct Grafted {
    pub len: usize,
    pub strings: u32,
    pub contents: u32,
    pub segments: u32,
    pub state: StrInterner,
}

// ---- strings

// Section 4. 3: string length. This number, and the layer's 2 below, is written once, and so has no name.
fn put_string(out: &mut [u8], at: usize, n: u32)
    requires { at + 5 ≤ length out.old }
    ensures { out.new ≡ overwrite out.old at (record_bytes string_codec n) }
{
    wire::put_u8(out, at, 3);
    wire::put_u32(out, at + 1, n);
}

// The length of string k, from its start up to the next, as a word.
fn string_length(work: &[u32], k: usize) -> u32
    requires k_in_bounds { 8192 + 2 * (k + 1) + 1 < length work.now }
    requires k_bound { start_in work.now k ≤ start_in work.now (k + 1) }
    ensures { result ≡ new_length work.now k % 4294967296 }
{
    let start = table::wide_at(work, STARTS + 2 * k);
    let end = table::wide_at(work, STARTS + 2 * (k + 1));
    ((end - start) % 4294967296) as u32
}

// The records of the layer's strings. Words and count go through this function and the next alone: a struct of both, with `Rising` as its fact,
// would be made for one call.
pub fn put_lengths(out: &mut [u8], at: usize, work: &[u32], count: usize)
    requires rising { Rising work.now count }
    requires count_in_bounds { at + 5 * count ≤ length out.old }
    ensures { out.new ≡ overwrite out.old at (records_bytes string_codec (new_lengths work.now count)) }
{
    for i in 0..count {
        put_string(out, at + STRING_SIZE * i, string_length(work, i));
    }
}

// ---- a layer's bytes

// Section 4. Per layer 2, then 3s, 4s, 5s: the n bytes behind the place of the 2 are moved up, and the 3s come before them.
fn lay_out(out: &mut [u8], work: &[u32], at: usize, n: usize, count: usize)
    requires rising { Rising work.now count }
    requires count_in_bounds { (at + 1 + n + 5 * count ≤ length out.old) × (count ≤ max_new_strings) }
    ensures { out.new ≡ overwrite out.old at (2 ∷ (records_bytes string_codec (new_lengths work.now count) ++ take n (drop (at + 1) out.old))) }
{
    moves::move_up(out, at + 1, n, STRING_SIZE * count);
    wire::put_u8(out, at, 2);
    put_lengths(out, at + 1, work, count);
}

// ---- room

// Number 3. How many contents and segments may still be added.
fn room_left(to: Place) -> sizes::Room
    ensures { result ≡ room_left to.below }
{
    sizes::Room {
        contents: MAX_POOL as u32 - to.below.contents,
        segments: MAX_POOL as u32 - to.below.segments,
    }
}

// Number 18. Whether so many strings have room in their pool, and their records in `left` bytes.
fn strings_fit(below: u32, count: usize, left: usize) -> bool
    requires { (below ≤ max_pool) × (count ≤ max_new_strings) }
    ensures { result ≡ leb (below + count) max_pool && leb (5 * count) left }
{
    below as usize + count <= MAX_POOL && STRING_SIZE * count <= left
}

// ---- the walk. Its buffers are written, and so lent one by one: what is asked of their lengths is said at each function, here and below.

// Contents go right behind the layer's 2, segments right behind them. The three numbers stand in a plan by themselves: they are what the ids of
// the walk begin with, where `Totals` says how many there are.
fn plan_of(o: Totals, at: usize, contents: u32) -> graft::Plan
    requires { at + 1 + 10 * contents < 2 ^ 63 }
    ensures { result ≡ plan_of o at contents }
{
    graft::Plan {
        strings: o.strings,
        contents: o.contents,
        segments: o.segments,
        contents_at: at + 1,
        segments_at: at + 1 + CONTENT_SIZE * (contents as usize),
    }
}

// An index of the source's strings, in all work words that the interner leaves free: the more are lent, the fewer strings a look-up passes. They
// are not parted once, for the interner asks for 16384.
fn index_words(source: &Book, work: &mut [u32])
    requires min_work_words_in_bounds { min_work_words ≤ length work.old }
    ensures { Indexed (lengths_in source.now.tape.now) (index_words work.new) }
{
    strings::index_strings(
        source.tape,
        &source.store,
        source.bytes.len(),
        &mut work[INDEX_AT..],
    );
}

// Section 5. The source's nodes, grafted into a layer that has nothing yet; `pairs` are of its long strings.
fn walk(
    source: &Book,
    out: &mut [u8],
    work: &mut [u32],
    strs: &mut [u8],
    pairs: &[u32],
    plan: graft::Plan,
    base: usize,
    nodes_at: usize,
) -> Option<graft::Mark>
    requires walk_room { WalkRoom plan nodes_at source.now.places.nodes.count (length out.old)
        (source_adds source.now.tape.now source.now.bytes.now) }
    requires min_work_words_in_bounds { (min_work_words ≤ length work.old) × (base ≤ length strs.old) }
    requires pairs { Pairs (resolve_str (source_store source.now.tape.now source.now.bytes.now)) pairs.now }
    ensures { Walked plan base nodes_at out.old strs.old out.new work.new strs.new result
        (grafted_into source.now.tape.now source.now.bytes.now (offsets_of plan)) }
{
    index_words(source, work);
    let w = Walk {
        tape: source.tape,
        bytes: source.bytes,
        st: &source.store,
        pairs,
        plan,
    };
    let mut m = graft::Mark {
        contents: 0,
        segments: 0,
        state: StrInterner::new(work, base),
        answered: None,
    };
    graft_nodes::graft_nodes(&w, out, work, strs, &mut m, source.places.nodes, nodes_at)?;
    Some(m)
}

// The pairs of a source's long strings.
fn pair_words(source: &Book, words: &mut [u32])
    requires { 1 ≤ length words.old }
    ensures { Pairs (resolve_str (source_store source.now.tape.now source.now.bytes.now)) words.new }
{
    let least = representatives::long_from(source.bytes.len());
    representatives::pair_strings(&source.strings(), words, least);
}

// ---- the layer

// Sections 3 and 5. The nodes of a source that passed 1 to 7, grafted into one new layer at its place, the nodes' records behind the
// layer's. None where number 18, or number 3 of a pool, forbids it.
pub fn graft_layer(
    source: &Book,
    to: Place,
    out: &mut [u8],
    work: &mut [u32],
    strs: &mut [u8],
) -> Option<Grafted>
    requires min_work_words_in_bounds { (min_work_words ≤ length work.old) × (to.base ≤ length strs.old) × (to.at ≤ length out.old) }
    ensures { LayerTold out.old strs.old out.new strs.new to.at to.base to.below result
        (grafted_into source.now.tape.now source.now.bytes.now to.below) }
{
    let sizes = sizes::reading_sizes(source, room_left(to))?;
    let grafting = Grafting { source, to, sizes };
    grafting.graft_sized(out, work, strs)
}

// Document 01 section 5: how many contents, segments and calls of `intern` grafting adds, read in place. One walk goes node →
// content run → segment run → node, the segment level falling on each turn. It carries what is left of the room that the
// caller has under number 3, and takes what it finds off that: None where there is no room for it. A run's length is taken off before the
// run is walked, and no walk goes on from None: a tape of a few hundred bytes whose runs are shared can stand for 2^33 items. What the body
// of a segment adds is remembered in a memo, so that a shared one is walked once. specs/Trees.antt says what the graft of a tree adds,
// specs/InPlace.antt what is read, specs/Capped.antt what is left, specs/Known.antt what the memo says, and specs/Shown.antt that for the
// store of the tape it is what the graft of the shown trees adds.
#![tactic(auto)]

mod lent;

ghost use Rattle.std.specs.Prelude.{◌≡◌, ℕ, ◌+◌, ◌*◌, ◌≤◌, ◌<◌, ◌^◌, length, Option, Some};
ghost use Rattle.model.specs.Lists.{all};
ghost use Rattle.model.specs.WellFormed.{word_of};
ghost use Rattle.model.specs.Tape.{record_at, records_at, content_codec, segment_codec, node_codec};
ghost use Rattle.model.specs.Tree.{shown_nodes};
ghost use Rattle.records.specs.Values.{body_at};
ghost use Rattle.memo.specs.Memo.{entry_in};
ghost use Rattle.tape.specs.StringBytes.{book_of};
ghost use Rattle.sizes.specs.Trees.{nodes_size};
ghost use Rattle.sizes.specs.Order.{field_word};
ghost use Rattle.sizes.specs.Capped.{sizes_in, less};
ghost use Rattle.sizes.specs.Added.{Added, add};
ghost use Rattle.sizes.specs.Again.{taken, times};
ghost use Rattle.sizes.specs.Calls.{Limited};
ghost use Rattle.sizes.specs.Known.{Known, added_in, note_in};
ghost use Rattle.sizes.specs.Plain.{Whole, is_plain, plain_run, plain_ruby, plain_adds};
ghost use Rattle.sizes.specs.Lone.{lone_place};
ghost use Rattle.records.specs.Uses.{use_number};
ghost use Rattle.sizes.specs.Words.{words_of};
ghost use Rattle.sizes.specs.InPlace.{content_count, segment_count, field_words, string_adds, used_adds, inner_adds, body_adds};
ghost use Rattle.sizes.specs.InPlace.{content_adds, contents_add, content_run_adds, segments_add, segment_run_adds, node_adds, nodes_add};

use ids::NO_STRING;
pub use lent::Walk;
use numbers::{CONTENT_SIZE, NODE_SIZE, SEGMENT_SIZE, STRING_SIZE};
use places::Run;
use records::{RUBY, TEXT, Use};
use span::StrId;
use store::Store;
use tape::Book;

// How many contents and segments may still be added.
#[derive(Clone, Copy)]
pub struct Room {
    pub contents: u32,
    pub segments: u32,
}

// What grafting adds. Calls stop at 4294967295.
#[derive(Clone, Copy)]
pub struct Sizes {
    pub contents: u32,
    pub segments: u32,
    pub calls: u32,
}

// How many contents and segments may still be added, and how many calls there are before their count stops. The same fields as `Sizes`, and a type of
// its own, so that what is left is not taken for what was added.
#[derive(Clone, Copy)]
struct Left {
    contents: u32,
    segments: u32,
    calls: u32,
}

const MOST: u32 = 4294967295;

// any number of items
const ANY: Left = Left {
    contents: MOST,
    segments: MOST,
    calls: MOST,
};

// The use of a field, the word at which it begins, and the word behind that.
#[derive(Clone, Copy)]
pub struct FieldWords {
    pub usage: Use,
    pub first: u32,
    pub second: u32,
}

// So much taken off; None where there is no room for it. Three numbers, since nearly all who call it have them, most of them 0, and no `Sizes`.
fn less(left: Left, contents: u32, segments: u32, calls: u32) -> Option<Left>
    ensures { result ≡ less left (record { contents = contents; segments = segments; calls = calls }) }
{
    Some(Left {
        contents: left.contents.checked_sub(contents)?,
        segments: left.segments.checked_sub(segments)?,
        calls: left.calls.saturating_sub(calls),
    })
}

// What was taken off from `before` to `after`.
fn taken(before: Left, after: Left) -> Sizes
    ensures { result ≡ taken before after }
{
    Sizes {
        contents: before.contents.saturating_sub(after.contents),
        segments: before.segments.saturating_sub(after.segments),
        calls: before.calls.saturating_sub(after.calls),
    }
}

// The same taken off k times more: so many items that are alike need not be walked one by one.
fn again(before: Left, after: Left, k: usize) -> Option<Left>
    ensures { (a : Added) → Some after ≡ less before a → result ≡ less after (times a k) }
{
    let t = taken(before, after);
    let mut u = after;
    for _time in 0..k {
        u = less(u, t.contents, t.segments, t.calls)?;
    }
    Some(u)
}

// How many contents a range names, and how many segments; none where it is no range. Each is one question to its own pool: a function of both would
// take that as a closure.
fn content_count(w: &Walk<'_>, start: u32, len: u32) -> u32
    ensures { result ≡ content_count w.now.st.now start len }
{
    if w.st.has_contents(start, len) {
        len
    } else {
        0
    }
}

fn segment_count(w: &Walk<'_>, start: u32, len: u32) -> u32
    ensures { result ≡ segment_count w.now.st.now start len }
{
    if w.st.has_segments(start, len) {
        len
    } else {
        0
    }
}

// Section 5. Fields go in the Rust's order: which of the six words comes at place j. The kinds are listed by number, as document 01 does: 3 is a
// Gaiji, 11 an Image.
#[tactic(auto, unfolding(crate::specs::Order::field_word))]
pub fn field_word(kind: u8, j: usize) -> usize
    requires { j < 6 }
    ensures { (result ≡ field_word kind j) × (result < 6) }
{
    match (kind, j) {
        (3, 0) => 1,
        (3, 1) => 0,
        (11, 3) => 4,
        (11, 4) => 3,
        _ => j,
    }
}

pub fn field_at(tape: &[u8], at: usize, j: usize) -> FieldWords
    requires { (at + 34 ≤ length tape.now) × (j < 6) }
    ensures { words_of result ≡ field_words (body_at tape.now at) j }
{
    let kind = tape[at];
    let i = field_word(kind, j);
    FieldWords {
        usage: records::word_use(kind, tape[at + 1], i),
        first: records::body_word(tape, at, i),
        second: ids::next_word(tape, at, i),
    }
}

// A string is one call; a missing one is none, and a word at which no field begins is none.
#[tactic(auto, using(std::proofs::lemmas::Bool::Decides::nat_tests, crate::specs::Capped::less_nothing), unfolding(crate::specs::InPlace::string_adds))]
fn string_sizes(left: Left, usage: Use, w: u32) -> Option<Left>
    ensures { result ≡ less left (string_adds (use_number usage) w) }
{
    match usage {
        Use::Str => less(left, 0, 0, 1),
        Use::OptStr => if StrId(w) == NO_STRING {
            Some(left)
        } else {
            less(left, 0, 0, 1)
        },
        _ => Some(left),
    }
}

// What an entry of the memo says, added.
fn with_entry(left: Left, memo: &[u32], e: usize) -> Option<Left>
    requires { 5 * e + 5 ≤ length memo.now }
    ensures { result ≡ less left (added_in (entry_in memo.now e)) }
{
    less(left, memo[5 * e + 2], memo[5 * e + 3], memo[5 * e + 4])
}

// What the segment at `at` has added on that level, remembered; not where the calls may have been cut.
fn note(memo: &mut [u32], e: usize, at: usize, level: u8, before: Left, after: Left)
    requires { e < 4096 }
    ensures { memo.new ≡ note_in memo.old e at level before after }
{
    if 4294967295 < at {
        return;
    }
    if after.calls == 0 {
        return;
    }
    let t = taken(before, after);
    memo::put(memo, e, at as u32, level, t.contents, t.segments, t.calls);
}

// ---- the walk. It writes the memo, and lends it on at each call: a struct that held it would have each function promise that it is still the
// same memo, as long as before, and so each asks and promises `Known`.

// Section 5. What a body of that level adds: its fields in order.
#[cycle(tree_sizes)]
fn body_sizes(w: &Walk<'_>, memo: &mut [u32], left: Left, at: usize, level: u8) -> Option<Left>
    requires known { Known w.now.tape.now w.now.st.now memo.old }
    requires at_in_bounds { at + 34 ≤ length w.now.tape.now }
    ensures { (result ≡ less left (body_adds level w.now.tape.now w.now.st.now (body_at w.now.tape.now at))) × Known w.now.tape.now w.now.st.now memo.new }
{
    let mut u = left;
    for j in 0..6 {
        let f = field_at(w.tape, at, j);
        u = field_sizes(w, memo, u, f, level)?;
    }
    Some(u)
}

#[cycle(tree_sizes)]
#[tactic(auto, using(std::proofs::lemmas::Bool::Decides::nat_tests), unfolding(crate::specs::InPlace::used_adds))]
fn field_sizes(w: &Walk<'_>, memo: &mut [u32], left: Left, f: FieldWords, level: u8) -> Option<Left>
    requires known { Known w.now.tape.now w.now.st.now memo.old }
    ensures { (result ≡ less left (used_adds (inner_adds level w.now.tape.now w.now.st.now) w.now.tape.now w.now.st.now (words_of f))) × Known w.now.tape.now w.now.st.now memo.new }
{
    match f.usage {
        Use::Contents => content_run_sizes(w, memo, left, f.first, f.second, level),
        Use::Segments => segment_run_sizes(w, memo, left, f.first, f.second, level),
        _ => string_sizes(left, f.usage, f.first),
    }
}

// Section 5. A run of contents that a body of that level names, with what is pushed before it. For segments, the same below. Tried as one
// function of a trait for both kinds: the borrow checker does not cover a cycle of calls that leads back through a trait's method. By a const
// parameter each clause would be a choice between the definitions of both kinds.
#[cycle(tree_sizes)]
fn content_run_sizes(
    w: &Walk<'_>,
    memo: &mut [u32],
    left: Left,
    start: u32,
    len: u32,
    level: u8,
) -> Option<Left>
    requires known { Known w.now.tape.now w.now.st.now memo.old }
    ensures { (result ≡ less left (content_run_adds (inner_adds level w.now.tape.now w.now.st.now) w.now.tape.now w.now.st.now start len)) × Known w.now.tape.now w.now.st.now memo.new }
{
    let n = content_count(w, start, len);
    let u = less(left, n, 0, 0)?;
    if n == 0 {
        return Some(u);
    }
    let run = Run {
        at: w.st.content_place(start),
        count: n as usize,
    };
    contents_walk(w, memo, u, run, level)
}

// Section 5. What is pushed before a run of contents.
#[cycle(tree_sizes)]
fn contents_walk(w: &Walk<'_>, memo: &mut [u32], left: Left, run: Run, level: u8) -> Option<Left>
    requires known { Known w.now.tape.now w.now.st.now memo.old }
    requires count_in_bounds { run.at + 10 * run.count ≤ length w.now.tape.now }
    ensures { (result ≡ less left (contents_add (inner_adds level w.now.tape.now w.now.st.now) w.now.tape.now w.now.st.now run.at run.count)) × Known w.now.tape.now w.now.st.now memo.new }
{
    let mut u = left;
    let mut i = 0;
    // Contents that are alike are passed at once: i rises by how many they are.
    while i < run.count {
        let next = content_sizes(w, memo, u, run.at + CONTENT_SIZE * i, level)?;
        let k = alike::contents_alike(w.tape, run.at + CONTENT_SIZE * i, run.count - i - 1);
        u = again(u, next, k)?;
        i += 1 + k;
    }
    Some(u)
}

// Where segment i of a store of one layer stands; None for any other.
fn lone_place(st: &Store, i: u32) -> Option<usize>
    ensures { result ≡ lone_place st.now i }
{
    if st.layers != 1 {
        return None;
    }
    if st.segments[0] != 0 {
        return None;
    }
    if st.totals.segments <= i {
        return None;
    }
    let before = 10
        + STRING_SIZE * st.totals.strings as usize
        + CONTENT_SIZE * st.totals.contents as usize;
    Some(before + SEGMENT_SIZE * i as usize)
}

// Section 5. Plain is a string, Segments a run; one of a single segment is that segment.
#[cycle(tree_sizes)]
fn content_sizes(w: &Walk<'_>, memo: &mut [u32], left: Left, at: usize, level: u8) -> Option<Left>
    requires known { Known w.now.tape.now w.now.st.now memo.old }
    requires at_in_bounds { at + 10 ≤ length w.now.tape.now }
    ensures { (result ≡ less left (content_adds (inner_adds level w.now.tape.now w.now.st.now) w.now.tape.now w.now.st.now (record_at content_codec w.now.tape.now at))) × Known w.now.tape.now w.now.st.now memo.new }
{
    let c = records::content_at(w.tape, at);
    if c.is_plain() {
        return less(left, 0, 0, 1);
    }
    if c.second != 1 {
        return segment_run_sizes(w, memo, left, c.first, c.second, level);
    }
    let Some(place) = lone_place(w.st, c.first) else {
        return segment_run_sizes(w, memo, left, c.first, c.second, level);
    };
    let u = less(left, 0, 1, 0)?;
    segment_sizes(w, memo, u, place, level)
}

// Section 5. A run of segments that a body of that level names, with what is pushed before it.
#[cycle(tree_sizes)]
fn segment_run_sizes(
    w: &Walk<'_>,
    memo: &mut [u32],
    left: Left,
    start: u32,
    len: u32,
    level: u8,
) -> Option<Left>
    requires known { Known w.now.tape.now w.now.st.now memo.old }
    ensures { (result ≡ less left (segment_run_adds (inner_adds level w.now.tape.now w.now.st.now) w.now.tape.now w.now.st.now start len)) × Known w.now.tape.now w.now.st.now memo.new }
{
    let n = segment_count(w, start, len);
    let u = less(left, 0, n, 0)?;
    if n == 0 {
        return Some(u);
    }
    let run = Run {
        at: w.st.segment_place(start),
        count: n as usize,
    };
    segments_walk(w, memo, u, run, level)
}

// Section 5. What is pushed before a run of segments.
#[cycle(tree_sizes)]
fn segments_walk(w: &Walk<'_>, memo: &mut [u32], left: Left, run: Run, level: u8) -> Option<Left>
    requires known { Known w.now.tape.now w.now.st.now memo.old }
    requires count_in_bounds { run.at + 37 * run.count ≤ length w.now.tape.now }
    ensures { (result ≡ less left (segments_add (inner_adds level w.now.tape.now w.now.st.now) w.now.tape.now run.at run.count)) × Known w.now.tape.now w.now.st.now memo.new }
{
    let mut u = left;
    let mut i = 0;
    // As for contents, i rises by how many are alike.
    while i < run.count {
        let next = segment_sizes(w, memo, u, run.at + SEGMENT_SIZE * i, level)?;
        let k = alike::segments_alike(w.tape, run.at + SEGMENT_SIZE * i, run.count - i - 1);
        u = again(u, next, k)?;
        i += 1 + k;
    }
    Some(u)
}

// The body of a segment is of the level below; below level 0 there is none. A text is one call; what is in the memo is not walked again.
#[cycle(tree_sizes)]
fn segment_sizes(w: &Walk<'_>, memo: &mut [u32], left: Left, at: usize, level: u8) -> Option<Left>
    requires known { Known w.now.tape.now w.now.st.now memo.old }
    requires at_in_bounds { at + 37 ≤ length w.now.tape.now }
    ensures { (result ≡ less left (inner_adds level w.now.tape.now w.now.st.now (record_at segment_codec w.now.tape.now at).body)) × Known w.now.tape.now w.now.st.now memo.new }
{
    if level == 0 {
        return Some(left);
    }
    if w.tape[at + 3] == TEXT {
        return less(left, 0, 0, 1);
    }
    let e = memo::entry_of(at, level);
    if memo::is_of(memo, e, at, level) {
        return with_entry(left, memo, e);
    }
    segment_walk(w, memo, left, at, level, e)
}

// The same by a walk, which is put into the memo as entry e.
#[cycle(tree_sizes)]
fn segment_walk(
    w: &Walk<'_>,
    memo: &mut [u32],
    left: Left,
    at: usize,
    level: u8,
    e: usize,
) -> Option<Left>
    requires known { Known w.now.tape.now w.now.st.now memo.old }
    requires at_in_bounds { (at + 37 ≤ length w.now.tape.now) × (1 ≤ level) × (e < 4096) }
    ensures { (result ≡ less left (inner_adds level w.now.tape.now w.now.st.now (record_at segment_codec w.now.tape.now at).body)) × Known w.now.tape.now w.now.st.now memo.new }
{
    let r = body_sizes(w, memo, left, at + 3, level - 1)?;
    note(memo, e, at, level, left, r);
    Some(r)
}

// How many contents the items of a run push, and how many segments: for a caller that knows that they can be counted. Each kind has a walk of
// its own in the cycle above, and so its own function here.
pub fn inner_contents(w: &Walk<'_>, run: Run, level: u8) -> u32
    requires count_in_bounds { run.at + 10 * run.count ≤ length w.now.tape.now }
    requires count_bound { ((contents_add (inner_adds level w.now.tape.now w.now.st.now) w.now.tape.now w.now.st.now run.at run.count).contents < 2 ^ 32) × ((contents_add (inner_adds level w.now.tape.now w.now.st.now) w.now.tape.now w.now.st.now run.at run.count).segments < 2 ^ 32) }
    ensures { result ≡ (contents_add (inner_adds level w.now.tape.now w.now.st.now) w.now.tape.now w.now.st.now run.at run.count).contents }
{
    let mut memo = [0u32; 1];
    let left = contents_walk(w, &mut memo[..], ANY, run, level).unwrap();
    MOST - left.contents
}

pub fn inner_segments(w: &Walk<'_>, run: Run, level: u8) -> u32
    requires count_in_bounds { run.at + 37 * run.count ≤ length w.now.tape.now }
    requires count_bound { ((segments_add (inner_adds level w.now.tape.now w.now.st.now) w.now.tape.now run.at run.count).contents < 2 ^ 32) × ((segments_add (inner_adds level w.now.tape.now w.now.st.now) w.now.tape.now run.at run.count).segments < 2 ^ 32) }
    ensures { result ≡ (segments_add (inner_adds level w.now.tape.now w.now.st.now) w.now.tape.now run.at run.count).segments }
{
    let mut memo = [0u32; 1];
    let left = segments_walk(w, &mut memo[..], ANY, run, level).unwrap();
    MOST - left.segments
}

// ---- Rubies of plain contents, by far the commonest nodes, without the walk

// Where the contents of a store of one layer stand; of none, for any other: no range with a content lies in that, so that a node is tested by it as
// by any run, where an `Option` would be asked for at each node.
fn only_contents(w: &Walk<'_>) -> Run
    ensures { Whole w.now.st.now result }
{
    if w.st.layers != 1 {
        return Run { at: 0, count: 0 };
    }
    if w.st.contents[0] != 0 {
        return Run { at: 0, count: 0 };
    }
    if w.st.totals.contents == 0 {
        return Run { at: 0, count: 0 };
    }
    Run {
        at: w.st.content_place(0),
        count: w.st.totals.contents as usize,
    }
}

fn plain_contents(tape: &[u8], run: Run) -> bool
    requires { run.at + 10 * run.count ≤ length tape.now }
    ensures { result ≡ all is_plain (records_at content_codec tape.now run.at run.count) }
{
    (0..run.count).all(|i| records::content_at(tape, run.at + CONTENT_SIZE * i).is_plain())
}

// A range of these contents, all of them plain.
fn plain_run(tape: &[u8], own: Run, start: u32, len: u32) -> bool
    requires { own.at + 10 * own.count ≤ length tape.now }
    ensures { result ≡ plain_run tape.now own start len }
{
    let from = start as usize;
    let n = len as usize;
    if own.count < from + n {
        return false;
    }
    let run = Run {
        at: own.at + CONTENT_SIZE * from,
        count: n,
    };
    plain_contents(tape, run)
}

// A Ruby whose base and reading are such ranges.
fn plain_ruby(tape: &[u8], own: Run, at: usize) -> bool
    requires { (own.at + 10 * own.count ≤ length tape.now) × (at + 49 ≤ length tape.now) }
    ensures { result ≡ plain_ruby tape.now own at }
{
    if !records::has_words(tape, at) {
        return false;
    }
    if tape[at + 15] != RUBY {
        return false;
    }
    let body = at + 15;
    if !plain_run(
        tape,
        own,
        records::body_word(tape, body, 0),
        records::body_word(tape, body, 1),
    ) {
        return false;
    }
    plain_run(
        tape,
        own,
        records::body_word(tape, body, 2),
        records::body_word(tape, body, 3),
    )
}

// Each content of such a Ruby is one call.
fn ruby_sizes(tape: &[u8], left: Left, at: usize) -> Option<Left>
    requires { at + 49 ≤ length tape.now }
    ensures { result ≡ less left (add (plain_adds (word_of (body_at tape.now (at + 15)) 1)) (plain_adds (word_of (body_at tape.now (at + 15)) 3))) }
{
    let base = records::body_word(tape, at + 15, 1);
    let reading = records::body_word(tape, at + 15, 3);
    let u = less(left, base, 0, base)?;
    less(u, reading, 0, reading)
}

// Section 5. A node of class 2 or 3 has no words; the levels in the runs of another are at most 32.
fn node_sizes(w: &Walk<'_>, own: Run, memo: &mut [u32], left: Left, at: usize) -> Option<Left>
    requires known { Known w.now.tape.now w.now.st.now memo.old × Whole w.now.st.now own × (own.at + 10 * own.count ≤ length w.now.tape.now) }
    requires at_in_bounds { at + 49 ≤ length w.now.tape.now }
    ensures { (result ≡ less left (node_adds w.now.tape.now w.now.st.now (record_at node_codec w.now.tape.now at))) × Known w.now.tape.now w.now.st.now memo.new }
{
    if plain_ruby(w.tape, own, at) {
        return ruby_sizes(w.tape, left, at);
    }
    if !records::has_words(w.tape, at) {
        return Some(left);
    }
    body_sizes(w, memo, left, at + 15, 33)
}

// Section 5. The nodes that stand from `at` on. Which nodes is an argument here and in the two functions below, and so is asked of each; a walk
// is lent as a whole, and knows of none.
fn nodes_sizes(w: &Walk<'_>, memo: &mut [u32], left: Left, run: Run) -> Option<Left>
    requires known { Known w.now.tape.now w.now.st.now memo.old }
    requires count_in_bounds { run.at + 49 * run.count ≤ length w.now.tape.now }
    ensures { result ≡ less left (nodes_add w.now.tape.now w.now.st.now run.at run.count) }
{
    let own = only_contents(w);
    let mut u = left;
    for i in 0..run.count {
        u = node_sizes(w, own, memo, u, run.at + NODE_SIZE * i)?;
    }
    Some(u)
}

// The same with a memo of our own.
fn nodes_noted(w: &Walk<'_>, left: Left, run: Run) -> Option<Left>
    requires count_in_bounds { run.at + 49 * run.count ≤ length w.now.tape.now }
    ensures { result ≡ less left (nodes_add w.now.tape.now w.now.st.now run.at run.count) }
{
    let mut memo = [0u32; 20480];
    nodes_sizes(w, &mut memo[..], left, run)
}

// Without segments there is nothing to remember, and no memo to clear.
fn nodes_left(w: &Walk<'_>, left: Left, run: Run) -> Option<Left>
    requires count_in_bounds { run.at + 49 * run.count ≤ length w.now.tape.now }
    ensures { result ≡ less left (nodes_add w.now.tape.now w.now.st.now run.at run.count) }
{
    if 0 < w.st.totals.segments {
        return nodes_noted(w, left, run);
    }
    let mut memo = [0u32; 1];
    nodes_sizes(w, &mut memo[..], left, run)
}

// Section 5. What the nodes of an opened book add, a reading or a book that is flattened.
pub fn reading_sizes(source: &Book, room: Room) -> Option<Sizes>
    requires { Limited room source.now.places.nodes.count }
    ensures { result ≡ sizes_in room (nodes_size (shown_nodes (book_of source.now))) }
{
    let w = Walk {
        tape: source.tape,
        st: &source.store,
    };
    // written out: nothing else makes a `Left` of a `Room`
    let all = Left {
        contents: room.contents,
        segments: room.segments,
        calls: MOST,
    };
    let left = nodes_left(&w, all, source.places.nodes)?;
    Some(taken(all, left))
}

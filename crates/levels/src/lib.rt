// Number 5 of document 01's table: the level of every segment is 0 for a text, and for a Node 1..32 and above every level in the
// runs that its contents or its caption name. A range is looked at again before it is read, so that nothing here asks for
// number 4. specs/Below.antt says what is tested, by the starts that a store remembers, and specs/Number.antt that for the store
// of the tape it is the model's `levels_ok` wherever number 4 holds.
//
// A run may be named by every segment, and be as long as its pool. So a book is first tested without tables: every range up to 16 is read one by
// one, a longer one is answered 'no', and then a 'no' says nothing. Where that does not say yes, two tables are made (crate `level_blocks`), of the
// segments and of the contents. A range is then walked from block to block, and an item is read only where its block is not below the level.
// specs/Told.antt is what an answer tells, without tables and with them.
#![tactic(auto)]

ghost use Rattle.std.specs.Prelude.{◌≡◌, ℕ, Bool, true, is_some, ◌&&◌, ◌+◌, ◌*◌, ◌^◌, ◌≤◌, ◌<◌, length};
ghost use Rattle.std.specs.Option.{ForSome};
ghost use Rattle.model.specs.Lists.{all};
ghost use Rattle.model.specs.Tape.{record_at, records_at, content_codec, segment_codec};
ghost use Rattle.records.specs.Values.{body_at};
ghost use Rattle.records.specs.Runs.{test_at};
ghost use Rattle.records.specs.Uses.{use_number};
ghost use Rattle.model.specs.WellFormed.{word_of};
ghost use Rattle.level_blocks.specs.Level.{below};
ghost use Rattle.level_blocks.specs.Blocks.{Risen};
ghost use Rattle.store.specs.Stored.{OfTape};
ghost use Rattle.levels.specs.Below.{segments_below, content_below, contents_below, used_below, body_below, level_in};
ghost use Rattle.levels.specs.Table.{segment_test, content_test, Said, Tests, Filled, Bound, Bounds, Block, Made};
ghost use Rattle.wire.specs.Loops.{all_up_to, Passed};
ghost use Rattle.places.specs.Walked.{layer_test};
ghost use Rattle.levels.specs.Told.{Told};
ghost use Rattle.levels.specs.Whole.{run_levels, levels_in};

use numbers::{CONTENT_SIZE, SEGMENT_SIZE};
use places::Run;
use records::{NODE, Use};
use store::Store;

// The longest range that is read item by item where there is no table.
const MOST_READ: u32 = 16;

// A tape and its store, both lent, and two tables as far as they are made: of the levels that its segments are below, and of those that the segments
// which its contents name are below.
#[derive(Clone, Copy)]
struct Book<'a, 't, 'h> {
    tape: &'a [u8],
    st: &'a Store,
    tops: Option<&'t [u8]>,
    heights: Option<&'h [u8]>,
    ghost of_tape: { OfTape tape.now st.now },
    ghost tops_made: { ForSome tops (λ w. Made (segment_test tape.now st.now) st.now.totals.segments w.now) },
    ghost heights_made: { ForSome heights (λ w. Made (content_test tape.now st.now) st.now.totals.contents w.now) },
}

// Do all items of a range pass? A table says so of many, and item k of the range is asked only where it does not.
fn walk<F: Fn(usize) -> bool>(table: &[u8], start: usize, len: usize, level: u8, passes: F) -> bool
    requires risen { Risen table.now 69904 }
    requires len_bound { start + len < 2 ^ 33 }
    requires callable { (k : ℕ) → k < len → F.pre passes k }
    ensures { (tabled : Bool) (test : ℕ → Bool) → Said table.now level start len test → Tests tabled test len (F.post passes) → Told tabled result (all_up_to len test) }
{
    let end = start + len;
    let mut i = start;
    // i rises as far as the table says, or past the one item.
    while i < end {
        let known = level_blocks::known_end(table, i, level);
        if i < known {
            i = known.min(end);
        } else if passes(i - start) {
            i += 1;
        } else {
            return false;
        }
    }
    true
}

// ---- ranges. Of segments and of contents: a table each, made after the other, with a record's size of its own.

impl Book<'_, '_, '_> {
    // Number 5. Every segment of a range is below a level. For contents the same below: each asks its own pool of the store, and its own table.
    fn segments_below(&self, start: u32, len: u32, level: u8) -> bool
        ensures { Told (is_some self.now.tops) result (segments_below self.now.tape.now self.now.st.now level start len) }
    {
        if !self.st.has_segments(start, len) {
            return false;
        }
        if len == 0 {
            return true;
        }
        let at = self.st.segment_place(start);
        if let Some(tops) = self.tops {
            return walk(
                tops,
                start as usize,
                len as usize,
                level,
                |k| -> bool
                    requires { at + 37 * k + 37 ≤ length self.now.tape.now }
                    ensures { result ≡ below level (record_at segment_codec self.entry.now.tape.now (at + 37 * k)) }
                { level_blocks::level_below(self.tape, at + SEGMENT_SIZE * k, level) },
            );
        }
        if MOST_READ < len {
            return false;
        }
        level_blocks::levels_below(self.tape, at, len as usize, level)
    }

    fn content_below(&self, at: usize, level: u8) -> bool
        requires at_in_bounds { at + 10 ≤ length self.now.tape.now }
        ensures { Told (is_some self.now.tops) result (content_below self.now.tape.now self.now.st.now level (record_at content_codec self.now.tape.now at)) }
    {
        let c = records::content_at(self.tape, at);
        if c.is_plain() {
            return true;
        }
        self.segments_below(c.first, c.second, level)
    }

    // All contents of a run, read one by one. By `for`, here and in `run_levels_ok`: a chain's closure is not told what the ghost fields say, and
    // would have both its clauses written out, as those lent to `walk` have.
    fn run_below(&self, run: Run, level: u8) -> bool
        requires count_in_bounds { run.at + 10 * run.count ≤ length self.now.tape.now }
        ensures { Told (is_some self.now.tops) result (all (content_below self.now.tape.now self.now.st.now level) (records_at content_codec self.now.tape.now run.at run.count)) }
    {
        for i in 0..run.count {
            if !self.content_below(run.at + CONTENT_SIZE * i, level) {
                return false;
            }
        }
        true
    }

    // Number 5. Every segment that a range of contents names is below a level.
    fn contents_below(&self, start: u32, len: u32, level: u8) -> bool
        ensures { Told (is_some self.now.tops && is_some self.now.heights) result (contents_below self.now.tape.now self.now.st.now level start len) }
    {
        if !self.st.has_contents(start, len) {
            return false;
        }
        if len == 0 {
            return true;
        }
        let at = self.st.content_place(start);
        if let Some(heights) = self.heights {
            return walk(
                heights,
                start as usize,
                len as usize,
                level,
                |k| -> bool
                    requires { (at + 10 * k + 10 ≤ length self.now.tape.now) × (at + 10 * k < 2 ^ 63) }
                    ensures { Told (is_some self.entry.now.tops) result (content_below self.entry.now.tape.now self.entry.now.st.now level (record_at content_codec self.entry.now.tape.now (at + 10 * k))) }
                { self.content_below(at + CONTENT_SIZE * k, level) },
            );
        }
        if MOST_READ < len {
            return false;
        }
        let run = Run {
            at,
            count: len as usize,
        };
        self.run_below(run, level)
    }
}

// ---- bodies, segments and layers

impl Book<'_, '_, '_> {
    // A word's use, the word and the next one go one by one: the struct of them is `sizes`', for fields in the Rust's order.
    fn used_below(&self, usage: Use, w: u32, next: u32, level: u8) -> bool
        ensures { Told (is_some self.now.tops && is_some self.now.heights) result (used_below self.now.tape.now self.now.st.now level (use_number usage) w next) }
    {
        match usage {
            Use::Contents => self.contents_below(w, next, level),
            Use::Segments => self.segments_below(w, next, level),
            _ => true,
        }
    }

    // Word i of the body at `at`, which has that use.
    fn word_below(&self, usage: Use, at: usize, i: usize, level: u8) -> bool
        requires at_in_bounds { (at + 34 ≤ length self.now.tape.now) × (i < 6) }
        ensures { Told (is_some self.now.tops && is_some self.now.heights) result (used_below self.now.tape.now self.now.st.now level (use_number usage) (word_of (body_at self.now.tape.now at) i) (word_of (body_at self.now.tape.now at) (i + 1))) }
    {
        let w = records::body_word(self.tape, at, i);
        let next = ids::next_word(self.tape, at, i);
        self.used_below(usage, w, next, level)
    }

    fn body_below(&self, at: usize, level: u8) -> bool
        requires at_in_bounds { at + 34 ≤ length self.now.tape.now }
        ensures { Told (is_some self.now.tops && is_some self.now.heights) result (body_below self.now.tape.now self.now.st.now level (body_at self.now.tape.now at)) }
    {
        let uses = records::uses_of(self.tape[at], self.tape[at + 1]);
        for i in 0..6 {
            if let Use::Unused = uses[i] {
                return true;
            }
            if !self.word_below(uses[i], at, i, level) {
                return false;
            }
        }
        true
    }

    // Number 5. The level of the segment at `at`.
    fn level_ok(&self, at: usize) -> bool
        requires at_in_bounds { at + 37 ≤ length self.now.tape.now }
        ensures { Told (is_some self.now.tops && is_some self.now.heights) result (level_in self.now.tape.now self.now.st.now (record_at segment_codec self.now.tape.now at)) }
    {
        let level = self.tape[at + 2];
        if self.tape[at + 1] < NODE {
            return level == 0;
        }
        if !level_blocks::level_in_range(level) {
            return false;
        }
        self.body_below(at + 3, level)
    }

    fn run_levels_ok(&self, run: Run) -> bool
        requires count_in_bounds { run.at + 37 * run.count ≤ length self.now.tape.now }
        ensures { Told (is_some self.now.tops && is_some self.now.heights) result (all (level_in self.now.tape.now self.now.st.now) (records_at segment_codec self.now.tape.now run.at run.count)) }
    {
        for i in 0..run.count {
            if !self.level_ok(run.at + SEGMENT_SIZE * i) {
                return false;
            }
        }
        true
    }

    // The layers from `first` on; those before it have passed.
    fn layers_ok(&self, first: usize) -> bool
        requires before { (first ≤ self.now.st.now.layers) × Passed (layer_test (run_levels self.now.tape.now self.now.st.now) self.now.tape.now) first }
        ensures { Told (is_some self.now.tops && is_some self.now.heights) result (levels_in self.now.tape.now self.now.st.now) }
    {
        for k in first..self.st.layers {
            if !self.run_levels_ok(self.st.layer_runs(k).segments) {
                return false;
            }
        }
        true
    }
}

// ---- the tables made

// The least level that all items of block k are below: item by item, `bound` raises it.
fn block_of<F: Fn(u32, u8) -> u8>(total: u32, k: usize, bound: &F) -> u8
    requires k_bound { k < 65536 }
    requires callable { (i m : ℕ) → i < total → F.pre bound.now i m }
    ensures { (P : ℕ → ℕ → Bool) → Bounds P total (F.post bound.now) → Block P total (16 * k) (16 * k + 16) result }
{
    let mut m = 1;
    for i in 16 * k..16 * k + 16 {
        if total as usize <= i {
            return m;
        }
        m = bound(i as u32, m);
    }
    m
}

// The entries of all blocks of a pool. A table's length is asked for, here and below, as often as it would stand in an array's type.
fn put_blocks<F: Fn(u32, u8) -> u8>(table: &mut [u8], total: u32, bound: F)
    requires table_len { length table.old ≡ 69904 }
    requires callable { (i m : ℕ) → i < total → F.pre bound i m }
    ensures { (P : ℕ → ℕ → Bool) → Bounds P total (F.post bound) → Filled P total table.new 65536 }
{
    for k in 0..65536 {
        if total as usize <= 16 * k {
            return;
        }
        table[k] = block_of(total, k, &bound);
    }
}

impl Book<'_, '_, '_> {
    // The least level, from m on, that segment i is below; 255 above 32: the byte that a table has where it knows none.
    fn segment_bound(&self, i: u32, m: u8) -> u8
        requires i_lt_segments { i < self.now.st.now.totals.segments }
        ensures { Bound (segment_test self.now.tape.now self.now.st.now) i m result }
    {
        let at = self.st.segment_place(i);
        let v = self.tape[at + 2];
        if v < m {
            return m;
        }
        if 32 < v {
            return 255;
        }
        v + 1
    }

    // The table of the segments; that of the contents, below, takes the bound of a content.
    fn put_tops(&self, tops: &mut [u8])
        requires tops_len { length tops.old ≡ 69904 }
        ensures { Filled (segment_test self.now.tape.now self.now.st.now) self.now.st.now.totals.segments tops.new 65536 }
    {
        put_blocks(
            tops,
            self.st.totals.segments,
            |i, m| -> u8
                requires { i < self.now.st.now.totals.segments }
                ensures { Bound (segment_test self.entry.now.tape.now self.entry.now.st.now) i m result }
            { self.segment_bound(i, m) },
        );
    }

    // The least level, from m on, that content i is below; 255 above 33. By `for`, as `run_below` is.
    fn content_bound(&self, i: u32, m: u8) -> u8
        requires i_lt_contents { i < self.now.st.now.totals.contents }
        ensures { Bound (content_test self.now.tape.now self.now.st.now) i m result }
    {
        let at = self.st.content_place(i);
        for r in m..34 {
            if self.content_below(at, r) {
                return r;
            }
        }
        255
    }

    fn put_heights(&self, heights: &mut [u8])
        requires heights_len { length heights.old ≡ 69904 }
        ensures { Filled (content_test self.now.tape.now self.now.st.now) self.now.st.now.totals.contents heights.new 65536 }
    {
        put_blocks(
            heights,
            self.st.totals.contents,
            |i, m| -> u8
                requires { i < self.now.st.now.totals.contents }
                ensures { Bound (content_test self.entry.now.tape.now self.entry.now.st.now) i m result }
            { self.content_bound(i, m) },
        );
    }

    // By both tables.
    fn levels_by_heights(&self, heights: &[u8]) -> bool
        requires tops { is_some self.now.tops ≡ true }
        requires made { Made (content_test self.now.tape.now self.now.st.now) self.now.st.now.totals.contents heights.now }
        ensures { result ≡ levels_in self.now.tape.now self.now.st.now }
    {
        let tabled = Book {
            tape: self.tape,
            st: self.st,
            tops: self.tops,
            heights: Some(heights),
        };
        tabled.layers_ok(0)
    }

    // By the table of the segments, and then by one of the contents that it serves to make.
    fn levels_by_tops(&self, tops: &[u8]) -> bool
        requires made { Made (segment_test self.now.tape.now self.now.st.now) self.now.st.now.totals.segments tops.now }
        ensures { result ≡ levels_in self.now.tape.now self.now.st.now }
    {
        let by_tops = Book {
            tape: self.tape,
            st: self.st,
            tops: Some(tops),
            heights: None,
        };
        let mut heights = [0u8; 69904];
        by_tops.put_heights(&mut heights);
        level_blocks::put_uppers(&mut heights);
        by_tops.levels_by_heights(&heights)
    }

    // By tables of its own.
    fn levels_tabled(&self) -> bool
        ensures { result ≡ levels_in self.now.tape.now self.now.st.now }
    {
        let mut tops = [0u8; 69904];
        self.put_tops(&mut tops);
        level_blocks::put_uppers(&mut tops);
        self.levels_by_tops(&tops)
    }
}

// Number 5, whole. The first layer is asked by itself: two calls of `levels_tabled` are to keep LLVM from making it part of this function, so that a
// book that needs no tables needs no room for them; no proof hangs on it. In a book without segments there is nothing to ask.
pub fn levels_ok(tape: &[u8], st: &Store) -> bool
    requires of_tape { OfTape tape.now st.now }
    ensures { result ≡ levels_in tape.now st.now }
{
    if st.totals.segments == 0 {
        return true;
    }
    if st.layers == 0 {
        return true;
    }
    let book = Book {
        tape,
        st,
        tops: None,
        heights: None,
    };
    if !book.run_levels_ok(st.layer_runs(0).segments) {
        return book.levels_tabled();
    }
    if book.layers_ok(1) {
        return true;
    }
    book.levels_tabled()
}

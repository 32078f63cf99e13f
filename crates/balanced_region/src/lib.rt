// The two ends of a region, document 01 section 6, over the text, the nodes and the pairs of a book's tape. They are not found by
// asking `safe_cut` of each newline: an offset that the nodes allow lies in a gap between two of them behind which both depths are 0,
// so one walk over the nodes meets all of them. What the pairs say of an offset that text and nodes allow is read from a window of
// offsets in lent words, which one walk over the pairs fills (crate `cuts`). The end is found by one walk over the nodes, for the first cut
// behind the edit's end, or one byte on where that cut would lose its blank line (wish 1). For the start one walk counts the depths and
// one goes back from gap to gap; depths can be counted backwards only as far as the last close without an open. If there is no cut
// behind it, one more walk, forwards, finds the last before it.
#![tactic(auto)]

ghost use Rattle.std.specs.Prelude.{◌≡◌, ◌+◌, ◌-◌, ◌*◌, ◌≤◌, ◌<◌, max, min, length};
ghost use Rattle.model.specs.Tape.{record_at, node_codec};
ghost use Rattle.span.specs.Values.{span_of};
ghost use Rattle.balanced_region.specs.Ends.{region_end_in, region_start_in};
ghost use Rattle.balanced_region.specs.Survives.{newline_kept, search_from};
ghost use Rattle.cuts.specs.Offsets.{first_in, last_from};
ghost use Rattle.cuts.specs.Window.{Window};
ghost use Rattle.cuts.specs.Gaps.{nodes_of, NodesIn};
ghost use Rattle.cuts.specs.Sources.{nodes_in, pairs_in};
ghost use Rattle.balanced_region.specs.EndSearch.{next_try, text_pairs_allow, gap_first};
ghost use Rattle.balanced_region.specs.Unmatched.{last_unmatched, depths_past, depths_before, no_depths, gap_from, Front};
ghost use Rattle.balanced_region.specs.StartSearch.{gap_last, last_cut, ends_behind_newline};

use cuts::{Depths, Source};
use numbers::NODE_SIZE;
use span::{SourceOffset, Span};

// An offset that is asked about is another at each call, so that it lies in the text is said there. Where there is no cut an offset says so, as in
// the definitions: the gap's end, which the caller has, or the d handed in, which the next gap takes. An `Option` would be taken apart at each gap.

// The next offset to try for a cut that text and pairs allow: where a pair lies across, all up to its end are refused. It is o itself
// where o is such a cut: from any other the search goes on. The words hold a window from one call to the next; why they are lent, and no part of a
// struct, is said at `Source::reach_at`. Inlined: a call at each offset makes a search over text without a blank line take twice as long.
#[inline]
fn next_try(source: &Source, o: SourceOffset, words: &mut [u32]) -> SourceOffset
    requires inside { o.0 ≤ length source.now.text.now }
    requires window { Window (pairs_in source.now) words.old }
    ensures value { result.0 ≡ next_try source.now.text.now (pairs_in source.now) o.0 }
    ensures window_2 { Window (pairs_in source.now) words.new }
{
    if !cuts::blank_line_before(source.text, o) {
        return SourceOffset(o.0 + 1);
    }
    o.max(source.reach_at(o, words))
}

// The first offset from lo on and before hi that text and pairs allow, else hi. Each step is as long as `next_try` says.
fn first_cut_in(
    source: &Source,
    lo: SourceOffset,
    hi: SourceOffset,
    words: &mut [u32],
) -> SourceOffset
    requires inside { hi.0 ≤ length source.now.text.now }
    requires window { Window (pairs_in source.now) words.old }
    ensures value { result.0 ≡ first_in (text_pairs_allow source.now.text.now (pairs_in source.now)) (hi.0 - lo.0) hi.0 }
    ensures window_2 { Window (pairs_in source.now) words.new }
{
    let mut c = lo;
    while c < hi {
        let next = next_try(source, c, words);
        if next == c {
            return c;
        }
        c = next;
    }
    hi
}

// The same of the gap that begins at `from`, behind `o`, where the nodes before it leave these depths.
fn gap_first(
    source: &Source,
    from: SourceOffset,
    o: SourceOffset,
    hi: SourceOffset,
    depths: Depths,
    words: &mut [u32],
) -> SourceOffset
    requires inside { (hi.0 ≤ length source.now.text.now) × (o.0 ≤ length source.now.text.now) }
    requires window { Window (pairs_in source.now) words.old }
    ensures value { result.0 ≡ gap_first source.now.text.now (pairs_in source.now) depths.blocks depths.warichu (max from.0 (o.0 + 1)) hi.0 }
    ensures window_2 { Window (pairs_in source.now) words.new }
{
    if !depths.are_zero() {
        return hi;
    }
    first_cut_in(source, from.max(SourceOffset(o.0 + 1)), hi, words)
}

// Section 6. End: the first safe offset after a newline at or behind an offset, else the length.
fn region_end(source: &Source, o: SourceOffset, words: &mut [u32]) -> SourceOffset
    requires inside { o.0 ≤ length source.now.text.now }
    requires nodes_in { NodesIn (length source.now.text.now) (nodes_in source.now) }
    requires window { Window (pairs_in source.now) words.old }
    ensures value { result.0 ≡ region_end_in source.now.text.now (nodes_in source.now) (pairs_in source.now) (length source.now.text.now - o.0) o.0 }
    ensures window_2 { Window (pairs_in source.now) words.new }
{
    let mut from = SourceOffset(0);
    let mut depths = Depths::NONE;
    for i in 0..source.nodes.count {
        let p = source.nodes.at + NODE_SIZE * i;
        let start = records::node_start(source.tape, p);
        let c = gap_first(source, from, o, SourceOffset(start.0 + 1), depths, words);
        if c <= start {
            return c;
        }
        from = records::node_end(source.tape, p);
        depths = depths.past(source.tape, p);
    }
    gap_first(source, from, o, source.end(), depths, words)
}

// What a number of nodes leave: both depths, and how many there are up to and with the last that closes at depth 0. Behind that
// one every close has its open.
#[derive(Clone, Copy, Debug, PartialEq, Eq)]
pub struct Passed {
    pub count: usize,
    pub depths: Depths,
    pub unmatched: usize,
}

impl Passed {
    fn unmatched_past(self, tape: &[u8], at: usize) -> usize
        requires { (at + 49 ≤ length tape.now) × (self.count < 9223372036854775808) }
        ensures { result ≡ last_unmatched self (record_at node_codec tape.now at) }
    {
        if self.depths.closes_unopened(tape, at) {
            self.count + 1
        } else {
            self.unmatched
        }
    }

    // The same and the node at `at`. That its numbers can rise by one is asked for as at `cuts`' depths.
    fn past(self, tape: &[u8], at: usize) -> Passed
        requires { (at + 49 ≤ length tape.now) × (self.count < 9223372036854775808) × (self.depths.blocks < 9223372036854775808) × (self.depths.warichu < 9223372036854775808) }
        ensures { result ≡ depths_past self (record_at node_codec tape.now at) }
    {
        Passed {
            count: self.count + 1,
            depths: self.depths.past(tape, at),
            unmatched: self.unmatched_past(tape, at),
        }
    }
}

// The depths behind the nodes that start before `bound`. How many they are is a part of the depths: a `for` would count twice.
fn depths_before(source: &Source, bound: SourceOffset) -> Passed
    ensures { result ≡ depths_before bound.0 no_depths (nodes_in source.now) }
{
    let mut d = Passed {
        count: 0,
        depths: Depths::NONE,
        unmatched: 0,
    };
    while d.count < source.nodes.count {
        let p = source.nodes.at + NODE_SIZE * d.count;
        if bound <= records::node_start(source.tape, p) {
            return d;
        }
        d = d.past(source.tape, p);
    }
    d
}

// Do text and pairs allow it?
fn text_pairs_allow(source: &Source, o: SourceOffset, words: &mut [u32]) -> bool
    requires inside { o.0 ≤ length source.now.text.now }
    requires window { Window (pairs_in source.now) words.old }
    ensures value { result ≡ text_pairs_allow source.now.text.now (pairs_in source.now) o.0 }
    ensures window_2 { Window (pairs_in source.now) words.new }
{
    next_try(source, o, words) == o
}

// The last offset from lo on and before hi that text and pairs allow, else d. Downwards, as `last_from` recurses.
fn last_cut_in(
    source: &Source,
    lo: SourceOffset,
    hi: SourceOffset,
    d: SourceOffset,
    words: &mut [u32],
) -> SourceOffset
    requires inside { hi.0 ≤ length source.now.text.now + 1 }
    requires window { Window (pairs_in source.now) words.old }
    ensures value { result.0 ≡ last_from (text_pairs_allow source.now.text.now (pairs_in source.now)) (hi.0 - lo.0) lo.0 d.0 }
    ensures window_2 { Window (pairs_in source.now) words.new }
{
    for c in (lo.0..hi.0).rev() {
        if text_pairs_allow(source, SourceOffset(c), words) {
            return SourceOffset(c);
        }
    }
    d
}

// The same of a gap where the nodes before it leave these depths.
fn gap_last(
    source: &Source,
    lo: SourceOffset,
    hi: SourceOffset,
    depths: Depths,
    d: SourceOffset,
    words: &mut [u32],
) -> SourceOffset
    requires inside { hi.0 ≤ length source.now.text.now + 1 }
    requires window { Window (pairs_in source.now) words.old }
    ensures value { result.0 ≡ gap_last source.now.text.now (pairs_in source.now) depths.blocks depths.warichu lo.0 hi.0 d.0 }
    ensures window_2 { Window (pairs_in source.now) words.new }
{
    if !depths.are_zero() {
        return d;
    }
    last_cut_in(source, lo, hi, d, words)
}

// Where the gap behind i nodes begins; that before the first node at 1, since 0 needs no search.
fn gap_from(source: &Source, i: usize) -> SourceOffset
    requires { i ≤ source.now.nodes.count }
    ensures { result.0 ≡ gap_from source.now.tape.now source.now.nodes i }
{
    if i == 0 {
        return SourceOffset(1);
    }
    records::node_end(source.tape, source.nodes.at + NODE_SIZE * (i - 1))
}

// The last cut at or before `bound`, behind the last unmatched close, else 0.
fn last_cut(source: &Source, d: Passed, bound: SourceOffset, words: &mut [u32]) -> SourceOffset
    requires inside { bound.0 ≤ length source.now.text.now }
    requires front { Front source.now.tape.now source.now.nodes bound.0 d }
    requires window { Window (pairs_in source.now) words.old }
    ensures value { result.0 ≡ last_cut source.now.text.now (nodes_in source.now) (pairs_in source.now) (gap_from source.now.tape.now source.now.nodes d.unmatched) bound.0 }
    ensures window_2 { Window (pairs_in source.now) words.new }
{
    let mut i = d.count;
    let mut depths = d.depths;
    let mut hi = bound;
    // Each turn begins where the one before has stopped, and the last is the one that finds a cut: no `for`. What is below lo says that a gap has
    // none, and is where the search goes on.
    loop {
        let lo = gap_from(source, i);
        let past = SourceOffset(hi.0 + 1);
        let c = gap_last(
            source,
            lo,
            past,
            depths,
            hi.min(SourceOffset(lo.0 - 1)),
            words,
        );
        if lo <= c {
            return c;
        }
        if i <= d.unmatched {
            return SourceOffset(0);
        }
        i -= 1;
        let p = source.nodes.at + NODE_SIZE * i;
        hi = c.min(records::node_start(source.tape, p));
        depths = depths.before(source.tape, p);
    }
}

// The last offset at or before `bound` that is a cut, else 0, by a walk from the first node on.
fn last_cut_before(source: &Source, bound: SourceOffset, words: &mut [u32]) -> SourceOffset
    requires inside { bound.0 ≤ length source.now.text.now }
    requires window { Window (pairs_in source.now) words.old }
    ensures value { result.0 ≡ last_cut source.now.text.now (nodes_in source.now) (pairs_in source.now) 1 bound.0 }
    ensures window_2 { Window (pairs_in source.now) words.new }
{
    let past = SourceOffset(bound.0 + 1);
    let mut from = SourceOffset(0);
    let mut depths = Depths::NONE;
    let mut last = SourceOffset(0);
    for i in 0..source.nodes.count {
        let p = source.nodes.at + NODE_SIZE * i;
        let start = records::node_start(source.tape, p);
        if bound <= start {
            return gap_last(source, from, past, depths, last, words);
        }
        last = gap_last(source, from, SourceOffset(start.0 + 1), depths, last, words);
        from = records::node_end(source.tape, p);
        depths = depths.past(source.tape, p);
    }
    gap_last(source, from, past, depths, last, words)
}

// Is it the end of the text, and a newline before it?
#[tactic(auto, using(std::proofs::lemmas::Bool::Decides::nat_tests), unfolding(crate::specs::StartSearch::ends_behind_newline))]
fn ends_behind_newline(text: &[u8], o: SourceOffset) -> bool
    requires { o.0 ≤ length text.now }
    ensures { result ≡ ends_behind_newline text.now o.0 }
{
    let o = o.0 as usize;
    o == text.len() && 1 <= o && text[o - 1] == b'\n'
}

// Section 6. Start: the last safe offset after a newline, at or before an offset, else 0.
fn region_start(source: &Source, o: SourceOffset, words: &mut [u32]) -> SourceOffset
    requires inside { o.0 ≤ length source.now.text.now }
    requires window { Window (pairs_in source.now) words.old }
    ensures value { result.0 ≡ region_start_in source.now.text.now (nodes_in source.now) (pairs_in source.now) o.0 }
    ensures window_2 { Window (pairs_in source.now) words.new }
{
    if ends_behind_newline(source.text, o) {
        return o;
    }
    let d = depths_before(source, o);
    let c = last_cut(source, d, o, words);
    if 0 < c.0 {
        return c;
    }
    if d.unmatched == 0 {
        return SourceOffset(0);
    }
    let start = records::node_start(source.tape, source.nodes.at + NODE_SIZE * (d.unmatched - 1));
    last_cut_before(source, o.min(start), words)
}

// A source inside whose text the nodes lie, and an edit of that text.
#[derive(Clone, Copy)]
pub struct Edited<'a> {
    pub source: Source<'a>,
    pub start: SourceOffset,
    pub end: SourceOffset,
    pub replacement: &'a [u8],
    pub ghost nodes_in: { NodesIn (length source.text.now) (nodes_of source.tape.now source.nodes) },
    pub ghost start_inside: { start.0 ≤ length source.text.now },
    pub ghost end_inside: { end.0 ≤ length source.text.now },
}

// Where fewer words than these are lent, the region is found by as many that are not lent: with a small window the pairs are walked more often.
const WINDOW_WORDS: usize = 16384;

// The same where there are many pairs.
const WIDE_WINDOW_WORDS: usize = 65536;

const MANY_PAIRS: usize = 8192;

impl<'a> Edited<'a> {
    ghost use Rattle.balanced_region.specs.Edits.{region_around};

    // Wish 1. Is the last byte before the edit's end a newline in the new text? It is the replacement's, or else the last one before the
    // edit.
    #[tactic(auto, using(std::proofs::lemmas::Bool::Decides::nat_tests), unfolding(crate::specs::Survives::newline_kept))]
    fn newline_kept(&self) -> bool
        ensures { result ≡ newline_kept self.now.source.text.now self.now.start.0 self.now.replacement.now }
    {
        let n = self.replacement.len();
        if 0 < n {
            self.replacement[n - 1] == b'\n'
        } else {
            1 <= self.start.0 && self.source.text[self.start.0 as usize - 1] == b'\n'
        }
    }

    // Wish 1. Where the search for the end begins. Only the cut one byte behind the edit's end can lose its blank line in the new text;
    // then it is passed over.
    #[tactic(auto, using(std::proofs::lemmas::Bool::Decides::nat_tests), unfolding(crate::specs::Survives::search_from))]
    fn search_from(&self) -> SourceOffset
        ensures { result.0 ≡ search_from self.now.source.text.now self.now.start.0 self.now.end.0 self.now.replacement.now }
    {
        if self.end == self.source.end() || self.newline_kept() {
            self.end
        } else {
            SourceOffset(self.end.0 + 1)
        }
    }

    // The region, with these words for the windows.
    fn region_in(&self, words: &mut [u32]) -> Span
        ensures { span_of result ≡ region_around self.now }
    {
        let behind = self.search_from();
        cuts::no_window(words);
        let from = region_start(&self.source, self.start, words);
        cuts::no_window(words);
        let to = region_end(&self.source, behind, words);
        Span {
            start: from,
            end: to,
        }
    }

    // The same with words of its own.
    fn region_by_own<const N: usize>(&self) -> Span
        requires { 4 * N < 9223372036854775808 }
        ensures { span_of result ≡ region_around self.now }
    {
        let mut own = [0u32; N];
        self.region_in(&mut own)
    }

    // Section 6. `balanced_region` of the edit.
    pub fn balanced_region(&self, words: &mut [u32]) -> Span
        ensures { span_of result ≡ region_around self.now }
    {
        let many = MANY_PAIRS < self.source.pairs.count;
        if many && words.len() < WIDE_WINDOW_WORDS {
            return self.region_by_own::<WIDE_WINDOW_WORDS>();
        }
        if words.len() < WINDOW_WORDS {
            return self.region_by_own::<WINDOW_WORDS>();
        }
        self.region_in(words)
    }
}

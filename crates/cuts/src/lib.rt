// Safe cuts, document 01 section 6, over the text, the nodes and the pairs of a book's tape: what one offset is asked. `safe_cut`
// answers by a walk over the nodes and one over the pairs.
#![tactic(auto)]

ghost use Rattle.std.specs.Prelude.{◌≡◌, SomeIff, ◌+◌, ◌-◌, ◌*◌, ◌≤◌, ◌<◌, max, min, List, length, get_or, set};
ghost use Rattle.model.specs.Limits.{max_text};
ghost use Rattle.model.specs.Types.{PairLink};
ghost use Rattle.model.specs.Tape.{record_at, node_codec, pair_codec};
ghost use Rattle.model.specs.Region.{blank_line_before, is_block_open, is_block_close, is_warichu_open, is_warichu_close, depth_behind};
ghost use Rattle.model.specs.Region.{nodes_allow_cut, pairs_allow_cut};
ghost use Rattle.cuts.specs.Safe.{cut_allowed, safe_cut_in};
ghost use Rattle.cuts.specs.Pairs.{reach_of, reach};
ghost use Rattle.cuts.specs.Window.{noted, Noted, Risen, Reaches, Window, next_size};
ghost use Rattle.cuts.specs.Depths.{effect_of, behind, before, is_unopened, closes_unopened};
ghost use Rattle.cuts.specs.Gaps.{NodesApart, depths_zero, nodes_of};

use numbers::{NODE_SIZE, PAIR_SIZE};
use records::{BLOCK_CLOSE, BLOCK_OPEN, DIRECTIVE};
use span::SourceOffset;

// A book's text, and the records of its tape that lie over it: nodes, one behind the other, and pairs.
#[derive(Clone, Copy)]
pub struct Source<'a> {
    pub tape: &'a [u8],
    pub text: &'a [u8],
    pub nodes: places::Run,
    pub pairs: places::Run,
    pub ghost nodes_inside: { nodes.at + 49 * nodes.count ≤ length tape.now },
    pub ghost pairs_inside: { pairs.at + 18 * pairs.count ≤ length tape.now },
    pub ghost nodes_apart: { NodesApart (nodes_of tape.now nodes) },
    pub ghost text_small: { length text.now ≤ max_text },
}

// Section 6. Two newline bytes before an offset.
#[tactic(auto, using(std::proofs::lemmas::Bool::Decides::nat_tests), unfolding(model::specs::Region::blank_line_before))]
pub fn blank_line_before(text: &[u8], o: SourceOffset) -> bool
    requires { o.0 ≤ length text.now }
    ensures { result ≡ blank_line_before text.now o.0 }
{
    let o = o.0 as usize;
    2 <= o && text[o - 2] == b'\n' && text[o - 1] == b'\n'
}

// What a node does to a depth. That a depth can rise by one is asked of each that steps one: a type for it would be made anew at each step.
#[derive(Clone, Copy, Debug, PartialEq, Eq)]
enum Effect {
    Opens,
    Closes,
    Neither,
}

impl Effect {
    // The depth behind the node; a fall below 0 counts as 0.
    #[tactic(auto, unfolding(crate::specs::Depths::behind))]
    fn behind(self, depth: usize) -> usize
        requires { depth < 9223372036854775808 }
        ensures { result ≡ behind self depth }
    {
        match self {
            Effect::Opens => depth + 1,
            Effect::Closes => depth.saturating_sub(1),
            Effect::Neither => depth,
        }
    }

    // The same over a node with open and close exchanged: the depth before it, unless it closes at depth 0.
    #[tactic(auto, unfolding(crate::specs::Depths::before))]
    fn before(self, depth: usize) -> usize
        requires { depth < 9223372036854775808 }
        ensures { result ≡ before self depth }
    {
        match self {
            Effect::Opens => depth.saturating_sub(1),
            Effect::Closes => depth + 1,
            Effect::Neither => depth,
        }
    }

    // A close at depth 0.
    #[tactic(auto, unfolding(crate::specs::Depths::is_unopened))]
    fn is_unopened(self, depth: usize) -> bool
        ensures { result ≡ is_unopened self depth }
    {
        match self {
            Effect::Closes => depth == 0,
            Effect::Opens | Effect::Neither => false,
        }
    }
}

// The tags of the Directives about a warichu.
const WARICHU_OPEN: u8 = 4;

const WARICHU_CLOSE: u8 = 5;

// Blocks are opened and closed by nodes of their own, by class. A node is named by its place, as in crate `records`.
#[tactic(auto, using(std::proofs::lemmas::Bool::Decides::nat_tests), unfolding(crate::specs::Depths::effect_of, model::specs::Tape::record_at, model::specs::Tape::operands_at, model::specs::Tape::node_codec))]
fn block_effect(tape: &[u8], at: usize) -> Effect
    requires { at + 49 ≤ length tape.now }
    ensures { result ≡ effect_of is_block_open is_block_close (record_at node_codec tape.now at) }
{
    match tape[at + 1] {
        BLOCK_OPEN => Effect::Opens,
        BLOCK_CLOSE => Effect::Closes,
        _ => Effect::Neither,
    }
}

// A warichu by a Directive, Inline or BlockLeaf.
#[tactic(auto, using(std::proofs::lemmas::Bool::Decides::nat_tests), unfolding(crate::specs::Depths::effect_of, model::specs::Tape::record_at, model::specs::Tape::operands_at, model::specs::Tape::node_codec))]
fn warichu_effect(tape: &[u8], at: usize) -> Effect
    requires { at + 49 ≤ length tape.now }
    ensures { result ≡ effect_of is_warichu_open is_warichu_close (record_at node_codec tape.now at) }
{
    if BLOCK_OPEN <= tape[at + 1] || tape[at + 15] != DIRECTIVE {
        return Effect::Neither;
    }
    match tape[at + 16] {
        WARICHU_OPEN => Effect::Opens,
        WARICHU_CLOSE => Effect::Closes,
        _ => Effect::Neither,
    }
}

// How many blocks are open, and how many warichus.
#[derive(Clone, Copy, Debug, PartialEq, Eq)]
pub struct Depths {
    pub blocks: usize,
    pub warichu: usize,
}

impl Depths {
    pub const NONE: Depths = Depths {
        blocks: 0,
        warichu: 0,
    };

    // Two comparisons, as the definition has them; `==` with NONE would be told of the struct, and need a law to tell of its two numbers.
    pub fn are_zero(self) -> bool
        ensures { result ≡ depths_zero self.blocks self.warichu }
    {
        self.blocks == 0 && self.warichu == 0
    }

    // Behind the node at `at`.
    pub fn past(self, tape: &[u8], at: usize) -> Depths
        requires { (at + 49 ≤ length tape.now) × (self.blocks < 9223372036854775808) × (self.warichu < 9223372036854775808) }
        ensures block_depth { result.blocks ≡ depth_behind is_block_open is_block_close self.blocks (record_at node_codec tape.now at) }
        ensures warichu_depth { result.warichu ≡ depth_behind is_warichu_open is_warichu_close self.warichu (record_at node_codec tape.now at) }
    {
        Depths {
            blocks: block_effect(tape, at).behind(self.blocks),
            warichu: warichu_effect(tape, at).behind(self.warichu),
        }
    }

    // Before the node at `at`, counted backwards. One function for both would take as a closure what an effect does to a depth, and its clauses with it.
    pub fn before(self, tape: &[u8], at: usize) -> Depths
        requires { (at + 49 ≤ length tape.now) × (self.blocks < 9223372036854775808) × (self.warichu < 9223372036854775808) }
        ensures block_depth { result.blocks ≡ depth_behind is_block_close is_block_open self.blocks (record_at node_codec tape.now at) }
        ensures warichu_depth { result.warichu ≡ depth_behind is_warichu_close is_warichu_open self.warichu (record_at node_codec tape.now at) }
    {
        Depths {
            blocks: block_effect(tape, at).before(self.blocks),
            warichu: warichu_effect(tape, at).before(self.warichu),
        }
    }

    // Does the node at `at` close what none has opened?
    pub fn closes_unopened(self, tape: &[u8], at: usize) -> bool
        requires { at + 49 ≤ length tape.now }
        ensures { result ≡ closes_unopened self.blocks self.warichu (record_at node_codec tape.now at) }
    {
        block_effect(tape, at).is_unopened(self.blocks)
            || warichu_effect(tape, at).is_unopened(self.warichu)
    }
}

// Single fields of a pair, as those of a node in crate `records`.
fn pair_start(tape: &[u8], at: usize) -> SourceOffset
    requires { at + 18 ≤ length tape.now }
    ensures { result.0 ≡ (record_at pair_codec tape.now at).opening.start }
{
    SourceOffset(wire::u32_at(tape, at + 2))
}

fn pair_end(tape: &[u8], at: usize) -> SourceOffset
    requires { at + 18 ≤ length tape.now }
    ensures { result.0 ≡ (record_at pair_codec tape.now at).closing.end }
{
    SourceOffset(wire::u32_at(tape, at + 14))
}

// What a pair adds to the reach at an offset: its end, if it starts before.
fn reach_of(start: SourceOffset, end: SourceOffset, o: SourceOffset) -> SourceOffset
    ensures { result.0 ≡ reach_of start.0 end.0 o.0 }
{
    if start < o { end } else { SourceOffset(0) }
}

// The reach at many offsets: one walk over the pairs fills a window. Word 0 has its first offset, word 1 how many offsets it has,
// the words behind them the reach at each. An offset outside of it asks for a new one, sixteen times as large as far as there are words.

// The number of the first offset of a window that lies behind a start.
fn slot_of(from: SourceOffset, start: SourceOffset) -> usize
    ensures { result ≡ start.0 + 1 - from.0 }
{
    (start.0 as usize + 1).saturating_sub(from.0 as usize)
}

fn note(slots: &mut [u32], from: SourceOffset, start: SourceOffset, end: SourceOffset)
    ensures { slots.new ≡ noted slots.old from.0 start.0 end.0 }
{
    let k = slot_of(from, start);
    if k < slots.len() {
        slots[k] = slots[k].max(end.0);
    }
}

// The greatest so far at each.
fn run_up(slots: &mut [u32])
    ensures { Risen slots.old slots.new }
{
    let mut far: u32 = 0;
    for slot in slots.iter_mut() {
        far = far.max(*slot);
        *slot = far;
    }
}

fn put_bounds(words: &mut [u32], from: SourceOffset, size: u32)
    requires { 2 ≤ length words.old }
    ensures { words.new ≡ set (set words.old 0 from.0) 1 size }
{
    words[0] = from.0;
    words[1] = size;
}

// How many offsets the next window has.
fn next_size(room: usize, size: u32) -> usize
    ensures { result ≡ next_size room size }
{
    if room / 16 <= size as usize {
        room
    } else {
        16 * (size as usize) + 1
    }
}

// Which word has the reach at an offset, if one has.
fn reach_word(from: SourceOffset, size: u32, o: SourceOffset) -> Option<usize>
    ensures { SomeIff result ((from.0 ≤ o.0) × (o.0 - from.0 < size)) (2 + (o.0 - from.0)) }
{
    let k = o.0.checked_sub(from.0)?;
    if k < size { Some(2 + k as usize) } else { None }
}

// No more offsets than a word can count.
fn room_in(len: usize) -> usize
    requires { 3 ≤ len }
    ensures { result ≡ min (len - 2) 16777216 }
{
    (len - 2).min(16777216)
}

// No window yet.
pub fn no_window(words: &mut [u32])
    ensures { (ps : List PairLink) → Window ps words.new }
{
    if 2 <= words.len() {
        words[1] = 0;
    }
}

impl<'a> Source<'a> {
    ghost use Rattle.cuts.specs.Sources.{nodes_in, pairs_in};

    // Where the text ends.
    pub fn end(&self) -> SourceOffset
        ensures { result.0 ≡ length self.now.text.now }
    {
        SourceOffset(self.text.len() as u32)
    }

    // How far the pairs reach that start before an offset: the greatest end. From the last pair to the first, as `reach` goes over them.
    fn reach(&self, o: SourceOffset) -> SourceOffset
        ensures { result.0 ≡ reach (pairs_in self.now) o.0 }
    {
        let mut far = SourceOffset(0);
        for i in (0..self.pairs.count).rev() {
            let p = self.pairs.at + PAIR_SIZE * i;
            far = far.max(reach_of(pair_start(self.tape, p), pair_end(self.tape, p), o));
        }
        far
    }

    // Section 6. No pair with open start < offset < close end.
    fn pairs_allow_cut(&self, o: SourceOffset) -> bool
        ensures { result ≡ pairs_allow_cut (pairs_in self.now) o.0 }
    {
        self.reach(o) <= o
    }

    // Section 6. No node across; block and warichu depths 0 (falls below 0 count as 0).
    fn nodes_allow_cut(&self, o: SourceOffset) -> bool
        ensures { result ≡ nodes_allow_cut (nodes_in self.now) o.0 }
    {
        let mut depths = Depths::NONE;
        for i in 0..self.nodes.count {
            let p = self.nodes.at + NODE_SIZE * i;
            if o <= records::node_start(self.tape, p) {
                return depths.are_zero();
            }
            if o < records::node_end(self.tape, p) {
                return false;
            }
            depths = depths.past(self.tape, p);
        }
        depths.are_zero()
    }

    // Text, nodes and pairs allow a cut.
    #[tactic(auto, using(std::proofs::lemmas::Bool::Decides::nat_tests), unfolding(crate::specs::Safe::cut_allowed))]
    fn cut_allowed(&self, o: SourceOffset) -> bool
        requires { o.0 ≤ length self.now.text.now }
        ensures { result ≡ cut_allowed self.now.text.now (nodes_in self.now) (pairs_in self.now) o.0 }
    {
        blank_line_before(self.text, o) && self.nodes_allow_cut(o) && self.pairs_allow_cut(o)
    }

    // Section 6. `safe_cut`: 0 and the length always; elsewhere text, nodes and pairs allow it.
    #[tactic(auto, using(std::proofs::lemmas::Bool::Decides::nat_tests), unfolding(crate::specs::Safe::safe_cut_in))]
    pub fn safe_cut(&self, o: SourceOffset) -> bool
        requires { o.0 ≤ length self.now.text.now }
        ensures { result ≡ safe_cut_in self.now.text.now (nodes_in self.now) (pairs_in self.now) o.0 }
    {
        o.0 == 0 || o == self.end() || self.cut_allowed(o)
    }

    // Each pair's end at the first offset behind its start, the greatest where several are. From the last pair to the first, as `Noted` says.
    fn note_pairs(&self, slots: &mut [u32], from: SourceOffset)
        ensures { Noted (pairs_in self.now) from.0 slots.new }
    {
        wire::zero_words(slots);
        for i in (0..self.pairs.count).rev() {
            let p = self.pairs.at + PAIR_SIZE * i;
            note(
                slots,
                from,
                pair_start(self.tape, p),
                pair_end(self.tape, p),
            );
        }
    }

    fn fill_slots(&self, slots: &mut [u32], from: SourceOffset)
        ensures { Reaches (pairs_in self.now) from.0 slots.new }
    {
        self.note_pairs(slots, from);
        run_up(slots);
    }

    fn fill(&self, words: &mut [u32], from: SourceOffset, size: u32)
        requires { 2 + size ≤ length words.old }
        ensures { Window (pairs_in self.now) words.new × (get_or words.new 0 0 ≡ from.0) × (get_or words.new 1 0 ≡ size) }
    {
        put_bounds(words, from, size);
        self.fill_slots(&mut words[2..2 + size as usize], from);
    }

    // The reach at an offset, by a new window with that offset in it. Windows begin at multiples of their size, to serve both ways.
    fn refill(&self, o: SourceOffset, words: &mut [u32], size: u32) -> SourceOffset
        requires { 3 ≤ length words.old }
        ensures value { result.0 ≡ reach (pairs_in self.now) o.0 }
        ensures window { Window (pairs_in self.now) words.new }
    {
        let n = next_size(room_in(words.len()), size) as u32;
        let j = o.0 % n;
        self.fill(words, SourceOffset(o.0 - j), n);
        SourceOffset(words[2 + j as usize])
    }

    // The reach at an offset, by the window in the words. The words are lent to each call: where a struct holds them, each of its methods has to
    // say that they, their length and the source stay the same, in place of the one fact that they are a window.
    pub fn reach_at(&self, o: SourceOffset, words: &mut [u32]) -> SourceOffset
        requires window { Window (pairs_in self.now) words.old }
        ensures value { result.0 ≡ reach (pairs_in self.now) o.0 }
        ensures window_2 { Window (pairs_in self.now) words.new }
    {
        if words.len() < 3 {
            return self.reach(o);
        }
        let size = words[1];
        match reach_word(SourceOffset(words[0]), size, o) {
            Some(k) => SourceOffset(words[k]),
            None => self.refill(o, words, size),
        }
    }
}

// Document 01 section 3: a store remembers where each of its layers begins, in each of three pools. `store_of` fills it by one
// walk over the layers of a tape whose places are known; ids and ranges are then tests on one pool's starts, and the place of
// any string, content or segment record in the tape is a sum of starts: layer k begins at 9 + k + 5 × strings before + 10 ×
// contents before + 37 × segments before. specs/Pools.antt says what the tests mean, specs/Standing.antt what stands there.
#![tactic(auto)]

mod layers;

ghost use Rattle.std.specs.Prelude.{◌≡◌, ◌+◌, ◌^◌, ◌≤◌, ◌<◌, ltb};
ghost use Rattle.store.specs.Pools.{start_or, in_layer, in_one, range_in, layer_of};
ghost use Rattle.store.specs.Stored.{StoreFits, add_runs, store_at};
ghost use Rattle.store.specs.Standing.{string_start, content_start, segment_start, string_place, content_place, segment_place, runs_by};

pub use layers::Layers;
use numbers::{CONTENT_SIZE, HEAD_SIZE, SEGMENT_SIZE, STRING_SIZE};
use places::{LayerRuns, Run};
use span::StrId;

// How many strings, contents and segments all layers hold.
#[derive(Clone, Copy)]
pub struct Totals {
    pub strings: u32,
    pub contents: u32,
    pub segments: u32,
}

// `NodeStore`: where each layer begins in each pool; 0 past the last layer. A list for each pool, and none of triples: every start and every
// test is of one pool, and is told of that pool's list (specs/Pools).
#[derive(Clone, Copy)]
pub struct Store {
    pub layers: usize,
    pub strings: [u32; 32],
    pub contents: [u32; 32],
    pub segments: [u32; 32],
    pub totals: Totals,
}

// Where layer i of a pool begins; past the last layer, where the pool ends. The starts come with how many of them count, as
// specs/Pools has them: for a slice that is cut to as many, each law there would be needed of the slice and of the store. A struct of
// starts, count and total would be made of three fields at each question.
#[tactic(auto, using(std::proofs::lemmas::Bool::Decides::nat_tests))]
fn start_or(starts: &[u32; 32], layers: usize, total: u32, i: usize) -> u32
    requires { layers ≤ 32 }
    ensures { result ≡ start_or starts.now layers total i }
{
    if i < layers { starts[i] } else { total }
}

#[tactic(auto, using(std::proofs::lemmas::Bool::Decides::nat_tests), unfolding(crate::specs::Pools::in_layer))]
fn in_layer(
    starts: &[u32; 32],
    layers: usize,
    total: u32,
    start: usize,
    end: usize,
    i: usize,
) -> bool
    requires { (layers ≤ 32) × (i < layers) }
    ensures { result ≡ in_layer starts.now layers total start end i }
{
    starts[i] as usize <= start && end <= start_or(starts, layers, total, i + 1) as usize
}

fn in_one_layer(starts: &[u32; 32], layers: usize, total: u32, start: usize, end: usize) -> bool
    requires { layers ≤ 32 }
    ensures { result ≡ in_one starts.now layers total start end }
{
    (0..layers).any(|i| in_layer(starts, layers, total, start, end, i))
}

// Section 3. Start plus length is at most the pool's count, and a range of length above 0 lies in one layer.
#[tactic(auto, using(std::proofs::lemmas::Bool::Decides::nat_tests), unfolding(crate::specs::Pools::range_in))]
fn range_ok(starts: &[u32; 32], layers: usize, total: u32, start: u32, len: u32) -> bool
    requires { layers ≤ 32 }
    ensures { result ≡ range_in starts.now layers total start len }
{
    let from = start as usize;
    let end = from + len as usize;
    end <= total as usize && (len == 0 || in_one_layer(starts, layers, total, from, end))
}

// The last layer that begins at or before item i: the one that holds it. A chain by `rposition` would turn its None into 0.
fn layer_of(starts: &[u32; 32], layers: usize, i: u32) -> usize
    requires { layers ≤ 32 }
    ensures { result ≡ layer_of starts.now layers i }
{
    for k in (0..layers).rev() {
        if starts[k] <= i {
            return k;
        }
    }
    0
}

fn with_layer(a: Totals, l: LayerRuns) -> Totals
    requires { (a.strings + l.strings.count < 2 ^ 32) × (a.contents + l.contents.count < 2 ^ 32) × (a.segments + l.segments.count < 2 ^ 32) }
    ensures { result ≡ add_runs a l }
{
    Totals {
        strings: a.strings + l.strings.count as u32,
        contents: a.contents + l.contents.count as u32,
        segments: a.segments + l.segments.count as u32,
    }
}

// Section 3. The store of a tape's layers, at most 32.
pub fn store_of(tape: &[u8], layers: usize) -> Store
    requires { StoreFits tape.now layers }
    ensures { result ≡ store_at tape.now }
{
    let mut strings = [0u32; 32];
    let mut contents = [0u32; 32];
    let mut segments = [0u32; 32];
    let mut totals = Totals {
        strings: 0,
        contents: 0,
        segments: 0,
    };
    let mut at = HEAD_SIZE;
    for i in 0..layers {
        let l = places::next_layer(tape, at);
        strings[i] = totals.strings;
        contents[i] = totals.contents;
        segments[i] = totals.segments;
        totals = with_layer(totals, l);
        at = l.end;
    }
    Store {
        layers,
        strings,
        contents,
        segments,
        totals,
    }
}

// What is asked of a store. That it has at most 32 layers is asked for and is no field's fact: `store_at` is the store of any tape, and would have to
// say what that of a tape with more of them is.
impl Store {
    // Where layer k begins among the strings; past the last layer, where they end. For contents and segments, the same:
    // each hands on its own pool's fields.
    pub fn string_start(&self, k: usize) -> u32
        requires { self.now.layers ≤ 32 }
        ensures { result ≡ string_start self.now k }
    {
        start_or(&self.strings, self.layers, self.totals.strings, k)
    }

    fn content_start(&self, k: usize) -> u32
        requires { self.now.layers ≤ 32 }
        ensures { result ≡ content_start self.now k }
    {
        start_or(&self.contents, self.layers, self.totals.contents, k)
    }

    fn segment_start(&self, k: usize) -> u32
        requires { self.now.layers ≤ 32 }
        ensures { result ≡ segment_start self.now k }
    {
        start_or(&self.segments, self.layers, self.totals.segments, k)
    }

    // Section 4. Where the records of layer k stand: a layer that was counted once need not be counted again. That starts rise is not asked here.
    #[tactic(auto, unfolding(crate::specs::Standing::runs_by))]
    pub fn layer_runs(&self, k: usize) -> LayerRuns
        requires { (self.now.layers ≤ 32) × (k < self.now.layers) }
        ensures { result ≡ runs_by self.now k }
    {
        let a = self.string_start(k) as usize;
        let b = self.content_start(k) as usize;
        let g = self.segment_start(k) as usize;
        let strings = self.string_start(k + 1) as usize;
        let contents = self.content_start(k + 1) as usize;
        let segments = self.segment_start(k + 1) as usize;
        LayerRuns {
            strings: Run {
                at: 10 + k + STRING_SIZE * a + CONTENT_SIZE * b + SEGMENT_SIZE * g,
                count: strings.saturating_sub(a),
            },
            contents: Run {
                at: 10 + k + STRING_SIZE * strings + CONTENT_SIZE * b + SEGMENT_SIZE * g,
                count: contents.saturating_sub(b),
            },
            segments: Run {
                at: 10 + k + STRING_SIZE * strings + CONTENT_SIZE * contents + SEGMENT_SIZE * g,
                count: segments.saturating_sub(g),
            },
            end: 10 + k + STRING_SIZE * strings + CONTENT_SIZE * contents + SEGMENT_SIZE * segments,
        }
    }

    // The layer that holds string i.
    pub fn string_layer(&self, i: StrId) -> usize
        requires { self.now.layers ≤ 32 }
        ensures { result ≡ layer_of self.now.strings self.now.layers i.0 }
    {
        layer_of(&self.strings, self.layers, i.0)
    }

    // Number 4. Is there a string of that id?
    pub fn has_string(&self, id: StrId) -> bool
        ensures { result ≡ ltb id.0 self.now.totals.strings }
    {
        id.0 < self.totals.strings
    }

    // Number 4. Is that a range of contents? For segments the same below: each hands one pool's fields to the function that they share.
    pub fn has_contents(&self, start: u32, len: u32) -> bool
        requires { self.now.layers ≤ 32 }
        ensures { result ≡ range_in self.now.contents self.now.layers self.now.totals.contents start len }
    {
        range_ok(
            &self.contents,
            self.layers,
            self.totals.contents,
            start,
            len,
        )
    }

    // Number 4. Is that a range of segments?
    pub fn has_segments(&self, start: u32, len: u32) -> bool
        requires { self.now.layers ≤ 32 }
        ensures { result ≡ range_in self.now.segments self.now.layers self.now.totals.segments start len }
    {
        range_ok(
            &self.segments,
            self.layers,
            self.totals.segments,
            start,
            len,
        )
    }

    // Section 4. Where the string record of that number stands. For contents and segments by sums of their own: what stands before it in its layer
    // counts up to the layer's end, all else up to its start.
    #[tactic(auto, using(crate::specs::Pools::layer_few), unfolding(crate::specs::Standing::string_place))]
    pub fn string_place(&self, i: StrId) -> usize
        requires { self.now.layers ≤ 32 }
        ensures { result ≡ string_place self.now i.0 }
    {
        let k = self.string_layer(i);
        let b = self.content_start(k) as usize;
        let g = self.segment_start(k) as usize;
        10 + k + STRING_SIZE * i.0 as usize + CONTENT_SIZE * b + SEGMENT_SIZE * g
    }

    #[tactic(auto, using(crate::specs::Pools::layer_few), unfolding(crate::specs::Standing::content_place))]
    pub fn content_place(&self, i: u32) -> usize
        requires { self.now.layers ≤ 32 }
        ensures { result ≡ content_place self.now i }
    {
        let k = layer_of(&self.contents, self.layers, i);
        let a = self.string_start(k + 1) as usize;
        let g = self.segment_start(k) as usize;
        10 + k + STRING_SIZE * a + CONTENT_SIZE * i as usize + SEGMENT_SIZE * g
    }

    #[tactic(auto, using(crate::specs::Pools::layer_few), unfolding(crate::specs::Standing::segment_place))]
    pub fn segment_place(&self, i: u32) -> usize
        requires { self.now.layers ≤ 32 }
        ensures { result ≡ segment_place self.now i }
    {
        let k = layer_of(&self.segments, self.layers, i);
        let a = self.string_start(k + 1) as usize;
        let b = self.content_start(k + 1) as usize;
        10 + k + STRING_SIZE * a + CONTENT_SIZE * b + SEGMENT_SIZE * i as usize
    }
}

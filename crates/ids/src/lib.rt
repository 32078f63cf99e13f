// Number 4 of document 01's table: every id and range of every pool item, used or not, and of every node. The field that begins
// at a word of a body is known by the word's use; a body is its six words, a record its body, a run its records, and the tape
// its layers and its nodes, walked once. specs/Tests.antt says what is tested, by the starts that a store remembers, and
// specs/Whole.antt that for the store of the tape it is the model's `ids_ok`.
#![tactic(auto)]

ghost use Rattle.std.specs.Prelude.{◌≡◌, ℕ, ◌+◌, ◌*◌, ◌≤◌, ◌<◌, length, List};
ghost use Rattle.model.specs.WellFormed.{word_of, ids_ok};
ghost use Rattle.records.specs.Values.{body_at};
ghost use Rattle.model.specs.Lists.{all};
ghost use Rattle.model.specs.Tape.{record_at, records_at, content_codec, segment_codec, node_codec, places, book_at};
ghost use Rattle.records.specs.Uses.{use_number};
ghost use Rattle.ids.specs.Tests.{used_well, two_runs, body_in, content_in, segment_in, node_in};
ghost use Rattle.places.specs.Walked.{RunsFit, PlacesFit, all_layers};
ghost use Rattle.store.specs.Stored.{OfTape};
ghost use Rattle.ids.specs.Whole.{runs_in};

use numbers::{CONTENT_SIZE, NODE_SIZE, SEGMENT_SIZE};
use places::{LayerRuns, Places, Run};
use records::{RUBY, Use};
use span::StrId;
use store::Store;

// The id of a missing string: a value of the tape's own format.
pub const NO_STRING: StrId = StrId(4294967295);

// The word behind word i, 0 behind the last.
pub fn next_word(tape: &[u8], at: usize, i: usize) -> u32
    requires { (at + 34 ≤ length tape.now) × (i < 6) }
    ensures { result ≡ word_of (body_at tape.now at) (i + 1) }
{
    if 5 <= i {
        return 0;
    }
    records::body_word(tape, at, i + 1)
}

// A tape and its store, both lent: a store is 408 bytes, and copied for each word it costs more than the test.
#[derive(Clone, Copy)]
struct Pools<'a> {
    tape: &'a [u8],
    st: &'a Store,
    ghost of_tape: { OfTape tape.now st.now },
}

impl Pools<'_> {
    // A body is named by its place, here and below, as a record is in crate `records`.

    // Number 4. A word by its use: an id, an id that may be missing, the start of a range whose length is the next word.
    #[tactic(auto, using(std::proofs::lemmas::Bool::Decides::nat_tests), unfolding(crate::specs::Tests::used_well))]
    fn used_well(&self, usage: Use, w: u32, next: u32) -> bool
        ensures { result ≡ used_well self.now.st.now (use_number usage) w next }
    {
        match usage {
            Use::Str => self.st.has_string(StrId(w)),
            Use::OptStr => StrId(w) == NO_STRING || self.st.has_string(StrId(w)),
            Use::Contents => self.st.has_contents(w, next),
            Use::Segments => self.st.has_segments(w, next),
            Use::Unused | Use::ContentsLen | Use::SegmentsLen => true,
        }
    }

    // Number 4. Word i of the body at `at`, which has that use. Crate `levels` goes over the words of a body too; one walk for both would take the
    // test as a closure, which there need not be right where it says no.
    fn word_ok(&self, usage: Use, at: usize, i: usize) -> bool
        requires { (at + 34 ≤ length self.now.tape.now) × (i < 6) }
        ensures { result ≡ used_well self.now.st.now (use_number usage) (word_of (body_at self.now.tape.now at) i) (word_of (body_at self.now.tape.now at) (i + 1)) }
    {
        let w = records::body_word(self.tape, at, i);
        let next = next_word(self.tape, at, i);
        self.used_well(usage, w, next)
    }

    // Number 4 of a Ruby: two ranges of contents, its base and its reading.
    #[tactic(auto, using(std::proofs::lemmas::Bool::Decides::nat_tests), unfolding(crate::specs::Tests::two_runs))]
    fn two_runs_ok(&self, at: usize) -> bool
        requires { at + 34 ≤ length self.now.tape.now }
        ensures { result ≡ two_runs self.now.st.now.contents self.now.st.now.layers self.now.st.now.totals.contents (body_at self.now.tape.now at) }
    {
        let base = records::body_word(self.tape, at, 0);
        let reading = records::body_word(self.tape, at, 2);
        self.st
            .has_contents(base, records::body_word(self.tape, at, 1))
            && self
                .st
                .has_contents(reading, records::body_word(self.tape, at, 3))
    }

    // Number 4. Every field of a body: the words up to the first that has no use. Most bodies of a book are Rubies, and are tested
    // without asking for uses.
    fn body_ids_ok(&self, at: usize) -> bool
        requires { at + 34 ≤ length self.now.tape.now }
        ensures { result ≡ body_in self.now.st.now (body_at self.now.tape.now at) }
    {
        if self.tape[at] == RUBY {
            return self.two_runs_ok(at);
        }
        let uses = records::uses_of(self.tape[at], self.tape[at + 1]);
        for i in 0..6 {
            if let Use::Unused = uses[i] {
                return true;
            }
            if !self.word_ok(uses[i], at, i) {
                return false;
            }
        }
        true
    }

    // Number 4. Plain names a string, Segments a range of segments.
    fn content_ids_ok(&self, at: usize) -> bool
        requires { at + 10 ≤ length self.now.tape.now }
        ensures { result ≡ content_in self.now.st.now (record_at content_codec self.now.tape.now at) }
    {
        let c = records::content_at(self.tape, at);
        if c.is_plain() {
            return self.st.has_string(StrId(c.first));
        }
        self.st.has_segments(c.first, c.second)
    }

    // Number 4 of a run; for segments and nodes, the same, each by its own test of one: a trait of the three would say each test twice, there and
    // here. By `for`: a closure is not told what the ghost field says.
    fn contents_ids_ok(&self, run: Run) -> bool
        requires { run.at + 10 * run.count ≤ length self.now.tape.now }
        ensures { result ≡ all (content_in self.now.st.now) (records_at content_codec self.now.tape.now run.at run.count) }
    {
        for i in 0..run.count {
            if !self.content_ids_ok(run.at + CONTENT_SIZE * i) {
                return false;
            }
        }
        true
    }

    fn segments_ids_ok(&self, run: Run) -> bool
        requires { run.at + 37 * run.count ≤ length self.now.tape.now }
        ensures { result ≡ all (segment_in self.now.st.now) (records_at segment_codec self.now.tape.now run.at run.count) }
    {
        for i in 0..run.count {
            if !self.segment_ids_ok(run.at + SEGMENT_SIZE * i) {
                return false;
            }
        }
        true
    }

    fn segment_ids_ok(&self, at: usize) -> bool
        requires { at + 37 ≤ length self.now.tape.now }
        ensures { result ≡ segment_in self.now.st.now (record_at segment_codec self.now.tape.now at) }
    {
        self.body_ids_ok(at + 3)
    }

    // Number 4. A node of class 2 or 3 has no words.
    fn node_ids_ok(&self, at: usize) -> bool
        requires { at + 49 ≤ length self.now.tape.now }
        ensures { result ≡ node_in self.now.st.now (record_at node_codec self.now.tape.now at) }
    {
        !records::has_words(self.tape, at) || self.body_ids_ok(at + 15)
    }

    fn nodes_ids_ok(&self, run: Run) -> bool
        requires { run.at + 49 * run.count ≤ length self.now.tape.now }
        ensures { result ≡ all (node_in self.now.st.now) (records_at node_codec self.now.tape.now run.at run.count) }
    {
        for i in 0..run.count {
            if !self.node_ids_ok(run.at + NODE_SIZE * i) {
                return false;
            }
        }
        true
    }

    // Number 4 of one layer.
    fn layer_ids_ok(&self, l: LayerRuns) -> bool
        requires { RunsFit self.now.tape.now l }
        ensures { result ≡ runs_in self.now.tape.now self.now.st.now l }
    {
        self.contents_ids_ok(l.contents) && self.segments_ids_ok(l.segments)
    }

    // By the store: a layer that was counted is not counted again.
    fn layers_ids_ok(&self) -> bool
        ensures { result ≡ all_layers (runs_in self.now.tape.now self.now.st.now) self.now.tape.now }
    {
        for k in 0..self.st.layers {
            if !self.layer_ids_ok(self.st.layer_runs(k)) {
                return false;
            }
        }
        true
    }
}

// Number 4, whole: of the tape with these places and this store, whatever the bytes of its texts are.
pub fn ids_ok(tape: &[u8], st: &Store, p: Places) -> bool
    requires of_tape { OfTape tape.now st.now }
    requires places_fit { PlacesFit tape.now p }
    ensures { (d : List ℕ) → result ≡ ids_ok (book_at tape.now (places tape.now) d) }
{
    let pools = Pools { tape, st };
    pools.layers_ids_ok() && pools.nodes_ids_ok(p.nodes)
}

// The records of a tape where they stand, document 01 section 4: each kind is read by value, its shape is tested, and so is a
// run of them. What each of a body's six words is for is one table, `uses_of`.
// A `requires` says only that the record, or the run, lies inside the tape. A result is an equation with the definition of
// crate model, over the record that model reads at the place.
#![tactic(auto)]

ghost use Rattle.std.specs.Prelude.{◌≡◌, Bool, true, ℕ, ◌+◌, ◌*◌, ◌≤◌, ◌<◌, length, get_or, eqb, ltb};
ghost use Rattle.model.specs.Bytes.{byte_at};
ghost use Rattle.model.specs.Lists.{all};
ghost use Rattle.model.specs.Types as Types;
ghost use Rattle.model.specs.Tape.{Codec, record_size, record_at, records_at, tag_counts, unused_zero, body_shape};
ghost use Rattle.model.specs.Tape.{content_codec, segment_codec, node_codec, pair_codec, container_codec, diagnostic_codec};
ghost use Rattle.model.specs.Tape.{content_shape, segment_shape, node_shape, pair_shape, diagnostic_shape};
ghost use Rattle.model.specs.WellFormed.{word_of};
ghost use Rattle.span.specs.Values.{span_of};
ghost use Rattle.records.specs.Values.{body_of, content_of, segment_of, source_node_of, pair_link_of, container_pair_of, diagnostic_of};
ghost use Rattle.records.specs.Values.{body_at, span_at};
ghost use Rattle.records.specs.Uses.{use_number, format_uses, gaiji_uses, image_uses, uses_of, word_use, fields_for, use_fits};
ghost use Rattle.records.specs.Shapes.{segment_head, node_head};
ghost use Rattle.records.specs.Sizes.{content_size, segment_size, node_size, pair_size, diagnostic_size};

use numbers::{CONTENT_SIZE, DIAGNOSTIC_SIZE, NODE_SIZE, PAIR_SIZE, SEGMENT_SIZE};
use span::{NormalizedOffset, PairKind, SourceOffset, Span};

// The numbers of kinds, tags and classes that are asked for by name; the tables of uses and shapes below list them as document 01 does. They are bytes
// of a tape, which may hold any other as well: an enum of them would have to be asked for at each byte before it could be matched.

// Kinds of bodies.
pub const TEXT: u8 = 0;

pub const RUBY: u8 = 1;

pub const FORMAT: u8 = 2;

const GAIJI: u8 = 3;

const IMAGE: u8 = 11;

pub const DIRECTIVE: u8 = 13;

// The tag of a Gaiji that may have a mencode.
const UNRESOLVED: u8 = 2;

// The tag of a content that is one string.
const PLAIN: u8 = 0;

// The tag of a segment that holds a node; those below hold a text.
pub const NODE: u8 = 3;

// Classes of nodes.
pub const INLINE: u8 = 0;

pub const BLOCK_LEAF: u8 = 1;

pub const BLOCK_OPEN: u8 = 2;

pub const BLOCK_CLOSE: u8 = 3;

// The class from which on nodes have no words.
const BARE: u8 = BLOCK_OPEN;

// Kinds of diagnostics: a bracket left open, a close left over.
pub const UNCLOSED_BRACKET: u8 = 2;

pub const UNMATCHED_CLOSE: u8 = 3;

// How many kinds of diagnostics there are.
const DIAGNOSTIC_KINDS: u8 = 5;

// Section 4. A body: what a `Node` or a text holds.
#[derive(Clone, Copy)]
pub struct Body {
    pub kind: u8,
    pub tag: u8,
    pub plain1: u32,
    pub plain2: u32,
    pub words: [u32; 6],
}

#[derive(Clone, Copy, PartialEq, Eq)]
pub struct Content {
    pub tag: u8,
    pub first: u32,
    pub second: u32,
}

#[derive(Clone, Copy)]
pub struct Segment {
    pub tag: u8,
    pub level: u8,
    pub body: Body,
}

#[derive(Clone, Copy)]
pub struct SourceNode {
    pub class: u8,
    pub inline: u8,
    pub source_span: Span,
    pub normalized_offset: NormalizedOffset,
    pub body: Body,
}

// `open` and `close` in the Rust; `open` is a word of antt. The kind may be any byte: only the record's shape tells of `span::PairKind`.
#[derive(Clone, Copy)]
pub struct PairLink {
    pub kind: u8,
    pub opening: Span,
    pub closing: Span,
}

#[derive(Clone, Copy)]
pub struct ContainerPair {
    pub plain: u32,
    pub opening: NormalizedOffset,
    pub closing: NormalizedOffset,
}

#[derive(Clone, Copy)]
pub struct Diagnostic {
    pub kind: u8,
    pub rank: u32,
    pub span: Span,
    pub plain: u32,
}

// The body whose first byte stands at a place: at + 3 of a segment, at + 15 of a node. Its words are read one by one: `array::from_fn`
// would take a closure with both its clauses.
pub fn body_at(tape: &[u8], at: usize) -> Body
    requires { at + 34 ≤ length tape.now }
    ensures { body_of result ≡ body_at tape.now at }
{
    let words = [
        wire::u32_at(tape, at + 10),
        wire::u32_at(tape, at + 14),
        wire::u32_at(tape, at + 18),
        wire::u32_at(tape, at + 22),
        wire::u32_at(tape, at + 26),
        wire::u32_at(tape, at + 30),
    ];
    Body {
        kind: tape[at],
        tag: tape[at + 1],
        plain1: wire::u32_at(tape, at + 2),
        plain2: wire::u32_at(tape, at + 6),
        words,
    }
}

// One word of that body.
pub fn body_word(tape: &[u8], at: usize, i: usize) -> u32
    requires { (at + 34 ≤ length tape.now) × (i < 6) }
    ensures { result ≡ word_of (body_at tape.now at) i }
{
    wire::u32_at(tape, at + 10 + 4 * i)
}

// The span whose words stand at a place.
fn span_at(tape: &[u8], at: usize) -> Span
    requires { at + 8 ≤ length tape.now }
    ensures { span_of result ≡ span_at tape.now at }
{
    Span {
        start: SourceOffset(wire::u32_at(tape, at)),
        end: SourceOffset(wire::u32_at(tape, at + 4)),
    }
}

pub fn content_at(tape: &[u8], at: usize) -> Content
    requires { at + 10 ≤ length tape.now }
    ensures { content_of result ≡ record_at content_codec tape.now at }
{
    Content {
        tag: tape[at + 1],
        first: wire::u32_at(tape, at + 2),
        second: wire::u32_at(tape, at + 6),
    }
}

pub fn segment_at(tape: &[u8], at: usize) -> Segment
    requires { at + 37 ≤ length tape.now }
    ensures { segment_of result ≡ record_at segment_codec tape.now at }
{
    let body = body_at(tape, at + 3);
    Segment {
        tag: tape[at + 1],
        level: tape[at + 2],
        body,
    }
}

pub fn node_at(tape: &[u8], at: usize) -> SourceNode
    requires { at + 49 ≤ length tape.now }
    ensures { source_node_of result ≡ record_at node_codec tape.now at }
{
    let body = body_at(tape, at + 15);
    SourceNode {
        class: tape[at + 1],
        inline: tape[at + 2],
        source_span: span_at(tape, at + 3),
        normalized_offset: node_offset(tape, at),
        body,
    }
}

impl Content {
    // Is it one string? Any other is a run of segments.
    pub fn is_plain(self) -> bool
        ensures { result ≡ eqb self.tag 0 }
    {
        self.tag == PLAIN
    }
}

// Does the node at `at` have words? One of class 2 or 3 has none.
pub fn has_words(tape: &[u8], at: usize) -> bool
    requires { at + 49 ≤ length tape.now }
    ensures { result ≡ ltb (byte_at tape.now (at + 1)) 2 }
{
    tape[at + 1] < BARE
}

// Single fields of a node, for the walks over all nodes. A record is named by its place, whose bound is the walk's: a struct of tape and place would
// be made anew at each turn, and the bound be shown there. One function for all would take the field's place, and not say which field it reads.
pub fn node_start(tape: &[u8], at: usize) -> SourceOffset
    requires { at + 49 ≤ length tape.now }
    ensures { result.0 ≡ (record_at node_codec tape.now at).source_span.start }
{
    SourceOffset(wire::u32_at(tape, at + 3))
}

pub fn node_end(tape: &[u8], at: usize) -> SourceOffset
    requires { at + 49 ≤ length tape.now }
    ensures { result.0 ≡ (record_at node_codec tape.now at).source_span.end }
{
    SourceOffset(wire::u32_at(tape, at + 7))
}

pub fn node_offset(tape: &[u8], at: usize) -> NormalizedOffset
    requires { at + 49 ≤ length tape.now }
    ensures { result.0 ≡ (record_at node_codec tape.now at).normalized_offset }
{
    NormalizedOffset(wire::u32_at(tape, at + 11))
}

// A record of each other kind: each has its own fields, at places of their own.

pub fn pair_at(tape: &[u8], at: usize) -> PairLink
    requires { at + 18 ≤ length tape.now }
    ensures { pair_link_of result ≡ record_at pair_codec tape.now at }
{
    PairLink {
        kind: tape[at + 1],
        opening: span_at(tape, at + 2),
        closing: span_at(tape, at + 10),
    }
}

pub fn container_at(tape: &[u8], at: usize) -> ContainerPair
    requires { at + 13 ≤ length tape.now }
    ensures { container_pair_of result ≡ record_at container_codec tape.now at }
{
    ContainerPair {
        plain: wire::u32_at(tape, at + 1),
        opening: NormalizedOffset(wire::u32_at(tape, at + 5)),
        closing: NormalizedOffset(wire::u32_at(tape, at + 9)),
    }
}

pub fn diagnostic_at(tape: &[u8], at: usize) -> Diagnostic
    requires { at + 18 ≤ length tape.now }
    ensures { diagnostic_of result ≡ record_at diagnostic_codec tape.now at }
{
    Diagnostic {
        kind: tape[at + 1],
        rank: wire::u32_at(tape, at + 2),
        span: span_at(tape, at + 6),
        plain: wire::u32_at(tape, at + 14),
    }
}

// Section 4. How many tags each kind has.
#[tactic(auto, using(std::proofs::lemmas::Bool::Decides::nat_tests), unfolding(model::specs::Tape::tag_counts))]
fn tag_count(kind: u8) -> u8
    ensures { result ≡ get_or tag_counts kind 0 }
{
    match kind {
        FORMAT => 16,
        GAIJI | IMAGE => 3,
        DIRECTIVE => 14,
        0..=15 => 1,
        _ => 0,
    }
}

// What a word of a body is for. A range has two words: where it starts, and how long it is.
#[derive(Clone, Copy, Debug, PartialEq, Eq)]
pub enum Use {
    Unused,
    Str,
    // a string that may be missing
    OptStr,
    Contents,
    ContentsLen,
    Segments,
    SegmentsLen,
}

// What the six words of a body are for, by its kind and tag.

// Format's tag is origin × 4 + payload, and only the payload matters here.
#[tactic(auto, using(std::proofs::lemmas::Bool::Decides::nat_tests), unfolding(crate::specs::Uses::format_uses))]
fn format_uses(tag: u8) -> [Use; 6]
    ensures { result ≡ format_uses tag }
{
    let payload = if tag % 4 < 2 { Use::Unused } else { Use::Str };
    [
        Use::Contents,
        Use::ContentsLen,
        payload,
        Use::Unused,
        Use::Unused,
        Use::Unused,
    ]
}

#[tactic(auto, using(std::proofs::lemmas::Bool::Decides::nat_tests), unfolding(crate::specs::Uses::gaiji_uses))]
fn gaiji_uses(tag: u8) -> [Use; 6]
    ensures { result ≡ gaiji_uses tag }
{
    let mencode = if tag == UNRESOLVED {
        Use::OptStr
    } else {
        Use::Unused
    };
    [
        Use::Str,
        mencode,
        Use::Unused,
        Use::Unused,
        Use::Unused,
        Use::Unused,
    ]
}

#[tactic(auto, using(std::proofs::lemmas::Bool::Decides::nat_tests), unfolding(crate::specs::Uses::image_uses))]
fn image_uses(tag: u8) -> [Use; 6]
    ensures { result ≡ image_uses tag }
{
    let (caption, len) = match tag {
        1 => (Use::Str, Use::Unused),
        2 => (Use::Segments, Use::SegmentsLen),
        _ => (Use::Unused, Use::Unused),
    };
    [
        Use::Str,
        Use::OptStr,
        Use::OptStr,
        Use::OptStr,
        caption,
        len,
    ]
}

#[tactic(auto, using(std::proofs::lemmas::Bool::Decides::nat_tests), unfolding(crate::specs::Uses::uses_of, crate::specs::Uses::other_uses))]
pub fn uses_of(kind: u8, tag: u8) -> [Use; 6]
    ensures { result ≡ uses_of kind tag }
{
    match kind {
        FORMAT => format_uses(tag),
        GAIJI => gaiji_uses(tag),
        IMAGE => image_uses(tag),
        // Text, HeadingHint, Kaeriten, Directive
        0 | 10 | 12 | 13 => [
            Use::Str,
            Use::Unused,
            Use::Unused,
            Use::Unused,
            Use::Unused,
            Use::Unused,
        ],
        // Ruby, MarginNote
        1 | 15 => [
            Use::Contents,
            Use::ContentsLen,
            Use::Contents,
            Use::ContentsLen,
            Use::Unused,
            Use::Unused,
        ],
        // Heading, AngleQuote
        9 | 14 => [
            Use::Contents,
            Use::ContentsLen,
            Use::Unused,
            Use::Unused,
            Use::Unused,
            Use::Unused,
        ],
        _ => [Use::Unused; 6],
    }
}

// What word i of a body is for.
pub fn word_use(kind: u8, tag: u8, i: usize) -> Use
    requires { i < 6 }
    ensures { use_number result ≡ word_use kind tag i }
{
    uses_of(kind, tag)[i]
}

// Section 4. Unused words are 0.
#[tactic(auto, using(std::proofs::lemmas::Bool::Decides::nat_tests), unfolding(crate::specs::Uses::use_fits))]
fn word_fits(usage: Use, w: u32) -> bool
    ensures { result ≡ use_fits true (use_number usage) w }
{
    match usage {
        Use::Unused => w == 0,
        _ => true,
    }
}

// A body that is not `used`, of a node of class 2 or 3, has no words. That is asked once, before the six: asked at each word, it makes the shape of
// a node cost a quarter more instructions.
fn words_fit(used: bool, kind: u8, tag: u8, words: [u32; 6]) -> bool
    ensures { result ≡ unused_zero (fields_for used kind tag) 0 words }
{
    let uses = if used {
        uses_of(kind, tag)
    } else {
        [Use::Unused; 6]
    };
    (0..6).all(|i| word_fits(uses[i], words[i]))
}

#[tactic(auto, using(std::proofs::lemmas::Bool::Decides::nat_tests), unfolding(model::specs::Tape::body_shape))]
pub fn body_shape(b: Body, used: bool) -> bool
    ensures { result ≡ body_shape (fields_for used b.kind b.tag) (body_of b) }
{
    b.tag < tag_count(b.kind) && words_fit(used, b.kind, b.tag, b.words)
}

#[tactic(auto, using(std::proofs::lemmas::Bool::Decides::nat_tests), unfolding(model::specs::Tape::content_shape))]
pub fn content_shape(c: Content) -> bool
    ensures { result ≡ content_shape (content_of c) }
{
    match c.tag {
        PLAIN => c.second == 0,
        1 => true,
        _ => false,
    }
}

// Section 4. Segment tags 0, 1 and 2 carry kinds 0, 3 and 13; tag 3 carries 1..15.
#[tactic(auto, using(std::proofs::lemmas::Bool::Decides::nat_tests), unfolding(crate::specs::Shapes::segment_head))]
fn segment_head(tag: u8, kind: u8) -> bool
    ensures { result ≡ segment_head tag kind }
{
    match tag {
        0 => kind == TEXT,
        1 => kind == GAIJI,
        2 => kind == DIRECTIVE,
        NODE => TEXT < kind,
        _ => false,
    }
}

#[tactic(auto, using(std::proofs::lemmas::Bool::Decides::nat_tests, crate::specs::Shapes::segment_parts))]
pub fn segment_shape(s: Segment) -> bool
    ensures { result ≡ segment_shape (segment_of s) }
{
    segment_head(s.tag, s.body.kind) && body_shape(s.body, true)
}

// Section 4. Classes 0 and 1 carry 1..15 and inline 0; classes 2 and 3 carry 0, and inline is 0 or 1.
#[tactic(auto, using(std::proofs::lemmas::Bool::Decides::nat_tests), unfolding(crate::specs::Shapes::node_head))]
fn node_head(class: u8, inline: u8, kind: u8) -> bool
    ensures { result ≡ node_head class inline kind }
{
    match class {
        INLINE | BLOCK_LEAF => TEXT < kind && inline == 0,
        BLOCK_OPEN | BLOCK_CLOSE => kind == TEXT && inline < 2,
        _ => false,
    }
}

#[tactic(auto, using(std::proofs::lemmas::Bool::Decides::nat_tests, crate::specs::Shapes::node_parts))]
pub fn node_shape(n: SourceNode) -> bool
    ensures { result ≡ node_shape (source_node_of n) }
{
    node_head(n.class, n.inline, n.body.kind) && body_shape(n.body, n.class < BARE)
}

// Section 4. Kinds 0..4.
#[tactic(auto, using(std::proofs::lemmas::Bool::Decides::nat_tests), unfolding(model::specs::Tape::pair_shape))]
pub fn pair_shape(p: PairLink) -> bool
    ensures { result ≡ pair_shape (pair_link_of p) }
{
    PairKind::try_from(p.kind).is_ok()
}

// Section 4. Kinds 0..4.
#[tactic(auto, unfolding(model::specs::Tape::diagnostic_shape))]
pub fn diagnostic_shape(d: Diagnostic) -> bool
    ensures { result ≡ diagnostic_shape (diagnostic_of d) }
{
    d.kind < DIAGNOSTIC_KINDS
}

// A kind of record of which the shape is tested where it stands.
pub trait Shaped {
    // how crate model reads one, and its test
    ghost Value: { Type 0 };

    ghost codec: { Codec Value };

    ghost test: { Value → Bool };

    ghost SIZE: { ℕ };

    // How many bytes one has on the tape.
    const SIZE: usize;

    fn shaped(tape: &[u8], at: usize) -> bool
        requires { at + SIZE ≤ length tape.now }
        ensures { result ≡ test (record_at codec tape.now at) };

    ghost size: { record_size codec ≡ SIZE };
}

// The shapes of a run of `count` records from `at` on, by two numbers: `places::Run` is of a crate that this one does not name.
pub fn all_shaped<R: Shaped>(tape: &[u8], at: usize, count: usize) -> bool
    requires { at + R.SIZE * count ≤ length tape.now }
    ensures { result ≡ all R.test (records_at R.codec tape.now at count) }
{
    (0..count).all(
        |i|
            requires { at + R.SIZE * i + R.SIZE ≤ length tape.now }
        { R::shaped(tape, at + R::SIZE * i) },
    )
}

impl Shaped for Content {
    ghost Value = { Types.Content };

    ghost codec = { content_codec };

    ghost test = { content_shape };

    ghost SIZE = { 10 };

    const SIZE: usize = CONTENT_SIZE;

    ghost size = { content_size };

    fn shaped(tape: &[u8], at: usize) -> bool {
        content_shape(content_at(tape, at))
    }
}

impl Shaped for Segment {
    ghost Value = { Types.Segment };

    ghost codec = { segment_codec };

    ghost test = { segment_shape };

    ghost SIZE = { 37 };

    const SIZE: usize = SEGMENT_SIZE;

    ghost size = { segment_size };

    fn shaped(tape: &[u8], at: usize) -> bool {
        segment_shape(segment_at(tape, at))
    }
}

impl Shaped for SourceNode {
    ghost Value = { Types.SourceNode };

    ghost codec = { node_codec };

    ghost test = { node_shape };

    ghost SIZE = { 49 };

    const SIZE: usize = NODE_SIZE;

    ghost size = { node_size };

    fn shaped(tape: &[u8], at: usize) -> bool {
        node_shape(node_at(tape, at))
    }
}

impl Shaped for PairLink {
    ghost Value = { Types.PairLink };

    ghost codec = { pair_codec };

    ghost test = { pair_shape };

    ghost SIZE = { 18 };

    const SIZE: usize = PAIR_SIZE;

    ghost size = { pair_size };

    fn shaped(tape: &[u8], at: usize) -> bool {
        pair_shape(pair_at(tape, at))
    }
}

impl Shaped for Diagnostic {
    ghost Value = { Types.Diagnostic };

    ghost codec = { diagnostic_codec };

    ghost test = { diagnostic_shape };

    ghost SIZE = { 18 };

    const SIZE: usize = DIAGNOSTIC_SIZE;

    ghost size = { diagnostic_size };

    fn shaped(tape: &[u8], at: usize) -> bool {
        diagnostic_shape(diagnostic_at(tape, at))
    }
}

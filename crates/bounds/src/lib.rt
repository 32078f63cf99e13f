// Where the records of a tape point, document 01 section 4 from 'Well formed' on: numbers 6 and 7 over the runs of nodes,
// pairs, containers and diagnostics, and two questions of a book that passed them.
// The nodes are walked once: `nodes_placed` tests spans, order and normalized offsets and sums images and spans for number 7.
// A `requires` says only that the run lies inside the tape; of the search, that its nodes are in order, as number 6 tells. Each is called from one
// place, so that a struct of tape, run and that fact would be made for one call.
#![tactic(auto)]

ghost use Rattle.std.specs.Prelude.{◌≡◌, ◌+◌, ◌*◌, ◌≤◌, ◌<◌, length};
ghost use Rattle.model.specs.Lists.{all};
ghost use Rattle.model.specs.Tape.{record_at, records_at, node_codec, pair_codec, container_codec, diagnostic_codec};
ghost use Rattle.model.specs.WellFormed.{span_ok, pair_ok, container_ok, diagnostic_ok, image_length, span_length};
ghost use Rattle.model.specs.Lookup.{diagnostics_allow_incremental, node_at_source};
ghost use Rattle.records.specs.Values.{pair_link_of, container_pair_of, diagnostic_of};
ghost use Rattle.span.specs.Values.{span_of};
ghost use Rattle.bounds.specs.Incremental.{allows_incremental};
ghost use Rattle.bounds.specs.Walk.{padding_of, in_image, node_placed, sums_if_placed};
ghost use Rattle.bounds.specs.Search.{start_of, Split, InOrder, found_of};

use numbers::{CONTAINER_SIZE, DIAGNOSTIC_SIZE, NODE_SIZE, PAIR_SIZE};
use records::{BLOCK_LEAF, INLINE, UNCLOSED_BRACKET};
use span::{NormalizedOffset, SourceOffset, Span};

// Not empty, and inside a text that ends at `text`. A text's end is an offset of it, here and below.
#[tactic(auto, using(std::proofs::lemmas::Bool::Decides::nat_tests), unfolding(model::specs::WellFormed::span_ok))]
fn span_ok(span: Span, text: SourceOffset) -> bool
    ensures { result ≡ span_ok text.0 (span_of span) }
{
    span.start < span.end && span.end <= text
}

#[tactic(auto, using(std::proofs::lemmas::Bool::Decides::nat_tests), unfolding(model::specs::WellFormed::pair_ok))]
fn pair_ok(p: records::PairLink, text: SourceOffset) -> bool
    ensures { result ≡ pair_ok text.0 (pair_link_of p) }
{
    span_ok(p.opening, text) && span_ok(p.closing, text) && p.opening.end <= p.closing.start
}

#[tactic(auto, using(std::proofs::lemmas::Bool::Decides::nat_tests), unfolding(model::specs::WellFormed::container_ok))]
fn container_ok(c: records::ContainerPair, normalized: NormalizedOffset) -> bool
    ensures { result ≡ container_ok normalized.0 (container_pair_of c) }
{
    c.opening < c.closing && c.closing < normalized
}

// Wish 5. A diagnostic may have no width, also at the text's end.
#[tactic(auto, using(std::proofs::lemmas::Bool::Decides::nat_tests), unfolding(model::specs::WellFormed::diagnostic_ok))]
fn diagnostic_ok(d: records::Diagnostic, text: SourceOffset) -> bool
    ensures { result ≡ diagnostic_ok text.0 (diagnostic_of d) }
{
    d.span.start <= d.span.end && d.span.end <= text
}

// Each is one line over its kind of record, with a test of its own: a trait of the three would state each clause again.
pub fn pairs_placed(tape: &[u8], pairs: places::Run, text: SourceOffset) -> bool
    requires { pairs.at + 18 * pairs.count ≤ length tape.now }
    ensures { result ≡ all (pair_ok text.0) (records_at pair_codec tape.now pairs.at pairs.count) }
{
    (0..pairs.count).all(|i| pair_ok(records::pair_at(tape, pairs.at + PAIR_SIZE * i), text))
}

pub fn containers_placed(tape: &[u8], containers: places::Run, normalized: NormalizedOffset) -> bool
    requires { containers.at + 13 * containers.count ≤ length tape.now }
    ensures { result ≡ all (container_ok normalized.0) (records_at container_codec tape.now containers.at containers.count) }
{
    (0..containers.count).all(|i| container_ok(
        records::container_at(tape, containers.at + CONTAINER_SIZE * i),
        normalized,
    ))
}

// Not inlined, by speed: in `tape`'s walk through all tests its counter would stand on the stack, and a diagnostic take a third longer.
#[inline(never)]
pub fn diagnostics_placed(tape: &[u8], diagnostics: places::Run, text: SourceOffset) -> bool
    requires { diagnostics.at + 18 * diagnostics.count ≤ length tape.now }
    ensures { result ≡ all (diagnostic_ok text.0) (records_at diagnostic_codec tape.now diagnostics.at diagnostics.count) }
{
    (0..diagnostics.count).all(|i| diagnostic_ok(
        records::diagnostic_at(tape, diagnostics.at + DIAGNOSTIC_SIZE * i),
        text,
    ))
}

// UnclosedBracket is the first kind that allows no reading of a part: before it are UnresolvedGaiji and NonCanonicalDirective.
pub fn diagnostics_allow_incremental(tape: &[u8], diagnostics: places::Run) -> bool
    requires { diagnostics.at + 18 * diagnostics.count ≤ length tape.now }
    ensures { result ≡ diagnostics_allow_incremental (records_at diagnostic_codec tape.now diagnostics.at diagnostics.count) }
{
    (0..diagnostics.count).all(|i| tape[diagnostics.at + DIAGNOSTIC_SIZE * i + 1]
        < UNCLOSED_BRACKET)
}

// Section 4. `standalone_padding`. Whether a block is inline is a byte of the tape, 0 or 1.
#[tactic(auto, using(std::proofs::lemmas::Bool::Decides::nat_tests), unfolding(crate::specs::Walk::padding_of))]
fn standalone_padding(class: u8, inline: u8) -> u64
    ensures { result ≡ padding_of class inline }
{
    match (class, inline) {
        (INLINE, _) => 0,
        (BLOCK_LEAF, _) | (_, 0) => 2,
        _ => 0,
    }
}

// A node's image is 3 + 2 × padding bytes. A node is named by its place, here and below, as in crate `records`.
pub fn image_length(tape: &[u8], at: usize) -> u64
    requires { at + 49 ≤ length tape.now }
    ensures { result ≡ image_length (record_at node_codec tape.now at) }
{
    3 + 2 * standalone_padding(tape[at + 1], tape[at + 2])
}

pub fn span_length(tape: &[u8], at: usize) -> u64
    requires { at + 49 ≤ length tape.now }
    ensures { result ≡ span_length (record_at node_codec tape.now at) }
{
    let start = records::node_start(tape, at);
    let end = records::node_end(tape, at);
    u64::from(end.0.saturating_sub(start.0))
}

// Section 4. The normalized offset lies in the image; the spans stand on the other side, so that no number is signed.
#[tactic(auto, using(std::proofs::lemmas::Bool::Decides::nat_tests), unfolding(crate::specs::Walk::in_image))]
fn in_image(
    start: SourceOffset,
    offset: NormalizedOffset,
    image: u64,
    images: u64,
    spans: u64,
) -> bool
    requires { (image ≤ 7) × (images < 4611686018427387904) × (spans < 4294967296) }
    ensures { result ≡ in_image start.0 offset.0 image images spans }
{
    let place = u64::from(offset.0) + spans;
    let begin = u64::from(start.0) + images;
    begin <= place && place < begin + image
}

// Number 6 of one node: `from` is the end of the node before, `images` and `spans` are the sums of the nodes before: two numbers that the walk steps,
// of which `Sums` are made once, at its end.
#[tactic(auto, using(std::proofs::lemmas::Bool::Decides::nat_tests, crate::specs::Walk::placed_parts))]
fn node_placed(
    tape: &[u8],
    at: usize,
    text: SourceOffset,
    from: SourceOffset,
    images: u64,
    spans: u64,
) -> bool
    requires { (at + 49 ≤ length tape.now) × (images < 4611686018427387904) × (spans < 4294967296) }
    ensures { result ≡ node_placed text.0 from.0 images spans (record_at node_codec tape.now at) }
{
    let span = Span {
        start: records::node_start(tape, at),
        end: records::node_end(tape, at),
    };
    from <= span.start
        && span_ok(span, text)
        && in_image(
            span.start,
            records::node_offset(tape, at),
            image_length(tape, at),
            images,
            spans,
        )
}

// What number 7 compares: the sums over all nodes.
#[derive(Clone, Copy)]
pub struct Sums {
    pub images: u64,
    pub spans: u64,
}

// The sums, where each node is placed as number 6 asks.
pub fn nodes_placed(tape: &[u8], nodes: places::Run, text: SourceOffset) -> Option<Sums>
    requires { nodes.at + 49 * nodes.count ≤ length tape.now }
    ensures { result ≡ sums_if_placed text.0 (records_at node_codec tape.now nodes.at nodes.count) }
{
    let mut from = SourceOffset(0);
    let mut images: u64 = 0;
    let mut spans: u64 = 0;
    for i in 0..nodes.count {
        let p = nodes.at + NODE_SIZE * i;
        if !node_placed(tape, p, text, from, images, spans) {
            return None;
        }
        images += image_length(tape, p);
        spans += span_length(tape, p);
        from = records::node_end(tape, p);
    }
    Some(Sums { images, spans })
}

// How many nodes start at or before an offset. By hand: `partition_point` takes a slice, and the nodes are records among bytes.
// (The bisections of `sorted_ids`, `representatives` and `interner` are by hand for reasons of their own. One for all four would take the test as a
// closure and tell of two words only, the last that passes and the next: each caller would still need its order, to say it of all.)
fn starts_by(tape: &[u8], nodes: places::Run, offset: SourceOffset) -> usize
    requires count_in_bounds { nodes.at + 49 * nodes.count ≤ length tape.now }
    requires in_order { InOrder (records_at node_codec tape.now nodes.at nodes.count) }
    ensures { Split (start_of tape.now nodes.at) nodes.count offset.0 result result }
{
    let mut lo = 0;
    let mut hi = nodes.count;
    while lo < hi {
        let mid = lo + (hi - lo) / 2;
        if records::node_start(tape, nodes.at + NODE_SIZE * mid) <= offset {
            lo = mid + 1;
        } else {
            hi = mid;
        }
    }
    lo
}

// The place among the nodes of the last that starts at or before an offset, if the offset lies before its end.
pub fn node_at_source(tape: &[u8], nodes: places::Run, offset: SourceOffset) -> Option<usize>
    requires count_in_bounds { nodes.at + 49 * nodes.count ≤ length tape.now }
    requires in_order { InOrder (records_at node_codec tape.now nodes.at nodes.count) }
    ensures { result ≡ found_of (node_at_source (records_at node_codec tape.now nodes.at nodes.count) offset.0) }
{
    let i = starts_by(tape, nodes, offset).checked_sub(1)?;
    if offset < records::node_end(tape, nodes.at + NODE_SIZE * i) {
        Some(i)
    } else {
        None
    }
}

// What is asked of the records, document 01 section 7: what a reading opens it closes (13); no diagnostic of it tells of a bracket left open or a
// close left over, and where the region is empty, no mark of no width of the old book lies there (14; document 02, wish 5); and where a source
// offset stands in the normalized text. Numbers 12, 16 and 17 are crate `passage`, 15 is `introduces`.
#![tactic(auto)]

ghost use Rattle.std.specs.Prelude.{◌≡◌, ◌+◌, ◌-◌, ◌*◌, ◌≤◌, ◌<◌, ◌^◌, length};
ghost use Rattle.model.specs.Lists.{any};
ghost use Rattle.model.specs.Tape.{record_at, records_at, node_codec, diagnostic_codec};
ghost use Rattle.model.specs.Merge.{balanced_nodes, is_unclosed, is_mark_at, mark_at_empty_region, normalized_offset};
ghost use Rattle.bounds.specs.Search.{InOrder};
ghost use Rattle.span.specs.Values.{span_of};
ghost use Rattle.reading.specs.Until.{Until};

use bounds::Sums;
use cuts::Depths;
use numbers::{DIAGNOSTIC_SIZE, NODE_SIZE};
use records::{UNCLOSED_BRACKET, UNMATCHED_CLOSE};
use span::{NormalizedOffset, SourceOffset, Span};

// That a run lies in its tape is asked at each function. `splice::Section` is a struct of tape, run and this fact, for records that go through
// several functions of that crate; here a list is asked once, and its section would be made for one call.

// Number 13. `balanced_nodes`: no close falls below 0, and all that opens is closed.
pub fn balanced_nodes(tape: &[u8], nodes: places::Run) -> bool
    requires { nodes.at + 49 * nodes.count ≤ length tape.now }
    ensures { result ≡ balanced_nodes (records_at node_codec tape.now nodes.at nodes.count) }
{
    let mut depths = Depths::NONE;
    for i in 0..nodes.count {
        let p = nodes.at + NODE_SIZE * i;
        if depths.closes_unopened(tape, p) {
            return false;
        }
        depths = depths.past(tape, p);
    }
    depths.are_zero()
}

#[tactic(auto, using(std::proofs::lemmas::Bool::Decides::nat_tests), unfolding(model::specs::Merge::is_unclosed, model::specs::Tape::record_at, model::specs::Tape::operands_at, model::specs::Tape::diagnostic_codec))]
fn is_unclosed(tape: &[u8], at: usize) -> bool
    requires { at + 18 ≤ length tape.now }
    ensures { result ≡ is_unclosed (record_at diagnostic_codec tape.now at) }
{
    matches!(tape[at + 1], UNCLOSED_BRACKET | UNMATCHED_CLOSE)
}

// Number 14. A diagnostic that tells of a bracket left open or of a close left over.
pub fn has_unclosed(tape: &[u8], diagnostics: places::Run) -> bool
    requires { diagnostics.at + 18 * diagnostics.count ≤ length tape.now }
    ensures { result ≡ any is_unclosed (records_at diagnostic_codec tape.now diagnostics.at diagnostics.count) }
{
    (0..diagnostics.count).any(|i| is_unclosed(tape, diagnostics.at + DIAGNOSTIC_SIZE * i))
}

// Wish 5. One that has a width and starts or ends there is no mark.
#[tactic(auto, using(std::proofs::lemmas::Bool::Decides::nat_tests), unfolding(model::specs::Merge::is_mark_at))]
fn is_mark_at(tape: &[u8], at: usize, place: SourceOffset) -> bool
    requires { at + 18 ≤ length tape.now }
    ensures { result ≡ is_mark_at place.0 (record_at diagnostic_codec tape.now at) }
{
    let d = records::diagnostic_at(tape, at);
    d.span.start == place && d.span.end == place
}

fn has_mark_at(tape: &[u8], diagnostics: places::Run, place: SourceOffset) -> bool
    requires { diagnostics.at + 18 * diagnostics.count ≤ length tape.now }
    ensures { result ≡ any (is_mark_at place.0) (records_at diagnostic_codec tape.now diagnostics.at diagnostics.count) }
{
    (0..diagnostics.count).any(|i| is_mark_at(tape, diagnostics.at + DIAGNOSTIC_SIZE * i, place))
}

// Number 14, wish 5: of the old book's diagnostics, a mark at an empty region. Such a region lies at the text's end; for any other no diagnostic
// is read.
#[tactic(auto, unfolding(model::specs::Merge::mark_at_empty_region))]
pub fn mark_at_empty_region(tape: &[u8], diagnostics: places::Run, region: Span) -> bool
    requires { diagnostics.at + 18 * diagnostics.count ≤ length tape.now }
    ensures { result ≡ mark_at_empty_region (records_at diagnostic_codec tape.now diagnostics.at diagnostics.count) (span_of region) }
{
    region.is_empty() && has_mark_at(tape, diagnostics, region.start)
}

// How many nodes end at or before an offset: they are the first ones. One after the other: whoever asks walks over those nodes all the
// same, so that a bisection would gain little.
pub fn nodes_until(tape: &[u8], nodes: places::Run, offset: SourceOffset) -> usize
    requires count_in_bounds { nodes.at + 49 * nodes.count ≤ length tape.now }
    requires in_order { InOrder (records_at node_codec tape.now nodes.at nodes.count) }
    ensures { Until tape.now nodes.at nodes.count offset.0 result }
{
    (0..nodes.count)
        .find(|&i| offset < records::node_end(tape, nodes.at + NODE_SIZE * i))
        .unwrap_or(nodes.count)
}

// An offset and the drift of the nodes before it. Source offsets and normalized offsets are two measures of two texts, and only here does one
// become the other.
fn drifted(offset: SourceOffset, before: Sums) -> NormalizedOffset
    requires sums_bound { (before.images < 2 ^ 63) × (before.spans < 2 ^ 63) }
    requires fits { offset.0 + before.images - before.spans < 2 ^ 32 }
    ensures { result.0 ≡ offset.0 + before.images - before.spans }
{
    NormalizedOffset((u64::from(offset.0) + before.images).saturating_sub(before.spans) as u32)
}

// `normalized_offset`: the place of a source offset in the normalized text, which is asked of a cut.
pub fn normalized_offset(tape: &[u8], nodes: places::Run, offset: SourceOffset) -> NormalizedOffset
    requires count_in_bounds { nodes.at + 49 * nodes.count ≤ length tape.now }
    requires in_order { InOrder (records_at node_codec tape.now nodes.at nodes.count) }
    requires fits { normalized_offset (records_at node_codec tape.now nodes.at nodes.count) offset.0 < 2 ^ 32 }
    ensures { result.0 ≡ normalized_offset (records_at node_codec tape.now nodes.at nodes.count) offset.0 }
{
    let n = nodes_until(tape, nodes, offset);
    let mut before = Sums {
        images: 0,
        spans: 0,
    };
    for i in 0..n {
        let p = nodes.at + NODE_SIZE * i;
        before.images += bounds::image_length(tape, p);
        before.spans += bounds::span_length(tape, p);
    }
    drifted(offset, before)
}

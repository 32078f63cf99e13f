// A record of each kind written, but for strings and layers, document 01 section 4: command, operands, body. The commands 4 to 9
// are written here alone, each once, and so have no names. That a record has room is asked at each function: the place is another at each call.
#![tactic(auto)]

ghost use Rattle.std.specs.Prelude.{◌≡◌, [], ◌∷◌, ◌+◌, ◌≤◌, length};
ghost use Rattle.model.specs.Tape.{content_codec, segment_codec, node_codec, pair_codec, container_codec, diagnostic_codec, record_bytes};
ghost use Rattle.wire.specs.Overwrite.{overwrite};
ghost use Rattle.span.specs.Values.{span_of};
ghost use Rattle.records.specs.Values.{body_of, content_of, segment_of, source_node_of, pair_link_of, container_pair_of, diagnostic_of};
ghost use Rattle.put_records.specs.Written.{span_bytes, words_bytes, body_bytes};

use records::{Body, ContainerPair, Content, Diagnostic, PairLink, Segment, SourceNode};
use span::Span;

pub fn put_content(out: &mut [u8], at: usize, c: Content)
    requires { at + 10 ≤ length out.old }
    ensures { out.new ≡ overwrite out.old at (record_bytes content_codec (content_of c)) }
{
    wire::put_u8(out, at, 4);
    wire::put_u8(out, at + 1, c.tag);
    wire::put_u32(out, at + 2, c.first);
    wire::put_u32(out, at + 6, c.second);
}

fn put_span(out: &mut [u8], at: usize, s: Span)
    requires { at + 8 ≤ length out.old }
    ensures { out.new ≡ overwrite out.old at (span_bytes (span_of s)) }
{
    wire::put_u32(out, at, s.start.0);
    wire::put_u32(out, at + 4, s.end.0);
}

fn put_words(out: &mut [u8], at: usize, words: [u32; 6])
    requires { at + 24 ≤ length out.old }
    ensures { out.new ≡ overwrite out.old at (words_bytes words) }
{
    for (i, w) in words.iter().enumerate() {
        wire::put_u32(out, at + 4 * i, *w);
    }
}

// A body: its kind and tag, two plain words and its six words.
fn put_body(out: &mut [u8], at: usize, b: Body)
    requires { at + 34 ≤ length out.old }
    ensures { out.new ≡ overwrite out.old at (body_bytes (body_of b)) }
{
    wire::put_u8(out, at, b.kind);
    wire::put_u8(out, at + 1, b.tag);
    wire::put_u32(out, at + 2, b.plain1);
    wire::put_u32(out, at + 6, b.plain2);
    put_words(out, at + 10, b.words);
}

// Each kind of record has its own fields, in document 01's order.

pub fn put_segment(out: &mut [u8], at: usize, s: Segment)
    requires { at + 37 ≤ length out.old }
    ensures { out.new ≡ overwrite out.old at (record_bytes segment_codec (segment_of s)) }
{
    wire::put_u8(out, at, 5);
    wire::put_u8(out, at + 1, s.tag);
    wire::put_u8(out, at + 2, s.level);
    put_body(out, at + 3, s.body);
}

pub fn put_node(out: &mut [u8], at: usize, n: SourceNode)
    requires { at + 49 ≤ length out.old }
    ensures { out.new ≡ overwrite out.old at (record_bytes node_codec (source_node_of n)) }
{
    wire::put_u8(out, at, 6);
    wire::put_u8(out, at + 1, n.class);
    wire::put_u8(out, at + 2, n.inline);
    put_span(out, at + 3, n.source_span);
    wire::put_u32(out, at + 11, n.normalized_offset.0);
    put_body(out, at + 15, n.body);
}

pub fn put_pair(out: &mut [u8], at: usize, p: PairLink)
    requires { at + 18 ≤ length out.old }
    ensures { out.new ≡ overwrite out.old at (record_bytes pair_codec (pair_link_of p)) }
{
    wire::put_u8(out, at, 7);
    wire::put_u8(out, at + 1, p.kind);
    put_span(out, at + 2, p.opening);
    put_span(out, at + 10, p.closing);
}

pub fn put_container(out: &mut [u8], at: usize, c: ContainerPair)
    requires { at + 13 ≤ length out.old }
    ensures { out.new ≡ overwrite out.old at (record_bytes container_codec (container_pair_of c)) }
{
    wire::put_u8(out, at, 8);
    wire::put_u32(out, at + 1, c.plain);
    wire::put_u32(out, at + 5, c.opening.0);
    wire::put_u32(out, at + 9, c.closing.0);
}

pub fn put_diagnostic(out: &mut [u8], at: usize, d: Diagnostic)
    requires { at + 18 ≤ length out.old }
    ensures { out.new ≡ overwrite out.old at (record_bytes diagnostic_codec (diagnostic_of d)) }
{
    wire::put_u8(out, at, 9);
    wire::put_u8(out, at + 1, d.kind);
    wire::put_u32(out, at + 2, d.rank);
    put_span(out, at + 6, d.span);
    wire::put_u32(out, at + 14, d.plain);
}

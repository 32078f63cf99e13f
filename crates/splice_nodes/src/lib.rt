// Document 01 section 7, `merge_source_nodes`: the nodes of a merge, in the three parts that crate splice has. The reading's nodes
// stand in the result already, grafted, so they are moved in place.
#![tactic(auto)]

ghost use Rattle.std.specs.Prelude.{◌≡◌, map, ◌+◌, ◌*◌, ◌≤◌, length};
ghost use Rattle.model.specs.Types as Types;
ghost use Rattle.model.specs.Tape.{record_at, records_at, record_bytes, records_bytes, node_codec};
ghost use Rattle.model.specs.Merge.{node_located};
ghost use Rattle.wire.specs.Overwrite.{overwrite};
ghost use Rattle.records.specs.Values.{source_node_of};
ghost use Rattle.splice.specs.Window.{window_value};
ghost use Rattle.splice.specs.Kinds.{node_kind};
ghost use Rattle.splice.specs.Parts.{as_in};
ghost use Rattle.splice.specs.declared.Part.TheVariants.{Reading};

use numbers::NODE_SIZE;

fn node_as_in(n: records::SourceNode, w: splice::Window, part: splice::Part) -> records::SourceNode
    ensures { record_bytes node_codec (source_node_of result) ≡ record_bytes node_codec (as_in node_located (window_value w) part (source_node_of n)) }
{
    records::SourceNode {
        source_span: w.span_in(n.source_span, part),
        normalized_offset: w.normalized_in(n.normalized_offset, part),
        ..n
    }
}

pub struct Nodes;

impl splice::Spliced for Nodes {
    const SIZE: usize = NODE_SIZE;

    ghost SIZE = { 49 };

    ghost Value = { Types.SourceNode };

    ghost codec = { node_codec };

    ghost located = { node_located };

    #[tactic(auto, unfolding(model::specs::Merge::node_located, splice::specs::Parts::is_in))]
    fn is_in(tape: &[u8], at: usize, w: splice::Window, part: splice::Part) -> bool {
        let span = span::Span {
            start: records::node_start(tape, at),
            end: records::node_end(tape, at),
        };
        w.has_span(span, part)
    }

    fn put(
        tape: &[u8],
        at: usize,
        w: splice::Window,
        part: splice::Part,
        out: &mut [u8],
        to: usize,
    ) {
        put_records::put_node(out, to, node_as_in(records::node_at(tape, at), w, part));
    }

    ghost kind = { node_kind };
}

// A node of the reading, moved where it stands.
fn place_node(out: &mut [u8], at: usize, w: splice::Window)
    requires { at + 49 ≤ length out.old }
    ensures { out.new ≡ overwrite out.old at (record_bytes node_codec (as_in node_located (window_value w) Reading (record_at node_codec out.old at))) }
{
    let n = records::node_at(out, at);
    put_records::put_node(out, at, node_as_in(n, w, splice::Part::Reading));
}

// The nodes of the reading, which are `count` from `at` on: the caller has two sums, and no run of them.
pub fn place_nodes(out: &mut [u8], at: usize, count: usize, w: splice::Window)
    requires { at + 49 * count ≤ length out.old }
    ensures { out.new ≡ overwrite out.old at (records_bytes node_codec (map (node_located.placed (window_value w)) (records_at node_codec out.old at count))) }
{
    for i in 0..count {
        place_node(out, at + NODE_SIZE * i, w);
    }
}

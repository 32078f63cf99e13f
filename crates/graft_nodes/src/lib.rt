// Document 01 section 5: each node of the reading grafted, in their order: the trees of its body by crate `graft`, then its record.
// The three buffers are written, and so lent one by one, as there: each function asks of them that they are `Ready`.
#![tactic(auto)]

ghost use Rattle.std.specs.Prelude.{◌≡◌, true, is_some, [], ◌∷◌, ◌+◌, ◌*◌, ◌≤◌, ◌<◌, length};
ghost use Rattle.model.specs.Lists.{all};
ghost use Rattle.model.specs.Tape.{record_at, records_at, node_codec};
ghost use Rattle.ids.specs.Tests.{node_in};
ghost use Rattle.sizes.specs.InPlace.{node_adds, nodes_add};
ghost use Rattle.graft.specs.Grafted.{layer_from};
ghost use Rattle.graft_nodes.specs.Nodes.{node_words};
ghost use Rattle.graft.specs.NodeItems.{shown_of, refs_from, NodesTold};
ghost use Rattle.graft.specs.Walk.{Ready};
ghost use Rattle.graft.specs.Walk.{WordsTold};

use graft::Walk;
use numbers::NODE_SIZE;
use places::Run;
use records::{Body, SourceNode};

// Section 5. `graft_node_ref`: the words of the node at `at`. A node of class 2 or 3 has none; the levels in the runs of another are at most 32.
pub fn graft_node(
    w: &Walk<'_>,
    out: &mut [u8],
    work: &mut [u32],
    strs: &mut [u8],
    m: &mut graft::Mark,
    at: usize,
) -> Option<[u32; 6]>
    requires ready { Ready w.now.tape.now w.now.bytes.now w.now.plan m.old out.old work.old strs.old (node_adds w.now.tape.now w.now.st.now (record_at node_codec w.now.tape.now at)) }
    requires at_in_bounds { (at + 49 ≤ length w.now.tape.now) × (node_in w.now.st.now (record_at node_codec w.now.tape.now at) ≡ true) }
    ensures { WordsTold w.now.tape.now w.now.bytes.now w.now.plan m.old out.old work.old strs.old out.new work.new strs.new m.new result
        (node_words w.now.tape.now w.now.bytes.now (record_at node_codec w.now.tape.now at) (layer_from w.now.plan work.old strs.old m.old)) }
{
    if !records::has_words(w.tape, at) {
        return Some([0u32; 6]);
    }
    graft::graft_body(w, out, work, strs, m, at + 15, 33)
}

// Section 5. `graft_node_ref`, its record written at `to` with the span of the reading.
fn graft_node_at(
    w: &Walk<'_>,
    out: &mut [u8],
    work: &mut [u32],
    strs: &mut [u8],
    m: &mut graft::Mark,
    at: usize,
    to: usize,
) -> Option<()>
    requires ready { Ready w.now.tape.now w.now.bytes.now w.now.plan m.old out.old work.old strs.old (node_adds w.now.tape.now w.now.st.now (record_at node_codec w.now.tape.now at)) }
    requires at_in_bounds { (at + 49 ≤ length w.now.tape.now) × (node_in w.now.st.now (record_at node_codec w.now.tape.now at) ≡ true) × (to + 49 ≤ length out.old) }
    ensures { NodesTold w.now.tape.now w.now.bytes.now w.now.plan m.old to out.old work.old strs.old out.new work.new strs.new m.new (is_some result)
        (refs_from w.now.plan work.old strs.old m.old (shown_of w.now.tape.now w.now.bytes.now (record_at node_codec w.now.tape.now at ∷ []))) }
{
    let words = graft_node(w, out, work, strs, m, at)?;
    let n = records::node_at(w.tape, at);
    let body = Body { words, ..n.body };
    put_records::put_node(out, to, SourceNode { body, ..n });
    Some(())
}

// Section 5. The nodes of the reading, their records from `nodesat` on.
pub fn graft_nodes(
    w: &Walk<'_>,
    out: &mut [u8],
    work: &mut [u32],
    strs: &mut [u8],
    m: &mut graft::Mark,
    run: Run,
    nodesat: usize,
) -> Option<()>
    requires ready { Ready w.now.tape.now w.now.bytes.now w.now.plan m.old out.old work.old strs.old (nodes_add w.now.tape.now w.now.st.now run.at run.count) }
    requires count_in_bounds { (run.at + 49 * run.count ≤ length w.now.tape.now) × (all (node_in w.now.st.now) (records_at node_codec w.now.tape.now run.at run.count) ≡ true) }
    requires count_bound { (w.now.plan.segments_at + 37 * (m.old.segments + (nodes_add w.now.tape.now w.now.st.now run.at run.count).segments) ≤ nodesat) × (nodesat + 49 * run.count ≤ length out.old) }
    ensures { NodesTold w.now.tape.now w.now.bytes.now w.now.plan m.old nodesat out.old work.old strs.old out.new work.new strs.new m.new (is_some result)
        (refs_from w.now.plan work.old strs.old m.old (shown_of w.now.tape.now w.now.bytes.now (records_at node_codec w.now.tape.now run.at run.count))) }
{
    for i in 0..run.count {
        graft_node_at(
            w,
            out,
            work,
            strs,
            m,
            run.at + NODE_SIZE * i,
            nodesat + NODE_SIZE * i,
        )?;
    }
    Some(())
}

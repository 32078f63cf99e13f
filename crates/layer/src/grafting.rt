// A source whose contents and segments have room, where its layer goes, and what it adds.
#![tactic(auto)]

ghost use Rattle.std.specs.Prelude.{◌^◌, ◌<◌};
ghost use Rattle.layer.specs.Layered.{room_left, source_adds};
ghost use Rattle.layer.specs.Answers.{Exact};

use super::{Grafted, Place};
use numbers::{CONTENT_SIZE, NODE_SIZE, SEGMENT_SIZE, STRING_SIZE};
use sizes::Sizes;
use tape::Book;

#[derive(Clone, Copy)]
pub struct Grafting<'a> {
    pub source: &'a Book<'a>,
    pub to: Place,
    pub sizes: Sizes,
    pub ghost exact: { Exact (room_left to.below) (source_adds source.now.tape.now source.now.bytes.now) sizes },
    pub ghost calls_small: { sizes.calls < 2 ^ 32 },
}

// The buffers are written, and so lent one by one: what is asked of their lengths is said at each function.
impl<'a> Grafting<'a> {
    ghost use Rattle.std.specs.Prelude.{◌≡◌, ◌+◌, ◌≤◌, length};
    ghost use Rattle.model.specs.Limits.{max_new_strings, min_work_words};
    ghost use Rattle.model.specs.Store.{resolve_str};
    ghost use Rattle.graft.specs.Named.{source_store};
    ghost use Rattle.representatives.specs.Pairs.{Pairs};
    ghost use Rattle.layer.specs.Lengths.{Rising};
    ghost use Rattle.layer.specs.Answers.{Finished};
    ghost use Rattle.layer.specs.Grafting.{GraftingTold, layer_length, nodes_length};

    // The bytes of the layer without its strings.
    fn layer_length(&self) -> usize
        ensures { result ≡ layer_length self.now }
    {
        1 + CONTENT_SIZE * (self.sizes.contents as usize)
            + SEGMENT_SIZE * (self.sizes.segments as usize)
    }

    // The bytes of the source's nodes.
    fn nodes_length(&self) -> usize
        ensures { result ≡ nodes_length self.now }
    {
        NODE_SIZE * self.source.places.nodes.count
    }

    // The strings' records before what a walk wrote; None where they have no room.
    fn finish(&self, out: &mut [u8], work: &[u32], m: graft::Mark) -> Option<Grafted>
        requires rising { Rising work.now m.state.count }
        requires fits { (m.state.count ≤ max_new_strings) × (self.now.to.at + layer_length self.now + nodes_length self.now ≤ length out.old) }
        ensures { Finished work.now self.now.to.below.strings self.now.to.at (layer_length self.now) (nodes_length self.now) m out.old out.new result }
    {
        let at = self.to.at;
        let len = self.layer_length();
        let rest = self.nodes_length();
        let count = m.state.count;
        if !crate::strings_fit(self.to.below.strings, count, out.len() - at - len - rest) {
            return None;
        }
        crate::lay_out(out, work, at, len - 1 + rest, count);
        Some(Grafted {
            len: len + STRING_SIZE * count,
            strings: count as u32,
            contents: m.contents,
            segments: m.segments,
            state: m.state,
        })
    }

    // By these work words, and these pairs of the source's long strings.
    fn graft_by(
        &self,
        out: &mut [u8],
        work: &mut [u32],
        strs: &mut [u8],
        pairs: &[u32],
    ) -> Option<Grafted>
        requires min_work_words_in_bounds { (min_work_words ≤ length work.old) × (self.now.to.base ≤ length strs.old)
            × (self.now.to.at ≤ length out.old) }
        requires pairs { Pairs (resolve_str (source_store self.now.source.now.tape.now self.now.source.now.bytes.now)) pairs.now }
        ensures { GraftingTold self.now out.old strs.old out.new strs.new result }
    {
        let to = self.to;
        let len = self.layer_length();
        if out.len() - to.at < len + self.nodes_length() {
            return None;
        }
        let plan = crate::plan_of(to.below, to.at, self.sizes.contents);
        let m = crate::walk(
            self.source,
            out,
            work,
            strs,
            pairs,
            plan,
            to.base,
            to.at + len,
        )?;
        self.finish(out, work, m)
    }

    // With a representative for each long string, so that no two of them are compared again and again. The pairs, 4096 at most, stand in
    // words of our own: the lent ones are the index's.
    fn graft_long(&self, out: &mut [u8], work: &mut [u32], strs: &mut [u8]) -> Option<Grafted>
        requires min_work_words_in_bounds { (min_work_words ≤ length work.old) × (self.now.to.base ≤ length strs.old)
            × (self.now.to.at ≤ length out.old) }
        ensures { GraftingTold self.now out.old strs.old out.new strs.new result }
    {
        let mut pairs = [0u32; 8193];
        crate::pair_words(self.source, &mut pairs[..]);
        self.graft_by(out, work, strs, &pairs[..])
    }

    // What `graft_layer` answers.
    pub fn graft_sized(&self, out: &mut [u8], work: &mut [u32], strs: &mut [u8]) -> Option<Grafted>
        requires min_work_words_in_bounds { (min_work_words ≤ length work.old) × (self.now.to.base ≤ length strs.old)
            × (self.now.to.at ≤ length out.old) }
        ensures { GraftingTold self.now out.old strs.old out.new strs.new result }
    {
        let source = self.source;
        if representatives::any_long(
            source.tape,
            &source.store,
            representatives::long_from(source.bytes.len()),
        ) {
            return self.graft_long(out, work, strs);
        }
        self.graft_by(out, work, strs, &[])
    }
}

// The four lists of the merged book, document 01 section 7: how many old elements are kept on either side of the region, how long the book
// gets, number 18 as far as it is known before the graft, and the lists written one behind the other.
#![tactic(auto)]

ghost use Rattle.std.specs.Prelude.{◌≡◌, true, ◌+◌, ◌*◌, ◌≤◌, length};
ghost use Rattle.wire.specs.Overwrite.{overwrite};
ghost use Rattle.model.specs.Lists.{all as all_of};
ghost use Rattle.model.specs.Tape.{records_at, records_bytes, node_codec, diagnostic_codec};
ghost use Rattle.model.specs.Merge.{kept_before, spliced, node_located, diagnostic_located};
ghost use Rattle.laws.specs.Fits.{record_fits};
ghost use Rattle.splice.specs.Window.{window_value};
ghost use Rattle.merged_lists.specs.Sizes.{sides_of, kept_of, Few, total_of};
ghost use Rattle.merged_lists.specs.Fitted.{lengths_in, kept_in};
ghost use Rattle.merged_lists.specs.Lists.{lists_of, Lists, node_bytes, diagnostic_bytes};
ghost use Rattle.output.specs.Answer.{output_by};

mod counts;

pub use counts::Counts;
use fitting::Merging;
use splice::{Section, Spliced, Window};
use splice_lists::{Containers, Diagnostics, Pairs};
use splice_nodes::Nodes;

// How many old elements of a list are kept before the region, and behind it.
#[derive(Clone, Copy)]
pub struct Sides {
    pub before: usize,
    pub behind: usize,
}

impl Sides {
    ghost use Rattle.merged_lists.specs.Sizes.{Few, total_of};

    // How long the merged list is, with so many of the reading between them.
    fn total(self, reading: usize) -> usize
        requires { Few self reading }
        ensures { (result ≡ total_of self reading) × (total_of self reading ≤ 786429) }
    {
        self.before + reading + self.behind
    }
}

#[derive(Clone, Copy)]
pub struct Kept {
    pub nodes: Sides,
    pub pairs: Sides,
    pub containers: Sides,
    pub diagnostics: Sides,
}

// How long the merged lists are.
#[derive(Clone, Copy)]
pub struct Totals {
    pub nodes: usize,
    pub pairs: usize,
    pub containers: usize,
    pub diagnostics: usize,
}

// The lengths of both new texts, and where the new layer's strings begin: behind them and the old strings.
#[derive(Clone, Copy)]
pub struct Lengths {
    pub text: usize,
    pub normalized: usize,
    pub base: usize,
}

pub fn new_lengths(m: &Merging) -> Lengths
    ensures { result ≡ lengths_in m.now }
{
    let p = m.book.places;
    let q = m.reading.places;
    let edit = m.edit;
    let w = m.window;
    let text = edit.start.0 as usize
        + edit.replacement.len()
        + (p.text.0 as usize - edit.end.0 as usize);
    let normalized = w.normalized.start.0 as usize
        + q.normalized.0 as usize
        + (p.normalized.0 as usize - w.normalized.end.0 as usize);
    let strings = m.book.bytes.len() - (p.text.0 as usize + p.normalized.0 as usize);
    Lengths {
        text,
        normalized,
        base: text + normalized + strings,
    }
}

fn sides_in<K: Spliced>(old: &Section<K>, w: Window) -> Sides
    ensures { result ≡ sides_of K.located (window_value w) (records_at K.codec old.now.tape.now old.now.run.at old.now.run.count) }
{
    Sides {
        before: old.count_before(w),
        behind: old.count_behind(w),
    }
}

fn kept_in(m: &Merging) -> Kept
    ensures { result ≡ kept_in m.now }
{
    let tape = m.book.tape;
    let p = m.book.places;
    let w = m.window;
    Kept {
        nodes: sides_in::<Nodes>(&Section::new(tape, p.nodes), w),
        pairs: sides_in::<Pairs>(&Section::new(tape, p.pairs), w),
        containers: sides_in::<Containers>(&Section::new(tape, p.containers), w),
        diagnostics: sides_in::<Diagnostics>(&Section::new(tape, p.diagnostics), w),
    }
}

// `before` is counted already, by `Counts::of`. A struct of section, window and count would be made for one call of each of the three.

// `merge_source_nodes`: the grafted nodes stand at `to` already.
fn put_nodes(
    old: &Section<Nodes>,
    w: Window,
    before: usize,
    reading: usize,
    out: &mut [u8],
    to: usize,
)
    requires before_value { before ≡ length (kept_before node_located (window_value w) (records_at node_codec old.now.tape.now old.now.run.at old.now.run.count)) }
    requires reading_in_bounds { to + 49 * total_of (sides_of node_located (window_value w) (records_at node_codec old.now.tape.now old.now.run.at old.now.run.count)) reading ≤ length out.old }
    ensures { out.new ≡ overwrite out.old to (node_bytes (window_value w) (records_at node_codec old.now.tape.now old.now.run.at old.now.run.count) (records_at node_codec out.old to reading)) }
{
    let reading_to = to + Nodes::SIZE * before;
    let behind_to = reading_to + Nodes::SIZE * reading;
    moves::move_up(out, to, Nodes::SIZE * reading, Nodes::SIZE * before);
    old.put_before(w, out, to);
    splice_nodes::place_nodes(out, reading_to, reading, w);
    old.put_behind(w, out, behind_to);
}

// `merge_pairs`, `merge_container_pairs`, and `merge_diagnostics` before its sort.
fn put_list<K: Spliced>(
    old: &Section<K>,
    w: Window,
    before: usize,
    new: &Section<K>,
    out: &mut [u8],
    to: usize,
)
    requires before_value { before ≡ length (kept_before K.located (window_value w) (records_at K.codec old.now.tape.now old.now.run.at old.now.run.count)) }
    requires list_in_bounds { to + K.SIZE * total_of (sides_of K.located (window_value w) (records_at K.codec old.now.tape.now old.now.run.at old.now.run.count)) new.now.run.count ≤ length out.old }
    ensures { out.new ≡ overwrite out.old to (records_bytes K.codec (spliced K.located (window_value w) (records_at K.codec old.now.tape.now old.now.run.at old.now.run.count) (records_at K.codec new.now.tape.now new.now.run.at new.now.run.count))) }
{
    let reading_to = to + K::SIZE * before;
    let behind_to = reading_to + K::SIZE * new.run.count;
    old.put_before(w, out, to);
    new.put_reading(w, out, reading_to);
    old.put_behind(w, out, behind_to);
}

// `merge_diagnostics`: `all` of them, sorted.
fn put_diagnostics(
    old: &Section<Diagnostics>,
    w: Window,
    before: usize,
    new: &Section<Diagnostics>,
    out: &mut [u8],
    to: usize,
    all: usize,
)
    requires before_value { (before ≡ length (kept_before diagnostic_located (window_value w) (records_at diagnostic_codec old.now.tape.now old.now.run.at old.now.run.count))) × (all ≡ total_of (sides_of diagnostic_located (window_value w) (records_at diagnostic_codec old.now.tape.now old.now.run.at old.now.run.count)) new.now.run.count) }
    requires all_in_bounds { to + 18 * all ≤ length out.old }
    requires count_value { all_of (record_fits diagnostic_codec) (spliced diagnostic_located (window_value w) (records_at diagnostic_codec old.now.tape.now old.now.run.at old.now.run.count) (records_at diagnostic_codec new.now.tape.now new.now.run.at new.now.run.count)) ≡ true }
    ensures { out.new ≡ overwrite out.old to (diagnostic_bytes (window_value w) (records_at diagnostic_codec old.now.tape.now old.now.run.at old.now.run.count) (records_at diagnostic_codec new.now.tape.now new.now.run.at new.now.run.count)) }
{
    put_list(old, w, before, new, out, to);
    diagnostic_slice::sort_diagnostics(out, to, all);
}

// The four lists from `at` on, where the grafted nodes stand, and command 10.
pub fn put_lists(m: &Merging, counts: &Counts, out: &mut [u8], at: usize)
    requires { Lists m.now counts.now (length out.old) at }
    ensures { out.new ≡ overwrite out.old at (lists_of (window_value m.now.window) m.now.book.tape.now m.now.book.places m.now.reading.tape.now m.now.reading.places (records_at node_codec out.old at m.now.reading.places.nodes.count)) }
{
    let p = m.book.places;
    let q = m.reading.places;
    let k = counts.kept;
    let w = m.window;
    let tape = m.book.tape;
    let new = m.reading.tape;
    let all = counts.totals();
    let pairs_to = at + Nodes::SIZE * all.nodes;
    let containers_to = pairs_to + Pairs::SIZE * all.pairs;
    let diagnostics_to = containers_to + Containers::SIZE * all.containers;
    put_nodes(
        &Section::new(tape, p.nodes),
        w,
        k.nodes.before,
        q.nodes.count,
        out,
        at,
    );
    put_list::<Pairs>(
        &Section::new(tape, p.pairs),
        w,
        k.pairs.before,
        &Section::new(new, q.pairs),
        out,
        pairs_to,
    );
    put_list::<Containers>(
        &Section::new(tape, p.containers),
        w,
        k.containers.before,
        &Section::new(new, q.containers),
        out,
        containers_to,
    );
    put_diagnostics(
        &Section::new(tape, p.diagnostics),
        w,
        k.diagnostics.before,
        &Section::new(new, q.diagnostics),
        out,
        diagnostics_to,
        all.diagnostics,
    );
    wire::put_u8(
        out,
        diagnostics_to + Diagnostics::SIZE * all.diagnostics,
        10,
    );
}

// Section 7. reused: old nodes kept on either side; reread: the reading's. The answer has the region as two numbers, as C gets it.
pub fn output_of(
    window: Window,
    counts: &Counts,
    stats: stats::InternStats,
    tape: usize,
    bytes: usize,
) -> output::IncrementalOutput
    ensures { result ≡ output_by window.source.start.0 window.source.end.0 (counts.now.kept.nodes.before + counts.now.kept.nodes.behind) counts.now.reading.nodes.count stats tape bytes }
{
    let kept = counts.kept.nodes;
    output::IncrementalOutput {
        start: window.source.start.0,
        end: window.source.end.0,
        reused: (kept.before + kept.behind) as u32,
        reread: counts.reading.nodes.count as u32,
        stats,
        tape,
        bytes,
    }
}

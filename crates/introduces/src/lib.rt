// Number 15, document 01 section 7: `introduces_ruby_format_dependency`. A Ruby of the reading and a Referenced Format behind the region, or
// a Referenced Format of the reading whose target is the base of a Ruby before the region. The bases go into a Bloom filter, so that a
// target that is no base seldom has to be compared; a filter takes half as many old nodes as it has words, and each such part of the old nodes
// costs one walk over the reading's. Where the filter does not tell, the bases of a part go into a row that is bisected, as number 10 has it:
// a long string goes in, and is asked for, once for each id that names it. The words have three parts: an index of the old book's strings in
// an eighth of them, the filter or the row, an index of the reading's strings in the last eighth. Where few are lent, number 15 has words
// of its own. That a node's number lies in the reading is said by each function that is asked of one node: it is another number at each
// turn, and a value of nodes and number would be made anew there, and the bound be shown there all the same. The walks are like number 10's in
// crate `dependency` and are not the same: number 10 asks each node of the bases of the nodes before it, so its filter or row grows as it walks;
// number 15 asks the nodes of another book, of a filter or row that is whole. Old nodes and reading are two parameters throughout: most steps
// make other ones of them, a part or with another index, so that a struct of both would be made anew at each. That the words have room for a
// base of each node is said by the three that hand them on, since what is written is lent by itself.
#![tactic(auto)]

ghost use Rattle.std.specs.Prelude.{◌≡◌, IfSome, ◌+◌, ◌*◌, ◌≤◌, ◌<◌, length};
ghost use Rattle.model.specs.Lists.{any, keep};
ghost use Rattle.model.specs.Tape.{records_at, node_codec};
ghost use Rattle.model.specs.Region.{is_referenced_format};
ghost use Rattle.model.specs.Merge.{introduces_ruby_format_dependency};
ghost use Rattle.laws.specs.Nodes.{starts_at};
ghost use Rattle.span.specs.Values.{span_of};
ghost use Rattle.ruby_formats.specs.Nodes.{node_in, first_nodes, nodes_store};
ghost use Rattle.dependency.specs.Noted.{Noted};
ghost use Rattle.dependency.specs.Rows.{Told, Rowed};
ghost use Rattle.tape.specs.StringBytes.{book_of};
ghost use Rattle.introduces.specs.Linked.{ruby_for_later};
ghost use Rattle.introduces.specs.Among.{refers_to_first, any_refers};
ghost use Rattle.introduces.specs.Books.{refers_before};
ghost use Rattle.introduces.specs.Rows.{refers_to_row};
ghost use Rattle.records.specs.Runs.{test_at};
ghost use Rattle.wire.specs.Loops.{Missed};

use dependency::{Answer, Filter};
use numbers::NODE_SIZE;
use places::Run;
use ruby_formats::Nodes;
use sorted_ids::Row;
use span::{SourceOffset, Span};
use tape::Book;

// A Referenced Format that starts at or behind an offset.
fn any_format_from(tape: &[u8], nodes: Run, from: SourceOffset) -> bool
    requires { nodes.at + 49 * nodes.count ≤ length tape.now }
    ensures { result ≡ any is_referenced_format (keep (starts_at from.0) (records_at node_codec tape.now nodes.at nodes.count)) }
{
    (0..nodes.count).any(|i| ruby_formats::is_format_from(tape, nodes.at + NODE_SIZE * i, from))
}

// A Ruby of the reading and a Referenced Format behind the region.
fn ruby_for_later(book: &Book, reading: &Book, end: SourceOffset) -> bool
    ensures { result ≡ ruby_for_later (book_of reading.now).source_nodes (book_of book.now).source_nodes end.0 }
{
    ruby_formats::any_ruby(reading.tape, reading.places.nodes)
        && any_format_from(book.tape, book.places.nodes, end)
}

// The bases of the Rubies among these nodes, in a filter that begins as zeros.
fn note_bases(nodes: &Nodes, filter: &mut [u32])
    ensures { Noted (nodes_store nodes.now) (first_nodes nodes.now nodes.now.run.count) filter.new }
{
    filter.fill(0);
    for i in 0..nodes.run.count {
        dependency::note_ruby(nodes, i, filter);
    }
}

// Node i of the reading: a Referenced Format whose target is the base of a Ruby among the old nodes.
fn refers_to(filter: &Filter, reading: &Nodes, i: usize) -> Answer
    requires { i < reading.now.run.count }
    ensures { Told result (refers_to_first filter.now.nodes.now filter.now.count reading.now (node_in reading.now i)) }
{
    if !reading.is_referenced_format(i) {
        return Answer::No;
    }
    filter.is_target_base(&reading.strings, reading.first_plain(i))
}

// The same of any node of the reading; None for not known, as in the walk of number 10.
fn any_refers_to(filter: &Filter, reading: &Nodes) -> Option<bool>
    ensures { IfSome result (λ r. r ≡ any_refers filter.now.nodes.now filter.now.count reading.now) }
{
    let mut vain = 0;
    for i in 0..reading.run.count {
        match refers_to(filter, reading, i) {
            Answer::Yes => return Some(true),
            Answer::Unknown => return None,
            Answer::InVain => vain += 1,
            Answer::No => {}
        }
        if dependency::MOST_IN_VAIN < vain {
            return None;
        }
    }
    Some(false)
}

// The bases of the Rubies among these nodes in a row. Answers how many there are.
fn row_of(nodes: &Nodes, row: &mut [u32], first: &[u64]) -> usize
    requires { nodes.now.run.count ≤ length row.old }
    ensures { Rowed nodes.now.strings (first_nodes nodes.now nodes.now.run.count) row.new result }
{
    let n = nodes.run.count;
    let mut m = 0;
    for i in 0..n {
        m = dependency::insert_first(nodes, n, row, m, i, first);
    }
    m
}

// Node i of the reading: a Referenced Format whose target is in the row.
fn refers_to_row(row: &Row, reading: &Nodes, i: usize) -> bool
    requires { i < reading.now.run.count }
    ensures { result ≡ refers_to_row row.now (nodes_store reading.now) (node_in reading.now i) }
{
    reading.is_referenced_format(i)
        && dependency::is_plain_in_row(row, &reading.strings, reading.first_plain(i))
}

// The same where no node before it refers to the row: one that has the target of an earlier node by its id is not asked again.
fn refers_first_to_row(row: &Row, reading: &Nodes, i: usize, first: &[u64]) -> bool
    requires i_lt_count { i < reading.now.run.count }
    requires missed { Missed (test_at node_codec (refers_to_row row.now (nodes_store reading.now)) reading.now.strings.tape.now reading.now.run.at) i }
    ensures { result ≡ refers_to_row row.now (nodes_store reading.now) (node_in reading.now i) }
{
    if let Some(v) = dependency::noted_place(reading, i, first) {
        if reading.is_target_again(i, v) {
            return false;
        }
    }
    refers_to_row(row, reading, i)
}

// No `any`: that no node before it refers to the row is what a node is asked with, and a closure is not told what the turns before it gave.
fn any_refers_to_row(row: &Row, reading: &Nodes, first: &[u64]) -> bool
    ensures { result ≡ any (refers_to_row row.now (nodes_store reading.now)) (first_nodes reading.now reading.now.run.count) }
{
    for i in 0..reading.run.count {
        if refers_first_to_row(row, reading, i, first) {
            return true;
        }
    }
    false
}

// A Referenced Format of the reading whose target is the base of a Ruby among the old nodes. None for not known.
fn refers_by_filter(nodes: &Nodes, reading: &Nodes, words: &mut [u32]) -> Option<bool>
    ensures { IfSome result (λ r. r ≡ any_refers nodes.now nodes.now.run.count reading.now) }
{
    note_bases(nodes, words);
    let filter = Filter {
        nodes: &*nodes,
        count: nodes.run.count,
        words,
    };
    any_refers_to(&filter, reading)
}

// The same by a row of the bases, with words of its own for the first places of long strings.
fn refers_by_row(nodes: &Nodes, reading: &Nodes, row: &mut [u32]) -> bool
    requires { nodes.now.run.count ≤ length row.old }
    ensures { result ≡ any_refers nodes.now nodes.now.run.count reading.now }
{
    let mut first = [0u64; 4096];
    let mut asked = [0u64; 4096];
    let n = nodes.run.count;
    let a = dependency::first_places(nodes, n, &mut first, |i| nodes.is_ruby(i));
    let n = reading.run.count;
    let z = dependency::first_places(reading, n, &mut asked, |i| reading.is_referenced_format(i));
    let m = row_of(nodes, row, &first[0..a]);
    let bases = Row {
        strings: &nodes.strings,
        ids: &row[0..m],
    };
    any_refers_to_row(&bases, reading, &asked[0..z])
}

// The same by a filter, or by a row where the filter does not tell.
fn refers_to_some(nodes: &Nodes, reading: &Nodes, words: &mut [u32]) -> bool
    requires { nodes.now.run.count ≤ length words.old }
    ensures { result ≡ any_refers nodes.now nodes.now.run.count reading.now }
{
    match refers_by_filter(nodes, reading, words) {
        Some(refers) => refers,
        None => refers_by_row(nodes, reading, words),
    }
}

// The same, with half as many old nodes at a time as there are words.
fn refers_in_parts(nodes: &Nodes, reading: &Nodes, words: &mut [u32]) -> bool
    requires { 2 ≤ length words.old }
    ensures { result ≡ any_refers nodes.now nodes.now.run.count reading.now }
{
    let size = words.len() / 2 + 1;
    // The last part may be shorter.
    for i in (0..nodes.run.count).step_by(size) {
        let n = size.min(nodes.run.count - i);
        let part = Nodes {
            strings: nodes.strings,
            run: Run {
                at: nodes.run.at + NODE_SIZE * i,
                count: n,
            },
        };
        if refers_to_some(&part, reading, words) {
            return true;
        }
    }
    false
}

// The same by words that may hold anything: an index of the old book's strings in the first eighth, of the reading's in the last.
fn refers_by_words(nodes: &Nodes, reading: &Nodes, words: &mut [u32]) -> bool
    requires { 6 ≤ length words.old }
    ensures { result ≡ any_refers nodes.now nodes.now.run.count reading.now }
{
    let eighth = words.len() / 8;
    let (first, rest) = words.split_at_mut(eighth);
    let size = rest.len() - eighth;
    let (words, last) = rest.split_at_mut(size);
    let nodes = nodes.indexed(first);
    let reading = reading.indexed(last);
    refers_in_parts(&nodes, &reading, words)
}

// The same by words of its own, where few are lent.
fn refers_by_own(nodes: &Nodes, reading: &Nodes) -> bool
    ensures { result ≡ any_refers nodes.now nodes.now.run.count reading.now }
{
    let mut words = [0u32; 65536];
    refers_by_words(nodes, reading, &mut words[..])
}

// A Referenced Format of the reading whose target is the base of a Ruby before the region.
fn refers_before(book: &Book, reading: &Book, words: &mut [u32], start: SourceOffset) -> bool
    ensures { result ≡ refers_before book.now reading.now start.0 }
{
    let nodes = Nodes::of(book);
    let before = Nodes {
        strings: nodes.strings,
        run: Run {
            at: nodes.run.at,
            count: reading::nodes_until(book.tape, book.places.nodes, start),
        },
    };
    if dependency::in_many_parts(words.len(), 2 * book.places.nodes.count + 6) {
        return refers_by_own(&before, &Nodes::of(reading));
    }
    refers_by_words(&before, &Nodes::of(reading), words)
}

// Number 15. `introduces_ruby_format_dependency` of a book and a reading of its region.
pub fn introduces_ruby_format_dependency(
    book: &Book,
    reading: &Book,
    words: &mut [u32],
    region: Span,
) -> bool
    ensures { result ≡ introduces_ruby_format_dependency (book_of book.now) (book_of reading.now) (span_of region) }
{
    if ruby_for_later(book, reading, region.end) {
        return true;
    }
    any_format_from(reading.tape, reading.places.nodes, SourceOffset(0))
        && refers_before(book, reading, words, region.start)
}

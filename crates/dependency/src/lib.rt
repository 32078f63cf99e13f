// Number 10, document 01 section 6: a Referenced Format behind the edit's start whose target is the base of an earlier Ruby. A base
// and a target are compared as plain strings: a string's bytes are found by the index of crate `strings`, and only where its length
// is the one that is asked for. The walk puts a key of each base into a Bloom filter, so that a target that is no base seldom has to be
// compared; a filter takes the bases of some nodes at a time, and each such part costs one walk over the nodes from it on. Bases can be
// chosen so that they crowd the filter, and the filter knows a long string by its ends only: where it does not tell, the part's bases go
// into a row of ids that is sorted by their strings, and a target is found by bisection. Many nodes may name one long string: by its id, a
// base goes in where a Ruby names it first, and a target is asked for where a Format names it last. specs/Bases.antt says what is asked,
// specs/Noted.antt what the filter says, specs/Rows.antt what the row says, specs/Named.antt and specs/Later.antt what nodes that name
// one id share; crate `ruby_formats` has what is asked of one node and what number 4 has shown of it. That a node's number lies in the run is
// said by each function that is asked of one node, and that an answer is an id of the strings by each that is asked of an answer: both are
// others at each turn, and a value of nodes and number, or of strings and answer, would be made anew there, and the same be shown there.
#![tactic(auto)]

mod filter;

ghost use Rattle.std.specs.Prelude.{◌≡◌, ℕ, IfSome, ◌+◌, ◌*◌, ◌<◌, ◌≤◌, min, ◌&&◌, [], length, nat_lt};
ghost use Rattle.model.specs.Lists.{any, same as same_bytes};
ghost use Rattle.model.specs.Region.{depends_from};
ghost use Rattle.strings.specs.Lent.{lent_store, string_in};
ghost use Rattle.strings.specs.PlainContent.{plain_string};
ghost use Rattle.wire.specs.Loops.{any_up_to};
ghost use Rattle.ruby_formats.specs.Sound.{PlainIn};
ghost use Rattle.ruby_formats.specs.Nodes.{node_in, first_nodes, nodes_store};
ghost use Rattle.dependency.specs.Bases.{is_plain, has_base};
ghost use Rattle.dependency.specs.Among.{refers_first};
ghost use Rattle.dependency.specs.Noted.{filter_key, inserted_plain, noted_by, Noted};
ghost use Rattle.dependency.specs.Rows.{Told, is_one, is_base_of, Rowed, RowOf, among_row, refers_row};
ghost use Rattle.dependency.specs.Later.{Settled};
ghost use Rattle.sorted_ids.specs.Row.{Sorted, Inserted};

pub use filter::Filter;
use numbers::NODE_SIZE;
use places::Run;
use ruby_formats::Nodes;
use sorted_ids::Row;
use span::{SourceOffset, StrId};
use strings::Strings;

// Is it the string of an id? Lengths first: where they differ, the string is not looked for.
fn is_string(strings: &Strings, id: StrId, s: &[u8]) -> bool
    requires { id.0 < strings.now.store.now.totals.strings }
    ensures { result ≡ same_bytes s.now (string_in strings.now id.0) }
{
    strings.string_length(id) == s.len() && compare::same(s, strings.resolve_str(id))
}

fn is_plain(strings: &Strings, p: Option<StrId>, s: &[u8]) -> bool
    requires { PlainIn strings.now.store.now p }
    ensures { result ≡ is_plain s.now (plain_string (lent_store strings.now) p) }
{
    match p {
        Some(id) => is_string(strings, id, s),
        None => false,
    }
}

// A Ruby with this plain base.
fn has_base(nodes: &Nodes, i: usize, s: &[u8]) -> bool
    requires { i < nodes.now.run.count }
    ensures { result ≡ has_base (nodes_store nodes.now) s.now (node_in nodes.now i) }
{
    nodes.is_ruby(i) && is_plain(&nodes.strings, nodes.first_plain(i), s)
}

// Is it the plain base of a Ruby among the first n nodes?
pub fn is_ruby_base(nodes: &Nodes, n: usize, s: &[u8]) -> bool
    requires { n ≤ nodes.now.run.count }
    ensures { result ≡ any (has_base (nodes_store nodes.now) s.now) (first_nodes nodes.now n) }
{
    for i in 0..n {
        if has_base(nodes, i, s) {
            return true;
        }
    }
    false
}

const LONG_STRING: usize = 64;

// What the filter knows a string by. Of a long one it looks at the two ends: many nodes may name it, and each would read it whole.
fn filter_key(s: &[u8]) -> u64
    ensures { result ≡ filter_key s.now }
{
    let n = s.len();
    if n <= LONG_STRING {
        return hash::fx_hash(s);
    }
    let front = hash::fx_hash(&s[0..32]);
    let back = hash::fx_hash(&s[n - 32..n]);
    front.wrapping_add(back).wrapping_add(n as u64)
}

// Is a string a base?
#[derive(Clone, Copy, Debug, PartialEq, Eq)]
pub enum Answer {
    Yes,
    // The filter excludes it.
    No,
    // It is not, which took comparing.
    InVain,
    // The filter does not exclude it, and it is too long to be compared.
    Unknown,
}

// How many targets a walk compares in vain before it gives up: then bases crowd the filter.
pub const MOST_IN_VAIN: u32 = 128;

// Number 10, node i: a Referenced Format that ends behind `from` and whose target is the base of an earlier Ruby among the first n nodes.
fn refers_among(nodes: &Nodes, n: usize, filter: &[u32], i: usize, from: SourceOffset) -> Answer
    requires i_lt_count { i < nodes.now.run.count }
    requires noted { Noted (nodes_store nodes.now) (first_nodes nodes.now (min n i)) filter.now }
    ensures { Told result (refers_first nodes.now from.0 n i) }
{
    if !nodes.asks_target(i, from) {
        return Answer::No;
    }
    let bases = Filter {
        nodes: &*nodes,
        count: n.min(i),
        words: filter,
    };
    bases.is_target_base(&nodes.strings, nodes.first_plain(i))
}

// The string of an answer, inserted.
fn insert_plain(strings: &Strings, filter: &mut [u32], p: Option<StrId>)
    requires { PlainIn strings.now.store.now p }
    ensures { filter.new ≡ inserted_plain filter.old (plain_string (lent_store strings.now) p) }
{
    if let Some(id) = p {
        bloom::insert(filter, filter_key(strings.resolve_str(id)));
    }
}

// The plain base of a Ruby, inserted.
pub fn note_ruby(nodes: &Nodes, i: usize, filter: &mut [u32])
    requires { i < nodes.now.run.count }
    ensures { filter.new ≡ noted_by (nodes_store nodes.now) filter.old (node_in nodes.now i) }
{
    if nodes.is_ruby(i) {
        insert_plain(&nodes.strings, filter, nodes.first_plain(i));
    }
}

// Node i, if it is one of the first n.
fn note_first(nodes: &Nodes, n: usize, filter: &mut [u32], i: usize)
    requires i_lt_count { i < nodes.now.run.count }
    requires noted { Noted (nodes_store nodes.now) (first_nodes nodes.now (min n i)) filter.old }
    ensures { Noted (nodes_store nodes.now) (first_nodes nodes.now (min n (i + 1))) filter.new }
{
    if i < n {
        note_ruby(nodes, i, filter);
    }
}

// One walk over the nodes; each base among the first n is inserted when it is passed. None for not known, where the filter does not
// exclude a long target, or bases crowd it.
fn any_refers_among(nodes: &Nodes, n: usize, filter: &mut [u32], from: SourceOffset) -> Option<bool>
    ensures { IfSome result (λ r. r ≡ any_up_to nodes.now.run.count (refers_first nodes.now from.0 n)) }
{
    let mut vain = 0;
    for i in 0..nodes.run.count {
        match refers_among(nodes, n, filter, i, from) {
            Answer::Yes => return Some(true),
            Answer::Unknown => return None,
            Answer::InVain => vain += 1,
            Answer::No => {}
        }
        if MOST_IN_VAIN < vain {
            return None;
        }
        note_first(nodes, n, filter, i);
    }
    Some(false)
}

// The place noted for what node i names: a hint, which the caller tests before it relies on it.
pub fn noted_place(nodes: &Nodes, i: usize, places: &[u64]) -> Option<usize>
    requires { i < nodes.now.run.count }
{
    id_places::find(places, nodes.named(i)?)
}

// A string of more bytes than this is not to be compared twice: fewer than 4096 of the book's strings are so long.
pub fn long_from(strings: &Strings) -> usize {
    LONG_STRING.max((strings.old.len() + strings.new.len()) / 4096)
}

// Node i noted by what it names, if that is a long string that is not noted yet.
pub fn note_place(nodes: &Nodes, i: usize, long: usize, places: &mut [u64], m: usize) -> usize
    requires i_lt_count { i < nodes.now.run.count }
    requires m_in_bounds { m ≤ length places.old }
    ensures { result ≤ length places.old }
{
    match nodes.named(i) {
        Some(id) if long < nodes.strings.string_length(id) => id_places::insert(places, m, id, i),
        _ => m,
    }
}

// For each long string, the first node of the first n that names it and passes a test, noted in `places`: how many are noted.
pub fn first_places<F: Fn(usize) -> bool>(
    nodes: &Nodes,
    n: usize,
    places: &mut [u64],
    passes: F,
) -> usize
    requires n_le_count { n ≤ nodes.now.run.count }
    requires callable { (i : ℕ) → i < nodes.now.run.count → F.pre passes i }
    ensures { result ≤ length places.old }
{
    let long = long_from(&nodes.strings);
    let mut m = 0;
    for i in 0..n {
        if passes(i) {
            m = note_place(nodes, i, long, places, m);
        }
    }
    m
}

// The last Format of each long target that is asked for.
fn last_targets(nodes: &Nodes, from: SourceOffset, places: &mut [u64]) -> usize
    ensures { result ≤ length places.old }
{
    let long = long_from(&nodes.strings);
    let mut m = 0;
    for n in (0..nodes.run.count).rev() {
        if nodes.asks_target(n, from) {
            m = note_place(nodes, n, long, places, m);
        }
    }
    m
}

// Is the string of an answer `p`, which is one of `of`, in the row?
pub fn is_plain_in_row(row: &Row, of: &Strings, p: Option<StrId>) -> bool
    requires { PlainIn of.now.store.now p }
    ensures { result ≡ among_row row.now (plain_string (lent_store of.now) p) }
{
    match p {
        Some(id) => row.contains(of.resolve_str(id)),
        None => false,
    }
}

// Number 10, node i: a Referenced Format that ends behind `from` and whose target is in the row.
fn refers_to_row(nodes: &Nodes, row: &Row, i: usize, from: SourceOffset) -> bool
    requires { i < nodes.now.run.count }
    ensures { result ≡ refers_row (nodes_store nodes.now) from.0 row.now (node_in nodes.now i) }
{
    nodes.asks_target(i, from) && is_plain_in_row(row, &nodes.strings, nodes.first_plain(i))
}

// The string of an answer, put into the row.
fn insert_id(strings: &Strings, row: &mut [u32], m: usize, p: Option<StrId>) -> usize
    requires row { Sorted strings.now row.old m }
    requires m_in_bounds { m < length row.old }
    requires plain_in { PlainIn strings.now.store.now p }
    ensures { Inserted strings.now (is_one (plain_string (lent_store strings.now) p)) row.old m row.new result }
{
    match p {
        Some(id) => sorted_ids::insert(strings, row, m, id),
        None => m,
    }
}

// The plain base of a Ruby, put into the row.
pub fn insert_base(nodes: &Nodes, i: usize, row: &mut [u32], m: usize) -> usize
    requires i_lt_count { i < nodes.now.run.count }
    requires row { Sorted nodes.now.strings row.old m }
    requires m_in_bounds { m < length row.old }
    ensures { Inserted nodes.now.strings (is_base_of (nodes_store nodes.now) (node_in nodes.now i)) row.old m row.new result }
{
    if !nodes.is_ruby(i) {
        return m;
    }
    insert_id(&nodes.strings, row, m, nodes.first_plain(i))
}

// Number 10, node i, unless a later node asks for its target too: then it is left to that node.
fn refers_or_later(
    nodes: &Nodes,
    n: usize,
    row: &Row,
    i: usize,
    from: SourceOffset,
    last: &[u64],
) -> bool
    requires i_lt_count { i < nodes.now.run.count }
    requires bases { RowOf (nodes_store nodes.now) (first_nodes nodes.now (min n i)) row.now }
    ensures { Settled (refers_first nodes.now from.0 n) nodes.now.run.count i result }
{
    if let Some(v) = noted_place(nodes, i, last) {
        if nodes.asks_again(i, v, from) {
            return false;
        }
    }
    refers_to_row(nodes, row, i, from)
}

// Node i, if it is one of the first n and no Ruby before it has its base by the same id.
pub fn insert_first(
    nodes: &Nodes,
    n: usize,
    row: &mut [u32],
    m: usize,
    i: usize,
    first: &[u64],
) -> usize
    requires i_lt_count { i < nodes.now.run.count }
    requires rowed { Rowed nodes.now.strings (first_nodes nodes.now (min n i)) row.old m }
    requires m_le_i { (m ≤ i) × (n ≤ length row.old) }
    ensures { (result ≤ i + 1) × Rowed nodes.now.strings (first_nodes nodes.now (min n (i + 1))) row.new result }
{
    if n <= i {
        return m;
    }
    if let Some(v) = noted_place(nodes, i, first) {
        if nodes.is_base_again(i, v) {
            return m;
        }
    }
    insert_base(nodes, i, row, m)
}

// The same walk with the bases in a row.
fn any_refers_sorted(
    nodes: &Nodes,
    n: usize,
    row: &mut [u32],
    from: SourceOffset,
    first: &[u64],
    last: &[u64],
) -> bool
    requires { n ≤ length row.old }
    ensures { result ≡ any_up_to nodes.now.run.count (refers_first nodes.now from.0 n) }
{
    let mut m = 0;
    for i in 0..nodes.run.count {
        let bases = Row {
            strings: &nodes.strings,
            ids: &row[0..m],
        };
        if refers_or_later(nodes, n, &bases, i, from, last) {
            return true;
        }
        m = insert_first(nodes, n, row, m, i, first);
    }
    false
}

// The same, with words of its own for the places of long strings: the first Ruby of each base, the last Format of each target.
fn refers_sorted(nodes: &Nodes, n: usize, row: &mut [u32], from: SourceOffset) -> bool
    requires { (n ≤ nodes.now.run.count) × (n ≤ length row.old) }
    ensures { result ≡ any_up_to nodes.now.run.count (refers_first nodes.now from.0 n) }
{
    let mut first = [0u64; 4096];
    let mut last = [0u64; 4096];
    let a = first_places(nodes, n, &mut first, |i| nodes.is_ruby(i));
    let z = last_targets(nodes, from, &mut last);
    any_refers_sorted(nodes, n, row, from, &first[0..a], &last[0..z])
}

// The same with a filter that begins as zeros, or a row where the filter does not tell.
fn part_refers(nodes: &Nodes, n: usize, words: &mut [u32], from: SourceOffset) -> bool
    requires { (n ≤ nodes.now.run.count) × (n ≤ length words.old) }
    ensures { result ≡ any_up_to nodes.now.run.count (refers_first nodes.now from.0 n) }
{
    words.fill(0);
    match any_refers_among(nodes, n, words, from) {
        Some(refers) => refers,
        None => refers_sorted(nodes, n, words, from),
    }
}

// The same; a part without a Ruby takes no walk.
fn refers_to_part(nodes: &Nodes, n: usize, words: &mut [u32], from: SourceOffset) -> bool
    requires { (n ≤ nodes.now.run.count) × (n ≤ length words.old) }
    ensures { result ≡ any_up_to nodes.now.run.count (refers_first nodes.now from.0 n) }
{
    let part = Run {
        at: nodes.run.at,
        count: n,
    };
    ruby_formats::any_ruby(nodes.strings.tape, part) && part_refers(nodes, n, words, from)
}

// Number 10 in parts of half as many nodes as there are words, a walk from each part on: so a target is seldom compared.
fn refers_in_parts(nodes: &Nodes, words: &mut [u32], from: SourceOffset) -> bool
    requires { 2 ≤ length words.old }
    ensures { result ≡ depends_from (nodes_store nodes.now) from.0 [] (first_nodes nodes.now nodes.now.run.count) }
{
    let size = words.len() / 2 + 1;
    // The last part may be shorter.
    for i in (0..nodes.run.count).step_by(size) {
        let left = nodes.run.count - i;
        let n = size.min(left);
        let rest = Nodes {
            strings: nodes.strings,
            run: Run {
                at: nodes.run.at + NODE_SIZE * i,
                count: left,
            },
        };
        if refers_to_part(&rest, n, words, from) {
            return true;
        }
    }
    false
}

// Number 10 by words that may hold anything: an index of the strings in the first quarter, the filter or the row in the others.
fn refers_by_words(nodes: &Nodes, words: &mut [u32], from: SourceOffset) -> bool
    requires { 2 ≤ length words.old }
    ensures { result ≡ depends_from (nodes_store nodes.now) from.0 [] (first_nodes nodes.now nodes.now.run.count) }
{
    let (index, words) = words.split_at_mut(words.len() / 4);
    let indexed = nodes.indexed(index);
    refers_in_parts(&indexed, words, from)
}

// The same by words of its own, where so few are lent that there would be many parts.
fn refers_by_own(nodes: &Nodes, from: SourceOffset) -> bool
    ensures { result ≡ depends_from (nodes_store nodes.now) from.0 [] (first_nodes nodes.now nodes.now.run.count) }
{
    let mut own = [0u32; 65536];
    refers_by_words(nodes, &mut own[..], from)
}

// Are the lent words so few that words of one's own, 65536 of them, make fewer parts of the nodes?
pub fn in_many_parts(words: usize, nodes: usize) -> bool
    ensures { result ≡ (nat_lt words 65536 && nat_lt words nodes) }
{
    words < 65536 && words < nodes
}

// Number 10. `has_ruby_format_dependency`. The words may hold anything. A book without a Format that refers to a target behind `from` needs none.
pub fn has_ruby_format_dependency(nodes: &Nodes, words: &mut [u32], from: SourceOffset) -> bool
    ensures { result ≡ depends_from (nodes_store nodes.now) from.0 [] (first_nodes nodes.now nodes.now.run.count) }
{
    let n = ruby_formats::asked_nodes(nodes.strings.tape, nodes.run, from);
    if n == 0 {
        return false;
    }
    let asked = Nodes {
        strings: nodes.strings,
        run: Run {
            at: nodes.run.at,
            count: n,
        },
    };
    if in_many_parts(words.len(), n + 1) {
        return refers_by_own(&asked, from);
    }
    refers_by_words(&asked, words, from)
}

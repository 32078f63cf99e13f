// Which long strings of a book are equal: for each of them a representative, the id of an equal string, the same for all that are equal.
// Words: how many pairs there are, then the pairs in the rising order of their first, an id and its representative plus 1. A pair is found
// by bisection and looked at before it is used: so it need not be there, and what it says is right wherever it stands (specs/Pairs.antt).
#![tactic(auto)]

ghost use Rattle.std.specs.Prelude.{◌≡◌, IfSome, List, ℕ, ◌+◌, ◌-◌, ◌*◌, ◌^◌, ◌≤◌, ◌<◌, length, get_or, leb};
ghost use Rattle.wire.specs.Loops.{any_up_to};
ghost use Rattle.strings.specs.Starts.{lengths_in, OfTape};
ghost use Rattle.strings.specs.Lent.{string_in};
ghost use Rattle.sorted_ids.specs.Row.{Sorted};
ghost use Rattle.representatives.specs.Long.{long_from};
ghost use Rattle.representatives.specs.Pairs.{Pairs, pairs_in, pair_put, Paired};
ghost use Rattle.representatives.specs.Bisection.{Rising, Split, Known, as_word};
ghost use Rattle.representatives.specs.Ordered.{Ordered};

use sorted_ids::Row;
use span::StrId;
use store::Store;
use strings::Strings;

// a string of fewer bytes is never long
const LONG: usize = 1024;

// how many long strings there can be, and how many words the row of them has
const MOST: usize = 4096;

// how many words before the row hold an index: with the row 5120
const INDEX: usize = 1024;

// From how many bytes on a string of a book is long: at most 4096 strings of a book of n bytes are. (In `dependency` other
// strings are long, by numbers of its own.)
pub fn long_from(n: usize) -> usize
    ensures { result ≡ long_from n }
{
    LONG.max(n / MOST + 1)
}

// Is a string of the book so long?
pub fn any_long(tape: &[u8], st: &Store, least: usize) -> bool
    requires { OfTape tape.now st.now }
    ensures { result ≡ any_up_to st.now.totals.strings (λ (i : ℕ). leb least (get_or (lengths_in tape.now) i 0)) }
{
    (0..st.totals.strings).any(|i| least <= strings::string_length(tape, st, StrId(i)))
}

// How many pairs have lower ids, where the ids rise: they are the first.
fn rank_of(words: &[u32], m: usize, id: StrId) -> usize
    requires { 2 * m ≤ length words.now - 1 }
    ensures { Split words.now m id.0 result result }
{
    let mut lo = 0;
    let mut hi = m;
    // The words may hold anything, and `partition_point` tells nothing of what does not rise.
    while lo < hi {
        let mid = lo + (hi - lo) / 2;
        if words[2 * mid + 1] < id.0 {
            lo = mid + 1;
        } else {
            hi = mid;
        }
    }
    lo
}

// How many pairs the words have, and have room for.
fn pairs_in(words: &[u32]) -> usize
    ensures { result ≡ pairs_in words.now }
{
    if words.len() < 3 {
        return 0;
    }
    (words[0] as usize).min((words.len() - 1) / 2)
}

// The representative of a string, where one is known. What it says is right in any case, and an id that has a pair is found where the ids rise.
pub fn representative(words: &[u32], id: StrId) -> Option<StrId>
    ensures by_index { (K : ℕ → List ℕ) → Pairs K words.now → IfSome result (λ r. K r.0 ≡ K id.0) }
    ensures known { Known words.now id.0 (as_word result) }
{
    let m = pairs_in(words);
    let p = rank_of(words, m, id);
    if m <= p {
        return None;
    }
    if words[2 * p + 1] != id.0 {
        return None;
    }
    match words[2 * p + 2] {
        0 => None,
        word => Some(StrId(word - 1)),
    }
}

// One pair more, the n-th. Words and how many pairs they have go side by side, here and below, as they are lent: see `sorted_ids::insert`.
fn put_pair(words: &mut [u32], n: usize, id: StrId, representative: StrId)
    requires n_bound { (n < 4096) × (2 * n + 2 < length words.old) }
    requires representative_bound { representative.0 < 4294967295 }
    ensures { words.new ≡ pair_put words.old n id.0 representative.0 }
{
    words[0] = (n + 1) as u32;
    words[2 * n + 1] = id.0;
    words[2 * n + 2] = representative.0 + 1;
}

// One long string more, the n-th: its pair. The row has each string of the pairs once. Answers how many the row has then.
fn pair_string(
    strings: &Strings,
    row: &mut [u32],
    m: usize,
    words: &mut [u32],
    n: usize,
    id: StrId,
) -> usize
    requires row { Sorted strings.now row.old m }
    requires m_in_bounds { (m < length row.old) × (id.0 < strings.now.store.now.totals.strings) × (strings.now.store.now.totals.strings < 2 ^ 32) }
    requires n_bound { (n < 4096) × (2 * n + 2 < length words.old) }
    requires pairs { Pairs (string_in strings.now) words.old }
    requires ordered { Ordered words.old n id.0 }
    ensures paired { Paired strings.now row.new result (m + 1) words.new }
    ensures ordered_2 { Ordered words.new (n + 1) (id.0 + 1) }
{
    let own = Row {
        strings: &*strings,
        ids: &row[0..m],
    };
    if let Some(known) = own.find(strings.resolve_str(id)) {
        put_pair(words, n, id, known);
        return m;
    }
    put_pair(words, n, id, id);
    sorted_ids::insert(strings, row, m, id)
}

// A pair for each long string, as far as there is room: by a row that is empty yet.
fn pair_all(strings: &Strings, row: &mut [u32], words: &mut [u32], room: usize, least: usize)
    requires row_len { (length row.old ≡ 4096) × (room ≤ 4096) × (2 * room ≤ length words.old - 1) }
    requires pairs { Pairs (string_in strings.now) words.old }
    requires ordered { Ordered words.old 0 0 }
    ensures pairs_2 { Pairs (string_in strings.now) words.new }
    ensures rising { Rising words.new (pairs_in words.new) }
{
    let mut n = 0;
    let mut m = 0;
    for i in 0..strings.store.totals.strings {
        let id = StrId(i);
        if strings.string_length(id) < least {
            continue;
        }
        if room <= n {
            return;
        }
        m = pair_string(strings, row, m, words, n, id);
        n += 1;
    }
}

// The same by lent words: an index of the strings in the first of them, the row behind it.
fn pair_by_words(strings: &Strings, lent: &mut [u32], words: &mut [u32], least: usize)
    requires { (length lent.old ≡ 5120) × (1 ≤ length words.old) }
    ensures pairs { Pairs (string_in strings.now) words.new }
    ensures rising { Rising words.new (pairs_in words.new) }
{
    let (index, row) = lent.split_at_mut(INDEX);
    strings.write_index(index);
    let indexed = Strings {
        tape: strings.tape,
        store: strings.store,
        index,
        old: strings.old,
        new: strings.new,
    };
    words.fill(0);
    let room = MOST.min((words.len() - 1) / 2);
    pair_all(&indexed, row, words, room, least);
}

// A pair for each string of at least so many bytes, as far as there is room.
pub fn pair_strings(strings: &Strings, words: &mut [u32], least: usize)
    requires { 1 ≤ length words.old }
    ensures pairs { Pairs (string_in strings.now) words.new }
    ensures rising { Rising words.new (pairs_in words.new) }
{
    let mut lent = [0u32; 5120];
    pair_by_words(strings, &mut lent[..], words, least);
}

// The interner's table of section 2 of document 01, over lent work words: slots, probing, and a table of twice as many slots.
// A layer's strings stand in a lent byte buffer, one behind the other; a slot holds 0, or a string's id plus 1.
//
// Work words: a table of n slots stands at n - 256, so that the tables of 256 to 4096 slots lie side by side up to 7936; the
// starts stand from 8192 on, one more than there are strings, two words each: a byte buffer may be longer than 32 bits count.
// The words from 15360 on are free for others, and crate `interner` has those below 8192 that the table leaves free.
#![tactic(auto)]

ghost use Rattle.std.specs.Prelude.{◌≡◌, cond, ◌++◌, [], ◌+◌, ◌*◌, ◌-◌, ◌%◌, ◌<◌, ◌≤◌, length, get_or, take, drop, set, replicate};
ghost use Rattle.model.specs.Intern.{empty_slot, move_slots, probe as probe_of_model};
ghost use Rattle.table.specs.Layout.{probe_of, wide_at, wide_words, with_start, strings_of, Starts, Entries, Work, table_of, starts_of, slot_for};
ghost use Rattle.table.specs.Sizes.{is_due};

use span::StrId;

pub const INITIAL_CAPACITY: usize = 256;

const LOAD_FACTOR_NUMERATOR: usize = 7;

const LOAD_FACTOR_DENOMINATOR: usize = 8;

// where the strings' places begin among the work words
pub const STARTS: usize = 8192;

// what the second word of a place counts
const HIGH: usize = 4294967296;

// Where a probe ended: the slot's place, its content as the table has it (0, or an id plus 1), and how many slots were inspected. The content is the
// lent word itself, which model's `probe` tells too: an `Option` would be made of it here and turned back where it is the last answer.
#[derive(Clone, Copy)]
pub struct Probed {
    pub at: usize,
    pub slot: u32,
    pub steps: u64,
}

// ---- strings and slots

// A place takes two lent words, of 32 bits each. By products and sums, as the layout's definitions have it.
fn joined(low: u32, high: u32) -> usize
    ensures { result ≡ low + 4294967296 * high }
{
    low as usize + HIGH * (high as usize)
}

// The number in two words, its low 32 bits first.
pub fn wide_at(words: &[u32], at: usize) -> usize
    requires { at + 1 < length words.now }
    ensures { result ≡ wide_at words.now at }
{
    joined(words[at], words[at + 1])
}

// The place v as the start of string k.
#[tactic(auto, unfolding(crate::specs::Layout::with_start))]
pub fn put_start(work: &mut [u32], k: usize, v: usize)
    requires { 8192 + 2 * k + 1 < length work.old }
    ensures { work.new ≡ with_start work.old k v }
{
    let at = STARTS + 2 * k;
    work[at] = (v % HIGH) as u32;
    work[at + 1] = (v / HIGH) as u32;
}

// The bytes of string id, by the places where the strings start.
pub fn string_at<'a>(starts: &[u32], strs: &'a [u8], id: StrId) -> &'a [u8]
    requires starts { Starts (wide_words starts.now) (length strs.now) }
    requires id_in_bounds { id.0 + 1 < length (wide_words starts.now) }
    ensures { result.now ≡ get_or (strings_of (wide_words starts.now) strs.now) id.0 [] }
{
    let i = id.0 as usize;
    let a = wide_at(starts, 2 * i);
    let z = wide_at(starts, 2 * (i + 1));
    &strs[a..z]
}

// The slot after `at`, of n.
fn next_slot(at: usize, n: usize) -> usize
    requires { at < n }
    ensures { (result ≡ (at + 1) % n) × (result < n) }
{
    if at + 1 == n { 0 } else { at + 1 }
}

// The slot at which a string of hash h is looked for first, of n.
pub fn slot_of(h: u64, n: usize) -> usize
    requires { 0 < n }
    ensures { (result ≡ h % n) × (result < n) }
{
    (h as usize) % n
}

// From the slot `from` on, `most` slots: the first that is empty or holds s. A slot holds 0, or a string's id plus 1. The `for` counts the steps, and
// `at` goes round the table's end, as model's `probe` does; so it is in `empty_slot`.
pub fn probe(
    table: &[u32],
    starts: &[u32],
    strs: &[u8],
    s: &[u8],
    from: usize,
    most: usize,
) -> Probed
    requires from_in_bounds { from < length table.now }
    requires starts { Starts (wide_words starts.now) (length strs.now) }
    requires entries { Entries table.now (length (wide_words starts.now)) }
    ensures { probe_of result ≡ probe_of_model most (strings_of (wide_words starts.now) strs.now) table.now s.now from 0 }
{
    let mut at = from;
    for k in 0..most {
        let e = table[at];
        let steps = k as u64 + 1;
        if e == 0 {
            return Probed { at, slot: 0, steps };
        }
        if compare::same(string_at(starts, strs, StrId(e - 1)), s) {
            return Probed { at, slot: e, steps };
        }
        at = next_slot(at, table.len());
    }
    Probed {
        at,
        slot: 0,
        steps: most as u64,
    }
}

// The first empty slot from `from` on, round the table's end.
fn empty_slot(table: &[u32], from: usize) -> usize
    requires { from < length table.now }
    ensures { (result ≡ empty_slot (length table.now) table.now from) × (result < length table.now) }
{
    let mut at = from;
    for _ in 0..table.len() {
        if table[at] == 0 {
            return at;
        }
        at = next_slot(at, table.len());
    }
    at
}

// ---- growth

// Sets the words from a up to e to 0.
pub fn clear_part(w: &mut [u32], a: usize, e: usize)
    requires { (a ≤ e) × (e ≤ length w.old) }
    ensures { w.new ≡ take a w.old ++ (replicate (e - a) 0 ++ drop e w.old) }
{
    wire::zero_words(&mut w[a..e]);
}

// Puts the entry e into the table of n slots, at the first empty slot from its string's on. The words are lent to each call: each method of a struct
// that held them would have to promise that they are the same words yet, and as many.
fn place(work: &mut [u32], strs: &[u8], count: usize, n: usize, e: u32)
    requires work { Work work.old (length strs.now) count }
    requires le_n { (256 ≤ n) × (n ≤ 4096) }
    requires e_nonzero { (0 < e) × (e ≤ count) }
    ensures work_after { work.new ≡ set work.old (n - 256 + slot_for (strings_of (starts_of count work.old) strs.now) (table_of n work.old) (e - 1)) e }
    ensures e_bound { slot_for (strings_of (starts_of count work.old) strs.now) (table_of n work.old) (e - 1) < n }
{
    let off = n - INITIAL_CAPACITY;
    let end = off + n;
    let last = STARTS + 2 * count + 2;
    let h = slot_of(
        hash::fx_hash(string_at(&work[STARTS..last], strs, StrId(e - 1))),
        n,
    );
    let p = empty_slot(&work[off..end], h);
    work[off + p] = e;
}

// Moves the entries of the table of n slots into the table of twice as many, in slot order.
fn move_slots(work: &mut [u32], strs: &[u8], count: usize, n: usize)
    requires work { Work work.old (length strs.now) count }
    requires le_n { (256 ≤ n) × (n ≤ 2048) }
    requires entries { Entries (table_of n work.old) (count + 1) }
    ensures work_after { table_of (n * 2) work.new ≡ move_slots (strings_of (starts_of count work.old) strs.now) (table_of n work.old) (table_of (n * 2) work.old) }
    ensures work_unchanged { drop 8192 work.new ≡ drop 8192 work.old }
{
    let off = n - INITIAL_CAPACITY;
    for i in 0..n {
        let e = work[off + i];
        if e != 0 {
            place(work, strs, count, n * 2, e);
        }
    }
}

// The table of n slots, moved into one of twice as many.
pub fn grow(work: &mut [u32], strs: &[u8], count: usize, n: usize)
    requires work { Work work.old (length strs.now) count }
    requires le_n { (256 ≤ n) × (n ≤ 2048) }
    requires entries { Entries (table_of n work.old) (count + 1) }
    ensures work_after { table_of (n * 2) work.new ≡ move_slots (strings_of (starts_of count work.old) strs.now) (table_of n work.old) (replicate (n * 2) 0) }
    ensures work_unchanged { drop 8192 work.new ≡ drop 8192 work.old }
{
    let from = n * 2 - INITIAL_CAPACITY;
    clear_part(work, from, from + n * 2);
    move_slots(work, strs, count, n);
}

// Whether a table of so many slots, of which so many are taken, is to double.
#[tactic(auto, using(std::proofs::lemmas::Bool::Decides::nat_tests))]
pub fn due(slots: usize, occupied: usize) -> bool
    requires { (slots ≤ 4096) × (occupied ≤ 3583) }
    ensures { result ≡ is_due slots occupied }
{
    slots != 0 && slots * LOAD_FACTOR_NUMERATOR <= occupied * LOAD_FACTOR_DENOMINATOR
}

// How often a call for the table doubles it: a number and no `bool`, since model's calls take it as what is added to the count.
pub fn resizes(slots: usize, occupied: usize) -> u64
    requires { (slots ≤ 4096) × (occupied ≤ 3583) }
    ensures { result ≡ cond (is_due slots occupied) 1 0 }
{
    u64::from(due(slots, occupied))
}

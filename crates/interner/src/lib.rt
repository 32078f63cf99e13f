// `StrInterner`, section 2 of document 01: the interner's state and what a call does with it. A layer's strings stand in a lent
// byte buffer, one behind the other from the place `base` on; the table and the places where strings start stand in lent work
// words, as crate `table` lays them out; everything else is a `StrInterner`. Ids are of the layer alone: the first string is 0.
//
// A far string is one that was found many slots behind its own. It is remembered with its place and steps, so that strings of one
// slot cost a long probe once each and not at every call. The words of the far strings stand in a row in the order of their strings,
// among the words that the table leaves free; no proof hangs on that order, since what is found there is compared.
#![tactic(auto)]

ghost use Rattle.std.specs.Prelude.{◌≡◌, ◌&&◌, [], ◌+◌, ◌-◌, ◌^◌, ◌<◌, ◌≤◌, leb, length, get_or, set, IfSome, List, ℕ};
ghost use Rattle.model.specs.Limits.{max_new_strings, min_work_words};
ghost use Rattle.model.specs.Intern.{holds};
ghost use Rattle.stats.specs.Counts.{Counted};
ghost use Rattle.table.specs.Layout.{probe_of, table_of};
ghost use Rattle.interner.specs.State.{state_of, Good, Good-prop, Fresh, Ready, with_entry, Alloced, Remembered, first_probe};
ghost use Rattle.interner.specs.Row.{row_of, far_in, probe_for, probe_at, far_string};

use numbers::MAX_NEW_STRINGS;
use span::StrId;
use stats::InternStats;
use table::{INITIAL_CAPACITY, Probed, STARTS};

// how many words the row of the far strings has, and where it stands behind smaller tables
const ROW: usize = 3840;

// the word that says how many far strings there are
const FAR: usize = 8191;

// no table has more slots
const PLACES: usize = 4096;

// `StrInterner`, beside the words and bytes: slots of the table (before its first use it has 0 of them) and how many are taken; how many strings
// there are, where in the buffer they begin and end; the last answer as a slot has it, 0 or its id plus 1: a slot's content is put there as it is.
#[derive(Clone, Copy, Debug, Default, PartialEq, Eq)]
pub struct StrInterner {
    pub slots: usize,
    pub occupied: usize,
    pub count: usize,
    pub base: usize,
    pub used: usize,
    pub last: usize,
    pub stats: InternStats,
}

// An interner beside the words and bytes that are lent to it, to be read. Before the first call it has no table, so that there is one is asked for by
// those that look into it.
#[derive(Clone, Copy)]
pub struct Layer<'a> {
    pub st: &'a StrInterner,
    pub work: &'a [u32],
    pub strs: &'a [u8],
    ghost good: { Good work.now strs.now st.now } by { Good-prop work.now strs.now st.now },
}

// No far strings. The words that are written are lent to each call: of a struct of them each method would have to promise that they are the same
// words yet, and as many.
fn forget(work: &mut [u32])
    requires { min_work_words ≤ length work.old }
    ensures { work.new ≡ set work.old 8191 0 }
{
    work[FAR] = 0;
}

// Where the row stands: behind the tables of up to 2048 slots, before that of 4096.
fn row_of(slots: usize) -> usize
    ensures { result ≡ row_of slots }
{
    if slots <= 2048 { ROW } else { 0 }
}

impl StrInterner {
    // ---- a new layer

    // The interner of a new layer, whose strings are to stand from `base` on. The work words may hold anything: the table is cleared
    // at its first use.
    pub fn new(work: &mut [u32], base: usize) -> StrInterner
        requires { min_work_words ≤ length work.old }
        ensures { (strs : List ℕ) → base ≤ length strs → Fresh work.old strs base work.new result }
    {
        table::put_start(work, 0, base);
        StrInterner {
            base,
            used: base,
            ..StrInterner::default()
        }
    }

    // ---- the table

    // The table that a call probes: the first, or one of twice as many slots where it is due, or the one there is. Far strings are
    // far in one table alone.
    pub fn table_for(&mut self, work: &mut [u32], strs: &[u8])
        requires { Good work.old strs.now self.old }
        ensures { Ready work.old strs.now self.old work.new self.new }
    {
        if self.slots == 0 {
            table::clear_part(work, 0, INITIAL_CAPACITY);
            forget(work);
            self.slots = INITIAL_CAPACITY;
        } else if table::due(self.slots, self.occupied) {
            table::grow(work, strs, self.count, self.slots);
            forget(work);
            self.slots *= 2;
        }
    }

    // The last string's entry at an empty slot of the table.
    pub fn enter(&mut self, work: &mut [u32], at: usize)
        requires le_slots { (256 ≤ self.old.slots) × (self.old.slots ≤ 4096) × (at < self.old.slots) × (self.old.count ≤ 3583) × (self.old.occupied < self.old.count) }
        requires min_work_words_in_bounds { min_work_words ≤ length work.old }
        ensures value { self.new ≡ with_entry self.old }
        ensures work_after { work.new ≡ set work.old (self.old.slots - 256 + at) self.old.count }
    {
        let off = self.slots - INITIAL_CAPACITY;
        work[off + at] = self.count as u32;
        self.occupied += 1;
    }

    // ---- strings

    // Whether there is room for one string more, of n bytes, in a buffer of `size` bytes.
    pub fn has_room(&self, size: usize, n: usize) -> bool
        requires { self.now.used ≤ size }
        ensures { result ≡ leb (self.now.count + 1) max_new_strings && leb (self.now.used + n) size }
    {
        self.count < MAX_NEW_STRINGS && n <= size - self.used
    }

    // A new string: its bytes behind the others, and its end.
    pub fn alloc(&mut self, work: &mut [u32], strs: &mut [u8], s: &[u8], stats: InternStats)
        requires good { Good work.old strs.old self.old }
        requires count_bound { (self.old.count < 3583) × (self.old.used + length s.now ≤ length strs.old) }
        requires counted { Counted stats }
        ensures { Alloced work.old strs.old self.old s.now stats work.new strs.new self.new }
    {
        let end = self.used + s.len();
        wire::copy_at(strs, self.used, s);
        table::put_start(work, self.count + 1, end);
        self.count += 1;
        self.used = end;
        self.last = self.count;
        self.stats = stats;
    }

    // Remembers the probe p, which found a string, as the j-th.
    pub fn remember(&self, work: &mut [u32], strs: &[u8], p: Probed, j: usize)
        requires good { Good work.old strs.now self.now }
        requires slots_nonzero { (0 < self.now.slots) × (0 < p.slot) × (j ≤ far_in work.old) }
        requires p_value { probe_of p ≡ first_probe (state_of work.old strs.now self.now) (get_or (state_of work.old strs.now self.now).strings (p.slot - 1) []) }
        ensures { Remembered work.old strs.now self.now work.new }
    {
        let far = work[FAR] as usize;
        if ROW <= far {
            return;
        }
        let row = row_of(self.slots);
        let w = p.at + PLACES * (p.steps as usize);
        moves::put_before(work, row + j, row + far, w as u32);
        work[FAR] = (far + 1) as u32;
    }
}

impl<'a> Layer<'a> {
    // Where s is in the table, or where it goes, by `most` slots.
    pub fn lookup(&self, s: &[u8], most: usize) -> Probed
        requires { 0 < self.now.st.now.slots }
        ensures { probe_of result ≡ probe_for most (state_of self.now.work.now self.now.strs.now self.now.st.now).strings (table_of self.now.st.now.slots self.now.work.now) s.now }
    {
        let off = self.st.slots - INITIAL_CAPACITY;
        let end = off + self.st.slots;
        let last = STARTS + 2 * self.st.count + 2;
        let from = table::slot_of(hash::fx_hash(s), self.st.slots);
        table::probe(
            &self.work[off..end],
            &self.work[STARTS..last],
            self.strs,
            s,
            from,
            most,
        )
    }

    // `resolve`: the bytes of string id.
    pub fn resolve(&self, id: StrId) -> &'a [u8]
        requires { id.0 < self.now.st.now.count }
        ensures { result.now ≡ get_or (state_of self.now.work.now self.now.strs.now self.now.st.now).strings id.0 [] }
    {
        let end = STARTS + 2 * self.st.count + 2;
        table::string_at(&self.work[STARTS..end], self.strs, id)
    }

    // Whether the last answer's string is s.
    pub fn is_last(&self, s: &[u8]) -> bool
        ensures { result ≡ holds (state_of self.now.work.now self.now.strs.now self.now.st.now).strings self.now.st.now.last s.now }
    {
        if self.st.last == 0 {
            return false;
        }
        compare::same(self.resolve(StrId((self.st.last - 1) as u32)), s)
    }

    // ---- far strings

    // Word j of the row as a probe: the place of a slot, and 4096 times the steps to it.
    fn far_probe(&self, j: usize) -> Probed
        requires { (0 < self.now.st.now.slots) × (j < far_in self.now.work.now) }
        ensures { probe_of result ≡ probe_at (table_of self.now.st.now.slots self.now.work.now) (get_or self.now.work.now (row_of self.now.st.now.slots + j) 0) }
    {
        let off = self.st.slots - INITIAL_CAPACITY;
        let w = self.work[row_of(self.st.slots) + j] as usize;
        let at = w % PLACES;
        Probed {
            at,
            slot: self.work[off + at],
            steps: (w / PLACES) as u64,
        }
    }

    // The string that it found.
    fn far_string(&self, j: usize) -> &'a [u8]
        requires { (0 < self.now.st.now.slots) × (j < far_in self.now.work.now) }
        ensures { result.now ≡ far_string (state_of self.now.work.now self.now.strs.now self.now.st.now).strings (table_of self.now.st.now.slots self.now.work.now) (get_or self.now.work.now (row_of self.now.st.now.slots + j) 0) }
    {
        let p = self.far_probe(j);
        self.resolve(StrId(p.slot - 1))
    }

    // How many far strings precede s. Proved is only that there are no fewer far strings: `recall` tests what stands there. Bisected by hand:
    // `partition_point` wants a test of any word, and only a word of the row has a string.
    pub fn far_place(&self, s: &[u8]) -> usize
        requires { 0 < self.now.st.now.slots }
        ensures { result ≤ far_in self.now.work.now }
    {
        let mut lo = 0;
        let mut hi = self.work[FAR] as usize;
        while lo < hi {
            let mid = lo + (hi - lo) / 2;
            if compare::precedes(self.far_string(mid), s) {
                lo = mid + 1;
            } else {
                hi = mid;
            }
        }
        lo
    }

    // The probe of s, if s stands at j in the row.
    pub fn recall(&self, s: &[u8], j: usize) -> Option<Probed>
        requires { 0 < self.now.st.now.slots }
        ensures { IfSome result (λ p. (0 < p.slot) × (probe_of p ≡ first_probe (state_of self.now.work.now self.now.strs.now self.now.st.now) s.now)) }
    {
        if j < (self.work[FAR] as usize) && compare::same(self.far_string(j), s) {
            Some(self.far_probe(j))
        } else {
            None
        }
    }
}

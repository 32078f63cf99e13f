// A call of the interner, section 2 of document 01: each is proved equal to model's `intern`, id, strings, table, last answer and
// counts. The state is crate `interner`'s. It, the words and the bytes are lent side by side to each call, and no struct holds them:
// between two calls the words from 15360 on are others', so that it would have to be made anew each time. That a table is there and has room
// holds within one call alone, from `table_for` on.
#![tactic(auto)]

ghost use Rattle.std.specs.Prelude.{◌≡◌, true, Some, List, ℕ, ◌-◌, ◌*◌, ◌^◌, ◌<◌, ◌≤◌, get_or};
ghost use Rattle.model.specs.Limits.{max_new_strings};
ghost use Rattle.model.specs.Intern.{holds, table_alloc, bypass as bypass_of_model, intern as intern_of_model};
ghost use Rattle.stats.specs.Counts.{Counted};
ghost use Rattle.table.specs.Layout.{probe_of, table_of};
ghost use Rattle.interner.specs.State.{state_of, Good};
ghost use Rattle.interner.specs.Row.{far_in};
ghost use Rattle.intern.specs.Told.{Told, known_state, probed_call};

use interner::{Layer, StrInterner};
use span::StrId;
use stats::InternStats;
use table::Probed;

const INTERN_LENGTH_LIMIT: usize = 64;

// how many slots are looked at before the far strings are: nearly every string is found in them
const NEAR: usize = 16;

// The id of a string that is there: its slot's content is one more.
fn known(st: &mut StrInterner, slot: u32, stats: InternStats) -> StrId
    requires { 0 < slot }
    ensures id { result.0 ≡ slot - 1 }
    ensures state { st.new ≡ known_state st.old slot stats }
{
    st.last = slot as usize;
    st.stats = stats;
    StrId(slot - 1)
}

// A string over 64 bytes: a new one, and the table is not looked at.
fn bypass(st: &mut StrInterner, work: &mut [u32], strs: &mut [u8], s: &[u8]) -> Option<StrId>
    requires good { Good work.old strs.old st.old }
    requires calls_bound { st.old.stats.calls < 2 ^ 32 }
    ensures { Told work.old strs.old st.old work.new strs.new st.new result (bypass_of_model (state_of work.old strs.old st.old) s.now) }
{
    if !st.has_room(strs.len(), s.len()) {
        return None;
    }
    let id = StrId(st.count as u32);
    let stats = st.stats.bypass();
    st.alloc(work, strs, s, stats);
    Some(id)
}

// The probe ended at an empty slot: a new string, entered there.
fn table_alloc(
    st: &mut StrInterner,
    work: &mut [u32],
    strs: &mut [u8],
    s: &[u8],
    p: Probed,
    resized: u64,
) -> Option<StrId>
    requires good { Good work.old strs.old st.old }
    requires slots_nonzero { (0 < st.old.slots) × (st.old.stats.calls < 2 ^ 32) × (resized ≤ 1) }
    requires at_lt_slots { (p.at < st.old.slots) × (p.steps ≤ 4096) × (get_or (table_of st.old.slots work.old) p.at 0 ≡ 0) }
    ensures { Told work.old strs.old st.old work.new strs.new st.new result (table_alloc (state_of work.old strs.old st.old) (table_of st.old.slots work.old) resized (probe_of p) s.now) }
{
    if !st.has_room(strs.len(), s.len()) {
        return None;
    }
    let id = StrId(st.count as u32);
    let stats = st.stats.table_alloc(resized, p.steps);
    st.alloc(work, strs, s, stats);
    st.enter(work, p.at);
    Some(id)
}

// A string that is not among the far ones: looked for in the whole table, and if it is there remembered as the j-th.
fn learn(
    st: &mut StrInterner,
    work: &mut [u32],
    strs: &mut [u8],
    s: &[u8],
    resized: u64,
    j: usize,
) -> Option<StrId>
    requires good { Good work.old strs.old st.old }
    requires slots_nonzero { (0 < st.old.slots) × (st.old.occupied * 8 < st.old.slots * 7) }
    requires calls_bound { (st.old.stats.calls < 2 ^ 32) × (resized ≤ 1) × (j ≤ far_in work.old) }
    ensures { Told work.old strs.old st.old work.new strs.new st.new result (probed_call (state_of work.old strs.old st.old) resized s.now) }
{
    let p = Layer { st, work, strs }.lookup(s, st.slots);
    if p.slot == 0 {
        return table_alloc(st, work, strs, s, p, resized);
    }
    st.remember(work, strs, p, j);
    let stats = st.stats.table_hit(resized, p.steps);
    Some(known(st, p.slot, stats))
}

// A string that is not near its slot: looked for among the far ones that were found before.
fn far_call(
    st: &mut StrInterner,
    work: &mut [u32],
    strs: &mut [u8],
    s: &[u8],
    resized: u64,
) -> Option<StrId>
    requires good { Good work.old strs.old st.old }
    requires slots_nonzero { (0 < st.old.slots) × (st.old.occupied * 8 < st.old.slots * 7) }
    requires calls_bound { (st.old.stats.calls < 2 ^ 32) × (resized ≤ 1) }
    ensures { Told work.old strs.old st.old work.new strs.new st.new result (probed_call (state_of work.old strs.old st.old) resized s.now) }
{
    let layer = Layer { st, work, strs };
    let j = layer.far_place(s);
    match layer.recall(s, j) {
        None => learn(st, work, strs, s, resized, j),
        Some(p) => {
            let stats = st.stats.table_hit(resized, p.steps);
            Some(known(st, p.slot, stats))
        }
    }
}

// A call for the table, which is in its place.
fn table_call(
    st: &mut StrInterner,
    work: &mut [u32],
    strs: &mut [u8],
    s: &[u8],
    resized: u64,
) -> Option<StrId>
    requires good { Good work.old strs.old st.old }
    requires slots_nonzero { (0 < st.old.slots) × (st.old.occupied * 8 < st.old.slots * 7) }
    requires calls_bound { (st.old.stats.calls < 2 ^ 32) × (resized ≤ 1) }
    ensures { Told work.old strs.old st.old work.new strs.new st.new result (probed_call (state_of work.old strs.old st.old) resized s.now) }
{
    let p = Layer { st, work, strs }.lookup(s, NEAR);
    if p.slot != 0 {
        let stats = st.stats.table_hit(resized, p.steps);
        return Some(known(st, p.slot, stats));
    }
    if p.steps < NEAR as u64 {
        return table_alloc(st, work, strs, s, p, resized);
    }
    far_call(st, work, strs, s, resized)
}

// `intern` of the last answer's string: a cache hit. Who knows that it is that string need not compare it.
pub fn intern_last(st: &mut StrInterner) -> StrId
    requires last_nonzero { (0 < st.old.last) × (st.old.last ≤ max_new_strings) }
    requires counted { Counted st.old.stats × (st.old.stats.calls < 2 ^ 32) }
    ensures { (work strs s : List ℕ) → Good work strs st.old → holds (state_of work strs st.old).strings st.old.last s ≡ true → Told work strs st.old work strs st.new (Some result) (intern_of_model (state_of work strs st.old) s) }
{
    let stats = st.stats.cache_hit();
    known(st, st.last as u32, stats)
}

// `intern`. The calls are to be below 2 to the 32, so that no count of 64 bits wraps: what a caller keeps by `answered_calls`.
// None where the defined state has over 3583 strings, or bytes past the buffer's end, and only then.
pub fn intern(st: &mut StrInterner, work: &mut [u32], strs: &mut [u8], s: &[u8]) -> Option<StrId>
    requires good { Good work.old strs.old st.old }
    requires calls_bound { st.old.stats.calls < 2 ^ 32 }
    ensures { Told work.old strs.old st.old work.new strs.new st.new result (intern_of_model (state_of work.old strs.old st.old) s.now) }
{
    let layer = Layer { st, work, strs };
    if layer.is_last(s) {
        return Some(intern_last(st));
    }
    if INTERN_LENGTH_LIMIT < s.len() {
        return bypass(st, work, strs, s);
    }
    let resized = table::resizes(st.slots, st.occupied);
    st.table_for(work, strs);
    table_call(st, work, strs, s, resized)
}

// A memo in lent words: what was found at a place of a level, by entries of five words. Where an entry stands follows from its place and
// level alone, and a later one takes its room. A memo may have any length, also none: what finds no room is not remembered.
// By words and no struct, since specs/Memo reads an entry at five words of any list; where nothing is to be remembered one word is lent.
#![tactic(auto)]

ghost use Rattle.std.specs.Prelude.{◌≡◌, ◌<◌};
ghost use Rattle.memo.specs.Memo.{is_of, put_in};

// How many entries there can be: an entry's number is below.
const ENTRIES: usize = 4096;

// The number of the entry of a place and level. Places that are a record apart, up to 4096 of them, have entries of their own.
pub fn entry_of(place: usize, level: u8) -> usize
    ensures { result < 4096 }
{
    (place % ENTRIES + 97 * (level as usize)) % ENTRIES
}

// Is entry e there, and of that place and level?
#[tactic(auto, unfolding(crate::specs::Memo::is_of, crate::specs::Memo::entry_in))]
pub fn is_of(memo: &[u32], e: usize, place: usize, level: u8) -> bool
    requires { e < 4096 }
    ensures { result ≡ is_of memo.now e place level }
{
    if memo.len() < 5 * e + 5 {
        return false;
    }
    memo[5 * e] as usize == place && memo[5 * e + 1] == u32::from(level)
}

// Entry e put, if it is there. Three numbers one by one: the struct of them is `sizes`', above.
pub fn put(
    memo: &mut [u32],
    e: usize,
    place: u32,
    level: u8,
    contents: u32,
    segments: u32,
    calls: u32,
)
    requires { e < 4096 }
    ensures { memo.new ≡ put_in memo.old e (record { place = place; level = level; contents = contents; segments = segments; calls = calls }) }
{
    if memo.len() < 5 * e + 5 {
        return;
    }
    memo[5 * e] = place;
    memo[5 * e + 1] = u32::from(level);
    memo[5 * e + 2] = contents;
    memo[5 * e + 3] = segments;
    memo[5 * e + 4] = calls;
}

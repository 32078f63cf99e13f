// The levels of number 5: one segment's own, and tables of them. A table has for each block of 16 items a level that they are below, 255 where
// none is known, and above these the greatest of each 16 entries (specs/Blocks.antt), up to blocks of 65536 items.
#![tactic(auto)]

ghost use Rattle.std.specs.Prelude.{◌≡◌, ◌&&◌, leb, ◌+◌, ◌*◌, ◌≤◌, length};
ghost use Rattle.model.specs.Limits.{max_level};
ghost use Rattle.model.specs.Lists.{all};
ghost use Rattle.model.specs.Tape.{record_at, records_at, segment_codec};
ghost use Rattle.level_blocks.specs.Level.{below};
ghost use Rattle.level_blocks.specs.Blocks.{Skips, Risen, Kept, Greatest};

use numbers::{MAX_POOL, SEGMENT_SIZE};

pub fn level_below(tape: &[u8], at: usize, level: u8) -> bool
    requires { at + 37 ≤ length tape.now }
    ensures { result ≡ below level (record_at segment_codec tape.now at) }
{
    tape[at + 2] < level
}

// A range's place and length; a run of them would be made for this one call.
pub fn levels_below(tape: &[u8], at: usize, count: usize, level: u8) -> bool
    requires { at + 37 * count ≤ length tape.now }
    ensures { result ≡ all (below level) (records_at segment_codec tape.now at count) }
{
    (0..count).all(|i| level_below(tape, at + SEGMENT_SIZE * i, level))
}

// Section 4. A Node's own level is 1..32, by the model's two comparisons; `contains` of a range would be the same two.
pub fn level_in_range(level: u8) -> bool
    ensures { result ≡ (leb 1 level && leb level max_level) }
{
    1 <= level && level <= 32
}

// Where the blocks around item i end that a table says to be below the level; i where it does not say so: no items,
// so that one clause tells of both.
pub fn known_end(table: &[u8], i: usize, level: u8) -> usize
    requires { Risen table.now 69904 }
    ensures { Skips table.now level i result }
{
    if 254 < level {
        return i;
    }
    if MAX_POOL < i {
        return i;
    }
    let one = i / 16;
    if level < table[one] {
        return i;
    }
    let two = 65536 + one / 16;
    if level < table[two] {
        return 16 * one + 16;
    }
    let three = 65536 + two / 16;
    if level < table[three] {
        return 256 * (one / 16) + 256;
    }
    let four = 65536 + three / 16;
    if level < table[four] {
        return 4096 * (i / 4096) + 4096;
    }
    65536 * (i / 65536) + 65536
}

// `max` of an iterator answers an `Option`, and there are always sixteen.
fn greatest(table: &[u8], from: usize) -> u8
    requires { from + 16 ≤ length table.now }
    ensures { Greatest table.now from 16 result }
{
    let mut m = 0;
    for i in 0..16 {
        m = m.max(table[from + i]);
    }
    m
}

// The entries above those of 16 items: entry 65536 + i / 16 is above entry i. One list has the blocks of all four sizes, so that one loop
// makes the upper three.
pub fn put_uppers(table: &mut [u8])
    requires { length table.old ≡ 69904 }
    ensures { Risen table.new 69904 × Kept table.old table.new }
{
    for k in 65536..69904 {
        table[k] = greatest(table, 16 * (k - 65536));
    }
}

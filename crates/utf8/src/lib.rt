// UTF-8 by RFC 3629, for document 01's returned numbers 2 (a text is not UTF-8), 8 and 16 (a place inside a character): a walk by
// characters. specs/Skips.antt: runs of ASCII, of three bytes and of four, are skipped together. specs/Blocks.antt: 64 bytes are
// judged together by their neighbours. The walks below end where they stop, and the next goes on from there, so they are `while` loops. Blocks
// are judged by two bytes before them too, so the text goes whole, with a place in it, and not as the slice of what is left.
#![tactic(auto)]

ghost use Rattle.std.specs.Prelude.{◌≡◌, Some, ◌&&◌, ◌+◌, ◌≤◌, ◌<◌, length, get_or, ltb};
ghost use Rattle.model.specs.Utf8.{utf8, is_char_boundary};
ghost use Rattle.wire.specs.Loops.{all_up_to, any_up_to};
ghost use Rattle.utf8.specs.Skips.{Skipped, Step, ascii_at, is_three, is_ed, is_four};
ghost use Rattle.utf8.specs.Blocks.{is_odd, odd_at, len_of, Clear};

// A single `&` and no branches, so that LLVM tests the bytes together. By halves, since eight are asked for by themselves too, and each clause
// follows from that of the half: one function of N bytes would go round by a loop with an invariant.
fn four_ascii(a: u8, b: u8, c: u8, d: u8) -> bool
    ensures { result ≡ (ltb a 0x80 && ltb b 0x80 && ltb c 0x80 && ltb d 0x80) }
{
    (a < 0x80) & (b < 0x80) & (c < 0x80) & (d < 0x80)
}

fn eight_ascii(s: &[u8], at: usize) -> bool
    requires { at + 8 ≤ length s.now }
    ensures { result ≡ all_up_to 8 (ascii_at s.now at) }
{
    four_ascii(s[at], s[at + 1], s[at + 2], s[at + 3])
        & four_ascii(s[at + 4], s[at + 5], s[at + 6], s[at + 7])
}

fn sixteen_ascii(s: &[u8], at: usize) -> bool
    requires { at + 16 ≤ length s.now }
    ensures { result ≡ all_up_to 16 (ascii_at s.now at) }
{
    eight_ascii(s, at) & eight_ascii(s, at + 8)
}

fn thirty_two_ascii(s: &[u8], at: usize) -> bool
    requires { at + 32 ≤ length s.now }
    ensures { result ≡ all_up_to 32 (ascii_at s.now at) }
{
    sixteen_ascii(s, at) & sixteen_ascii(s, at + 16)
}

fn sixty_four_ascii(s: &[u8], at: usize) -> bool
    requires { at + 64 ≤ length s.now }
    ensures { result ≡ all_up_to 64 (ascii_at s.now at) }
{
    thirty_two_ascii(s, at) & thirty_two_ascii(s, at + 32)
}

// Behind the blocks of 64 ASCII bytes from `at` on.
fn ascii_blocks(s: &[u8], at: usize) -> usize
    requires { at ≤ length s.now }
    ensures { Skipped s.now at result }
{
    let mut i = at;
    while 64 <= s.len() - i {
        if !sixty_four_ascii(s, i) {
            return i;
        }
        i += 64;
    }
    i
}

// Behind the blocks of eight ASCII bytes from `at` on. A loop for each size, since each has a test of its own, without branches: a function of both
// would take size and test, with a clause for what the test asks and one for what it tells; by a const parameter the test would be for any size.
fn ascii_end(s: &[u8], at: usize) -> usize
    requires { at ≤ length s.now }
    ensures { Skipped s.now at result }
{
    let mut i = at;
    while 8 <= s.len() - i {
        if !eight_ascii(s, i) {
            return i;
        }
        i += 8;
    }
    i
}

fn is_three(a: u8, b: u8, c: u8) -> bool
    ensures { result ≡ is_three a b c }
{
    chars::within(0xe1, 0xec, a) & chars::within(0x80, 0xbf, b) & chars::within(0x80, 0xbf, c)
}

// Behind the characters E1-EC 80-BF 80-BF from `at` on.
// Not inlined, by speed: inside `is_utf8` its jumps are longer, and a run takes up to twice as long where they happen to lie across 32 bytes.
#[inline(never)]
fn three_end(s: &[u8], at: usize) -> usize
    requires { at ≤ length s.now }
    ensures { Skipped s.now at result }
{
    let mut i = at;
    while 3 <= s.len() - i {
        if !is_three(s[i], s[i + 1], s[i + 2]) {
            return i;
        }
        i += 3;
    }
    i
}

fn is_ed(a: u8, b: u8, c: u8) -> bool
    ensures { result ≡ is_ed a b c }
{
    (a == 0xed) & chars::within(0x80, 0x9f, b) & chars::within(0x80, 0xbf, c)
}

// Behind the characters ED 80-9F 80-BF from `at` on.
fn ed_end(s: &[u8], at: usize) -> usize
    requires { at ≤ length s.now }
    ensures { Skipped s.now at result }
{
    let mut i = at;
    while 3 <= s.len() - i {
        if !is_ed(s[i], s[i + 1], s[i + 2]) {
            return i;
        }
        i += 3;
    }
    i
}

fn is_four(a: u8, b: u8, c: u8, d: u8) -> bool
    ensures { result ≡ is_four a b c d }
{
    ((chars::within(0xf1, 0xf3, a) & chars::within(0x80, 0xbf, b))
        | ((a == 0xf0) & chars::within(0x90, 0xbf, b)))
        & chars::within(0x80, 0xbf, c)
        & chars::within(0x80, 0xbf, d)
}

// Behind the characters of four bytes from `at` on, but for those that begin with F4.
fn four_end(s: &[u8], at: usize) -> usize
    requires { at ≤ length s.now }
    ensures { Skipped s.now at result }
{
    let mut i = at;
    while 4 <= s.len() - i {
        if !is_four(s[i], s[i + 1], s[i + 2], s[i + 3]) {
            return i;
        }
        i += 4;
    }
    i
}

// How many bytes the ASCII at `at` has, one byte or many. Eight are asked for first, since most runs between other characters are short.
fn ascii_len(s: &[u8], at: usize) -> usize
    requires { (at < length s.now) × (get_or s.now at 0 < 0x80) }
    ensures { Step s.now at (Some result) }
{
    if s.len() - at < 8 {
        return 1;
    }
    if !eight_ascii(s, at) {
        return 1;
    }
    ascii_end(s, ascii_blocks(s, at + 8)) - at
}

// Behind the characters of one kind from `at` on. Through `char_len` a run takes up to twice as long, by where the code happens to lie. A loop for each
// kind: one of two kinds asks for both at each character, and slows text of E1-EC by half.
fn run_end(s: &[u8], at: usize) -> usize
    requires { at < length s.now }
    ensures { Skipped s.now at result }
{
    match s[at] {
        0xe1..=0xec => three_end(s, at),
        0xed => ed_end(s, at),
        0xf0..=0xf3 => four_end(s, at),
        _ => at,
    }
}

// How many bytes the next characters have, one or many; None where there is none.
fn step_len(s: &[u8], at: usize) -> Option<usize>
    requires { at < length s.now }
    ensures { Step s.now at result }
{
    if s[at] < 0x80 {
        return Some(ascii_len(s, at));
    }
    let end = run_end(s, at);
    if at < end {
        return Some(end - at);
    }
    chars::char_len(s, at)
}

// At least 64 bytes of characters, or all that are left; None where there is none.
fn slow_len(s: &[u8], at: usize) -> Option<usize>
    requires { at < length s.now }
    ensures { Step s.now at result }
{
    let mut i = at;
    while i < s.len() {
        if 64 <= i - at {
            return Some(i - at);
        }
        i += step_len(s, i)?;
    }
    Some(i - at)
}

// The byte b behind p and q is not as its neighbours ask, or leads a character that is not judged by neighbours.
fn odd(p: u8, q: u8, b: u8) -> bool
    ensures { result ≡ is_odd p q b }
{
    (chars::within(0x80, 0xbf, b) != ((0xc0 <= q) | (0xe0 <= p)))
        | chars::within(0xc0, 0xc1, b)
        | (b == 0xe0)
        | (b == 0xed)
        | (0xf0 <= b)
}

// One of the 64 bytes from `from` + 2 on is odd. No branches, so that LLVM judges 16 bytes together.
fn odd_block(s: &[u8], from: usize) -> bool
    requires { from + 66 ≤ length s.now }
    ensures { result ≡ any_up_to 64 (odd_at s.now from) }
{
    let mut bad = false;
    for i in 0..64 {
        bad |= odd(s[from + i], s[from + i + 1], s[from + i + 2]);
    }
    bad
}

// How far the last bound between two characters lies in a block whose last bytes are a and b.
fn block_len(a: u8, b: u8) -> usize
    ensures { result ≡ len_of a b }
{
    if 0xc0 <= b {
        return 63;
    }
    if 0xe0 <= a {
        return 62;
    }
    64
}

// Two bytes before the end of the blocks that begin two bytes behind `from`.
fn blocks_end(s: &[u8], from: usize) -> usize
    requires { (from + 2 ≤ length s.now) × Clear s.now from }
    ensures { Skipped s.now (from + 2) (result + 2) }
{
    let mut i = from;
    while 66 <= s.len() - i {
        if odd_block(s, i) {
            return i;
        }
        i += block_len(s[i + 64], s[i + 65]);
    }
    i
}

// Behind the blocks from `at` on.
fn plain_end(s: &[u8], at: usize) -> usize
    requires { at ≤ length s.now }
    ensures { Skipped s.now at result }
{
    if at < 2 {
        return at;
    }
    if 0xc0 <= s[at - 1] {
        return at;
    }
    if 0xe0 <= s[at - 2] {
        return at;
    }
    blocks_end(s, at - 2) + 2
}

// `std::str::from_utf8` takes five times as long on Japanese text.
pub fn is_utf8(s: &[u8]) -> bool
    ensures { result ≡ utf8 s.now }
{
    let mut at = 0;
    while at < s.len() {
        at = plain_end(s, ascii_blocks(s, at));
        if s.len() <= at {
            return true;
        }
        let Some(n) = slow_len(s, at) else {
            return false;
        };
        at += n;
    }
    true
}

pub fn is_char_boundary(s: &[u8], at: usize) -> bool
    ensures { result ≡ is_char_boundary s.now at }
{
    at <= s.len() && !chars::within(0x80, 0xbf, wire::byte_at(s, at))
}

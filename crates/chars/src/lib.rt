// One character of UTF-8 by RFC 3629. The model reads the bytes by a machine; this code asks how many bytes the character at a place
// has. specs/Chars.antt: from `between` a whole character leads back to `between`, and all else to a state from which none does.
// specs/Leads.antt: what each first byte asks for.
#![tactic(auto)]

ghost use Rattle.std.specs.Prelude.{◌≡◌, cond, ◌+◌, ◌≤◌, ◌<◌, length, get_or, drop};
ghost use Rattle.model.specs.Utf8.{utf8_first, utf8_step, within as is_within, tail1, tail2, bad};
ghost use Rattle.chars.specs.Chars.{char_len, length_if};

// The model's test of a byte. `contains` of a range would take the same three bytes, and a range made of two of them.
#[tactic(auto, using(std::proofs::lemmas::Bool::Decides::nat_tests))]
pub fn within(lo: u8, hi: u8, b: u8) -> bool
    ensures { result ≡ is_within lo hi b }
{
    lo <= b && b <= hi
}

// The second byte of three or of four, whose range the first one narrows.
fn second_fits(a: u8, b: u8) -> bool
    requires { (0xe0 ≤ a) × (a < 0xf5) }
    ensures of_three { a < 0xf0 → utf8_step (utf8_first a) b ≡ cond result tail1 bad }
    ensures of_four { 0xf0 ≤ a → utf8_step (utf8_first a) b ≡ cond result tail2 bad }
{
    match a {
        0xe0 => within(0xa0, 0xbf, b),
        0xed => within(0x80, 0x9f, b),
        0xf0 => within(0x90, 0xbf, b),
        0xf4 => within(0x80, 0x8f, b),
        _ => within(0x80, 0xbf, b),
    }
}

// Characters of two, of three and of four bytes: each asks for another first byte and tests other bytes, so one function of all would take the count,
// and choose by it. The text goes with a place, as in `utf8`; of the slice of what is left each would ask that it is not empty.
fn two(s: &[u8], at: usize) -> Option<usize>
    requires { (at < length s.now) × (0xc2 ≤ get_or s.now at 0) × (get_or s.now at 0 < 0xe0) }
    ensures { result ≡ length_if (char_len (drop at s.now)) }
{
    if s.len() - at < 2 {
        return None;
    }
    if !within(0x80, 0xbf, s[at + 1]) {
        return None;
    }
    Some(2)
}

fn three(s: &[u8], at: usize) -> Option<usize>
    requires { (at < length s.now) × (0xe0 ≤ get_or s.now at 0) × (get_or s.now at 0 < 0xf0) }
    ensures { result ≡ length_if (char_len (drop at s.now)) }
{
    if s.len() - at < 3 {
        return None;
    }
    if !second_fits(s[at], s[at + 1]) {
        return None;
    }
    if !within(0x80, 0xbf, s[at + 2]) {
        return None;
    }
    Some(3)
}

fn four(s: &[u8], at: usize) -> Option<usize>
    requires { (at < length s.now) × (0xf0 ≤ get_or s.now at 0) × (get_or s.now at 0 < 0xf5) }
    ensures { result ≡ length_if (char_len (drop at s.now)) }
{
    if s.len() - at < 4 {
        return None;
    }
    if !second_fits(s[at], s[at + 1]) {
        return None;
    }
    if !within(0x80, 0xbf, s[at + 2]) {
        return None;
    }
    if !within(0x80, 0xbf, s[at + 3]) {
        return None;
    }
    Some(4)
}

// How many bytes the character at `at` has, if there is one.
// Inlined by speed: behind a call `utf8::is_utf8` waits for each length before it reads on, and takes 1.3 to 1.4 times as long on characters of four bytes.
#[inline]
#[tactic(auto, using(crate::proofs::Lengths::one_byte, crate::proofs::Lengths::none_low, crate::proofs::Lengths::none_high))]
pub fn char_len(s: &[u8], at: usize) -> Option<usize>
    requires { at < length s.now }
    ensures { result ≡ length_if (char_len (drop at s.now)) }
{
    match s[at] {
        0x00..=0x7f => Some(1),
        0xc2..=0xdf => two(s, at),
        0xe0..=0xef => three(s, at),
        0xf0..=0xf4 => four(s, at),
        _ => None,
    }
}

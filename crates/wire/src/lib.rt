// Bytes at a place, document 01 section 4: words little-endian read and written, a part, a copy, zeros to the end. `byte_at` and
// `u32_or_zero` take any place and read 0 past the end: they are for a tape of which nothing is known yet. The others that take one place ask
// that what they read or write there lies inside. A writer's contract is an equation; specs/ has the laws of `overwrite`, and those of loops.
#![tactic(auto)]

ghost use Rattle.std.specs.Prelude.{◌≡◌, ◌∷◌, [], ◌+◌, ◌-◌, ◌*◌, ◌≤◌, ◌<◌, length, take};
ghost use Rattle.model.specs.Bytes.{byte_at, word_at, word_bytes, part, zeros};
ghost use Rattle.wire.specs.Overwrite.{overwrite};

// The library's conversion, told once as the sum that `word_at` is, for both readers below.
pub fn word(a: u8, b: u8, c: u8, d: u8) -> u32
    ensures { result ≡ a + 256 * b + 65536 * c + 16777216 * d }
{
    u32::from_le_bytes([a, b, c, d])
}

pub fn byte_at(s: &[u8], at: usize) -> u8
    ensures { result ≡ byte_at s.now at }
{
    s.get(at).copied().unwrap_or(0)
}

pub fn u32_at(s: &[u8], at: usize) -> u32
    requires { at + 4 ≤ length s.now }
    ensures { result ≡ word_at s.now at }
{
    word(s[at], s[at + 1], s[at + 2], s[at + 3])
}

pub fn u32_or_zero(s: &[u8], at: usize) -> u32
    ensures { result ≡ word_at s.now at }
{
    if s.len() <= at {
        return 0;
    }
    if 4 <= s.len() - at {
        return u32_at(s, at);
    }
    word(
        s[at],
        byte_at(s, at + 1),
        byte_at(s, at + 2),
        byte_at(s, at + 3),
    )
}

// The bytes from one place up to another; what lies behind the end is left out.
pub fn between<'a>(s: &'a [u8], from: usize, to: usize) -> &'a [u8]
    ensures { result.now ≡ part s.now from (to - from) }
{
    let end = to.min(s.len());
    &s[from.min(end)..end]
}

pub fn put_u8(out: &mut [u8], at: usize, v: u8)
    requires { at < length out.old }
    ensures { out.new ≡ overwrite out.old at (v ∷ []) }
{
    out[at] = v;
}

pub fn put_u32(out: &mut [u8], at: usize, v: u32)
    requires { at + 4 ≤ length out.old }
    ensures { out.new ≡ overwrite out.old at (word_bytes v) }
{
    out[at..at + 4].copy_from_slice(&v.to_le_bytes());
}

// Byte by byte: the library's `copy_from_slice` calls `memmove`, which whoever links the archive for C would have to bring.
pub fn copy_at(out: &mut [u8], at: usize, s: &[u8])
    requires { at + length s.now ≤ length out.old }
    ensures { out.new ≡ overwrite out.old at s.now }
{
    let mut i = 0;
    while i < s.len() {
        out[at + i] = s[i];
        i += 1;
    }
}

// The library's `fill` for bytes and for words, told as `overwrite` from a place on, and as zeros alone.
pub fn zero_from(out: &mut [u8], at: usize)
    requires { at ≤ length out.old }
    ensures { out.new ≡ overwrite out.old at (zeros (length out.old - at)) }
{
    out[at..].fill(0);
}

pub fn zero_words(out: &mut [u32])
    ensures { out.new ≡ zeros (length out.old) }
{
    out.fill(0);
}

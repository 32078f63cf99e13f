// A Bloom filter in lent words: a hash sets the same bits, at most four, of two words. What was inserted is always found, and another hash
// seldom is. Where there are no words, each hash counts as inserted.
#![tactic(auto)]

ghost use Rattle.std.specs.Prelude.{◌≡◌, ◌^◌, ◌<◌, length};
ghost use Rattle.bloom.specs.Filter.{hash_place, hash_bits, has_bits, with_bits, may_contain, inserted};

fn power(k: u32) -> u32
    requires { k < 32 }
    ensures { result ≡ 2 ^ k }
{
    1 << k
}

// The bits of a hash.
fn bits_of(h: u64) -> u32
    ensures { result ≡ hash_bits h }
{
    let a = power((h % 32) as u32) | power((h / 32 % 32) as u32);
    let b = power((h / 1024 % 32) as u32) | power((h / 32768 % 32) as u32);
    a | b
}

// Which word 32 bits of a hash choose: as far among the words as the bits are among all, by a product and no division.
fn place_of(len: usize, x: u64) -> usize
    requires { (0 < len) × (x < 4294967296) }
    ensures { result ≡ hash_place len x }
{
    let used = len.min(4294967296);
    (x * used as u64 / 4294967296) as usize
}

// x has 64 bits, here and below, since a product is made of it: as a `u32` it would be cut in four places and widened in one. That there are words is
// what `insert` and `may_contain` test first.
fn set_bits(words: &mut [u32], x: u64, bits: u32)
    requires { (0 < length words.old) × (x < 4294967296) }
    ensures { words.new ≡ with_bits words.old x bits }
{
    let i = place_of(words.len(), x);
    words[i] |= bits;
}

fn has_bits(words: &[u32], x: u64, bits: u32) -> bool
    requires { (0 < length words.now) × (x < 4294967296) }
    ensures { result ≡ has_bits words.now x bits }
{
    let i = place_of(words.len(), x);
    words[i] & bits == bits
}

pub fn insert(words: &mut [u32], h: u64)
    ensures { words.new ≡ inserted words.old h }
{
    if words.is_empty() {
        return;
    }
    let m = bits_of(h);
    set_bits(words, h / 4294967296 % 4294967296, m);
    set_bits(words, h / 65536 % 4294967296, m);
}

pub fn may_contain(words: &[u32], h: u64) -> bool
    ensures { result ≡ may_contain words.now h }
{
    if words.is_empty() {
        return true;
    }
    let m = bits_of(h);
    has_bits(words, h / 4294967296 % 4294967296, m) && has_bits(words, h / 65536 % 4294967296, m)
}

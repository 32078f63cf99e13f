// Runs document 01's cases of section 2 and prints them: P1, P2, growth at 224 entries, 64 against 65 bytes, and the refusal of
// string 3584; then those of document 02, wish 7, the ceiling on probing: calls that cost as much as it lets them, and calls that
// cost nothing. The numbers in `stdout` are those of the Rust: intern.rs with main below it, rustc -O, the same calls; the Rust
// has no limit of 3583 strings, so the numbers of the line 'one more' are those before that call.
#![tactic(auto)]

ghost use Rattle.std.specs.Prelude.{◌≡◌, ◌∷◌, [], ◌+◌, ◌/◌, ◌%◌, ◌≤◌, length};
ghost use Rattle.interner.specs.State.{Good};

use interner::StrInterner;
use span::StrId;
use std::io;

fn put_hash(rt: &impl Print, bytes: &[u8]) -> io::Result<()> {
    let h = hash::fx_hash(bytes);
    println!(rt; "{h:016x}")
}

// The state behind a call, and the id that it answered, or that it was refused.
fn show(rt: &impl Print, label: &str, st: &StrInterner, id: Option<StrId>) -> io::Result<()> {
    let c = st.stats;
    let told = if id.is_some() { "ok" } else { "refused" };
    println!(rt;
        "{label} {told} id {} slots {} strings {} calls {} cache {} table {} allocs {} long {} resizes {} probes {}",
        id.map_or(0, |id| id.0),
        st.slots,
        st.count,
        c.calls,
        c.cache_hits,
        c.table_hits,
        c.allocs,
        c.long_bypass,
        c.resizes,
        c.probe_steps,
    )
}

// The state, the words and the bytes go side by side: both buffers are written, and of a struct that holds a lent one each function would have
// to promise that it is still the same.
fn begin(work: &mut [u32], strs: &[u8]) -> StrInterner
    requires { 16384 ≤ length work.old }
    ensures { Good work.new strs.now result }
{
    StrInterner::new(work, 0)
}

fn call(st: &mut StrInterner, work: &mut [u32], strs: &mut [u8], s: &[u8]) -> Option<StrId>
    requires { Good work.old strs.old st.old }
    ensures { Good work.new strs.new st.new }
{
    if st.stats.calls < 4294967296 {
        intern::intern(st, work, strs, s)
    } else {
        None
    }
}

// The four digits of i, as bytes; `{i:04}` would be written to a stream, which may fail.
fn digits(i: u32) -> [u8; 4]
    ensures { result ≡ ((48 + i / 1000 % 10) ∷ (48 + i / 100 % 10) ∷ (48 + i / 10 % 10) ∷ (48 + i % 10) ∷ []) }
{
    [
        (48 + i / 1000 % 10) as u8,
        (48 + i / 100 % 10) as u8,
        (48 + i / 10 % 10) as u8,
        (48 + i % 10) as u8,
    ]
}

// Calls for the strings "0000", "0001" and so on, n of them.
fn many(st: &mut StrInterner, work: &mut [u32], strs: &mut [u8], n: u32) -> Option<StrId>
    requires { Good work.old strs.old st.old }
    ensures { Good work.new strs.new st.new }
{
    let mut id = None;
    for i in 0..n {
        id = call(st, work, strs, &digits(i));
    }
    id
}

fn hashes(rt: &impl Print) -> io::Result<()> {
    put_hash(rt, b"")?;
    put_hash(rt, b"\0")?;
    put_hash(rt, b"\x01")?;
    put_hash(rt, b"\x02")
}

fn probes(rt: &impl Print) -> io::Result<()> {
    let mut work = [0u32; 16384];
    let mut strs = [0u8; 64];
    let mut st = begin(&mut work, &strs);
    call(&mut st, &mut work, &mut strs, b"");
    let id = call(&mut st, &mut work, &mut strs, b"\0");
    show(rt, "P2", &st, id)
}

// 224 entries of 256 slots; then one that is there, older than the last.
fn growth(rt: &impl Print) -> io::Result<()> {
    let mut work = [0u32; 16384];
    let mut strs = [0u8; 1024];
    let mut st = begin(&mut work, &strs);
    let id = many(&mut st, &mut work, &mut strs, 224);
    show(rt, "224 entries", &st, id)?;
    let id = call(&mut st, &mut work, &mut strs, b"0007");
    show(rt, "an older one", &st, id)
}

// s, another, s, another.
fn twice(rt: &impl Print, label: &str, s: &[u8]) -> io::Result<()> {
    let mut work = [0u32; 16384];
    let mut strs = [0u8; 1024];
    let mut st = begin(&mut work, &strs);
    call(&mut st, &mut work, &mut strs, s);
    call(&mut st, &mut work, &mut strs, b"x");
    call(&mut st, &mut work, &mut strs, s);
    let id = call(&mut st, &mut work, &mut strs, b"x");
    show(rt, label, &st, id)
}

fn limit(rt: &impl Print) -> io::Result<()> {
    let mut work = [7u32; 16384];
    let mut strs = [0u8; 16384];
    let mut st = begin(&mut work, &strs);
    let id = many(&mut st, &mut work, &mut strs, 3583);
    show(rt, "3583 strings", &st, id)?;
    let id = call(&mut st, &mut work, &mut strs, b"0007");
    show(rt, "an older one", &st, id)?;
    let id = call(&mut st, &mut work, &mut strs, b"3583");
    show(rt, "one more", &st, id)
}

// Wish 7. One call, one string: probes are calls × 1.
fn one(rt: &impl Print) -> io::Result<()> {
    let mut work = [0u32; 16384];
    let mut strs = [0u8; 64];
    let mut st = begin(&mut work, &strs);
    let id = call(&mut st, &mut work, &mut strs, b"x");
    show(rt, "one string", &st, id)
}

// Calls for the strings of four bytes in s, one after the other.
fn each(st: &mut StrInterner, work: &mut [u32], strs: &mut [u8], s: &[u8]) -> Option<StrId>
    requires { Good work.old strs.old st.old }
    ensures { Good work.new strs.new st.new }
{
    let mut id = None;
    for part in s.chunks(4) {
        id = call(st, work, strs, part);
    }
    id
}

// Wish 7. Nine strings of four bytes that begin at one slot: the k-th costs k probes, when it is new and each time that it is found.
// The ninth, behind a long one so that it is no cache hit, costs 9, the most that the ceiling lets a call cost.
fn one_slot(rt: &impl Print, label: &str, s: &[u8; 36]) -> io::Result<()> {
    let ninth = &s[32..36];
    let mut work = [0u32; 16384];
    let mut strs = [0u8; 128];
    let mut st = begin(&mut work, &strs);
    let id = each(&mut st, &mut work, &mut strs, s);
    show(rt, label, &st, id)?;
    let id = each(&mut st, &mut work, &mut strs, s);
    show(rt, "each again", &st, id)?;
    let long = [97u8; 65];
    let id = call(&mut st, &mut work, &mut strs, &long);
    show(rt, "a long one", &st, id)?;
    let id = call(&mut st, &mut work, &mut strs, ninth);
    show(rt, "the ninth", &st, id)
}

// Wish 7. No string of at most 64 bytes: no probes.
fn only_long(rt: &impl Print) -> io::Result<()> {
    let mut work = [0u32; 16384];
    let mut strs = [0u8; 1024];
    let s = [97u8; 65];
    let t = [98u8; 65];
    let mut st = begin(&mut work, &strs);
    call(&mut st, &mut work, &mut strs, &s);
    call(&mut st, &mut work, &mut strs, &t);
    call(&mut st, &mut work, &mut strs, &s);
    let id = call(&mut st, &mut work, &mut strs, &t);
    show(rt, "long strings only", &st, id)
}

fn main(rt: HostRuntime) -> io::Result<()> {
    hashes(&rt)?;
    probes(&rt)?;
    growth(&rt)?;
    let s = [97u8; 65];
    twice(&rt, "64 bytes", &s[..64])?;
    twice(&rt, "65 bytes", &s)?;
    limit(&rt)?;
    one(&rt)?;
    one_slot(
        &rt,
        "nine of slot 100",
        b"kigakoruhutuminimukuyawoyumegotapapa",
    )?;
    one_slot(
        &rt,
        "nine of slot 250",
        b"kohusayosukisokenitahabihunuyugedasi",
    )?;
    only_long(&rt)
}

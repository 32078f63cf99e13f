// RFC 3629's boundary vectors: a line for each group, its name and a verdict for each vector, 1 for UTF-8 and 0 for none; in the last line
// one for each place, 1 for a character's bound. The stored output is what Rust's core::str::from_utf8 and str::is_char_boundary answer.
#![tactic(auto)]

ghost use Rattle.std.specs.Prelude.{◌≤◌};

use std::io;

fn try_bytes(rt: &impl Print, s: &[u8]) -> io::Result<()> {
    print!(rt; "{}", u8::from(utf8::is_utf8(s)))
}

// Each beginning of s, from the empty one to the whole.
fn try_cut(rt: &impl Print, s: &[u8]) -> io::Result<()> {
    for n in 0..=s.len() {
        try_bytes(rt, &s[..n])?;
    }
    print!(rt; " ")
}

// A line: its label, and a verdict for each of these.
fn try_each(rt: &impl Print, label: &str, vectors: &[&[u8]]) -> io::Result<()> {
    print!(rt; "{label}: ")?;
    for s in vectors {
        try_bytes(rt, s)?;
    }
    println!(rt)
}

// A line: its label, and verdicts for each beginning of each of these.
fn try_cuts(rt: &impl Print, label: &str, vectors: &[&[u8]]) -> io::Result<()> {
    print!(rt; "{label}, cut short and whole: ")?;
    for s in vectors {
        try_cut(rt, s)?;
    }
    println!(rt)
}

fn lengths(rt: &impl Print) -> io::Result<()> {
    let vectors: [&[u8]; 8] = [
        b"\x00",
        b"\x7f",
        b"\xc2\x80",
        b"\xdf\xbf",
        b"\xe0\xa0\x80",
        b"\xef\xbf\xbf",
        b"\xf0\x90\x80\x80",
        b"\xf4\x8f\xbf\xbf",
    ];
    try_cuts(rt, "first and last of each length", &vectors)
}

fn surrogates(rt: &impl Print) -> io::Result<()> {
    let vectors: [&[u8]; 4] = [
        b"\xed\x9f\xbf",
        b"\xed\xa0\x80",
        b"\xed\xbf\xbf",
        b"\xee\x80\x80",
    ];
    try_each(rt, "D7FF, D800, DFFF, E000", &vectors)
}

fn overlong(rt: &impl Print) -> io::Result<()> {
    let vectors: [&[u8]; 6] = [
        b"\xc0\x80",
        b"\xc1\xbf",
        b"\xe0\x80\x80",
        b"\xe0\x9f\xbf",
        b"\xf0\x80\x80\x80",
        b"\xf0\x8f\xbf\xbf",
    ];
    try_each(rt, "overlong ends of two, three and four bytes", &vectors)
}

fn continuation(rt: &impl Print) -> io::Result<()> {
    let vectors: [&[u8]; 11] = [
        b"\x80",
        b"\xbf",
        b"a\x80",
        b"\xe3\x81\x82\x80",
        b"\xc2a",
        b"\xc2\xc2\x80",
        b"\xe3\x81a",
        b"\xe3a\x82",
        b"\xf0\x90\x80a",
        b"\xf0\x90a\x80",
        b"\xf0a\x80\x80",
    ];
    try_each(rt, "lone and missing continuation bytes", &vectors)
}

// Every first byte from 80 on, with this second byte and tails 80 behind it, to n bytes.
fn leads(rt: &impl Print, second: u8, n: usize) -> io::Result<()>
    requires { n ≤ 4 }
{
    for lead in 0x80..=0xff {
        let bytes = [lead, second, 0x80, 0x80];
        try_bytes(rt, &bytes[..n])?;
    }
    println!(rt)
}

// The same for each of these second bytes.
fn each_second(rt: &impl Print, length: &str, n: usize, seconds: &[u8]) -> io::Result<()>
    requires { n ≤ 4 }
{
    for second in seconds {
        print!(rt; "leads 80-FF, {length} bytes, second {second:02X}: ")?;
        leads(rt, *second, n)?;
    }
    Ok(())
}

fn each_length(rt: &impl Print) -> io::Result<()> {
    print!(rt; "leads 80-FF, one byte: ")?;
    leads(rt, 0x80, 1)?;
    each_second(rt, "two", 2, b"\x7f\x80\xbf\xc0")?;
    each_second(rt, "three", 3, b"\x7f\x80\x9f\xa0\xbf\xc0")?;
    each_second(rt, "four", 4, b"\x7f\x80\x8f\x90\xbf\xc0")
}

// A byte put at each place of a run that is read in blocks.
fn each_place<const N: usize>(rt: &impl Print, run: [u8; N], byte: u8) -> io::Result<()> {
    for i in 0..N {
        let mut changed = run;
        changed[i] = byte;
        try_bytes(rt, &changed)?;
    }
    println!(rt)
}

fn ascii_blocks(rt: &impl Print) -> io::Result<()> {
    for byte in b"\x7f\x80\xe3" {
        print!(rt; "{byte:02X} in 76 ASCII bytes: ")?;
        each_place(rt, [b'a'; 76], *byte)?;
    }
    Ok(())
}

fn kana_blocks(rt: &impl Print) -> io::Result<()> {
    let kana = *b"\xe3\x81\x82\xe3\x81\x84\xe3\x81\x86\xe3\x81\x88";
    for byte in b"\x7f\x80\xbf\xe3" {
        print!(rt; "{byte:02X} in four kana: ")?;
        each_place(rt, kana, *byte)?;
    }
    try_cuts(rt, "four kana", &[&kana])?;
    try_cuts(
        rt,
        "mixed text",
        &[b"abcdefgh\xe3\x81\x82\xc3\xa9ijk\xf0\xa0\x80\x8b\xed\x95\x9clmnopqrstu"],
    )
}

fn blocks(rt: &impl Print) -> io::Result<()> {
    try_cuts(
        rt,
        "seven times nine characters",
        &[
            b"a\x0a\xe3\x81\x82\xc3\xa9\xe6\xbc\xa2\xe3\x80\x81\x0a\xef\xbd\xb1\xef\xbd\x9ca\x0a\xe3\x81\x82\xc3\xa9\xe6\xbc\xa2\xe3\x80\x81\x0a\xef\xbd\xb1\xef\xbd\x9ca\x0a\xe3\x81\x82\xc3\xa9\xe6\xbc\xa2\xe3\x80\x81\x0a\xef\xbd\xb1\xef\xbd\x9ca\x0a\xe3\x81\x82\xc3\xa9\xe6\xbc\xa2\xe3\x80\x81\x0a\xef\xbd\xb1\xef\xbd\x9ca\x0a\xe3\x81\x82\xc3\xa9\xe6\xbc\xa2\xe3\x80\x81\x0a\xef\xbd\xb1\xef\xbd\x9ca\x0a\xe3\x81\x82\xc3\xa9\xe6\xbc\xa2\xe3\x80\x81\x0a\xef\xbd\xb1\xef\xbd\x9ca\x0a\xe3\x81\x82\xc3\xa9\xe6\xbc\xa2\xe3\x80\x81\x0a\xef\xbd\xb1\xef\xbd\x9c",
        ],
    )?;
    try_cuts(
        rt,
        "four bytes in a block",
        &[
            b"a\x0a\xe3\x81\x82\xc3\xa9\xe6\xbc\xa2\xe3\x80\x81\x0a\xef\xbd\xb1\xef\xbd\x9ca\x0a\xe3\x81\x82\xc3\xa9\xe6\xbc\xa2\xe3\x80\x81\x0a\xef\xbd\xb1\xef\xbd\x9ca\x0a\xe3\x81\x82\xc3\xa9\xe6\xbc\xa2\xe3\x80\x81\x0a\xef\xbd\xb1\xef\xbd\x9ca\x0a\xe3\x81\x82\xc3\xa9\xe6\xbc\xa2\xe3\x80\x81\x0a\xef\xbd\xb1\xef\xbd\x9c\xf0\xa0\x80\x8ba\x0a\xe3\x81\x82\xc3\xa9\xe6\xbc\xa2\xe3\x80\x81\x0a\xef\xbd\xb1\xef\xbd\x9ca\x0a\xe3\x81\x82\xc3\xa9\xe6\xbc\xa2\xe3\x80\x81\x0a\xef\xbd\xb1\xef\xbd\x9ca\x0a\xe3\x81\x82\xc3\xa9\xe6\xbc\xa2\xe3\x80\x81\x0a\xef\xbd\xb1\xef\xbd\x9c",
        ],
    )?;
    try_cuts(
        rt,
        "C1 80 in a block",
        &[
            b"a\x0a\xe3\x81\x82\xc3\xa9\xe6\xbc\xa2\xe3\x80\x81\x0a\xef\xbd\xb1\xef\xbd\x9ca\x0a\xe3\x81\x82\xc3\xa9\xe6\xbc\xa2\xe3\x80\x81\x0a\xef\xbd\xb1\xef\xbd\x9ca\x0a\xe3\x81\x82\xc3\xa9\xe6\xbc\xa2\xe3\x80\x81\x0a\xef\xbd\xb1\xef\xbd\x9ca\x0a\xe3\x81\x82\xc3\xa9\xe6\xbc\xa2\xe3\x80\x81\x0a\xef\xbd\xb1\xef\xbd\x9c\xc1\x80a\x0a\xe3\x81\x82\xc3\xa9\xe6\xbc\xa2\xe3\x80\x81\x0a\xef\xbd\xb1\xef\xbd\x9ca\x0a\xe3\x81\x82\xc3\xa9\xe6\xbc\xa2\xe3\x80\x81\x0a\xef\xbd\xb1\xef\xbd\x9c",
        ],
    )
}

fn bounds(rt: &impl Print) -> io::Result<()> {
    let text = b"a\xc3\xa9\xe6\xbc\xa2\xf0\xa0\x80\x8b";
    print!(rt; "character bounds of one, two, three and four bytes, at 0 to 12: ")?;
    for at in 0..13 {
        print!(rt; "{}", u8::from(utf8::is_char_boundary(text, at)))?;
    }
    println!(rt)
}

fn main(rt: HostRuntime) -> io::Result<()> {
    lengths(&rt)?;
    surrogates(&rt)?;
    overlong(&rt)?;
    continuation(&rt)?;
    each_length(&rt)?;
    ascii_blocks(&rt)?;
    kana_blocks(&rt)?;
    blocks(&rt)?;
    bounds(&rt)
}

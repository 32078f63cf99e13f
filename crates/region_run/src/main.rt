// Reads cases from standard input and prints the region that is chosen for an edit of a book, with its text, or the number of the refusal.
// tools/cases/make writes the cases, and from document 01 the output that is stored beside them.
#![tactic(auto)]

use span::{SourceOffset, Span};
use std::io;

// A newline is shown as in a literal.
fn put_text(rt: &impl Print, s: &[u8]) -> io::Result<()> {
    for b in s {
        match *b {
            b'\n' => print!(rt; "\\n")?,
            byte => rt.write_all(&[byte])?,
        }
    }
    Ok(())
}

// The text stands first in the byte buffer.
fn put_region(rt: &impl Print, bytes: &[u8], region: Span) -> io::Result<()> {
    print!(rt; "region {} {} \"", region.start.0, region.end.0)?;
    put_text(rt, region::region_text(bytes, region))?;
    print!(rt; "\"")
}

fn show(rt: &impl Print, c: cases::Case) -> io::Result<()> {
    let mut words = [0u32; 64];
    rt.write_all(c.label)?;
    print!(rt; ": ")?;
    let start = SourceOffset(c.start);
    let end = SourceOffset(c.end);
    match region::choose_region(c.tape, c.bytes, start, end, c.replacement, &mut words) {
        Ok(region) => put_region(rt, c.bytes, region)?,
        Err(refusal) => print!(rt; "refused {}", u32::from(refusal))?,
    }
    println!(rt)
}

fn main(rt: HostRuntime) -> io::Result<()> {
    let mut input = [0u8; 65536];
    let n = stream::read_full(&mut rt.stdin(), &mut input)?;
    for c in cases::Cases::new(&input[..n]) {
        show(&rt, c)?;
    }
    Ok(())
}

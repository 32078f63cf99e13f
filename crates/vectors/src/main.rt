// Reads cases from standard input and prints what a merge returns, with a hash of the result's tape and one of its bytes, or the number of
// the refusal; then how many bytes and words are not zero behind the result in the three lent buffers, none of which is zero before.
// A case's replacement begins with five words: the lengths of those buffers, of the edit's replacement and of the reading's tape; these
// two follow, and the reading's bytes. tools/cases/make writes the cases, and from document 01 the output that is stored beside them; the
// output of a case whose label begins with "Rust" is the Rust's own answer (oracle/sample).
#![tactic(auto)]

use books::{Correction, Stored};
use edit::Edit;
use output::IncrementalOutput;
use refusal::Refusal;
use span::SourceOffset;
use std::io;
use std::io::Read;

// crate `estimate_run` parts a replacement likewise, but by a head of other words
const HEAD: usize = 20;

// P5's line, and both parts of the result.
fn put_answer(
    rt: &impl Print,
    answer: Result<IncrementalOutput, Refusal>,
    out: &[u8],
    strs: &[u8],
) -> io::Result<()> {
    match answer {
        Ok(r) => print!(rt;
            "region {} {} reused {} reread {} calls {} probes {}, tape {:016x} bytes {:016x}",
            r.start,
            r.end,
            r.reused,
            r.reread,
            r.stats.calls,
            r.stats.probe_steps,
            hash::fx_hash(wire::between(out, 0, r.tape)),
            hash::fx_hash(wire::between(strs, 0, r.bytes)),
        ),
        Err(refusal) => print!(rt; "refused {}", u32::from(refusal)),
    }
}

// How many are not zero. A `fold` has no branch, where `filter` and `count` have one and take twice as long; no slice is so long that the count wraps.
fn not_zero<T: Copy + Into<u64>>(s: &[T]) -> u64 {
    s.iter().fold(0u64, |n, x| n.wrapping_add(u64::from((*x).into() != 0u64)))
}

// A refusal's result is empty: all is behind it.
fn put_rest(
    rt: &impl Print,
    answer: Result<IncrementalOutput, Refusal>,
    out: &[u8],
    strs: &[u8],
    work: &[u32],
) -> io::Result<()> {
    let (tape_end, bytes_end) = output::taken(answer);
    let tape = wire::between(out, tape_end, out.len());
    let bytes = wire::between(strs, bytes_end, strs.len());
    print!(rt;
        ", rest {} {} {}",
        not_zero(tape),
        not_zero(bytes),
        not_zero(work),
    )
}

// So much as is lent of a buffer.
fn first<T>(buffer: &mut [T], n: u32) -> &mut [T] {
    let n = buffer.len().min(n as usize);
    &mut buffer[..n]
}

fn show(rt: &impl Print, c: cases::Case) -> io::Result<()> {
    let rest = c.replacement;
    let mut out = [7u8; 65536];
    let mut strs = [7u8; 65536];
    let mut work = [7u32; 16384];
    let out = first(&mut out, wire::u32_or_zero(rest, 0));
    let strs = first(&mut strs, wire::u32_or_zero(rest, 4));
    let work = first(&mut work, wire::u32_or_zero(rest, 8));
    let reading_tape = HEAD + wire::u32_or_zero(rest, 12) as usize;
    let reading_bytes = reading_tape + wire::u32_or_zero(rest, 16) as usize;
    let book = Stored::new(c.tape, c.bytes);
    let edit = Edit {
        start: SourceOffset(c.start),
        end: SourceOffset(c.end),
        replacement: wire::between(rest, HEAD, reading_tape),
    };
    let reading = Stored::new(
        wire::between(rest, reading_tape, reading_bytes),
        wire::between(rest, reading_bytes, rest.len()),
    );
    let r = incremental::merge(&book, &Correction { edit, reading }, out, strs, work);
    rt.write_all(c.label)?;
    print!(rt; ": ")?;
    put_answer(rt, r, out, strs)?;
    put_rest(rt, r, out, strs, work)?;
    println!(rt)
}

// The cases of a stream, as much of it as the buffer holds.
fn show_stream<R: Read>(rt: &impl Print, reader: &mut R, input: &mut [u8]) -> io::Result<()> {
    let n = stream::read_full(reader, input)?;
    for c in cases::Cases::new(&input[..n]) {
        show(rt, c)?;
    }
    Ok(())
}

fn main(rt: HostRuntime) -> io::Result<()> {
    let mut input = [0u8; 327680];
    show_stream(&rt, &mut rt.stdin(), &mut input)
}

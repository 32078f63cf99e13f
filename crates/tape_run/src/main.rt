// Reads cases from standard input and prints what the entries answer: numbers 1 to 7 of a case's tape and bytes, as a book and as a
// reading, and of an accepted book its copy and the lookups. tools/cases/make writes the cases, and from document 01 the output that is
// stored beside them.
#![tactic(auto)]

use refusal::Refusal;
use span::{SourceOffset, StrId};
use std::io;

fn put_hex(rt: &impl Print, s: &[u8]) -> io::Result<()> {
    for b in s {
        print!(rt; "{b:02x}")?;
    }
    Ok(())
}

// What is answered, or the number of the refusal.
fn put_told<T: Drop, Put: FnOnce(T) -> io::Result<()>>(
    rt: &impl Print,
    told: Result<T, Refusal>,
    put: Put,
) -> io::Result<()>
    requires { Put.IsAlwaysCallable put }
{
    match told {
        Ok(answer) => put(answer),
        Err(refusal) => print!(rt; "refused {}", u32::from(refusal)),
    }
}

// The same of what may be none.
fn put_found<T: Drop, Put: FnOnce(T) -> io::Result<()>>(
    rt: &impl Print,
    told: Result<Option<T>, Refusal>,
    put: Put,
) -> io::Result<()>
    requires { Put.IsAlwaysCallable put }
{
    match told {
        Ok(Some(answer)) => put(answer),
        Ok(None) => print!(rt; "none"),
        Err(refusal) => print!(rt; "refused {}", u32::from(refusal)),
    }
}

// The lengths, and how the two buffers begin.
fn copy(rt: &impl Print, tape: &[u8], bytes: &[u8]) -> io::Result<()> {
    let mut out_tape = [7u8; 2048];
    let mut out_bytes = [7u8; 64];
    print!(rt; "  copy: ")?;
    let copied = copy::copy_book(tape, bytes, &mut out_tape, &mut out_bytes);
    put_told(rt, copied, |c| print!(rt; "{} {}", c.tape, c.bytes))?;
    print!(rt; ", ")?;
    put_hex(rt, wire::between(&out_tape, 0, 16))?;
    print!(rt; " ")?;
    put_hex(rt, wire::between(&out_bytes, 0, 16))?;
    println!(rt)
}

// How many records, and where the first stands, if there is one.
fn put_records(rt: &impl Print, place: usize, n: u32) -> io::Result<()> {
    print!(rt; "{n}")?;
    if n != 0 {
        print!(rt; " at {place}")?;
    }
    Ok(())
}

// A string with the bytes between two places of the byte buffer.
fn put_string(rt: &impl Print, bytes: &[u8], start: usize, end: usize) -> io::Result<()> {
    print!(rt; "\"")?;
    rt.write_all(wire::between(bytes, start, end))?;
    print!(rt; "\"")
}

fn ask(rt: &impl Print, c: cases::Case) -> io::Result<()> {
    let cases::Case {
        tape,
        bytes,
        start,
        end,
        ..
    } = c;
    copy(rt, tape, bytes)?;
    print!(rt; "  diagnostics: ")?;
    let allowed = lookup::diagnostics_allow_incremental(tape, bytes);
    put_told(rt, allowed, |yes| {
        let word = if yes { "yes" } else { "no" };
        print!(rt; "{word}")
    })?;
    print!(rt; "\n  node at {start}: ")?;
    let node = lookup::node_at_source(tape, bytes, SourceOffset(start));
    put_found(rt, node, |i| print!(rt; "{i}"))?;
    print!(rt; "\n  string {start}: ")?;
    let string = lookup::lookup_str(tape, bytes, StrId(start));
    put_found(rt, string, |s| put_string(rt, bytes, s.start, s.end))?;
    print!(rt; "\n  contents {start} {end}: ")?;
    let contents = lookup::lookup_contents(tape, bytes, start, end);
    put_found(rt, contents, |r| put_records(rt, r.place, r.count))?;
    print!(rt; "\n  segments {start} {end}: ")?;
    let segments = lookup::lookup_segments(tape, bytes, start, end);
    put_found(rt, segments, |r| put_records(rt, r.place, r.count))?;
    println!(rt)
}

// 0 where it is accepted. `answers::number_answer` says the same, but its crate stands on those of the merge, which this program does without.
fn number(a: Result<(), Refusal>) -> u32 {
    a.err().map_or(0, u32::from)
}

fn show(rt: &impl Print, c: cases::Case) -> io::Result<()> {
    let book = tape::check_book(c.tape, c.bytes);
    let reading = tape::check_reading(c.tape, c.bytes);
    rt.write_all(c.label)?;
    println!(rt; ": check {}, reading {}", number(book), number(reading))?;
    if book.is_ok() {
        ask(rt, c)?;
    }
    Ok(())
}

fn main(rt: HostRuntime) -> io::Result<()> {
    let mut input = [0u8; 65536];
    let n = stream::read_full(&mut rt.stdin(), &mut input)?;
    for c in cases::Cases::new(&input[..n]) {
        show(&rt, c)?;
    }
    Ok(())
}

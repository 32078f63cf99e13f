// Reads cases from standard input and prints what flattening a book returns, with a hash of the flat book's tape and one of its bytes, or the
// number of the refusal; then how many bytes and words are not zero behind the result in the three lent buffers, none of which is zero before.
// Of a flat book also the number that it has when it is read, and whether flattening it leaves it as it is. A case's correction, if it has
// one, is merged into the book and into the flat one, and both answers are printed.
// A case's replacement begins with six words: the lengths of the buffers, what is kept of the case before, the lengths of the edit's
// replacement and of the reading's tape (0: no correction); these two follow, and the reading's bytes. tools/cases/make writes the cases, and
// from documents 01 and 02 the output that is stored beside them.
#![tactic(auto)]

use books::{Correction, Stored};
use copy::Copied;
use edit::Edit;
use output::IncrementalOutput;
use refusal::Refusal;
use span::SourceOffset;
use std::alloc::Global;
use std::io;
use std::io::Read;

// crate `desk_run` parts a replacement likewise, but by a head of other words
const HEAD: usize = 24;

// what a case keeps of the one before
const KEPT_BOOK: u32 = 2;

// A book as it is stored. A case leaves one to the next: the merged one where its correction was accepted, else the flat one, else its own.
#[derive(Drop)]
struct Held {
    tape: Vec<u8>,
    bytes: Vec<u8>,
}

// The three lent buffers.
#[derive(Drop)]
struct Lent {
    tape: Vec<u8>,
    bytes: Vec<u8>,
    work: Vec<u32>,
}

// A tape of 11,000,000 bytes has room for as many contents as a pool may have.
fn lend(alloc: Global, rest: &[u8]) -> io::Result<Lent> {
    let tape = wire::u32_or_zero(rest, 0).min(11000000);
    let bytes = wire::u32_or_zero(rest, 4).min(262144);
    let words = wire::u32_or_zero(rest, 8).min(65536);
    Ok(Lent {
        tape: vec![in alloc; 7u8; tape as usize]?,
        bytes: vec![in alloc; 7u8; bytes as usize]?,
        work: vec![in alloc; 7u32; words as usize]?,
    })
}

// What is taken of the lent buffers.
fn taken(alloc: Global, lent: &Lent, tape: usize, bytes: usize) -> io::Result<Held> {
    Ok(Held {
        tape: Vec::from_slice(alloc, wire::between(&lent.tape, 0, tape))?,
        bytes: Vec::from_slice(alloc, wire::between(&lent.bytes, 0, bytes))?,
    })
}

fn put_hashes(rt: &impl Print, lent: &Lent, tape: usize, bytes: usize) -> io::Result<()> {
    print!(rt;
        ", tape {:016x} bytes {:016x}",
        hash::fx_hash(wire::between(&lent.tape, 0, tape)),
        hash::fx_hash(wire::between(&lent.bytes, 0, bytes)),
    )
}

fn put_rest(rt: &impl Print, lent: &Lent, tape_end: usize, bytes_end: usize) -> io::Result<()> {
    let tape = wire::between(&lent.tape, tape_end, lent.tape.len());
    let bytes = wire::between(&lent.bytes, bytes_end, lent.bytes.len());
    print!(rt;
        ", rest {} {} {}",
        tape.iter().filter(|x| **x != 0).count(),
        bytes.iter().filter(|x| **x != 0).count(),
        lent.work.iter().filter(|x| **x != 0).count(),
    )
}

// A refusal's result is empty: all is behind it.
fn put_answer(rt: &impl Print, answer: Result<Copied, Refusal>, lent: &Lent) -> io::Result<()> {
    match answer {
        Ok(r) => {
            print!(rt; "{} and {} bytes", r.tape, r.bytes)?;
            put_hashes(rt, lent, r.tape, r.bytes)?;
            put_rest(rt, lent, r.tape, r.bytes)
        }
        Err(refusal) => {
            print!(rt; "refused {}", u32::from(refusal))?;
            put_rest(rt, lent, 0, 0)
        }
    }
}

fn flatten(book: &Held, lent: &mut Lent) -> Result<Copied, Refusal> {
    flatten::flatten_book(
        &book.tape,
        &book.bytes,
        &mut lent.tape,
        &mut lent.bytes,
        &mut lent.work,
    )
}

// Whether all of both buffers, with the zeros behind the book, is as it was, and no work word is left.
fn put_again(rt: &impl Print, flat: &Lent, again: &Lent) -> io::Result<()> {
    let left = again.work.iter().filter(|x| **x != 0).count();
    if flat.tape == again.tape && flat.bytes == again.bytes && left == 0 {
        print!(rt; ", again the same")
    } else {
        print!(rt; ", again another")
    }
}

// The flat book read, and flattened in as much room.
fn put_flat(
    rt: &impl Print,
    alloc: Global,
    book: &Held,
    lent: &Lent,
    rest: &[u8],
) -> io::Result<()> {
    let number = tape::check_book(&book.tape, &book.bytes)
        .err()
        .map_or(0, u32::from);
    print!(rt; ", check {number}")?;
    let mut again = lend(alloc, rest)?;
    match flatten(book, &mut again) {
        Ok(_) => put_again(rt, lent, &again),
        Err(refusal) => print!(rt; ", again refused {}", u32::from(refusal)),
    }
}

fn put_merged(
    rt: &impl Print,
    answer: Result<IncrementalOutput, Refusal>,
    lent: &Lent,
) -> io::Result<()> {
    match answer {
        Ok(r) => {
            print!(rt;
                "region {} {} reused {} reread {} calls {} probes {}",
                r.start, r.end, r.reused, r.reread, r.stats.calls, r.stats.probe_steps,
            )?;
            put_hashes(rt, lent, r.tape, r.bytes)?;
            println!(rt)
        }
        Err(refusal) => println!(rt; "refused {}", u32::from(refusal)),
    }
}

// The merge of a case's correction into a book.
fn merge(book: &Held, lent: &mut Lent, c: cases::Case) -> Result<IncrementalOutput, Refusal> {
    let rest = c.replacement;
    let reading_tape = HEAD + wire::u32_or_zero(rest, 16) as usize;
    let reading_bytes = reading_tape + wire::u32_or_zero(rest, 20) as usize;
    let edit = Edit {
        start: SourceOffset(c.start),
        end: SourceOffset(c.end),
        replacement: wire::between(rest, HEAD, reading_tape),
    };
    let reading = Stored::new(
        wire::between(rest, reading_tape, reading_bytes),
        wire::between(rest, reading_bytes, rest.len()),
    );
    incremental::merge(
        &Stored::new(&book.tape, &book.bytes),
        &Correction { edit, reading },
        &mut lent.tape,
        &mut lent.bytes,
        &mut lent.work,
    )
}

// The merged book stands in the book's place where it is accepted.
fn correct(
    rt: &impl Print,
    alloc: Global,
    label: &str,
    book: &mut Held,
    c: cases::Case,
) -> io::Result<()> {
    if wire::u32_or_zero(c.replacement, 20) == 0 {
        return Ok(());
    }
    let mut lent = lend(alloc, c.replacement)?;
    let r = merge(book, &mut lent, c);
    print!(rt; "  merge {label}: ")?;
    put_merged(rt, r, &lent)?;
    if let Ok(a) = r {
        *book = taken(alloc, &lent, a.tape, a.bytes)?;
    }
    Ok(())
}

// What a case does not keep of the one before it brings along.
fn bring(alloc: Global, left: &mut Held, c: cases::Case) -> io::Result<()> {
    if wire::u32_or_zero(c.replacement, 12) & KEPT_BOOK == 0 {
        left.tape = Vec::from_slice(alloc, c.tape)?;
        left.bytes = Vec::from_slice(alloc, c.bytes)?;
    }
    Ok(())
}

fn show(rt: &impl Print, alloc: Global, left: &mut Held, c: cases::Case) -> io::Result<()> {
    bring(alloc, left, c)?;
    let mut lent = lend(alloc, c.replacement)?;
    let r = flatten(left, &mut lent);
    rt.write_all(c.label)?;
    print!(rt; ": ")?;
    put_answer(rt, r, &lent)?;
    let Ok(a) = r else {
        println!(rt)?;
        return correct(rt, alloc, "before", left, c);
    };
    let mut flat = taken(alloc, &lent, a.tape, a.bytes)?;
    put_flat(rt, alloc, &flat, &lent, c.replacement)?;
    println!(rt)?;
    correct(rt, alloc, "before", left, c)?;
    correct(rt, alloc, "after", &mut flat, c)?;
    *left = flat;
    Ok(())
}

fn main(rt: HostRuntime) -> io::Result<()> {
    let mut input = Vec::new(rt.alloc());
    rt.stdin().read_to_end(&mut input)?;
    let mut left = Held {
        tape: Vec::new(rt.alloc()),
        bytes: Vec::new(rt.alloc()),
    };
    for c in cases::Cases::new(&input) {
        show(&rt, rt.alloc(), &mut left, c)?;
    }
    Ok(())
}

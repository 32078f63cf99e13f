// Reads cases from standard input and prints what a merge for a desk returns, with a hash of the result's tape and one of its bytes, or the
// number of the refusal; then what the ledger holds behind the call: which desks have what, zeros left out, and the sum; then how many bytes
// and words are not zero behind the result in the three lent buffers, none of which is zero before.
// A case's replacement begins with nine words: the lengths of those buffers, the desk, what is kept of the case before, how many totals the
// ledger has, the lengths of its bytes (zeros at their end are left out), of the edit's replacement and of the reading's tape; these three
// follow, and the reading's bytes. tools/cases/make writes the cases, and from documents 01 and 02 the output that is stored beside them.
#![tactic(auto)]

use books::{Correction, Stored};
use edit::Edit;
use output::IncrementalOutput;
use refusal::Refusal;
use span::SourceOffset;
use std::alloc::Global;
use std::io;
use std::io::Read;

// crate `vectors` parts a replacement likewise, but by a head of other words
const HEAD: usize = 36;

// what a case keeps of the one before
const KEPT_LEDGER: u32 = 1;

const KEPT_BOOK: u32 = 2;

// What a case leaves to the next: its ledger, and its book, or the merged one where it was accepted.
#[derive(Drop)]
struct Left {
    ledger: Vec<u32>,
    tape: Vec<u8>,
    bytes: Vec<u8>,
}

// The three lent buffers.
#[derive(Drop)]
struct Lent {
    tape: Vec<u8>,
    bytes: Vec<u8>,
    work: Vec<u32>,
}

fn lend(alloc: Global, rest: &[u8]) -> io::Result<Lent> {
    let tape = wire::u32_or_zero(rest, 0).min(65536);
    let bytes = wire::u32_or_zero(rest, 4).min(65536);
    let words = wire::u32_or_zero(rest, 8).min(16384);
    Ok(Lent {
        tape: vec![in alloc; 7u8; tape as usize]?,
        bytes: vec![in alloc; 7u8; bytes as usize]?,
        work: vec![in alloc; 7u32; words as usize]?,
    })
}

// A ledger of so many totals, at most twice as many as there are desks.
fn ledger_of(alloc: Global, written: &[u8], len: u32) -> io::Result<Vec<u32>> {
    let mut ledger = Vec::new(alloc);
    for i in 0..len.min(128) as usize {
        ledger.push(wire::u32_or_zero(written, 4 * i))?;
    }
    Ok(ledger)
}

fn put_answer(
    rt: &impl Print,
    answer: Result<IncrementalOutput, Refusal>,
    lent: &Lent,
) -> io::Result<()> {
    match answer {
        Ok(r) => print!(rt;
            "region {} {} reused {} reread {}, tape {:016x} bytes {:016x}",
            r.start,
            r.end,
            r.reused,
            r.reread,
            hash::fx_hash(wire::between(&lent.tape, 0, r.tape)),
            hash::fx_hash(wire::between(&lent.bytes, 0, r.bytes)),
        ),
        Err(refusal) => print!(rt; "refused {}", u32::from(refusal)),
    }
}

// Desks that have the same, from the first to the last.
fn put_desks(rt: &impl Print, first: usize, last: usize, total: u32) -> io::Result<()> {
    if total == 0 {
        return Ok(());
    }
    if first == last {
        return print!(rt; ", desk {first} has {total}");
    }
    print!(rt; ", desks {first} to {last} have {total}")
}

fn put_ledger(rt: &impl Print, ledger: &[u32], before: &[u32]) -> io::Result<()> {
    print!(rt; ", ledger of {}", ledger.len())?;
    if ledger == before {
        print!(rt; " as before")?;
    }
    let mut first = 0;
    for (i, total) in ledger.iter().enumerate() {
        if ledger.get(i + 1) != Some(total) {
            put_desks(rt, first, i, *total)?;
            first = i + 1;
        }
    }
    let sum = ledger
        .iter()
        .fold(0u64, |sum, total| sum.wrapping_add(u64::from(*total)));
    print!(rt; ", sum {sum}")
}

// A refusal's result is empty: all is behind it.
fn put_rest(
    rt: &impl Print,
    answer: Result<IncrementalOutput, Refusal>,
    lent: &Lent,
) -> io::Result<()> {
    let (tape_end, bytes_end) = output::taken(answer);
    let tape = wire::between(&lent.tape, tape_end, lent.tape.len());
    let bytes = wire::between(&lent.bytes, bytes_end, lent.bytes.len());
    print!(rt;
        ", rest {} {} {}",
        tape.iter().filter(|x| **x != 0).count(),
        bytes.iter().filter(|x| **x != 0).count(),
        lent.work.iter().filter(|x| **x != 0).count(),
    )
}

// The call itself, on what was left to it.
fn merge(left: &mut Left, lent: &mut Lent, c: cases::Case) -> Result<IncrementalOutput, Refusal> {
    let rest = c.replacement;
    let replacement = HEAD + wire::u32_or_zero(rest, 24) as usize;
    let reading_tape = replacement + wire::u32_or_zero(rest, 28) as usize;
    let reading_bytes = reading_tape + wire::u32_or_zero(rest, 32) as usize;
    let book = Stored::new(&left.tape, &left.bytes);
    let edit = Edit {
        start: SourceOffset(c.start),
        end: SourceOffset(c.end),
        replacement: wire::between(rest, replacement, reading_tape),
    };
    let reading = Stored::new(
        wire::between(rest, reading_tape, reading_bytes),
        wire::between(rest, reading_bytes, rest.len()),
    );
    desk::merge_for_desk(
        wire::u32_or_zero(rest, 12),
        &mut left.ledger,
        &book,
        &Correction { edit, reading },
        &mut lent.tape,
        &mut lent.bytes,
        &mut lent.work,
    )
}

// What a case does not keep of the one before it brings along.
fn bring(alloc: Global, left: &mut Left, c: cases::Case) -> io::Result<()> {
    let rest = c.replacement;
    let kept = wire::u32_or_zero(rest, 16);
    if kept & KEPT_LEDGER == 0 {
        let written = HEAD + wire::u32_or_zero(rest, 24) as usize;
        left.ledger = ledger_of(
            alloc,
            wire::between(rest, HEAD, written),
            wire::u32_or_zero(rest, 20),
        )?;
    }
    if kept & KEPT_BOOK == 0 {
        left.tape = Vec::from_slice(alloc, c.tape)?;
        left.bytes = Vec::from_slice(alloc, c.bytes)?;
    }
    Ok(())
}

fn show(rt: &impl Print, alloc: Global, left: &mut Left, c: cases::Case) -> io::Result<()> {
    bring(alloc, left, c)?;
    let before = left.ledger.clone()?;
    let mut lent = lend(alloc, c.replacement)?;
    let r = merge(left, &mut lent, c);
    rt.write_all(c.label)?;
    print!(rt; ": ")?;
    put_answer(rt, r, &lent)?;
    put_ledger(rt, &left.ledger, &before)?;
    put_rest(rt, r, &lent)?;
    println!(rt)?;
    if let Ok(a) = r {
        left.tape = Vec::from_slice(alloc, wire::between(&lent.tape, 0, a.tape))?;
        left.bytes = Vec::from_slice(alloc, wire::between(&lent.bytes, 0, a.bytes))?;
    }
    Ok(())
}

fn main(rt: HostRuntime) -> io::Result<()> {
    let mut input = Vec::new(rt.alloc());
    rt.stdin().read_to_end(&mut input)?;
    let mut left = Left {
        ledger: Vec::new(rt.alloc()),
        tape: Vec::new(rt.alloc()),
        bytes: Vec::new(rt.alloc()),
    };
    for c in cases::Cases::new(&input) {
        show(&rt, rt.alloc(), &mut left, c)?;
    }
    Ok(())
}

// Reads cases from standard input and prints what a merge would cost, as wish 2 has it, or the number of the refusal; then how many of the
// lent words, none of which is zero before, are not zero. A case's replacement begins with three words: how many words are lent, the
// lengths of the edit's replacement and of the reading's tape; these two follow, and the reading's bytes. tools/cases/make writes the
// cases, and from documents 01 and 02 the output that is stored beside them.
#![tactic(auto)]

use books::{Correction, Stored};
use edit::Edit;
use estimate::Price;
use refusal::Refusal;
use span::SourceOffset;
use std::io;

// crate `vectors` parts a replacement likewise, but by a head of other words
const HEAD: usize = 12;

fn put_price(rt: &impl Print, answer: Result<Price, Refusal>) -> io::Result<()> {
    match answer {
        Ok(r) => print!(rt;
            "reread {} calls {} contents {} segments {} bytes {}",
            r.reread, r.calls, r.contents, r.segments, r.bytes,
        ),
        Err(refusal) => print!(rt; "refused {}", u32::from(refusal)),
    }
}

fn show(rt: &impl Print, c: cases::Case) -> io::Result<()> {
    let rest = c.replacement;
    let lent = wire::u32_or_zero(rest, 0).min(16384);
    let mut work = [7u32; 16384];
    let work = &mut work[..lent as usize];
    let reading_tape = HEAD + wire::u32_or_zero(rest, 4) as usize;
    let reading_bytes = reading_tape + wire::u32_or_zero(rest, 8) as usize;
    let book = Stored::new(c.tape, c.bytes);
    let edit = Edit {
        start: SourceOffset(c.start),
        end: SourceOffset(c.end),
        replacement: wire::between(rest, HEAD, reading_tape),
    };
    let reading = Stored::new(
        wire::between(rest, reading_tape, reading_bytes),
        wire::between(rest, reading_bytes, rest.len()),
    );
    let price = estimate::estimate(&book, &Correction { edit, reading }, work);
    rt.write_all(c.label)?;
    print!(rt; ": ")?;
    put_price(rt, price)?;
    println!(rt; ", rest {}", work.iter().filter(|x| **x != 0).count())
}

fn main(rt: HostRuntime) -> io::Result<()> {
    let mut input = [0u8; 262144];
    let n = stream::read_full(&mut rt.stdin(), &mut input)?;
    for c in cases::Cases::new(&input[..n]) {
        show(&rt, c)?;
    }
    Ok(())
}

// Prints a tape and its bytes as lines, a line a record; with an edit, first the passage that it makes be read anew, which is marked in the
// text too. specs/Inspect.antt says what is read and what is printed. All of a line is put into a buffer, by crate listing or here, and proved
// to be the definition's; this program decides whether the book is shown, goes from record to record, and writes each line.
#![tactic(auto)]

ghost use Rattle.std.specs.Prelude.{◌≡◌, ℕ, ◌+◌, ◌≤◌, List, length, take};
ghost use Rattle.refusal.specs.Refusal.{number_in};
ghost use Rattle.span.specs.Values.{span_of};
ghost use Rattle.edit.specs.Values.{edit_value};
ghost use Rattle.tape.specs.StringBytes.{book_of};
ghost use Rattle.lines.specs.Put.{room, Put};
ghost use Rattle.inspect.specs.Inspect.{tape_in, bytes_in, behind, edit_at, passage_line};
ghost use Rattle.inspect.specs.Answers.{head_number, edit_number};
ghost use Rattle.inspect.specs.Read.{Read};

use edit::Edit;
use lines::Line;
use listing::Listed;
use refusal::Refusal;
use span::{SourceOffset, Span};
use std::io;
use std::io::{Read, Write};

const MAX_PART: u32 = 65536;

// ---- the input

// Each of these reads the head's two words for itself, as its definition does (specs/Inspect.antt).

fn tape_in<'a>(input: &'a [u8]) -> &'a [u8]
    ensures { result.now ≡ tape_in input.now }
{
    wire::between(input, 8, 8 + wire::u32_or_zero(input, 0) as usize)
}

fn bytes_in<'a>(input: &'a [u8]) -> &'a [u8]
    ensures { result.now ≡ bytes_in input.now }
{
    let at = 8 + wire::u32_or_zero(input, 0) as usize;
    wire::between(input, at, at + wire::u32_or_zero(input, 4) as usize)
}

fn behind(input: &[u8]) -> usize
    ensures { result ≡ behind input.now }
{
    8 + wire::u32_or_zero(input, 0) as usize + wire::u32_or_zero(input, 4) as usize
}

// Numbers 1 and 3 of tape and bytes.
#[tactic(auto, using(std::proofs::lemmas::Bool::Decides::nat_tests), unfolding(crate::specs::Answers::head_number))]
fn check_head(input: &[u8]) -> Result<(), Refusal>
    ensures { number_in result ≡ head_number input.now }
{
    if input.len() < 8 {
        return Err(Refusal::Layout);
    }
    if wire::u32_at(input, 0) <= MAX_PART && wire::u32_at(input, 4) <= MAX_PART {
        Ok(())
    } else {
        Err(Refusal::OverLimit)
    }
}

// Numbers 1 and 3 of an edit whose words stand at a place.
#[tactic(auto, using(std::proofs::lemmas::Bool::Decides::nat_tests), unfolding(crate::specs::Answers::edit_number))]
fn check_edit(input: &[u8], at: usize) -> Result<(), Refusal>
    requires { at ≤ 131080 }
    ensures { number_in result ≡ edit_number input.now at }
{
    if input.len() < at + 12 {
        return Err(Refusal::Layout);
    }
    let replacement = wire::u32_at(input, at + 8);
    if MAX_PART < replacement {
        return Err(Refusal::OverLimit);
    }
    if input.len() != at + 12 + replacement as usize {
        return Err(Refusal::Layout);
    }
    Ok(())
}

// The edit whose words stand at a place.
fn edit_in<'a>(input: &'a [u8], at: usize) -> Edit<'a>
    requires { (at ≤ 131080) × (at + 12 ≤ length input.now) }
    ensures { edit_value result ≡ edit_at input.now at }
{
    let size = wire::u32_at(input, at + 8) as usize;
    Edit {
        start: SourceOffset(wire::u32_at(input, at)),
        end: SourceOffset(wire::u32_at(input, at + 4)),
        replacement: wire::between(input, at + 12, at + 12 + size),
    }
}

// ---- what is shown

// What an input asks for, and any stream that begins with it, if it is as many bytes as the buffer below holds.
fn read<'a>(input: &'a [u8], words: &mut [u32]) -> Result<Listed<'a>, Refusal>
    ensures { (s : List ℕ) → take 196629 s ≡ input.now → Read s result }
{
    check_head(input)?;
    let tape = tape_in(input);
    let bytes = bytes_in(input);
    let at = behind(input);
    if input.len() == at {
        let book = tape::open_book(tape, bytes)?;
        return Ok(Listed { book, region: None });
    }
    check_edit(input, at)?;
    let book = tape::open_book(tape, bytes)?;
    let region = region::chosen_region(&book, &edit_in(input, at), words)?;
    Ok(Listed {
        book,
        region: Some(region),
    })
}

// Of a stream `n` bytes stand in the buffer: all of them, or as many as it holds. That is enough (`asked_cut` in specs/Cut.antt), for a
// buffer of this size: eight, two parts of 65536, twelve, a part of 65536, and one that shows a surplus.
fn answer_read<'a>(input: &'a [u8], n: usize, words: &mut [u32]) -> Result<Listed<'a>, Refusal>
    requires { (length input.now ≡ 196629) × (n ≤ length input.now) }
    ensures { (s : List ℕ) → take (length input.now) s ≡ take n input.now → Read s result }
{
    read(&input[..n], words)
}

// ---- the output

// The line is written, and begun anew.
fn print<W: Write>(writer: &mut W, line: &mut Line<'_>) -> io::Result<()>
    ensures { room line.new ≡ length line.old.out.now }
{
    let written = writer.write_all(line.written());
    line.clear();
    written
}

// Up to 50 bytes before the text, two quotes and a newline, and four for each of its bytes.
fn put_passage(listed: &Listed, line: &mut Line<'_>, region: Span)
    requires { 262197 ≤ room line.old }
    ensures { Put line.old line.new 262197 (passage_line (book_of listed.now.book) (span_of region)) }
{
    let text = region::region_text(listed.book.text(), region);
    line.put_number(b"passage ", u64::from(region.start.0));
    line.put_number(b" ", u64::from(region.end.0));
    line.put_text(b" ");
    line.put_quoted(text);
    line.put_text(b"\n");
}

fn print_lines<W: Write>(listed: &Listed, writer: &mut W, line: &mut Line<'_>) -> io::Result<()>
    requires { 3932866 ≤ room line.old }
{
    let tape = listed.book.tape;
    let mut c = listing::first_line();
    // no `for`: each record says how long it is, and an `Iterator` would have to promise of each what `put_line` and `next_line` ask
    while c.at < tape.len() {
        listed.put_line(line, c);
        print(writer, line)?;
        c = listing::next_line(tape, c);
    }
    Ok(())
}

fn run_read<W: Write>(
    writer: &mut W,
    input: &[u8],
    n: usize,
    words: &mut [u32],
    line: &mut Line<'_>,
) -> io::Result<()>
    requires input_len { (length input.now ≡ 196629) × (n ≤ length input.now) }
    requires line_room { 3932866 ≤ room line.old }
{
    match answer_read(input, n, words) {
        Err(refusal) => {
            line.put_refused(u32::from(refusal));
            print(writer, line)
        }
        Ok(listed) => {
            if let Some(region) = listed.region {
                put_passage(&listed, line, region);
                print(writer, line)?;
            }
            print_lines(&listed, writer, line)
        }
    }
}

// A stream, from a reader to a writer.
fn show_stream<R: Read, W: Write>(
    reader: &mut R,
    writer: &mut W,
    words: &mut [u32],
    line: &mut Line<'_>,
) -> io::Result<()>
    requires { 3932866 ≤ room line.old }
{
    let mut input = [0u8; 196629];
    let n = stream::read_full(reader, &mut input)?;
    run_read(writer, &input, n, words, line)
}

fn main(rt: HostRuntime) -> io::Result<()> {
    let mut words = [0u32; 8192];
    let mut out = vec![in rt.alloc(); 0u8; 3932866]?;
    let mut line = Line::new(&mut out);
    show_stream(&mut rt.stdin(), &mut rt.stdout(), &mut words, &mut line)
}

// The program of document 01's 'Runs': an input of seven words and five parts is merged, and the line of P5 is printed, or the number of
// the refusal. `answer_stream` is all of it: from a reader and to a writer whose bytes are known, it writes the model's line of what it reads.
#![tactic(auto)]

ghost use Rattle.std.specs.Prelude.{◌≡◌, ℕ, ◌+◌, ◌≤◌, List, length, take, OnOk, IfSome};
ghost use Rattle.std.specs.Io.KnownBytes.{Appends};
ghost use Rattle.model.specs.Runs.{asked, program, line as line_of};
ghost use Rattle.refusal.specs.Refusal.{checked};
ghost use Rattle.output.specs.Answer.{output_of};
ghost use Rattle.lines.specs.Put.{room, Put};
ghost use Rattle.runs.specs.Input.{Whole};

use books::{Correction, Stored};
use edit::Edit;
use lines::Line;
use output::IncrementalOutput;
use refusal::Refusal;
use span::SourceOffset;
use std::io;
use std::io::{Read, Write};

// The merge that an input of the right length asks for. The five lengths are read again: a struct of them would have to say all that `Whole`
// says of an input that it does not hold.
fn merge_parts(
    input: &[u8],
    out_tape: &mut [u8; 65536],
    out_bytes: &mut [u8; 65536],
    work: &mut [u32; 16384],
) -> Result<IncrementalOutput, Refusal>
    requires { Whole input.now }
    ensures { checked result ≡ output_of (asked input.now) }
{
    let oldbytes = runs::HEAD + wire::u32_at(input, 0) as usize;
    let replacement = oldbytes + wire::u32_at(input, 4) as usize;
    let newtape = replacement + wire::u32_at(input, 16) as usize;
    let newbytes = newtape + wire::u32_at(input, 20) as usize;
    let end = newbytes + wire::u32_at(input, 24) as usize;
    let book = Stored::new(
        wire::between(input, runs::HEAD, oldbytes),
        wire::between(input, oldbytes, replacement),
    );
    let edit = Edit {
        start: SourceOffset(wire::u32_at(input, 8)),
        end: SourceOffset(wire::u32_at(input, 12)),
        replacement: wire::between(input, replacement, newtape),
    };
    let reading = Stored::new(
        wire::between(input, newtape, newbytes),
        wire::between(input, newbytes, end),
    );
    incremental::merge(
        &book,
        &Correction { edit, reading },
        out_tape,
        out_bytes,
        work,
    )
}

fn answer(
    input: &[u8],
    out_tape: &mut [u8; 65536],
    out_bytes: &mut [u8; 65536],
    work: &mut [u32; 16384],
) -> Result<IncrementalOutput, Refusal>
    ensures { checked result ≡ output_of (program input.now) }
{
    runs::check_input(input)?;
    merge_parts(input, out_tape, out_bytes, work)
}

// The line of an input.
fn run(
    input: &[u8],
    out_tape: &mut [u8; 65536],
    out_bytes: &mut [u8; 65536],
    work: &mut [u32; 16384],
    line: &mut Line<'_>,
)
    requires { 160 ≤ room line.old }
    ensures { Put line.old line.new 160 (line_of (program input.now)) }
{
    match answer(input, out_tape, out_bytes, work) {
        Ok(a) => runs::put_line(line, Ok(a)),
        Err(refusal) => runs::put_line(line, Err(u32::from(refusal))),
    }
}

// The line of a stream: `n` of its bytes stand in the buffer, all of them or as many as it holds. That is enough (`program_cut` in crate
// `runs`), for a buffer of this size: 28, five parts of 65536, and one that shows a surplus.
fn run_read(
    input: &[u8],
    n: usize,
    out_tape: &mut [u8; 65536],
    out_bytes: &mut [u8; 65536],
    work: &mut [u32; 16384],
    line: &mut Line<'_>,
)
    requires input_len { (length input.now ≡ 327709) × (n ≤ length input.now) }
    requires line_room { 160 ≤ room line.old }
    ensures { (s : List ℕ) → take (length input.now) s ≡ take n input.now → Put line.old line.new 160 (line_of (program s)) }
{
    run(&input[..n], out_tape, out_bytes, work, line)
}

// The program: the line of the stream that the reader gives goes to the writer.
fn answer_stream<R: Read, W: Write>(reader: &mut R, writer: &mut W) -> io::Result<()>
    ensures { OnOk result (IfSome (R.remaining reader.old) (λ s. Appends (W.contents writer.old) (W.contents writer.new) (line_of (program s)))) }
{
    let mut input = [0u8; 327709];
    let mut out_tape = [0u8; 65536];
    let mut out_bytes = [0u8; 65536];
    let mut work = [0u32; 16384];
    let mut out = [0u8; 160];
    let mut line = Line::new(&mut out);
    let n = stream::read_full(reader, &mut input)?;
    run_read(
        &input,
        n,
        &mut out_tape,
        &mut out_bytes,
        &mut work,
        &mut line,
    );
    writer.write_all(line.written())
}

fn main(rt: HostRuntime) -> io::Result<()> {
    answer_stream(&mut rt.stdin(), &mut rt.stdout())
}

// The input and the line of document 01's 'Runs': seven words and five parts, and the line of P5 or the number of the refusal.
#![tactic(auto)]

ghost use Rattle.std.specs.Prelude.{◌≡◌, [], ◌∷◌, ◌+◌, ◌≤◌};
ghost use Rattle.model.specs.Runs.{line};
ghost use Rattle.refusal.specs.Refusal.{number_in};
ghost use Rattle.lines.specs.Put.{room, Put};
ghost use Rattle.runs.specs.Input.{parts_fit, input_number};
ghost use Rattle.runs.specs.Line.{accepted_line, told, line_of};

use lines::Line;
use output::IncrementalOutput;
use refusal::Refusal;

// seven words
pub const HEAD: usize = 28;

// 'Runs' limits its parts by itself: no crate below has this number
const MAX_PART: u32 = 65536;

// Number 3. The lengths of the five parts, each by its name: those of an array would be told apart by their order alone.
#[tactic(auto, using(std::proofs::lemmas::Bool::Decides::nat_tests), unfolding(crate::specs::Input::parts_fit))]
fn parts_fit(oldtape: u32, oldbytes: u32, replacement: u32, newtape: u32, newbytes: u32) -> bool
    ensures { result ≡ parts_fit (oldtape ∷ oldbytes ∷ replacement ∷ newtape ∷ newbytes ∷ []) }
{
    oldtape <= MAX_PART
        && oldbytes <= MAX_PART
        && replacement <= MAX_PART
        && newtape <= MAX_PART
        && newbytes <= MAX_PART
}

// Numbers 1 and 3 of the input, which precede all else.
pub fn check_input(input: &[u8]) -> Result<(), Refusal>
    ensures { number_in result ≡ input_number input.now }
{
    if input.len() < HEAD {
        return Err(Refusal::Layout);
    }
    let oldtape = wire::u32_at(input, 0);
    let oldbytes = wire::u32_at(input, 4);
    let replacement = wire::u32_at(input, 16);
    let newtape = wire::u32_at(input, 20);
    let newbytes = wire::u32_at(input, 24);
    if !parts_fit(oldtape, oldbytes, replacement, newtape, newbytes) {
        return Err(Refusal::OverLimit);
    }
    let size = HEAD
        + oldtape as usize
        + oldbytes as usize
        + replacement as usize
        + newtape as usize
        + newbytes as usize;
    if input.len() != size {
        return Err(Refusal::Layout);
    }
    Ok(())
}

// P5's line: region start, end; kept, reread nodes; intern calls, slots probed.
fn put_accepted(line: &mut Line<'_>, a: IncrementalOutput)
    requires { 160 ≤ room line.old }
    ensures { Put line.old line.new 160 (accepted_line a) }
{
    let c = a.stats;
    line.put_number(b"region ", u64::from(a.start));
    line.put_number(b" ", u64::from(a.end));
    line.put_number(b" reused ", u64::from(a.reused));
    line.put_number(b" reread ", u64::from(a.reread));
    line.put_number(b" calls ", c.calls);
    line.put_number(b" probes ", c.probe_steps);
    line.put_text(b"\n");
}

// The line of an answer. A refusal by its number, as it was from the first: a `Refusal` would take fewer.
#[tactic(auto, unfolding(crate::specs::Line::line_of))]
pub fn put_line(line: &mut Line<'_>, a: Result<IncrementalOutput, u32>)
    requires { 160 ≤ room line.old }
    ensures { Put line.old line.new 160 (line_of (told a)) }
{
    match a {
        Ok(a) => put_accepted(line, a),
        Err(number) => line.put_refused(number),
    }
}

// What a merge answers, and what the lent buffers then hold, document 01 section 7.
#![tactic(auto)]

ghost use Rattle.std.specs.Prelude.{◌≡◌, ◌≤◌, length, take};
ghost use Rattle.model.specs.Bytes.{zeros};
ghost use Rattle.model.specs.Merge.{padded};
ghost use Rattle.refusal.specs.Refusal.{checked};
ghost use Rattle.output.specs.Answer.{tape_taken, bytes_taken};

use refusal::Refusal;
use stats::InternStats;

// Section 7. What is returned: the region, old nodes kept, the reading's nodes, the seven counts, and how many bytes of the two result
// buffers the book takes.
#[derive(Clone, Copy)]
pub struct IncrementalOutput {
    pub start: u32,
    pub end: u32,
    pub reused: u32,
    pub reread: u32,
    pub stats: InternStats,
    pub tape: usize,
    pub bytes: usize,
}

// What four merges answer, of two corrections in both orders. The earlier correction is the one that lies before the other.
#[derive(Clone, Copy)]
pub struct BothOrders {
    pub earlier_first: Result<IncrementalOutput, Refusal>,
    pub later_second: Result<IncrementalOutput, Refusal>,
    pub later_first: Result<IncrementalOutput, Refusal>,
    pub earlier_second: Result<IncrementalOutput, Refusal>,
}

// How many bytes of the two result buffers the book takes: none after a refusal.
pub fn taken(a: Result<IncrementalOutput, Refusal>) -> (usize, usize)
    ensures { (result.0 ≡ tape_taken (checked a)) × (result.1 ≡ bytes_taken (checked a)) }
{
    match a {
        Ok(a) => (a.tape, a.bytes),
        Err(_) => (0, 0),
    }
}

// What is not result is cleared: both result buffers behind as many bytes as the book takes of each, and all work words. They are lent one by
// one, as all buffers that are written: of a struct that holds them each function would have to promise that they are still the same.
pub fn clear_rest(
    out_tape: &mut [u8],
    out_bytes: &mut [u8],
    work: &mut [u32],
    tape: usize,
    bytes: usize,
)
    requires { (tape ≤ length out_tape.old) × (bytes ≤ length out_bytes.old) }
    ensures { (out_tape.new ≡ padded (length out_tape.old) (take tape out_tape.old))
        × (out_bytes.new ≡ padded (length out_bytes.old) (take bytes out_bytes.old))
        × (work.new ≡ zeros (length work.old)) }
{
    wire::zero_from(out_tape, tape);
    wire::zero_from(out_bytes, bytes);
    wire::zero_words(work);
}

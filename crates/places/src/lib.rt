// Where the records of a tape stand, document 01 section 4: `places_of` walks the tape once, over every layer (33 too, since 2
// comes before 3), the four lists and the end, and says whether the frame holds: 1 at the head, 10 at the end and nothing behind
// it, a layer at least, and a byte buffer as long as the records say. No tape is refused by a `requires` and no sum overflows:
// counts are at most the tape's bytes, and string bytes are known to be over once they pass the byte buffer. `next_layer` reads
// a layer again, for those who walk them. The shapes of the records are left to whoever reads them.
#![tactic(auto)]

ghost use Rattle.std.specs.Prelude.{◌≡◌, ◌+◌, ◌*◌, ◌^◌, ◌≤◌, ◌<◌, max, length, drop};
ghost use Rattle.model.specs.Lists.{sum};
ghost use Rattle.model.specs.Tape.{records_in, records_at, string_codec, layer_places};
ghost use Rattle.places.specs.Runs.{eight_at, Counted, capped};
ghost use Rattle.places.specs.Found.{layer_runs, add_layer, Small, tallied, list_runs, frame_holds, found_by, places_of};

use numbers::{
    CONTAINER_SIZE, CONTENT_SIZE, DIAGNOSTIC_SIZE, HEAD_SIZE, NODE_SIZE, PAIR_SIZE, SEGMENT_SIZE,
    STRING_SIZE,
};
use span::{NormalizedOffset, SourceOffset};

// A run of records of one kind: where the first stands, and how many they are.
#[derive(Clone, Copy)]
pub struct Run {
    pub at: usize,
    pub count: usize,
}

#[derive(Clone, Copy)]
pub struct LayerRuns {
    pub strings: Run,
    pub contents: Run,
    pub segments: Run,
    pub end: usize,
}

#[derive(Clone, Copy)]
pub struct ListRuns {
    pub nodes: Run,
    pub pairs: Run,
    pub containers: Run,
    pub diagnostics: Run,
    pub end: usize,
}

// The layers passed so far: how many, what they hold, the bytes of their strings, where the next one begins.
#[derive(Clone, Copy)]
pub struct Tally {
    pub count: usize,
    pub strings: usize,
    pub contents: usize,
    pub segments: usize,
    pub bytes: usize,
    pub end: usize,
}

// Where everything stands: where each text ends, how many layers and pool items, the four lists.
#[derive(Clone, Copy)]
pub struct Places {
    pub text: SourceOffset,
    pub normalized: NormalizedOffset,
    pub layers: usize,
    pub strings: usize,
    pub contents: usize,
    pub segments: usize,
    pub nodes: Run,
    pub pairs: Run,
    pub containers: Run,
    pub diagnostics: Run,
    pub end: usize,
}

// Whether eight records begin with the command, the first at `at`: one answer for all, so that a long run costs one branch for eight. Place,
// command and size go one by one, here and in the two below: a struct of them would be made for each of seven calls.
#[tactic(auto, unfolding(crate::specs::Runs::eight_at))]
fn eight_at(tape: &[u8], at: usize, command: u8, size: usize) -> bool
    requires { at + 7 * size < length tape.now }
    ensures { result ≡ eight_at command size tape.now at }
{
    (tape[at] == command)
        & (tape[at + size] == command)
        & (tape[at + 2 * size] == command)
        & (tape[at + 3 * size] == command)
        & (tape[at + 4 * size] == command)
        & (tape[at + 5 * size] == command)
        & (tape[at + 6 * size] == command)
        & (tape[at + 7 * size] == command)
}

// The first records of a run, counted by eights while a ninth begins inside the tape. No record has 64 bytes, so 8 * size cannot overflow.
fn eights_at(tape: &[u8], at: usize, command: u8, size: usize) -> usize
    requires { 1 ≤ size }
    ensures { Counted command size tape.now at result (at + result * size) × (at + result * size ≤ max at (length tape.now)) }
{
    if tape.len() < at || 64 <= size {
        return 0;
    }
    let step = 8 * size;
    let mut n = 0;
    let mut place = at;
    // no `for`: it goes on for as long as the records do. A chain of chunks would cut slices, each to be known long enough for what is read of it.
    while step < tape.len() - place {
        if !eight_at(tape, place, command, size) {
            return n;
        }
        n += 8;
        place += step;
    }
    n
}

// How many records stand one behind the other; one that is cut short counts too, and ends behind the tape's end.
pub fn count_at(tape: &[u8], at: usize, command: u8, size: usize) -> usize
    requires { 1 ≤ size }
    ensures { result ≡ records_in command size 0 (drop at tape.now) }
{
    let mut n = eights_at(tape, at, command, size);
    let mut place = at + n * size;
    // no `for`, and no chain, as above
    while place < tape.len() {
        if tape[place] != command {
            return n;
        }
        n += 1;
        if tape.len() - place <= size {
            return n;
        }
        place += size;
    }
    n
}

// The bytes of a run of strings; once they pass `room`, room + 1: with an `Option` each sum of a walk would take one apart. (A layer reaches at
// most 36 bytes past the tape's end.) A caller asks of a part of a run, by a place that it has added up, and has `room` as a sum.
pub fn strings_length(tape: &[u8], at: usize, count: usize, room: usize) -> usize
    requires { (at + 5 * count ≤ length tape.now + 36) × (room < 2 ^ 63) }
    ensures { result ≡ capped room (sum (records_at string_codec tape.now at count)) }
{
    let mut total = 0;
    for i in 0..count {
        let n = wire::u32_or_zero(tape, at + STRING_SIZE * i + 1) as usize;
        total = (total + n).min(room + 1);
    }
    total
}

// Section 4. Per layer 2, then 3s, 4s, 5s: the layer whose 2 stands at `at`. Commands and sizes are the tape's own numbers, each listed where it
// is asked for. Each run begins where the one before ends: a function of one run would answer two things, run and end, to be taken apart seven times.
pub fn next_layer(tape: &[u8], at: usize) -> LayerRuns
    requires { at < length tape.now }
    ensures { result ≡ layer_runs (layer_places tape.now at) }
{
    let strings = count_at(tape, at + 1, 3, STRING_SIZE);
    let contents_at = at + 1 + STRING_SIZE * strings;
    let contents = count_at(tape, contents_at, 4, CONTENT_SIZE);
    let segments_at = contents_at + CONTENT_SIZE * contents;
    let segments = count_at(tape, segments_at, 5, SEGMENT_SIZE);
    LayerRuns {
        strings: Run {
            at: at + 1,
            count: strings,
        },
        contents: Run {
            at: contents_at,
            count: contents,
        },
        segments: Run {
            at: segments_at,
            count: segments,
        },
        end: segments_at + SEGMENT_SIZE * segments,
    }
}

fn with_layer(tape: &[u8], s: Tally, room: usize) -> Tally
    requires small { Small tape.now room s }
    requires end_in_bounds { (s.end < length tape.now) × (room < 2 ^ 63) }
    ensures { result ≡ add_layer tape.now room s (layer_places tape.now s.end) }
{
    let l = next_layer(tape, s.end);
    let bytes = strings_length(tape, l.strings.at, l.strings.count, room);
    Tally {
        count: s.count + 1,
        strings: s.strings + l.strings.count,
        contents: s.contents + l.contents.count,
        segments: s.segments + l.segments.count,
        bytes: s.bytes.saturating_add(bytes).min(room + 1),
        end: l.end,
    }
}

fn all_layers(tape: &[u8], room: usize) -> Tally
    requires { room < 2 ^ 63 }
    ensures { result ≡ tallied tape.now room }
{
    let mut s = Tally {
        count: 0,
        strings: 0,
        contents: 0,
        segments: 0,
        bytes: 0,
        end: HEAD_SIZE,
    };
    // no `for`: each layer says where the next one stands
    while wire::byte_at(tape, s.end) == 2 {
        s = with_layer(tape, s, room);
    }
    s
}

// Section 4. Behind the layers: 6s, 7s, 8s, 9s.
pub fn lists_at(tape: &[u8], at: usize) -> ListRuns
    requires { at ≤ length tape.now + 36 }
    ensures { result ≡ list_runs tape.now at }
{
    let nodes = count_at(tape, at, 6, NODE_SIZE);
    let pairs_at = at + NODE_SIZE * nodes;
    let pairs = count_at(tape, pairs_at, 7, PAIR_SIZE);
    let containers_at = pairs_at + PAIR_SIZE * pairs;
    let containers = count_at(tape, containers_at, 8, CONTAINER_SIZE);
    let diagnostics_at = containers_at + CONTAINER_SIZE * containers;
    let diagnostics = count_at(tape, diagnostics_at, 9, DIAGNOSTIC_SIZE);
    ListRuns {
        nodes: Run { at, count: nodes },
        pairs: Run {
            at: pairs_at,
            count: pairs,
        },
        containers: Run {
            at: containers_at,
            count: containers,
        },
        diagnostics: Run {
            at: diagnostics_at,
            count: diagnostics,
        },
        end: diagnostics_at + DIAGNOSTIC_SIZE * diagnostics,
    }
}

// Number 1, without the records' shapes: 1 at the head, 10 at `end` and nothing behind it, a layer, the byte buffer's length.
#[tactic(auto, using(std::proofs::lemmas::Bool::Decides::nat_tests), unfolding(crate::specs::Found::frame_holds))]
fn frame_holds(tape: &[u8], s: Tally, end: usize, room: usize) -> bool
    requires { (s.bytes ≤ room + 1) × (room < 2 ^ 63) × (end ≤ length tape.now + 48) }
    ensures { result ≡ frame_holds tape.now s end room }
{
    let text = wire::u32_or_zero(tape, 1) as usize;
    let normalized = wire::u32_or_zero(tape, 5) as usize;
    wire::byte_at(tape, 0) == 1
        && wire::byte_at(tape, end) == 10
        && tape.len() == end + 1
        && s.count != 0
        && room == text + normalized + s.bytes
}

fn found_places(tape: &[u8], s: Tally, l: ListRuns) -> Places
    ensures { result ≡ found_by tape.now s l }
{
    Places {
        text: SourceOffset(wire::u32_or_zero(tape, 1)),
        normalized: NormalizedOffset(wire::u32_or_zero(tape, 5)),
        layers: s.count,
        strings: s.strings,
        contents: s.contents,
        segments: s.segments,
        nodes: l.nodes,
        pairs: l.pairs,
        containers: l.containers,
        diagnostics: l.diagnostics,
        end: l.end,
    }
}

// Number 1, without the records' shapes: where everything stands and how many there are, if the frame holds.
pub fn places_of(tape: &[u8], bytes: &[u8]) -> Option<Places>
    ensures { result ≡ places_of tape.now bytes.now }
{
    let s = all_layers(tape, bytes.len());
    let l = lists_at(tape, s.end);
    if frame_holds(tape, s, l.end, bytes.len()) {
        Some(found_places(tape, s, l))
    } else {
        None
    }
}

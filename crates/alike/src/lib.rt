// How many records right behind one are like it: contents, and segments by their bodies. What is counted of one is then counted of all.
#![tactic(auto)]

ghost use Rattle.std.specs.Prelude.{◌≡◌, true, ℕ, ◌+◌, ◌*◌, ◌≤◌, length};
ghost use Rattle.model.specs.Tape.{record_at, content_codec};
ghost use Rattle.records.specs.Values.{body_at};
ghost use Rattle.alike.specs.Alike.{Alike};

use numbers::{CONTENT_SIZE, SEGMENT_SIZE};

// Are these two contents the same? For segments, the same below, by their bodies: a function of both would take the size, where in a record it begins,
// and the test.
fn same_content(tape: &[u8], a: usize, b: usize) -> bool
    requires { (a + 10 ≤ length tape.now) × (b + 10 ≤ length tape.now) }
    ensures { result ≡ true → record_at content_codec tape.now b ≡ record_at content_codec tape.now a }
{
    records::content_at(tape, a) == records::content_at(tape, b)
}

// How many contents right behind the one at `at` are the same, up to `most` of them. Here and below a `for` that answers at the first that is not:
// a chain would look for that one, and turn its None into `most`.
pub fn contents_alike(tape: &[u8], at: usize, most: usize) -> usize
    requires { at + 10 * (most + 1) ≤ length tape.now }
    ensures { Alike (λ (j : ℕ). record_at content_codec tape.now (at + 10 * j)) most result }
{
    for k in 0..most {
        if !same_content(tape, at, at + CONTENT_SIZE * (k + 1)) {
            return k;
        }
    }
    most
}

// Are these two bodies the same?
fn same_body(tape: &[u8], a: usize, b: usize) -> bool
    requires { (a + 34 ≤ length tape.now) × (b + 34 ≤ length tape.now) }
    ensures { result ≡ true → body_at tape.now b ≡ body_at tape.now a }
{
    tape[a..a + 34] == tape[b..b + 34]
}

// How many segments right behind the one at `at` have the same body, up to `most` of them.
pub fn segments_alike(tape: &[u8], at: usize, most: usize) -> usize
    requires { at + 37 * (most + 1) ≤ length tape.now }
    ensures { Alike (λ (j : ℕ). body_at tape.now (at + 37 * j + 3)) most result }
{
    for k in 0..most {
        if !same_body(tape, at + 3, at + SEGMENT_SIZE * (k + 1) + 3) {
            return k;
        }
    }
    most
}

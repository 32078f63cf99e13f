// Document 01 section 7: the lists of a merge. Each is three parts: the old list up to the region, the reading moved to the region,
// the old rest moved; what straddles an edge of the region is in none. Here is which records are in a part, how many they are, and
// where their offsets stand there; crate splice_lists writes pairs, containers and diagnostics, crate splice_nodes the nodes.
#![tactic(auto)]

ghost use Rattle.std.specs.Prelude.{◌≡◌, ℕ, ◌+◌, ◌≤◌, length};
ghost use Rattle.model.specs.Tape.{Codec, record_at, records_at, record_bytes, records_bytes};
ghost use Rattle.model.specs.Merge.{Located, kept_before, kept_behind, moved_offset};
ghost use Rattle.wire.specs.Overwrite.{overwrite};
ghost use Rattle.splice.specs.Parts.{Kind, is_in, as_in, part_of};
ghost use Rattle.splice.specs.Window.{window_value};

mod section;

pub use section::Section;
use span::{NormalizedOffset, NormalizedSpan, Span};

// The region in both texts, and how far what lies behind it moves in each: `MergeWindow`.
#[derive(Clone, Copy)]
pub struct Window {
    pub source: Span,
    pub normalized: NormalizedSpan,
    pub source_delta: i64,
    pub normalized_delta: i64,
}

// The parts of a merged list: the old one up to the region, the reading's, the old rest. Window and part stay two parameters: a merge has
// one window, and the part is another at each call. Four functions match on a part: a test and a move in each text.
#[derive(Clone, Copy)]
pub enum Part {
    Before,
    Reading,
    Behind,
}

// `shift_u32`, and 0 where it has no answer.
fn moved_offset(o: u32, by: i64) -> u32
    ensures { result ≡ moved_offset o by }
{
    span::shift_u32(o, by).unwrap_or(0)
}

impl Window {
    ghost use Rattle.std.specs.Prelude.{◌≡◌, ◌+◌};
    ghost use Rattle.span.specs.Values.{span_of};
    ghost use Rattle.splice.specs.Parts.{lies_in};
    ghost use Rattle.splice.specs.Window.{window_value, span_in, normalized_in};

    // Whether a span of the source text is in a part.
    #[tactic(auto, using(span::specs::Order::le_is), unfolding(crate::specs::Parts::lies_in))]
    pub fn has_span(self, s: Span, part: Part) -> bool
        ensures { result ≡ lies_in part s.start.0 s.end.0 self.source.start.0 self.source.end.0 }
    {
        match part {
            Part::Before => s.end <= self.source.start,
            Part::Reading => true,
            Part::Behind => self.source.end <= s.start,
        }
    }

    // Whether what lies from one mark of the normalized text to another, the second within, is in a part.
    #[tactic(auto, using(span::specs::Order::le_is, span::specs::Order::lt_is), unfolding(crate::specs::Parts::lies_in))]
    pub fn has_marks(self, marks: NormalizedSpan, part: Part) -> bool
        ensures { result ≡ lies_in part marks.start.0 (marks.end.0 + 1) self.normalized.start.0 self.normalized.end.0 }
    {
        match part {
            Part::Before => marks.end < self.normalized.start,
            Part::Reading => true,
            Part::Behind => self.normalized.end <= marks.start,
        }
    }

    // Where a span of the source text stands in a part.
    #[tactic(auto, unfolding(crate::specs::Window::span_in))]
    pub fn span_in(self, s: Span, part: Part) -> Span
        ensures { span_of result ≡ span_in (window_value self) part (span_of s) }
    {
        match part {
            Part::Before => s,
            Part::Reading => s.shifted(i64::from(self.source.start.0)),
            Part::Behind => s.shifted(self.source_delta),
        }
    }

    // Where an offset of the normalized text stands in a part.
    #[tactic(auto, unfolding(crate::specs::Window::normalized_in))]
    pub fn normalized_in(self, o: NormalizedOffset, part: Part) -> NormalizedOffset
        ensures { result.0 ≡ normalized_in (window_value self) part o.0 }
    {
        match part {
            Part::Before => o,
            // A sum's low 32 bits where it passes a word: a record's bytes hold no more of it.
            Part::Reading => NormalizedOffset(o.0.wrapping_add(self.normalized.start.0)),
            Part::Behind => NormalizedOffset(moved_offset(o.0, self.normalized_delta)),
        }
    }
}

// ---- lists of any kind of record

// A kind of record whose lists are spliced.
pub trait Spliced {
    // How many bytes a record has.
    const SIZE: usize;

    ghost SIZE: { ℕ };

    ghost Value: { Type 0 };

    ghost codec: { Codec Value };

    ghost located: { Located Value };

    // Whether the record at a place is in a part: where it lies in its own text is held against the region there.
    fn is_in(tape: &[u8], at: usize, w: Window, part: Part) -> bool
        requires { at + SIZE ≤ length tape.now }
        ensures { result ≡ is_in located (window_value w) part (record_at codec tape.now at) };

    // The record at a place, written as it stands in a part.
    fn put(tape: &[u8], at: usize, w: Window, part: Part, out: &mut [u8], to: usize)
        requires { (at + SIZE ≤ length tape.now) × (to + SIZE ≤ length out.old) }
        ensures { out.new ≡ overwrite out.old to (record_bytes codec (as_in located (window_value w) part (record_at codec tape.now at))) };

    ghost kind: { Kind codec located SIZE };
}

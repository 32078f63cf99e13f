// What is asked of a book alone, answered as C has it: each entry's answer goes through crate `answers`. The C functions of crate `exports` hand
// on to these, with the same contracts word for word. They stand twice so that an edit can be tried where the contract is (docs/EDITS.md): a
// change in `exports` is checked with the whole house below it, and a change here with what a book alone needs.
#![tactic(auto)]

ghost use Rattle.std.specs.Prelude.{◌≡◌, length};
ghost use Rattle.model.specs.Refusal.{number_of};
ghost use Rattle.model.specs.WellFormed.{check_book, check_reading};
ghost use Rattle.model.specs.Tape.{content_codec, segment_codec};
ghost use Rattle.model.specs.Lookup.{ask_book, diagnostics_allow_incremental, node_at_source, lookup_contents, lookup_segments, lookup_str, lookup_str_span, contents_ok, segments_ok, copy_into};
ghost use Rattle.model.specs.Lookup.{copied_tape, copied_bytes};
ghost use Rattle.store.specs.Stored.{store_at};
ghost use Rattle.store.specs.Standing.{content_place, segment_place};
ghost use Rattle.bounds.specs.Search.{found_of};
ghost use Rattle.lookup.specs.Ranges.{range_if, range_shown};
ghost use Rattle.lookup.specs.Strings.{str_if, str_shown};
ghost use Rattle.copy.specs.Copying.{copied_of};
ghost use Rattle.answers.specs.Answers.{allowed_answer, node_answer, range_answer, range_read, str_answer, str_read, copy_answer};

use span::{SourceOffset, StrId};

pub fn check_book(tape: &[u8], bytes: &[u8]) -> u32
    ensures { result ≡ number_of (check_book tape.now bytes.now) }
{
    answers::number_answer(tape::check_book(tape, bytes))
}

pub fn check_reading(tape: &[u8], bytes: &[u8]) -> u32
    ensures { result ≡ number_of (check_reading tape.now bytes.now) }
{
    answers::number_answer(tape::check_reading(tape, bytes))
}

pub fn diagnostics_allow_incremental(tape: &[u8], bytes: &[u8]) -> answers::AllowedAnswer
    ensures { result ≡ allowed_answer (ask_book tape.now bytes.now (λ b. diagnostics_allow_incremental b.diagnostics)) }
{
    answers::AllowedAnswer::from(lookup::diagnostics_allow_incremental(tape, bytes))
}

pub fn node_at_source(tape: &[u8], bytes: &[u8], offset: u32) -> answers::NodeAnswer
    ensures { result ≡ node_answer (ask_book tape.now bytes.now (λ b. found_of (node_at_source b.source_nodes offset))) }
{
    answers::NodeAnswer::from(lookup::node_at_source(tape, bytes, SourceOffset(offset)))
}

pub fn lookup_str(tape: &[u8], bytes: &[u8], id: u32) -> answers::StrAnswer
    ensures { (result ≡ str_answer (ask_book tape.now bytes.now (λ b. str_if (lookup_str_span b id))))
        × (str_shown bytes.now (str_read result) ≡ ask_book tape.now bytes.now (λ b. lookup_str b id)) }
{
    answers::StrAnswer::from(lookup::lookup_str(tape, bytes, StrId(id)))
}

pub fn lookup_contents(tape: &[u8], bytes: &[u8], start: u32, len: u32) -> answers::RangeAnswer
    ensures { (result ≡ range_answer (ask_book tape.now bytes.now (λ b. range_if (contents_ok start len b) (content_place (store_at tape.now) start) len)))
        × (range_shown content_codec tape.now (range_read result) ≡ ask_book tape.now bytes.now (λ b. lookup_contents b start len)) }
{
    answers::RangeAnswer::from(lookup::lookup_contents(tape, bytes, start, len))
}

pub fn lookup_segments(tape: &[u8], bytes: &[u8], start: u32, len: u32) -> answers::RangeAnswer
    ensures { (result ≡ range_answer (ask_book tape.now bytes.now (λ b. range_if (segments_ok start len b) (segment_place (store_at tape.now) start) len)))
        × (range_shown segment_codec tape.now (range_read result) ≡ ask_book tape.now bytes.now (λ b. lookup_segments b start len)) }
{
    answers::RangeAnswer::from(lookup::lookup_segments(tape, bytes, start, len))
}

pub fn copy_book(
    tape: &[u8],
    bytes: &[u8],
    out_tape: &mut [u8],
    out_bytes: &mut [u8],
) -> answers::CopyAnswer
    ensures { let copy = copy_into tape.now bytes.now (length out_tape.old) (length out_bytes.old) in
        (result ≡ copy_answer (copied_of copy))
        × (out_tape.new ≡ copied_tape (length out_tape.old) copy)
        × (out_bytes.new ≡ copied_bytes (length out_bytes.old) copy) }
{
    answers::CopyAnswer::from(copy::copy_book(tape, bytes, out_tape, out_bytes))
}

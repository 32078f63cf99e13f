// The entries for C and Rust: each as it stands in its crate, its answer as crate `answers` tells it. A slice goes as a pointer and a length.
#![tactic(auto)]

ghost use Rattle.std.specs.Prelude.{◌≡◌, length};
ghost use Rattle.model.specs.Bytes.{zeros};
ghost use Rattle.model.specs.Refusal.{number_of};
ghost use Rattle.model.specs.Merge.{merge, room_of, stored_of};
ghost use Rattle.model.specs.Estimate.{estimate};
ghost use Rattle.model.specs.WellFormed.{check_book, check_reading};
ghost use Rattle.model.specs.Region.{choose_region, edit_of};
ghost use Rattle.model.specs.Tape.{content_codec, segment_codec};
ghost use Rattle.model.specs.Lookup.{ask_book, diagnostics_allow_incremental, node_at_source, lookup_contents, lookup_segments, lookup_str, lookup_str_span, contents_ok, segments_ok, copy_into};
ghost use Rattle.model.specs.Lookup.{copied_tape, copied_bytes};
ghost use Rattle.model.specs.Demand3.{correction_of};
ghost use Rattle.model.specs.Desk.{merge_for_desk};
ghost use Rattle.model.specs.Flatten.{flatten_book};
ghost use Rattle.store.specs.Stored.{store_at};
ghost use Rattle.store.specs.Standing.{content_place, segment_place};
ghost use Rattle.bounds.specs.Search.{found_of};
ghost use Rattle.lookup.specs.Ranges.{range_if, range_shown};
ghost use Rattle.lookup.specs.Strings.{str_if, str_shown};
ghost use Rattle.copy.specs.Copying.{copied_of};
ghost use Rattle.estimate.specs.Pricing.{estimate_of};
ghost use Rattle.output.specs.Answer.{Merged};
ghost use Rattle.desk.specs.Charging.{MergedForDesk};
ghost use Rattle.orders.specs.Orders.{MergedBothOrders};
ghost use Rattle.answers.specs.Answers.{allowed_answer, node_answer, range_answer, range_read, str_answer, str_read, copy_answer, region_answer, price_answer, merge_answer, output_read, orders_answer, orders_read};

use books::{Correction, Stored};
use edit::Edit;
use span::SourceOffset;

#[unsafe(no_mangle)]
pub extern "C" fn aozora_check_book(tape: &[u8], bytes: &[u8]) -> u32
    ensures { result ≡ number_of (check_book tape.now bytes.now) }
{
    book_answers::check_book(tape, bytes)
}

#[unsafe(no_mangle)]
pub extern "C" fn aozora_check_reading(tape: &[u8], bytes: &[u8]) -> u32
    ensures { result ≡ number_of (check_reading tape.now bytes.now) }
{
    book_answers::check_reading(tape, bytes)
}

#[unsafe(no_mangle)]
pub extern "C" fn aozora_diagnostics_allow_incremental(
    tape: &[u8],
    bytes: &[u8],
) -> answers::AllowedAnswer
    ensures { result ≡ allowed_answer (ask_book tape.now bytes.now (λ b. diagnostics_allow_incremental b.diagnostics)) }
{
    book_answers::diagnostics_allow_incremental(tape, bytes)
}

#[unsafe(no_mangle)]
pub extern "C" fn aozora_node_at_source(
    tape: &[u8],
    bytes: &[u8],
    offset: u32,
) -> answers::NodeAnswer
    ensures { result ≡ node_answer (ask_book tape.now bytes.now (λ b. found_of (node_at_source b.source_nodes offset))) }
{
    book_answers::node_at_source(tape, bytes, offset)
}

#[unsafe(no_mangle)]
pub extern "C" fn aozora_lookup_str(tape: &[u8], bytes: &[u8], id: u32) -> answers::StrAnswer
    ensures { (result ≡ str_answer (ask_book tape.now bytes.now (λ b. str_if (lookup_str_span b id))))
        × (str_shown bytes.now (str_read result) ≡ ask_book tape.now bytes.now (λ b. lookup_str b id)) }
{
    book_answers::lookup_str(tape, bytes, id)
}

#[unsafe(no_mangle)]
pub extern "C" fn aozora_lookup_contents(
    tape: &[u8],
    bytes: &[u8],
    start: u32,
    len: u32,
) -> answers::RangeAnswer
    ensures { (result ≡ range_answer (ask_book tape.now bytes.now (λ b. range_if (contents_ok start len b) (content_place (store_at tape.now) start) len)))
        × (range_shown content_codec tape.now (range_read result) ≡ ask_book tape.now bytes.now (λ b. lookup_contents b start len)) }
{
    book_answers::lookup_contents(tape, bytes, start, len)
}

#[unsafe(no_mangle)]
pub extern "C" fn aozora_lookup_segments(
    tape: &[u8],
    bytes: &[u8],
    start: u32,
    len: u32,
) -> answers::RangeAnswer
    ensures { (result ≡ range_answer (ask_book tape.now bytes.now (λ b. range_if (segments_ok start len b) (segment_place (store_at tape.now) start) len)))
        × (range_shown segment_codec tape.now (range_read result) ≡ ask_book tape.now bytes.now (λ b. lookup_segments b start len)) }
{
    book_answers::lookup_segments(tape, bytes, start, len)
}

#[unsafe(no_mangle)]
pub extern "C" fn aozora_copy_book(
    tape: &[u8],
    bytes: &[u8],
    out_tape: &mut [u8],
    out_bytes: &mut [u8],
) -> answers::CopyAnswer
    ensures { let copy = copy_into tape.now bytes.now (length out_tape.old) (length out_bytes.old) in
        (result ≡ copy_answer (copied_of copy))
        × (out_tape.new ≡ copied_tape (length out_tape.old) copy)
        × (out_bytes.new ≡ copied_bytes (length out_bytes.old) copy) }
{
    book_answers::copy_book(tape, bytes, out_tape, out_bytes)
}

#[unsafe(no_mangle)]
pub extern "C" fn aozora_flatten_book(
    tape: &[u8],
    bytes: &[u8],
    out_tape: &mut [u8],
    out_bytes: &mut [u8],
    work: &mut [u32],
) -> answers::CopyAnswer
    ensures { let flat = flatten_book (stored_of tape.now bytes.now) (room_of out_tape.old out_bytes.old work.old) in
        (result ≡ copy_answer (copied_of flat))
        × (out_tape.new ≡ copied_tape (length out_tape.old) flat)
        × (out_bytes.new ≡ copied_bytes (length out_bytes.old) flat)
        × (work.new ≡ zeros (length work.old)) }
{
    answers::CopyAnswer::from(flatten::flatten_book(tape, bytes, out_tape, out_bytes, work))
}

#[unsafe(no_mangle)]
pub extern "C" fn aozora_choose_region(
    tape: &[u8],
    bytes: &[u8],
    start: u32,
    end: u32,
    replacement: &[u8],
    words: &mut [u32],
) -> answers::RegionAnswer
    ensures { (result ≡ region_answer (choose_region tape.now bytes.now (edit_of start end replacement.now)))
        × (words.new ≡ zeros (length words.old)) }
{
    answers::RegionAnswer::from(region::choose_region(
        tape,
        bytes,
        SourceOffset(start),
        SourceOffset(end),
        replacement,
        words,
    ))
}

#[unsafe(no_mangle)]
pub extern "C" fn aozora_estimate<'a>(
    tape: &'a [u8],
    bytes: &'a [u8],
    start: u32,
    end: u32,
    replacement: &'a [u8],
    reading_tape: &'a [u8],
    reading_bytes: &'a [u8],
    work: &mut [u32],
) -> answers::PriceAnswer
    ensures { (result ≡ price_answer (estimate_of (estimate (stored_of tape.now bytes.now) (edit_of start end replacement.now) (stored_of reading_tape.now reading_bytes.now))))
        × (work.new ≡ zeros (length work.old)) }
{
    let book = Stored { tape, bytes };
    let edit = Edit {
        start: SourceOffset(start),
        end: SourceOffset(end),
        replacement,
    };
    let reading = Stored {
        tape: reading_tape,
        bytes: reading_bytes,
    };
    answers::PriceAnswer::from(estimate::estimate(&book, &Correction { edit, reading }, work))
}

#[unsafe(no_mangle)]
pub extern "C" fn aozora_merge<'a>(
    tape: &'a [u8],
    bytes: &'a [u8],
    start: u32,
    end: u32,
    replacement: &'a [u8],
    reading_tape: &'a [u8],
    reading_bytes: &'a [u8],
    out_tape: &mut [u8],
    out_bytes: &mut [u8],
    work: &mut [u32],
) -> answers::MergeAnswer
    ensures { Merged
        (merge (record { tape = tape.now; bytes = bytes.now }) (edit_of start end replacement.now) (record { tape = reading_tape.now; bytes = reading_bytes.now })
        (room_of out_tape.old out_bytes.old work.old))
        (room_of out_tape.old out_bytes.old work.old) (output_read result) out_tape.new out_bytes.new work.new × (result ≡ merge_answer (output_read result)) }
{
    let book = Stored { tape, bytes };
    let edit = Edit {
        start: SourceOffset(start),
        end: SourceOffset(end),
        replacement,
    };
    let reading = Stored {
        tape: reading_tape,
        bytes: reading_bytes,
    };
    let merged = incremental::merge(
        &book,
        &Correction { edit, reading },
        out_tape,
        out_bytes,
        work,
    );
    answers::MergeAnswer::from(merged)
}

#[unsafe(no_mangle)]
pub extern "C" fn aozora_merge_for_desk<'a>(
    desk: u32,
    ledger: &mut [u32],
    tape: &'a [u8],
    bytes: &'a [u8],
    start: u32,
    end: u32,
    replacement: &'a [u8],
    reading_tape: &'a [u8],
    reading_bytes: &'a [u8],
    out_tape: &mut [u8],
    out_bytes: &mut [u8],
    work: &mut [u32],
) -> answers::MergeAnswer
    ensures { MergedForDesk
        (merge_for_desk desk ledger.old (stored_of tape.now bytes.now) (correction_of start end replacement.now reading_tape.now reading_bytes.now)
        (room_of out_tape.old out_bytes.old work.old))
        (room_of out_tape.old out_bytes.old work.old) (output_read result) out_tape.new out_bytes.new work.new ledger.old ledger.new
        × (result ≡ merge_answer (output_read result)) }
{
    let book = Stored { tape, bytes };
    let edit = Edit {
        start: SourceOffset(start),
        end: SourceOffset(end),
        replacement,
    };
    let reading = Stored {
        tape: reading_tape,
        bytes: reading_bytes,
    };
    let merged = desk::merge_for_desk(
        desk,
        ledger,
        &book,
        &Correction { edit, reading },
        out_tape,
        out_bytes,
        work,
    );
    answers::MergeAnswer::from(merged)
}

#[unsafe(no_mangle)]
pub extern "C" fn aozora_merge_both_orders<'a>(
    tape: &'a [u8],
    bytes: &'a [u8],
    start1: u32,
    end1: u32,
    replacement1: &'a [u8],
    reading_tape1: &'a [u8],
    reading_bytes1: &'a [u8],
    start2: u32,
    end2: u32,
    replacement2: &'a [u8],
    reading_tape2: &'a [u8],
    reading_bytes2: &'a [u8],
    tape1: &mut [u8],
    bytes1: &mut [u8],
    tape2: &mut [u8],
    bytes2: &mut [u8],
    tape3: &mut [u8],
    bytes3: &mut [u8],
    tape4: &mut [u8],
    bytes4: &mut [u8],
    work: &mut [u32],
) -> answers::OrdersAnswer
    ensures { MergedBothOrders (stored_of tape.now bytes.now)
        (correction_of start1 end1 replacement1.now reading_tape1.now reading_bytes1.now)
        (correction_of start2 end2 replacement2.now reading_tape2.now reading_bytes2.now)
        (room_of tape1.old bytes1.old work.old)
        (room_of tape2.old bytes2.old work.old)
        (room_of tape3.old bytes3.old work.old)
        (room_of tape4.old bytes4.old work.old)
        (orders_read result) (stored_of tape1.new bytes1.new) (stored_of tape2.new bytes2.new)
        (stored_of tape3.new bytes3.new) (stored_of tape4.new bytes4.new) work.new
        × (result ≡ orders_answer (orders_read result)) }
{
    let book = Stored { tape, bytes };
    let earlier = Correction {
        edit: Edit {
            start: SourceOffset(start1),
            end: SourceOffset(end1),
            replacement: replacement1,
        },
        reading: Stored {
            tape: reading_tape1,
            bytes: reading_bytes1,
        },
    };
    let later = Correction {
        edit: Edit {
            start: SourceOffset(start2),
            end: SourceOffset(end2),
            replacement: replacement2,
        },
        reading: Stored {
            tape: reading_tape2,
            bytes: reading_bytes2,
        },
    };
    answers::OrdersAnswer::from(orders::merge_both_orders(
        &book, &earlier, &later, tape1, bytes1, tape2, bytes2, tape3, bytes3, tape4, bytes4, work,
    ))
}

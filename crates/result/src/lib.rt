// Document 01 section 7: the merged book written into lent buffers, and number 18. Sizes are counted before anything is written; the
// strings of the new layer are known only once the trees are grafted, so number 18 is decided in two steps.
#![tactic(auto)]

ghost use Rattle.std.specs.Prelude.{◌≡◌, ◌≤◌, length};
ghost use Rattle.wire.specs.Overwrite.{overwrite};
ghost use Rattle.model.specs.Lists.{is_empty};
ghost use Rattle.model.specs.Limits.{max_text, min_work_words};
ghost use Rattle.model.specs.Merge.{room_of, result_checked};
ghost use Rattle.refusal.specs.Refusal.{checked};
ghost use Rattle.splice.specs.Window.{window_value};
ghost use Rattle.edit.specs.Values.{edit_value};
ghost use Rattle.tape.specs.StringBytes.{book_of};
ghost use Rattle.layer.specs.Layered.{grafted_into};
ghost use Rattle.output.specs.Answer.{Written};
ghost use Rattle.merged_lists.specs.Fitted.{lengths_in};
ghost use Rattle.result.specs.Grafting.{GraftTold};
ghost use Rattle.result.specs.Stages.{texts_of, StoreTold};

use fitting::Merging;
use layer::Place;
use merged_lists::Counts;
use merged_texts::Replaced;
use output::IncrementalOutput;
use refusal::Refusal;
use stats::InternStats;
use tape::Book;

// The buffers are written, so they are lent one by one: of a struct that held them each function would have to promise that they are still
// the same.

// Both new texts and the old strings, by the places of both books and the window, each cut out of the bytes that hold it.
fn put_new_texts(m: &Merging, out: &mut [u8])
    requires { (lengths_in m.now).base ≤ length out.old }
    ensures { out.new ≡ overwrite out.old 0 (texts_of m.now.book.places m.now.reading.places m.now.edit.start.0 m.now.edit.end.0 m.now.edit.replacement.now m.now.window.normalized.start.0 m.now.window.normalized.end.0 m.now.book.bytes.now m.now.reading.bytes.now) }
{
    let bytes = m.book.bytes;
    let text = m.book.places.text.0 as usize;
    let first = text + m.book.places.normalized.0 as usize;
    let from = m.reading.places.text.0 as usize;
    let new_text = Replaced {
        whole: &bytes[0..text],
        start: m.edit.start.0 as usize,
        end: m.edit.end.0 as usize,
        part: m.edit.replacement,
    };
    let new_normalized = Replaced {
        whole: &bytes[text..first],
        start: m.window.normalized.start.0 as usize,
        end: m.window.normalized.end.0 as usize,
        part: &m.reading.bytes[from..from + m.reading.places.normalized.0 as usize],
    };
    merged_texts::put_texts(out, &new_text, &new_normalized, &bytes[first..bytes.len()]);
}

// What grafting wrote: the bytes of the new layer's records and of its strings, and the counts.
#[derive(Clone, Copy, Default)]
pub struct Graft {
    pub len: usize,
    pub bytes: usize,
    pub stats: InternStats,
}

// The reading's nodes, if it has any, grafted behind the old layers: at that place. None where there is no room.
fn graft_reading(
    reading: &Book,
    to: Place,
    out_tape: &mut [u8],
    work: &mut [u32],
    out_bytes: &mut [u8],
) -> Option<Graft>
    requires { (min_work_words ≤ length work.old) × (to.base ≤ length out_bytes.old) × (to.at ≤ length out_tape.old) }
    ensures { GraftTold out_tape.old out_bytes.old out_tape.new out_bytes.new to.at to.base to.below (is_empty (book_of reading.now).source_nodes) result (grafted_into reading.now.tape.now reading.now.bytes.now to.below) }
{
    if reading.places.nodes.count == 0 {
        return Some(Graft::default());
    }
    let l = layer::graft_layer(reading, to, out_tape, work, out_bytes)?;
    Some(Graft {
        len: l.len,
        bytes: l.state.used - to.base,
        stats: l.state.stats,
    })
}

// Both texts and the strings; the head and the layers, the grafted nodes behind them.
fn put_store(
    m: &Merging,
    l: merged_lists::Lengths,
    out_tape: &mut [u8],
    out_bytes: &mut [u8],
    work: &mut [u32],
) -> Option<Graft>
    requires lengths { l ≡ lengths_in m.now }
    requires room { (min_work_words ≤ length work.old) × (l.normalized ≤ max_text) × (l.base ≤ length out_bytes.old) × (m.now.book.places.nodes.at ≤ length out_tape.old) }
    ensures { StoreTold (book_of m.now.book) (edit_value m.now.edit) (book_of m.now.reading) (window_value m.now.window) out_tape.old out_bytes.old out_tape.new out_bytes.new m.now.book.places.nodes.at l.base m.now.book.store.totals result }
{
    let at = m.book.places.nodes.at;
    put_new_texts(m, out_bytes);
    merged_texts::put_head(
        out_tape,
        m.book.tape,
        at,
        l.text as u32,
        l.normalized as u32,
    );
    let to = Place {
        below: m.book.store.totals,
        at,
        base: l.base,
    };
    graft_reading(&m.reading, to, out_tape, work, out_bytes)
}

// Number 18, or the merged book, of what passed 1 to 17.
pub fn put_result(
    m: &Merging,
    out_tape: &mut [u8],
    out_bytes: &mut [u8],
    work: &mut [u32],
) -> Result<IncrementalOutput, Refusal>
    ensures { Written (result_checked (book_of m.now.book) (edit_value m.now.edit) (book_of m.now.reading) (window_value m.now.window) (room_of out_tape.old out_bytes.old work.old)) (checked result) out_tape.old out_bytes.old work.old out_tape.new out_bytes.new work.new }
{
    let nodes_at = m.book.places.nodes.at;
    let counts = Counts::of(m);
    let l = merged_lists::new_lengths(m);
    if !counts.room_for(l, nodes_at, out_tape.len(), out_bytes.len(), work.len()) {
        return Err(Refusal::NoRoom);
    }
    let g = put_store(m, l, out_tape, out_bytes, work).ok_or(Refusal::NoRoom)?;
    let at = nodes_at + g.len;
    let size = counts.lists_end(at);
    if out_tape.len() < size {
        return Err(Refusal::NoRoom);
    }
    merged_lists::put_lists(m, &counts, out_tape, at);
    Ok(merged_lists::output_of(m.window, &counts, g.stats, size, l.base + g.bytes))
}

// Numbers 2 and 3 of a tape whose frame holds, document 01 section 4. Number 2: both texts are UTF-8, and each string is by
// itself. All bytes are tested together, and then that no character lies across the end of a text or string; the strings are
// walked layer by layer, as their bytes stand one behind the other. Number 3: no text, pool, list or number of layers is over
// its limit, by the counts that `places_of` found.
#![tactic(auto)]

ghost use Rattle.std.specs.Prelude.{◌≡◌, true, ◌+◌, ◌*◌, ◌≤◌, length, take, drop};
ghost use Rattle.model.specs.Lists.{all, sum};
ghost use Rattle.model.specs.Utf8.{utf8};
ghost use Rattle.model.specs.Tape.{records_at, string_codec, places as places_in, layers_at, book_at};
ghost use Rattle.model.specs.WellFormed.{texts_are_utf8};
ghost use Rattle.laws.specs.RoundTrip.{string_bytes};
ghost use Rattle.places.specs.Found.{found};
ghost use Rattle.places.specs.Again.{Frame};
ghost use Rattle.texts.specs.Limits.{few_enough};
ghost use Rattle.texts.specs.Strings.{strings_end};
ghost use Rattle.texts.specs.Layers.{layer_utf8};

use numbers::{HEAD_SIZE, MAX_LAYERS, MAX_LIST, MAX_POOL, STRING_SIZE};
use places::{Places, Run};
use store::Layers;

const MAX_TEXT: u32 = numbers::MAX_TEXT as u32;

// Number 3. By `few_within` it is `within_limits` of the tape's book.
#[tactic(auto, unfolding(crate::specs::Limits::few_enough))]
pub fn within_limits(p: Places) -> bool
    ensures { result ≡ few_enough p }
{
    (p.text.0 <= MAX_TEXT)
        & (p.normalized.0 <= MAX_TEXT)
        & (p.strings <= MAX_POOL)
        & (p.contents <= MAX_POOL)
        & (p.segments <= MAX_POOL)
        & (p.nodes.count <= MAX_LIST)
        & (p.pairs.count <= MAX_LIST)
        & (p.containers.count <= MAX_LIST)
        & (p.diagnostics.count <= MAX_LIST)
        & (p.layers <= MAX_LAYERS)
}

// A part of bytes that are UTF-8 from its start on: no character lies across its end. Here and below the bytes go with a place: of the slice of what
// is left the same would be asked, that it is UTF-8.
fn part_utf8(bytes: &[u8], at: usize, len: usize) -> bool
    requires { (at + len ≤ length bytes.now) × (utf8 (drop at bytes.now) ≡ true) }
    ensures { result ≡ utf8 (take len (drop at bytes.now)) }
{
    utf8::is_char_boundary(bytes, at + len)
}

// Number 2, one layer: its string records stand at `at`, the bytes of its strings at `from`, from where on all is UTF-8. Where each
// string is UTF-8 by itself, the place behind them: the strings are walked once for both.
fn strings_end(tape: &[u8], strings: Run, bytes: &[u8], from: usize) -> Option<usize>
    requires count_in_bounds { strings.at + 5 * strings.count ≤ length tape.now }
    requires count_in_bounds_2 { from + sum (records_at string_codec tape.now strings.at strings.count) ≤ length bytes.now }
    requires bytes_value { utf8 (drop from bytes.now) ≡ true }
    ensures { result ≡ strings_end (records_at string_codec tape.now strings.at strings.count) bytes.now from }
{
    let mut place = from;
    for i in 0..strings.count {
        let n = wire::u32_at(tape, strings.at + STRING_SIZE * i + 1) as usize;
        if !part_utf8(bytes, place, n) {
            return None;
        }
        place += n;
    }
    Some(place)
}

// Number 2, all layers: the bytes of their strings stand at `from`, from where on all is UTF-8.
fn layers_utf8(layers: &Layers, bytes: &[u8], from: usize) -> bool
    requires { (from + string_bytes layers.now.tape.now (places_in layers.now.tape.now).layers ≤ length bytes.now) × (utf8 (drop from bytes.now) ≡ true) }
    ensures { result ≡ all layer_utf8 (layers_at layers.now.tape.now (places_in layers.now.tape.now).layers (drop from bytes.now)) }
{
    let mut at = HEAD_SIZE;
    let mut place = from;
    for k in 0..layers.count {
        let l = layers.runs(k, at);
        let Some(end) = strings_end(layers.tape, l.strings, bytes, place) else {
            return false;
        };
        place = end;
        at = l.end;
    }
    true
}

// Number 2. The text, the normalized text, and each string by itself.
pub fn texts_utf8(layers: &Layers, bytes: &[u8], p: Places) -> bool
    requires { (p ≡ found layers.now.tape.now) × Frame layers.now.tape.now bytes.now }
    ensures { result ≡ texts_are_utf8 (book_at layers.now.tape.now (places_in layers.now.tape.now) bytes.now) }
{
    let text = p.text.0 as usize;
    let normalized = p.normalized.0 as usize;
    if !utf8::is_utf8(bytes) {
        return false;
    }
    if !part_utf8(bytes, 0, text) {
        return false;
    }
    if !part_utf8(bytes, text, normalized) {
        return false;
    }
    layers_utf8(layers, bytes, text + normalized)
}

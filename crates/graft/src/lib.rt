// Document 01 section 5: the trees of the reading copied into one new layer of the result. Each string is interned; a run stands
// behind all that its items push, and each item is written once, at its place. Crate `graft_nodes` does so for each node.
#![tactic(auto)]

mod source;

ghost use Rattle.std.specs.Prelude.{◌≡◌, true, is_some, [], ◌∷◌, ℕ, ◌+◌, ◌*◌, ◌≤◌, ◌<◌, ◌^◌, length, List};
ghost use Rattle.graft.specs.Walk.{words_with};
ghost use Rattle.model.specs.Lists.{all};
ghost use Rattle.store.specs.Stored.{OfTape};
ghost use Rattle.model.specs.Store.{resolve_str};
ghost use Rattle.model.specs.Tape.{record_at, records_at, content_codec, segment_codec};
ghost use Rattle.model.specs.Intern.{holds, intern};
ghost use Rattle.model.specs.Graft.{graft_str};
ghost use Rattle.records.specs.Values.{body_at};
ghost use Rattle.strings.specs.Starts.{lengths_in};
ghost use Rattle.strings.specs.Index.{Indexed};
ghost use Rattle.strings.specs.PlainContent.{same_known};
ghost use Rattle.interner.specs.State.{Good, state_of, has_room};
ghost use Rattle.intern.specs.Told.{Told as InternTold};
ghost use Rattle.ids.specs.Tests.{body_in, content_in, segment_in, contents_in, segments_in, used_well};
ghost use Rattle.sizes.specs.InPlace.{inner_adds, body_adds, place_adds, used_adds, content_adds, contents_add, content_run_adds, segments_add, segment_run_adds};
ghost use Rattle.graft.specs.Grafted.{layer_from};
ghost use Rattle.graft.specs.Walk.{Ready, body_from, place_from, content_run_from, segment_run_from, field_from};
ghost use Rattle.graft.specs.Named.{source_store, Named};
ghost use Rattle.graft.specs.Walk.{Source, index_words, string_from, id_word, shown_contents, shown_segments, StartTold, id_from, WordsTold, ContentsTold, SegmentsTold};
ghost use Rattle.records.specs.Uses.{use_number};
ghost use Rattle.sizes.specs.Words.{words_of};

use ids::NO_STRING;
use interner::StrInterner;
use numbers::{CONTENT_SIZE, INDEX_AT, SEGMENT_SIZE};
use places::Run;
use records::{Body, Content, Segment, Use};
pub use source::Walk;
use span::StrId;

// The tag of a content that is a run of segments. `Source` says what such a content's numbers are, and nothing of its tag.
const SEGMENTS: u8 = 1;

// The body of a segment that no level of the walk reaches. No `Default` of bodies: elsewhere a body of kind 0 is a text.
const NO_BODY: Body = Body {
    kind: 0,
    tag: 0,
    plain1: 0,
    plain2: 0,
    words: [0; 6],
};

// Where the new layer's numbers begin, and where its contents and segments are written.
#[derive(Clone, Copy, Debug, PartialEq, Eq)]
pub struct Plan {
    pub strings: u32,
    pub contents: u32,
    pub segments: u32,
    pub contents_at: usize,
    pub segments_at: usize,
}

// How far the walk is: contents and segments pushed, and the interner. `answered`: the representative of the last answer's string,
// where one is known. A function of the walk answers None where a string had no room; the mark then tells nothing.
#[derive(Clone, Copy, Debug, PartialEq, Eq)]
pub struct Mark {
    pub contents: u32,
    pub segments: u32,
    pub state: StrInterner,
    pub answered: Option<StrId>,
}

// ---- strings. What is asked of the index and of the interner stands at each function, for its buffers are lent one by one, as those of the
// walk below. The work words are not parted once: the interner asks for 16384 of them and uses 15360, and all from there on are the index. So no
// `Strings` can lend the index while a string is interned, and its bytes are cut out here.

// Where the bytes of a string of the source begin; `words` are the index of its strings.
fn string_from(w: &Walk<'_>, words: &[u32], id: StrId) -> usize
    requires indexed { Indexed (lengths_in w.now.tape.now) words.now }
    requires id_lt_strings { id.0 < w.now.st.now.totals.strings }
    ensures { result ≡ string_from w.now.tape.now id.0 }
{
    let start = strings::string_start(w.tape, w.st, w.bytes.len(), words, id);
    let text = wire::u32_at(w.tape, 1) as usize;
    let normalized = wire::u32_at(w.tape, 5) as usize;
    text + normalized + start
}

// A string of the source interned; `is_last`: it is known to be the last answer's, and is not compared.
fn intern_str(
    w: &Walk<'_>,
    work: &mut [u32],
    strs: &mut [u8],
    state: &mut StrInterner,
    is_last: bool,
    id: StrId,
) -> Option<StrId>
    requires indexed { Indexed (lengths_in w.now.tape.now) (index_words work.old) }
    requires good { Good work.old strs.old state.old }
    requires id_lt_strings { (id.0 < w.now.st.now.totals.strings) × (state.old.stats.calls < 2 ^ 32) }
    requires last { is_last ≡ true → holds (state_of work.old strs.old state.old).strings state.old.last (resolve_str (source_store w.now.tape.now w.now.bytes.now) id.0) ≡ true }
    ensures { InternTold work.old strs.old state.old work.new strs.new state.new result
        (intern (state_of work.old strs.old state.old) (resolve_str (source_store w.now.tape.now w.now.bytes.now) id.0)) }
{
    if is_last {
        return Some(intern::intern_last(state));
    }
    let from = string_from(w, &work[INDEX_AT..], id);
    let len = strings::string_length(w.tape, w.st, id);
    intern::intern(state, work, strs, &w.bytes[from..from + len])
}

// Is this the representative of the last answer's string?
#[tactic(auto, unfolding(strings::specs::PlainContent::same_known))]
fn is_answered(known: Option<StrId>, answered: Option<StrId>) -> bool
    ensures { result ≡ same_known known answered }
{
    known.is_some() && known == answered
}

// Section 5. `graft_str`. Where the representative is that of the last answer's string, nothing is compared.
fn graft_str(
    w: &Walk<'_>,
    work: &mut [u32],
    strs: &mut [u8],
    m: &mut Mark,
    id: StrId,
) -> Option<StrId>
    requires indexed { Indexed (lengths_in w.now.tape.now) (index_words work.old) }
    requires good { Good work.old strs.old m.old.state × Named w.now.tape.now w.now.bytes.now work.old strs.old m.old }
    requires id_lt_strings { (id.0 < w.now.st.now.totals.strings) × (m.old.state.stats.calls < 2 ^ 32) × (w.now.plan.strings + 2 ^ 12 < 2 ^ 32) }
    ensures { (out : List ℕ) → StartTold w.now.tape.now w.now.bytes.now w.now.plan m.old out work.old strs.old out work.new strs.new m.new (id_word result)
        (graft_str (resolve_str (source_store w.now.tape.now w.now.bytes.now) id.0) (layer_from w.now.plan work.old strs.old m.old)) }
{
    let known = representatives::representative(w.pairs, id);
    let is_last = is_answered(known, m.answered);
    let string = intern_str(w, work, strs, &mut m.state, is_last, id)?;
    m.answered = known;
    Some(StrId(w.plan.strings + string.0))
}

// The id of a field that is no run: a string's, or NO_STRING where an optional one is missing, as on the tape. Of a field that is no
// string it is 0, which `with_words` does not write.
fn graft_string(
    w: &Walk<'_>,
    work: &mut [u32],
    strs: &mut [u8],
    m: &mut Mark,
    usage: Use,
    id: StrId,
) -> Option<StrId>
    requires indexed { Indexed (lengths_in w.now.tape.now) (index_words work.old) }
    requires good { Good work.old strs.old m.old.state × Named w.now.tape.now w.now.bytes.now work.old strs.old m.old }
    requires has_room { has_room (length strs.old) m.old.state.base (state_of work.old strs.old m.old.state) ≡ true }
    requires id_value { (used_well w.now.st.now (use_number usage) id.0 0 ≡ true) × (m.old.state.stats.calls < 2 ^ 32) × (w.now.plan.strings + 2 ^ 12 < 2 ^ 32) }
    ensures { (out : List ℕ) → StartTold w.now.tape.now w.now.bytes.now w.now.plan m.old out work.old strs.old out work.new strs.new m.new (id_word result)
        (id_from w.now.tape.now w.now.bytes.now (use_number usage) id.0 (layer_from w.now.plan work.old strs.old m.old)) }
{
    match usage {
        Use::Str => graft_str(w, work, strs, m, id),
        Use::OptStr => if id == NO_STRING {
            Some(NO_STRING)
        } else {
            graft_str(w, work, strs, m, id)
        },
        _ => Some(StrId(0)),
    }
}

// The words with a field's own: its id or start, and a range's length.
fn with_words(mut words: [u32; 6], i: usize, f: sizes::FieldWords, v: u32) -> [u32; 6]
    requires { i < 6 }
    ensures { result ≡ words_with words i (words_of f) v }
{
    match f.usage {
        Use::Str | Use::OptStr => words[i] = v,
        Use::Contents | Use::Segments => {
            words[i] = v;
            if i < 5 {
                words[i + 1] = f.second;
            }
        }
        _ => {}
    }
    words
}

// ---- the walk: nine functions that call each other, the level falling on each turn. Its three buffers are lent one by one: of a struct
// that held them each function would have to promise that every field is still the same reference, and as long as before.

// Section 5. `graft_node`: the words of the body at `at`, whose runs are pushed.
#[cycle(graft_tree)]
pub fn graft_body(
    w: &Walk<'_>,
    out: &mut [u8],
    work: &mut [u32],
    strs: &mut [u8],
    m: &mut Mark,
    at: usize,
    level: u8,
) -> Option<[u32; 6]>
    requires ready { Ready w.now.tape.now w.now.bytes.now w.now.plan m.old out.old work.old strs.old (body_adds level w.now.tape.now w.now.st.now (body_at w.now.tape.now at)) }
    requires at_in_bounds { (at + 34 ≤ length w.now.tape.now) × (body_in w.now.st.now (body_at w.now.tape.now at) ≡ true) }
    ensures { WordsTold w.now.tape.now w.now.bytes.now w.now.plan m.old out.old work.old strs.old out.new work.new strs.new m.new result
        (body_from level w.now.tape.now w.now.bytes.now w.now.plan work.old strs.old m.old (body_at w.now.tape.now at) 6) }
{
    let mut words = [0u32; 6];
    for j in 0..6 {
        words = graft_place(w, out, work, strs, m, words, at, j, level)?;
    }
    Some(words)
}

// The field at place j: its words set among those so far.
#[cycle(graft_tree)]
fn graft_place(
    w: &Walk<'_>,
    out: &mut [u8],
    work: &mut [u32],
    strs: &mut [u8],
    m: &mut Mark,
    words: [u32; 6],
    at: usize,
    j: usize,
    level: u8,
) -> Option<[u32; 6]>
    requires ready { Ready w.now.tape.now w.now.bytes.now w.now.plan m.old out.old work.old strs.old (place_adds (inner_adds level w.now.tape.now w.now.st.now) w.now.tape.now w.now.st.now (body_at w.now.tape.now at) j) }
    requires at_in_bounds { (at + 34 ≤ length w.now.tape.now) × (body_in w.now.st.now (body_at w.now.tape.now at) ≡ true) × (j < 6) }
    ensures { WordsTold w.now.tape.now w.now.bytes.now w.now.plan m.old out.old work.old strs.old out.new work.new strs.new m.new result
        (place_from level w.now.tape.now w.now.bytes.now (body_at w.now.tape.now at) j words (layer_from w.now.plan work.old strs.old m.old)) }
{
    let i = sizes::field_word(w.tape[at], j);
    let f = sizes::field_at(w.tape, at, j);
    let v = graft_field(w, out, work, strs, m, f, level)?;
    Some(with_words(words, i, f, v))
}

// An id, no_string, or the start of a run.
#[cycle(graft_tree)]
fn graft_field(
    w: &Walk<'_>,
    out: &mut [u8],
    work: &mut [u32],
    strs: &mut [u8],
    m: &mut Mark,
    f: sizes::FieldWords,
    level: u8,
) -> Option<u32>
    requires ready { Ready w.now.tape.now w.now.bytes.now w.now.plan m.old out.old work.old strs.old (used_adds (inner_adds level w.now.tape.now w.now.st.now) w.now.tape.now w.now.st.now (words_of f)) }
    requires second_value { used_well w.now.st.now (use_number f.usage) f.first f.second ≡ true }
    ensures { StartTold w.now.tape.now w.now.bytes.now w.now.plan m.old out.old work.old strs.old out.new work.new strs.new m.new result
        (field_from level w.now.tape.now w.now.bytes.now (words_of f) (layer_from w.now.plan work.old strs.old m.old)) }
{
    match f.usage {
        Use::Contents => graft_content_run(w, out, work, strs, m, f.first, f.second, level),
        Use::Segments => graft_segment_run(w, out, work, strs, m, f.first, f.second, level),
        _ => Some(graft_string(w, work, strs, m, f.usage, StrId(f.first))?.0),
    }
}

// Section 5. A run of contents, behind all that its items push: where it starts. For segments, the same below: a cycle of calls that goes
// through the methods of a trait got no proof when it was tried, so each kind has functions of its own.
#[cycle(graft_tree)]
fn graft_content_run(
    w: &Walk<'_>,
    out: &mut [u8],
    work: &mut [u32],
    strs: &mut [u8],
    m: &mut Mark,
    start: u32,
    len: u32,
    level: u8,
) -> Option<u32>
    requires ready { Ready w.now.tape.now w.now.bytes.now w.now.plan m.old out.old work.old strs.old (content_run_adds (inner_adds level w.now.tape.now w.now.st.now) w.now.tape.now w.now.st.now start len) }
    requires len_value { contents_in w.now.st.now start len ≡ true }
    ensures { StartTold w.now.tape.now w.now.bytes.now w.now.plan m.old out.old work.old strs.old out.new work.new strs.new m.new result
        (content_run_from level w.now.tape.now w.now.bytes.now start len (layer_from w.now.plan work.old strs.old m.old)) }
{
    if len == 0 {
        return Some(w.plan.contents + m.contents);
    }
    let run = Run {
        at: w.st.content_place(start),
        count: len as usize,
    };
    let below = sizes::Walk {
        tape: w.tape,
        st: w.st,
    };
    let to = m.contents + sizes::inner_contents(&below, run, level);
    graft_contents(w, out, work, strs, m, run, to, level)?;
    m.contents = to + len;
    Some(w.plan.contents + to)
}

// Section 5. The contents of a run, the first at number `to`.
#[cycle(graft_tree)]
fn graft_contents(
    w: &Walk<'_>,
    out: &mut [u8],
    work: &mut [u32],
    strs: &mut [u8],
    m: &mut Mark,
    run: Run,
    to: u32,
    level: u8,
) -> Option<()>
    requires ready { Ready w.now.tape.now w.now.bytes.now w.now.plan m.old out.old work.old strs.old (contents_add (inner_adds level w.now.tape.now w.now.st.now) w.now.tape.now w.now.st.now run.at run.count) }
    requires count_in_bounds { (run.at + 10 * run.count ≤ length w.now.tape.now) × (all (content_in w.now.st.now) (records_at content_codec w.now.tape.now run.at run.count) ≡ true) }
    requires count_bound { (m.old.contents + (contents_add (inner_adds level w.now.tape.now w.now.st.now) w.now.tape.now w.now.st.now run.at run.count).contents ≤ to) × (w.now.plan.contents_at + 10 * (to + run.count) ≤ w.now.plan.segments_at) × (to + run.count < 2 ^ 32) }
    ensures { ContentsTold w.now.tape.now w.now.bytes.now w.now.plan m.old to out.old work.old strs.old out.new work.new strs.new m.new (is_some result)
        (shown_contents level w.now.tape.now w.now.bytes.now (records_at content_codec w.now.tape.now run.at run.count) (layer_from w.now.plan work.old strs.old m.old)) }
{
    for i in 0..run.count {
        graft_content(
            w,
            out,
            work,
            strs,
            m,
            run.at + CONTENT_SIZE * i,
            to + i as u32,
            level,
        )?;
    }
    Some(())
}

// Section 5. `graft_content`, written as content number `to`.
#[cycle(graft_tree)]
fn graft_content(
    w: &Walk<'_>,
    out: &mut [u8],
    work: &mut [u32],
    strs: &mut [u8],
    m: &mut Mark,
    at: usize,
    to: u32,
    level: u8,
) -> Option<()>
    requires ready { Ready w.now.tape.now w.now.bytes.now w.now.plan m.old out.old work.old strs.old (content_adds (inner_adds level w.now.tape.now w.now.st.now) w.now.tape.now w.now.st.now (record_at content_codec w.now.tape.now at)) }
    requires at_in_bounds { (at + 10 ≤ length w.now.tape.now) × (content_in w.now.st.now (record_at content_codec w.now.tape.now at) ≡ true) }
    requires at_bound { (m.old.contents + (content_adds (inner_adds level w.now.tape.now w.now.st.now) w.now.tape.now w.now.st.now (record_at content_codec w.now.tape.now at)).contents ≤ to) × (w.now.plan.contents_at + 10 * (to + 1) ≤ w.now.plan.segments_at) }
    ensures { ContentsTold w.now.tape.now w.now.bytes.now w.now.plan m.old to out.old work.old strs.old out.new work.new strs.new m.new (is_some result)
        (shown_contents level w.now.tape.now w.now.bytes.now (record_at content_codec w.now.tape.now at ∷ []) (layer_from w.now.plan work.old strs.old m.old)) }
{
    let c = records::content_at(w.tape, at);
    let place = w.plan.contents_at + CONTENT_SIZE * (to as usize);
    if c.is_plain() {
        let id = graft_str(w, work, strs, m, StrId(c.first))?;
        let plain = Content {
            first: id.0,
            second: 0,
            ..c
        };
        put_records::put_content(out, place, plain);
        return Some(());
    }
    let first = graft_segment_run(w, out, work, strs, m, c.first, c.second, level)?;
    let segmented = Content {
        tag: SEGMENTS,
        first,
        ..c
    };
    put_records::put_content(out, place, segmented);
    Some(())
}

// Section 5. A run of segments, behind all that its items push: where it starts.
#[cycle(graft_tree)]
fn graft_segment_run(
    w: &Walk<'_>,
    out: &mut [u8],
    work: &mut [u32],
    strs: &mut [u8],
    m: &mut Mark,
    start: u32,
    len: u32,
    level: u8,
) -> Option<u32>
    requires ready { Ready w.now.tape.now w.now.bytes.now w.now.plan m.old out.old work.old strs.old (segment_run_adds (inner_adds level w.now.tape.now w.now.st.now) w.now.tape.now w.now.st.now start len) }
    requires len_value { segments_in w.now.st.now start len ≡ true }
    ensures { StartTold w.now.tape.now w.now.bytes.now w.now.plan m.old out.old work.old strs.old out.new work.new strs.new m.new result
        (segment_run_from level w.now.tape.now w.now.bytes.now start len (layer_from w.now.plan work.old strs.old m.old)) }
{
    if len == 0 {
        return Some(w.plan.segments + m.segments);
    }
    let run = Run {
        at: w.st.segment_place(start),
        count: len as usize,
    };
    let below = sizes::Walk {
        tape: w.tape,
        st: w.st,
    };
    let to = m.segments + sizes::inner_segments(&below, run, level);
    graft_segments(w, out, work, strs, m, run, to, level)?;
    m.segments = to + len;
    Some(w.plan.segments + to)
}

// Section 5. The segments of a run, the first at number `to`.
#[cycle(graft_tree)]
fn graft_segments(
    w: &Walk<'_>,
    out: &mut [u8],
    work: &mut [u32],
    strs: &mut [u8],
    m: &mut Mark,
    run: Run,
    to: u32,
    level: u8,
) -> Option<()>
    requires ready { Ready w.now.tape.now w.now.bytes.now w.now.plan m.old out.old work.old strs.old (segments_add (inner_adds level w.now.tape.now w.now.st.now) w.now.tape.now run.at run.count) }
    requires count_in_bounds { (run.at + 37 * run.count ≤ length w.now.tape.now) × (all (segment_in w.now.st.now) (records_at segment_codec w.now.tape.now run.at run.count) ≡ true) }
    requires count_bound { (m.old.segments + (segments_add (inner_adds level w.now.tape.now w.now.st.now) w.now.tape.now run.at run.count).segments ≤ to) × (w.now.plan.segments_at + 37 * (to + run.count) ≤ length out.old) × (to + run.count < 2 ^ 32) }
    ensures { SegmentsTold w.now.tape.now w.now.bytes.now w.now.plan m.old to out.old work.old strs.old out.new work.new strs.new m.new (is_some result)
        (shown_segments level w.now.tape.now w.now.bytes.now (records_at segment_codec w.now.tape.now run.at run.count) (layer_from w.now.plan work.old strs.old m.old)) }
{
    for i in 0..run.count {
        graft_segment(
            w,
            out,
            work,
            strs,
            m,
            run.at + SEGMENT_SIZE * i,
            to + i as u32,
            level,
        )?;
    }
    Some(())
}

// Section 5. `graft_segment`, written as segment number `to`; its own level is copied. Below level 0 of the walk a body is all zeros.
#[cycle(graft_tree)]
fn graft_segment(
    w: &Walk<'_>,
    out: &mut [u8],
    work: &mut [u32],
    strs: &mut [u8],
    m: &mut Mark,
    at: usize,
    to: u32,
    level: u8,
) -> Option<()>
    requires ready { Ready w.now.tape.now w.now.bytes.now w.now.plan m.old out.old work.old strs.old (inner_adds level w.now.tape.now w.now.st.now (record_at segment_codec w.now.tape.now at).body) }
    requires at_in_bounds { (at + 37 ≤ length w.now.tape.now) × (segment_in w.now.st.now (record_at segment_codec w.now.tape.now at) ≡ true) }
    requires at_bound { (m.old.segments + (inner_adds level w.now.tape.now w.now.st.now (record_at segment_codec w.now.tape.now at).body).segments ≤ to) × (w.now.plan.segments_at + 37 * (to + 1) ≤ length out.old) }
    ensures { SegmentsTold w.now.tape.now w.now.bytes.now w.now.plan m.old to out.old work.old strs.old out.new work.new strs.new m.new (is_some result)
        (shown_segments level w.now.tape.now w.now.bytes.now (record_at segment_codec w.now.tape.now at ∷ []) (layer_from w.now.plan work.old strs.old m.old)) }
{
    let place = w.plan.segments_at + SEGMENT_SIZE * (to as usize);
    let s = records::segment_at(w.tape, at);
    if level == 0 {
        put_records::put_segment(out, place, Segment { body: NO_BODY, ..s });
        return Some(());
    }
    let words = graft_body(w, out, work, strs, m, at + 3, level - 1)?;
    let body = Body { words, ..s.body };
    put_records::put_segment(out, place, Segment { body, ..s });
    Some(())
}

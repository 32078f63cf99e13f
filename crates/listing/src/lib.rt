// The lines of a book, as the program `inspect` prints them: a line a record, in tape order. What a line shows is a table of fields
// (specs/Table.antt); the book has passed 1 to 7. `first_line` and `next_line` go from record to record, `put_line` puts a record's line.
#![tactic(auto)]

mod tables;

ghost use Rattle.std.specs.Prelude.{◌≡◌, [], ◌+◌, ◌*◌, ◌≤◌, ◌<◌, length, get_or, true};
ghost use mathlib.Core.List.{map, flatten};
ghost use Rattle.std.proofs.Math.Option.{some};
ghost use Rattle.model.specs.Bytes.{byte_at, word_at};
ghost use Rattle.model.specs.Lookup.{lookup_str};
ghost use Rattle.records.specs.Uses.{word_use};
ghost use Rattle.span.specs.Values.{span_of};
ghost use Rattle.tape.specs.StringBytes.{book_of};
ghost use Rattle.lines.specs.Put.{room, Put};
ghost use Rattle.listing.specs.Table.{labels, rows, word_labels};
ghost use Rattle.listing.specs.Coded.{part_number, shows_of, field_of, field_fits};
ghost use Rattle.listing.specs.Listing.{region_of, marked, string_bytes, word_item, part_of, shown, row_for, row_of, number_in, field_bytes, line_at, first_line, next_line, item_bytes, value_bytes};
ghost use Rattle.listing.specs.Pieces.{mark_of, value_of, item_of};
ghost use Rattle.listing.specs.Walk.{Counted};

use lines::Line;
use records::Use;
use span::{SourceOffset, Span, StrId};
use tables::{Field, LABELS, Part, ROWS, SIZES, Shows, WORD_LABELS};
use tape::Book;

// A book whose strings each have room on a line, and the region of an edit, where there is one.
#[derive(Clone, Copy)]
pub struct Listed<'a> {
    pub book: Book<'a>,
    pub region: Option<Span>,
    pub ghost short: { length book.bytes.now ≤ 65536 },
}

// Where a record stands, and how many records of each command stand before it.
#[derive(Clone, Copy)]
pub struct Cursor {
    pub at: usize,
    pub seen: [usize; 11],
}

// What stands behind a label, each in its own form (an `Option` of three of them would be matched twice): nothing, a number, the string of an
// id, or the bytes of the buffer from one place up to another.
#[derive(Clone, Copy)]
enum Value {
    Nothing,
    Number(usize),
    Str(usize),
    Text(usize, usize),
}

// A label, and what stands behind it.
#[derive(Clone, Copy)]
struct Item(&'static [u8], Value);

// ---- the tables

fn label(i: usize) -> &'static [u8]
    ensures { result.now ≡ get_or labels i [] }
{
    if i < 35 { LABELS[i] } else { b"" }
}

#[tactic(auto, unfolding(crate::specs::Table::word_labels))]
fn word_label(kind: u8, i: usize) -> &'static [u8]
    requires { i < 6 }
    ensures { result.now ≡ get_or (get_or word_labels kind []) i [] }
{
    // a byte of the tape, which indexes a table of sixteen
    if kind < 16 {
        WORD_LABELS[usize::from(kind)][i]
    } else {
        b""
    }
}

#[tactic(auto, unfolding(crate::specs::Table::rows))]
fn fields(row: usize) -> &'static [Field]
    requires { row < 14 }
    ensures { map field_of result.now ≡ get_or rows row [] }
{
    ROWS[row]
}

// The row of a record by its command and the byte behind it. Both are numbers here, as in the definition: the rows are data, which specs/Coded.antt
// compares with specs/Table.antt row by row, and a name for each would have to be compared too.
#[tactic(auto, using(std::proofs::lemmas::Bool::Decides::nat_tests), unfolding(crate::specs::Listing::row_for))]
fn row_for(command: u8, edit: bool, second: u8) -> usize
    ensures { result ≡ row_for command edit second }
{
    match command {
        1 if edit => 11,
        4 if second != 0 => 12,
        6 if 2 <= second => 13,
        0..=10 => usize::from(command),
        _ => 0,
    }
}

// ---- what a field shows

// A record's place is another at each line, so each function asks for it: a struct of it and the book would be made anew for that alone.

impl<'a> Listed<'a> {
    // The byte or the word at a place of the record at `at`.
    fn byte(&self, at: usize, k: u8) -> u8
        requires { at < length self.now.book.tape.now }
        ensures { result ≡ byte_at self.now.book.tape.now (at + k) }
    {
        wire::byte_at(self.book.tape, at + usize::from(k))
    }

    fn word(&self, at: usize, k: u8) -> usize
        requires { at < length self.now.book.tape.now }
        ensures { result ≡ word_at self.now.book.tape.now (at + k) }
    {
        wire::u32_or_zero(self.book.tape, at + usize::from(k)) as usize
    }

    // The region, or an empty one where there is none. (Neither a `Span` nor a `Cursor` has a `Default`: that zeros mean none is said here alone.)
    fn region(&self) -> Span
        ensures { span_of result ≡ region_of (mark_of self.now.region) }
    {
        self.region.unwrap_or(Span {
            start: SourceOffset(0),
            end: SourceOffset(0),
        })
    }

    fn text_part(&self, part: Part) -> Value
        ensures { value_of result ≡ part_of (mark_of self.now.region) (word_at self.now.book.tape.now 1) (part_number part) }
    {
        let start = self.region().start.0 as usize;
        let end = self.region().end.0 as usize;
        let size = wire::u32_or_zero(self.book.tape, 1) as usize;
        match part {
            Part::Before => Value::Text(0, start),
            Part::Region => Value::Text(start, end),
            Part::Behind => Value::Text(end, size),
            Part::Whole => Value::Text(0, size),
        }
    }

    // Word i of the body at a place, by its use: an unused word is not shown.
    fn body_word(&self, body: usize, i: usize) -> Item
        requires { (body < length self.now.book.tape.now + 256) × (i < 6) }
        ensures { item_of result ≡ word_item (byte_at self.now.book.tape.now body) (word_use (byte_at self.now.book.tape.now body) (byte_at self.now.book.tape.now (body + 1)) i) i (word_at self.now.book.tape.now (body + 10 + 4 * i)) }
    {
        let kind = wire::byte_at(self.book.tape, body);
        let tag = wire::byte_at(self.book.tape, body + 1);
        let word = wire::u32_or_zero(self.book.tape, body + 10 + 4 * i) as usize;
        let label = word_label(kind, i);
        match records::word_use(kind, tag, i) {
            Use::Unused => Item(b"", Value::Nothing),
            Use::Str | Use::OptStr => Item(label, Value::Str(word)),
            _ => Item(label, Value::Number(word)),
        }
    }

    // Of the record at a place, the n-th of its command.
    fn item(&self, at: usize, n: usize, field: Field) -> Item
        requires { (at < length self.now.book.tape.now) × (field_fits (field_of field) ≡ true) }
        ensures { item_of result ≡ shown self.now.book.tape.now (mark_of self.now.region) at n (field_of field).label (field_of field).shows }
    {
        let Field(own, shows) = field;
        match shows {
            Shows::LabelOnly => Item(own, Value::Nothing),
            Shows::Ordinal => Item(own, Value::Number(n)),
            Shows::OwnString => Item(own, Value::Str(n)),
            Shows::Byte(k) => Item(own, Value::Number(usize::from(self.byte(at, k)))),
            Shows::Word(k) => Item(own, Value::Number(self.word(at, k))),
            Shows::Name(first, k) => {
                let name = label(usize::from(first) + usize::from(self.byte(at, k)));
                Item(name, Value::Nothing)
            }
            Shows::StringId(k) => Item(own, Value::Str(self.word(at, k))),
            Shows::BodyWord(k, i) => self.body_word(at + usize::from(k), usize::from(i)),
            Shows::RegionStart => Item(own, Value::Number(self.region().start.0 as usize)),
            Shows::RegionEnd => Item(own, Value::Number(self.region().end.0 as usize)),
            Shows::TextPart(part) => Item(own, self.text_part(part)),
        }
    }

    // ---- an item put behind a line's other items

    // The string of an id: behind both texts and the strings before it.
    fn string_bytes(&self, id: StrId) -> &'a [u8]
        requires { id.0 < self.now.book.store.totals.strings }
        ensures { (length result.now ≤ 65536) × (lookup_str (book_of self.now.book) id.0 ≡ some result.now) }
    {
        let texts = wire::u32_or_zero(self.book.tape, 1) as usize
            + wire::u32_or_zero(self.book.tape, 5) as usize;
        let start = texts
            + strings::start_from(
                self.book.tape,
                &self.book.store,
                self.book.bytes.len(),
                0,
                id.0,
                0,
            );
        let len = strings::string_length(self.book.tape, &self.book.store, id);
        wire::between(self.book.bytes, start, start + len)
    }

    // An id with its string; `none` for an id that shows none, as a missing one.
    fn put_string(&self, line: &mut Line<'_>, id: usize)
        requires { 262167 ≤ room line.old }
        ensures { Put line.old line.new 262167 (string_bytes id (lookup_str (book_of self.now.book) id)) }
    {
        if self.book.store.totals.strings as usize <= id {
            line.put_text(b"none");
        } else {
            line.put_number(b"", id as u64);
            line.put_text(b" ");
            line.put_quoted(self.string_bytes(StrId(id as u32)));
        }
    }

    // At most 65536 bytes are quoted.
    fn put_value(&self, line: &mut Line<'_>, value: Value)
        requires { 262167 ≤ room line.old }
        ensures { Put line.old line.new 262167 (value_bytes (book_of self.now.book) self.now.book.bytes.now (value_of value)) }
    {
        match value {
            Value::Nothing => {}
            Value::Number(n) => line.put_number(b"", n as u64),
            Value::Str(id) => self.put_string(line, id),
            Value::Text(from, to) => line.put_quoted(wire::between(self.book.bytes, from, to)),
        }
    }

    fn put_field(&self, line: &mut Line<'_>, at: usize, n: usize, field: Field)
        requires room { 262191 ≤ room line.old }
        requires in_bounds { (at < length self.now.book.tape.now) × (field_fits (field_of field) ≡ true) }
        ensures { Put line.old line.new 262191 (field_bytes self.now.book.tape.now self.now.book.bytes.now (mark_of self.now.region) at n (field_of field)) }
    {
        let Item(label, value) = self.item(at, n, field);
        line.put_text(label);
        self.put_value(line, value);
    }

    // ---- a line

    fn put_fields(&self, line: &mut Line<'_>, row: usize, at: usize, n: usize)
        requires room { 3932865 ≤ room line.old }
        requires in_bounds { (at < length self.now.book.tape.now) × (row < 14) }
        ensures { Put line.old line.new 3932865 (flatten (map (field_bytes self.now.book.tape.now self.now.book.bytes.now (mark_of self.now.region) at n) (get_or rows row []))) }
    {
        for field in fields(row) {
            self.put_field(line, at, n, *field);
        }
    }

    // The line of the record at a cursor: 15 fields of at most 262191 bytes each, and a newline.
    pub fn put_line(&self, line: &mut Line<'_>, c: Cursor)
        requires room { 3932866 ≤ room line.old }
        requires at_in_bounds { c.at < length self.now.book.tape.now }
        ensures { Put line.old line.new 3932866 (line_at self.now.book.tape.now self.now.book.bytes.now (mark_of self.now.region) c) }
    {
        let command = wire::byte_at(self.book.tape, c.at);
        let second = wire::byte_at(self.book.tape, c.at + 1);
        let row = row_for(command, self.region.is_some(), second);
        self.put_fields(line, row, c.at, number_in(self.book.tape, c));
        line.put_text(b"\n");
    }
}

// ---- from record to record

// How many records of its command stand before the one at a cursor. A command indexes two tables, and a byte of the tape may be no command.
fn number_in(tape: &[u8], c: Cursor) -> usize
    ensures { result ≡ number_in tape.now c }
{
    let command = usize::from(wire::byte_at(tape, c.at));
    if command <= 10 { c.seen[command] } else { 0 }
}

#[tactic(auto, unfolding(crate::specs::Listing::first_line))]
pub fn first_line() -> Cursor
    ensures { result ≡ first_line }
{
    Cursor {
        at: 0,
        seen: [0; 11],
    }
}

pub fn next_line(tape: &[u8], c: Cursor) -> Cursor
    requires at_in_bounds { c.at < length tape.now }
    requires counted { Counted c }
    ensures { result ≡ next_line tape.now c }
{
    let command = usize::from(wire::byte_at(tape, c.at));
    let mut next = c;
    if command <= 10 {
        next.seen[command] += 1;
        next.at += SIZES[command];
    } else {
        next.at += 1;
    }
    next
}

// The rows, labels, word labels and sizes of specs/Table.antt; specs/Coded.antt proves that these are the same.

use Shows::{
    BodyWord, Byte, LabelOnly, Name, Ordinal, OwnString, RegionEnd, RegionStart, StringId,
    TextPart, Word,
};
use numbers::{
    CONTAINER_SIZE, CONTENT_SIZE, DIAGNOSTIC_SIZE, HEAD_SIZE, NODE_SIZE, PAIR_SIZE, SEGMENT_SIZE,
    STRING_SIZE,
};

// A part of the text: before the region of the edit, of it, behind it; or all of it.
#[derive(Clone, Copy)]
pub enum Part {
    Before,
    Region,
    Behind,
    Whole,
}

// What a field shows; a place counts from the record's command byte.
#[derive(Clone, Copy)]
pub enum Shows {
    LabelOnly,
    // how many records of its command stand before this one
    Ordinal,
    // the string of that number
    OwnString,
    // the byte or the word at a place
    Byte(u8),
    Word(u8),
    // the label of the first name, and the place of the byte that is named
    Name(u8, u8),
    // the string whose id stands at a place
    StringId(u8),
    // of the body at a place, the word of a number 0 to 5
    BodyWord(u8, u8),
    RegionStart,
    RegionEnd,
    TextPart(Part),
}

// A label, and what stands behind it.
#[derive(Clone, Copy)]
pub struct Field(pub &'static [u8], pub Shows);

// where in `LABELS` the names of each kind begin: numbers, as specs/Table.antt has them, so that the rows are data that can be compared
const SEGMENT_TAGS: u8 = 1;

const NODE_CLASSES: u8 = 5;

const PAIR_KINDS: u8 = 9;

const DIAGNOSTIC_KINDS: u8 = 14;

const BODY_KINDS: u8 = 19;

pub static LABELS: [&[u8]; 35] = [
    b"",
    b" Text",
    b" Gaiji",
    b" Directive",
    b" Node",
    b" Inline",
    b" BlockLeaf",
    b" BlockOpen",
    b" BlockClose",
    b" Bracket",
    b" Ruby",
    b" AngleQuote",
    b" Tortoise",
    b" Quote",
    b" UnresolvedGaiji",
    b" NonCanonicalDirective",
    b" UnclosedBracket",
    b" UnmatchedClose",
    b" Other",
    b" text",
    b" Ruby",
    b" Format",
    b" Gaiji",
    b" Line",
    b" PageBreak",
    b" SectionBreak",
    b" BodyEnd",
    b" ForcedBreak",
    b" Heading",
    b" HeadingHint",
    b" Illustration",
    b" Kaeriten",
    b" Directive",
    b" AngleQuote",
    b" MarginNote",
];

pub static ROWS: [&[Field]; 14] = [
    // no command
    &[],
    // 1 head
    &[
        Field(b"text ", Word(1)),
        Field(b" normalized ", Word(5)),
        Field(b" ", TextPart(Part::Whole)),
    ],
    // 2 layer
    &[Field(b"layer ", Ordinal)],
    // 3 string
    &[Field(b"string ", OwnString)],
    // 4 content, Plain
    &[Field(b"content ", Ordinal), Field(b" plain ", StringId(2))],
    // 5 segment
    &[
        Field(b"segment ", Ordinal),
        Field(b"", Name(SEGMENT_TAGS, 1)),
        Field(b" level ", Byte(2)),
        Field(b"", Name(BODY_KINDS, 3)),
        Field(b" tag ", Byte(4)),
        Field(b" plain ", Word(5)),
        Field(b" ", Word(9)),
        Field(b"", BodyWord(3, 0)),
        Field(b"", BodyWord(3, 1)),
        Field(b"", BodyWord(3, 2)),
        Field(b"", BodyWord(3, 3)),
        Field(b"", BodyWord(3, 4)),
        Field(b"", BodyWord(3, 5)),
    ],
    // 6 node, Inline or BlockLeaf
    &[
        Field(b"node ", Ordinal),
        Field(b"", Name(NODE_CLASSES, 1)),
        Field(b" ", Word(3)),
        Field(b"..", Word(7)),
        Field(b" at ", Word(11)),
        Field(b"", Name(BODY_KINDS, 15)),
        Field(b" tag ", Byte(16)),
        Field(b" plain ", Word(17)),
        Field(b" ", Word(21)),
        Field(b"", BodyWord(15, 0)),
        Field(b"", BodyWord(15, 1)),
        Field(b"", BodyWord(15, 2)),
        Field(b"", BodyWord(15, 3)),
        Field(b"", BodyWord(15, 4)),
        Field(b"", BodyWord(15, 5)),
    ],
    // 7 pair
    &[
        Field(b"pair ", Ordinal),
        Field(b"", Name(PAIR_KINDS, 1)),
        Field(b" ", Word(2)),
        Field(b"..", Word(6)),
        Field(b" ", Word(10)),
        Field(b"..", Word(14)),
    ],
    // 8 container
    &[
        Field(b"container ", Ordinal),
        Field(b" plain ", Word(1)),
        Field(b" open ", Word(5)),
        Field(b" close ", Word(9)),
    ],
    // 9 diagnostic
    &[
        Field(b"diagnostic ", Ordinal),
        Field(b"", Name(DIAGNOSTIC_KINDS, 1)),
        Field(b" code ", Word(2)),
        Field(b" ", Word(6)),
        Field(b"..", Word(10)),
        Field(b" plain ", Word(14)),
    ],
    // 10 end
    &[Field(b"end", LabelOnly)],
    // 1 head, with an edit
    &[
        Field(b"text ", Word(1)),
        Field(b" normalized ", Word(5)),
        Field(b" region ", RegionStart),
        Field(b" ", RegionEnd),
        Field(b" ", TextPart(Part::Before)),
        Field(b" | ", TextPart(Part::Region)),
        Field(b" | ", TextPart(Part::Behind)),
    ],
    // 4 content, Segments
    &[
        Field(b"content ", Ordinal),
        Field(b" segments ", Word(2)),
        Field(b" ", Word(6)),
    ],
    // 6 node, BlockOpen or BlockClose
    &[
        Field(b"node ", Ordinal),
        Field(b"", Name(NODE_CLASSES, 1)),
        Field(b" inline ", Byte(2)),
        Field(b" ", Word(3)),
        Field(b"..", Word(7)),
        Field(b" at ", Word(11)),
        Field(b" plain ", Word(17)),
        Field(b" ", Word(21)),
    ],
];

// the labels of a body's words, by its kind
pub static WORD_LABELS: [[&[u8]; 6]; 16] = [
    [b" string ", b"", b"", b"", b"", b""], // 0 text
    [b" base ", b" ", b" reading ", b" ", b"", b""], // 1 Ruby
    [b" target ", b" ", b" payload ", b"", b"", b""], // 2 Format
    [b" hint ", b" mencode ", b"", b"", b"", b""], // 3 Gaiji
    [b"", b"", b"", b"", b"", b""], // 4 Line
    [b"", b"", b"", b"", b"", b""], // 5 PageBreak
    [b"", b"", b"", b"", b"", b""], // 6 SectionBreak
    [b"", b"", b"", b"", b"", b""], // 7 BodyEnd
    [b"", b"", b"", b"", b"", b""], // 8 ForcedBreak
    [b" text ", b" ", b"", b"", b"", b""], // 9 Heading
    [b" target ", b"", b"", b"", b"", b""], // 10 HeadingHint
    [
        b" file ",
        b" number ",
        b" dimensions ",
        b" description ",
        b" caption ",
        b" ",
    ], // 11 Illustration
    [b" mark ", b"", b"", b"", b"", b""], // 12 Kaeriten
    [b" raw ", b"", b"", b"", b"", b""], // 13 Directive
    [b" content ", b" ", b"", b"", b"", b""], // 14 AngleQuote
    [b" base ", b" ", b" note ", b" ", b"", b""], // 15 MarginNote
];

// how many bytes a record of each command takes
pub static SIZES: [usize; 11] = [
    1,
    HEAD_SIZE,
    1,
    STRING_SIZE,
    CONTENT_SIZE,
    SEGMENT_SIZE,
    NODE_SIZE,
    PAIR_SIZE,
    CONTAINER_SIZE,
    DIAGNOSTIC_SIZE,
    1,
];

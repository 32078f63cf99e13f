// Why a call is refused: document 01's table "Returned numbers", and document 02's numbers behind it. A function that may refuse answers a
// `Result`, and hands a refusal on by `?`; the number is told at the end, to C and on a printed line. The names and the words are those of
// bindings/.
#![tactic(auto)]

ghost use Rattle.std.specs.Prelude.{◌≡◌};
ghost use Rattle.refusal.specs.Refusal.{number};

use std::error::Error;
use std::fmt;

#[derive(Clone, Copy, Debug, PartialEq, Eq)]
pub enum Refusal {
    // tape or byte buffer breaks the layout; a book without a layer; a reading without exactly one layer
    Layout = 1,
    // a text, normalized text, string or replacement is not UTF-8
    NotUtf8 = 2,
    // text or normalized over 16777215 bytes, a pool over 1048575, another list over 262143, layers over 32
    OverLimit = 3,
    // an id or range outside its pool, or across layers
    IdOrRange = 4,
    // levels of segments
    Level = 5,
    // spans, offsets in images, pairs, containers, diagnostics; of these only a diagnostic may have start = end (document 02, wish 5)
    Place = 6,
    // normalized length
    NormalizedLength = 7,
    // edit start > end, end > length, or inside a character
    Edit = 8,
    // new text equals old
    SameText = 9,
    // `has_ruby_format_dependency`
    RubyFormatDependency = 10,
    // region would be the whole text
    WholeText = 11,
    // reading's text differs from the new region's
    OtherText = 12,
    // `balanced_nodes` false
    Unbalanced = 13,
    // reading has a diagnostic of kind 2 or 3; or the region is empty, and the old book has a diagnostic of no width at its place (document 02, wish 5)
    Unclosed = 14,
    // `introduces_ruby_format_dependency`
    NewRubyFormatDependency = 15,
    // a cut falls inside a normalized character
    CutInCharacter = 16,
    // reading has nodes, old book 32 layers
    LayersFull = 17,
    // the result passes a limit of number 3 or has over 3583 new strings, a result buffer is too short, or under 16384 work words are lent
    NoRoom = 18,
    // a desk above 63, or a ledger without exactly 64 totals (document 02, wish 4)
    DeskOrLedger = 19,
    // the desk's total would pass 4294967295 (wish 4)
    TotalFull = 20,
}

impl From<Refusal> for u32 {
    ghost from_gives = { λ refusal n. n ≡ number refusal };

    fn from(refusal: Refusal) -> u32 {
        refusal as u32
    }
}

impl fmt::Display for Refusal {
    fn fmt<W: fmt::Write>(&self, f: &mut fmt::Formatter<W>) -> fmt::Result {
        f.write_str(match self {
            Refusal::Layout => {
                "the tape or the byte buffer is not laid out as a book or a reading: look at the order and the sizes of the records, at kinds, tags and unused words, at the buffer's length, and at the layers (a book has at least one, a reading exactly one)"
            }
            Refusal::NotUtf8 => {
                "a text, a normalized text, a string or the replacement is not UTF-8: look for a character that was cut in two"
            }
            Refusal::OverLimit => {
                "a limit is passed: a text may have 16777215 bytes, a pool 1048575 items, another list 262143, a book 32 layers"
            }
            Refusal::IdOrRange => {
                "an id or a range points outside of its pool, or a range runs across two layers: look at the string ids and ranges of contents, segments and nodes"
            }
            Refusal::Level => {
                "a segment has a wrong level: it is 0 but for a Node segment, whose level is 1 to 32 and above all levels in the runs it names"
            }
            Refusal::Place => {
                "something lies at an impossible place: look for empty, overlapping or unordered node spans, for spans past the text, for a normalized offset outside of its node's image, at pairs and containers, and for a diagnostic whose start is behind its end"
            }
            Refusal::NormalizedLength => {
                "the normalized text is not as long as the text and the nodes' images make it: an image has 3 bytes, or 7 with padding"
            }
            Refusal::Edit => {
                "the edit does not fit the text: its start is behind its end, its end behind the text, or one of them inside a character"
            }
            Refusal::SameText => {
                "the edit changes nothing: the replacement is what stands there already"
            }
            Refusal::RubyFormatDependency => {
                "a Referenced Format that ends behind the edit's start has the base of an earlier Ruby as its target: parse the whole text"
            }
            Refusal::WholeText => {
                "there is no safe cut around the edit, so the passage to reread would be the whole text: parse the whole text"
            }
            Refusal::OtherText => {
                "the reading is of another text than the corrected passage: ask for the region again and read that part of the new text"
            }
            Refusal::Unbalanced => {
                "the reading opens a block or warichu that it does not close, or closes one that it did not open: parse the whole text"
            }
            Refusal::Unclosed => {
                "the reading has a bracket without its partner (UnclosedBracket or UnmatchedClose): parse the whole text; or text is added at the end of a text that ends in a newline, and the old book has a diagnostic of no width there: let the edit begin at that newline and write it again before the new text, or parse the whole text"
            }
            Refusal::NewRubyFormatDependency => {
                "the reading has a Ruby and a Referenced Format follows the passage, or it has a Referenced Format whose target is the base of an earlier Ruby: parse the whole text"
            }
            Refusal::CutInCharacter => {
                "the passage begins or ends inside a character of the normalized text: the normalized text is not the images of the nodes"
            }
            Refusal::LayersFull => {
                "the book has 32 layers already and the reading would add one: flatten the book and merge again, or parse the whole text; either gives a book of one layer with new ids and ranges"
            }
            Refusal::NoRoom => {
                "the result does not fit: a result buffer is too short, fewer than 16384 work words are lent, the merged or flat book passes a limit, or its new layer has more than 3583 strings"
            }
            Refusal::DeskOrLedger => {
                "there is no such desk, or the ledger has another length: desks are 0 to 63, and a ledger has exactly 64 totals"
            }
            Refusal::TotalFull => {
                "the desk's total would pass 4294967295: write the invoice and begin a new ledger"
            }
        })
    }
}

impl Error for Refusal {}

#[cfg(test)]
mod tests {
    use super::*;
    use std::test::Fail;

    // the first and the last number of each document, and the words of one
    #[test]
    fn told(rt: HostRuntime) -> Result<(), Fail> {
        assert_eq!(rt; u32::from(Refusal::Layout), 1);
        assert_eq!(rt; u32::from(Refusal::NoRoom), 18);
        assert_eq!(rt; u32::from(Refusal::DeskOrLedger), 19);
        assert_eq!(rt; u32::from(Refusal::TotalFull), 20);
        assert!(rt; Refusal::Edit == Refusal::Edit);
        assert!(rt; Refusal::Edit != Refusal::SameText);
        let told = format!(in rt.alloc(); "{}", Refusal::SameText)?;
        assert!(rt;
            told.as_str()
                == "the edit changes nothing: the replacement is what stands there already"
        );
        Ok(())
    }
}

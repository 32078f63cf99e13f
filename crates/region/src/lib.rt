// Numbers 8 to 11, document 01 section 6: where a correction's passage begins and ends. `chosen_region` is the stage for an opened
// book; `choose_region` is the entry, on any tape and bytes; `region_text` hands the passage on as a part of the text.
// Number 10 takes the lent words for an index of the strings and a filter of bases, if a Format asks at all: any number of words will do, also
// none.
#![tactic(auto)]

ghost use Rattle.std.specs.Prelude.{◌≡◌, ℕ, List, length};
ghost use Rattle.model.specs.Bytes.{zeros};
ghost use Rattle.model.specs.Types.{LexOutput};
ghost use Rattle.model.specs.Region.{has_ruby_format_dependency, chosen_region, choose_region, region_text, edit_of};
ghost use Rattle.refusal.specs.Refusal.{checked, checked_map};
ghost use Rattle.span.specs.Values.{span_of};
ghost use Rattle.tape.specs.StringBytes.{book_of};
ghost use Rattle.edit.specs.Values.{edit_value};
ghost use Rattle.region.specs.Chosen.{whole_text};

use balanced_region::Edited;
use cuts::Source;
use edit::Edit;
use refusal::Refusal;
use ruby_formats::Nodes;
use span::{SourceOffset, Span};
use tape::Book;

// Number 11. The region would be the whole text.
#[tactic(auto, using(std::proofs::lemmas::Bool::Decides::nat_tests), unfolding(crate::specs::Chosen::whole_text))]
fn is_whole(text: SourceOffset, region: Span) -> bool
    ensures { result ≡ whole_text text.0 (span_of region) }
{
    region.start == SourceOffset(0) && region.end == text
}

// Number 10. The strings are walked only where a Format asks for its target.
fn has_ruby_format_dependency(book: &Book, words: &mut [u32], from: SourceOffset) -> bool
    ensures { (end : ℕ) (replacement : List ℕ) → result ≡ has_ruby_format_dependency (book_of book.now) (edit_of from.0 end replacement) }
{
    let asked = ruby_formats::asked_nodes(book.tape, book.places.nodes, from);
    if asked == 0 {
        return false;
    }
    dependency::has_ruby_format_dependency(&Nodes::of(book), words, from)
}

// Numbers 8 to 11 of an opened book, or the region. The words may hold anything.
pub fn chosen_region<'a>(
    book: &Book<'a>,
    edit: &Edit<'a>,
    words: &mut [u32],
) -> Result<Span, Refusal>
    ensures { checked_map span_of (checked result) ≡ chosen_region (book_of book.now) (edit_value edit.now) }
{
    let text = book.text();
    edit::check_edit(text, edit)?;
    if has_ruby_format_dependency(book, words, edit.start) {
        return Err(Refusal::RubyFormatDependency);
    }
    let edited = Edited {
        source: Source {
            tape: book.tape,
            text,
            nodes: book.places.nodes,
            pairs: book.places.pairs,
        },
        start: edit.start,
        end: edit.end,
        replacement: edit.replacement,
    };
    let region = edited.balanced_region(words);
    if is_whole(book.places.text, region) {
        return Err(Refusal::WholeText);
    }
    Ok(region)
}

// Numbers 1 to 11; the words are left as they are used.
fn region_of(tape: &[u8], bytes: &[u8], edit: &Edit, words: &mut [u32]) -> Result<Span, Refusal>
    ensures { (checked_map span_of (checked result) ≡ choose_region tape.now bytes.now (edit_value edit.now)) × (length words.new ≡ length words.old) }
{
    let book = tape::open_book(tape, bytes)?;
    chosen_region(&book, edit, words)
}

// `choose_region`: choosing the region alone runs up to 11. The words come back as zeros. The edit's three parts come one by one, as C lends them.
pub fn choose_region(
    tape: &[u8],
    bytes: &[u8],
    start: SourceOffset,
    end: SourceOffset,
    replacement: &[u8],
    words: &mut [u32],
) -> Result<Span, Refusal>
    ensures { (checked_map span_of (checked result) ≡ choose_region tape.now bytes.now (edit_of start.0 end.0 replacement.now)) × (words.new ≡ zeros (length words.old)) }
{
    let edit = Edit {
        start,
        end,
        replacement,
    };
    let found = region_of(tape, bytes, &edit, words);
    wire::zero_words(words);
    found
}

// Section 6. The region is handed on as that part of the text; what lies outside of it is left out.
pub fn region_text<'a>(text: &'a [u8], region: Span) -> &'a [u8]
    ensures { (b : LexOutput) → text.now ≡ b.sanitized → result.now ≡ region_text b (span_of region) }
{
    wire::between(text, region.start.0 as usize, region.end.0 as usize)
}

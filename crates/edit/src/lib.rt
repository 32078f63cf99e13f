// The edit of a text, document 01 section 6 and the table of numbers: 8, 2, 3 and 9 in that order. The new text is never built: its
// length is a sum, and it equals the old text exactly if the replacement is as long as what it replaces and has the same bytes.
#![tactic(auto)]

ghost use Rattle.std.specs.Prelude.{◌≡◌, ◌≤◌, length};
ghost use Rattle.model.specs.Limits.{max_text};
ghost use Rattle.model.specs.Lists.{same as same_bytes};
ghost use Rattle.model.specs.Region.{edited};
ghost use Rattle.refusal.specs.Refusal.{number_in};
ghost use Rattle.edit.specs.Numbers.{within, length_fits, edit_number};
ghost use Rattle.edit.specs.Values.{edit_value};

use numbers::MAX_TEXT;
use refusal::Refusal;
use span::SourceOffset;

// What is replaced in a text, and by what.
#[derive(Clone, Copy)]
pub struct Edit<'a> {
    pub start: SourceOffset,
    pub end: SourceOffset,
    pub replacement: &'a [u8],
}

// Number 8. Start ≤ end ≤ length, neither inside a character. By two offsets, here and below, as the definitions take them.
#[tactic(auto, using(std::proofs::lemmas::Bool::Decides::nat_tests), unfolding(crate::specs::Numbers::within))]
fn edit_ok(text: &[u8], start: SourceOffset, end: SourceOffset) -> bool
    ensures { result ≡ within text.now start.0 end.0 }
{
    start <= end
        && end.0 as usize <= text.len()
        && utf8::is_char_boundary(text, start.0 as usize)
        && utf8::is_char_boundary(text, end.0 as usize)
}

// Number 3 of the new text, by lengths.
#[tactic(auto, using(std::proofs::lemmas::Bool::Decides::nat_tests), unfolding(crate::specs::Numbers::length_fits))]
fn length_fits(size: usize, start: SourceOffset, end: SourceOffset, added: usize) -> bool
    requires { (start.0 ≤ end.0) × (end.0 ≤ size) × (size ≤ max_text) }
    ensures { result ≡ length_fits size start.0 end.0 added }
{
    added <= MAX_TEXT && start.0 as usize + added + (size - end.0 as usize) <= MAX_TEXT
}

// Number 9. The new text equals the old.
fn unchanged(text: &[u8], edit: &Edit) -> bool
    requires { (edit.now.start.0 ≤ edit.now.end.0) × (edit.now.end.0 ≤ length text.now) }
    ensures { result ≡ same_bytes (edited text.now (edit_value edit.now)) text.now }
{
    let replaced = &text[edit.start.0 as usize..edit.end.0 as usize];
    compare::same(edit.replacement, replaced)
}

// Numbers 8, 2, 3, 9 of an edit.
pub fn check_edit(text: &[u8], edit: &Edit) -> Result<(), Refusal>
    requires { length text.now ≤ max_text }
    ensures { number_in result ≡ edit_number text.now (edit_value edit.now) }
{
    if !edit_ok(text, edit.start, edit.end) {
        return Err(Refusal::Edit);
    }
    if !utf8::is_utf8(edit.replacement) {
        return Err(Refusal::NotUtf8);
    }
    if !length_fits(text.len(), edit.start, edit.end, edit.replacement.len()) {
        return Err(Refusal::OverLimit);
    }
    if unchanged(text, edit) {
        return Err(Refusal::SameText);
    }
    Ok(())
}

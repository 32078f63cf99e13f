// What a reading is asked of texts and counts alone, document 01 section 7: its text is the new region's (12), no cut falls inside a normalized
// character (16), and a layer is free for its nodes (17). The new text is never built: the region of it is the passage with the edit made in it,
// compared part by part.
#![tactic(auto)]

ghost use Rattle.std.specs.Prelude.{◌≡◌, ◌≤◌, length};
ghost use Rattle.model.specs.Lists.{same as same_bytes};
ghost use Rattle.model.specs.Region.{edited, edit_of};
ghost use Rattle.passage.specs.Window.{ends_on_boundaries};
ghost use Rattle.passage.specs.Layers.{missing_of};

use span::NormalizedSpan;

// Number 12. The reading's text is the passage with the edit made in it; `start` and `end` are offsets of the passage:
// no span of a book has them, its caller makes them by subtraction. By lengths, as the definition has it: `strip_prefix` and `strip_suffix` would say
// it through two `Option`s.
pub fn is_region_text(
    passage: &[u8],
    start: usize,
    end: usize,
    replacement: &[u8],
    reading: &[u8],
) -> bool
    requires { (start ≤ end) × (end ≤ length passage.now) }
    ensures { result ≡ same_bytes reading.now (edited passage.now (edit_of start end replacement.now)) }
{
    let behind = passage.len() - end;
    if reading.len() < start + behind {
        return false;
    }
    let there = reading.len() - behind;
    if there - start != replacement.len() {
        return false;
    }
    if !compare::same(&reading[0..start], &passage[0..start]) {
        return false;
    }
    if !compare::same(&reading[start..there], replacement) {
        return false;
    }
    compare::same(&reading[there..reading.len()], &passage[end..passage.len()])
}

// Number 16. No cut falls inside a normalized character.
#[tactic(auto, using(std::proofs::lemmas::Bool::Decides::nat_tests), unfolding(crate::specs::Window::ends_on_boundaries))]
pub fn cuts_ok(normalized: &[u8], cuts: NormalizedSpan) -> bool
    ensures { result ≡ ends_on_boundaries normalized.now cuts.start.0 cuts.end.0 }
{
    utf8::is_char_boundary(normalized, cuts.start.0 as usize)
        && utf8::is_char_boundary(normalized, cuts.end.0 as usize)
}

// Number 17. The reading has nodes, and the old book 32 layers.
#[tactic(auto, using(std::proofs::lemmas::Bool::Decides::nat_tests), unfolding(crate::specs::Layers::missing_of))]
pub fn layer_missing(nodes: usize, layers: usize) -> bool
    ensures { result ≡ missing_of nodes layers }
{
    nodes != 0 && 32 <= layers
}

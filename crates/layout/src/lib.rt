// Number 1, document 01 section 4, of a tape whose frame holds: every record is asked for its shape where it stands, contents and segments layer by
// layer, then nodes, pairs and diagnostics (containers have no shape). The frame is `places_of`'s. No shape depends on the byte buffer.
// specs/Shaped.antt says so, and that where the shapes are a book's, `parse` finds that book, and else none.
#![tactic(auto)]

ghost use Rattle.std.specs.Prelude.{◌≡◌};
ghost use Rattle.places.specs.Walked.{RunsFit, PlacesFit, all_layers};
ghost use Rattle.layout.specs.Shaped.{runs_shape, lists_shape, tape_shape};

use numbers::HEAD_SIZE;
use places::{LayerRuns, Places};
use store::Layers;

// Section 4. The shapes of a layer's contents and segments.
#[tactic(auto, unfolding(crate::specs::Shaped::runs_shape))]
fn layer_shaped(tape: &[u8], l: LayerRuns) -> bool
    requires { RunsFit tape.now l }
    ensures { result ≡ runs_shape tape.now l }
{
    records::all_shaped::<records::Content>(tape, l.contents.at, l.contents.count)
        && records::all_shaped::<records::Segment>(tape, l.segments.at, l.segments.count)
}

// Section 4. The shapes of every layer. Here and in `texts` a layer is found where the one before says that it begins, for a tape that has no store.
fn layers_shaped(layers: &Layers) -> bool
    ensures { result ≡ all_layers (runs_shape layers.now.tape.now) layers.now.tape.now }
{
    let mut at = HEAD_SIZE;
    for k in 0..layers.count {
        let l = layers.runs(k, at);
        if !layer_shaped(layers.tape, l) {
            return false;
        }
        at = l.end;
    }
    true
}

// Section 4. The shapes of nodes, pairs and diagnostics.
#[tactic(auto, unfolding(crate::specs::Shaped::lists_shape))]
fn lists_shaped(tape: &[u8], p: Places) -> bool
    requires { PlacesFit tape.now p }
    ensures { result ≡ lists_shape tape.now p }
{
    records::all_shaped::<records::SourceNode>(tape, p.nodes.at, p.nodes.count)
        && records::all_shaped::<records::PairLink>(tape, p.pairs.at, p.pairs.count)
        && records::all_shaped::<records::Diagnostic>(tape, p.diagnostics.at, p.diagnostics.count)
}

// Number 1: have the records of a tape with these places and layers the shapes of a book's?
#[tactic(auto, unfolding(crate::specs::Shaped::tape_shape))]
pub fn shaped(layers: &Layers, p: Places) -> bool
    requires { PlacesFit layers.now.tape.now p }
    ensures { result ≡ tape_shape layers.now.tape.now p }
{
    layers_shaped(layers) && lists_shaped(layers.tape, p)
}

// The layers of a tape whose frame holds. Number 3 lets most tapes have a store: there the records of each layer are found by its starts. Where it
// does not, numbers 1 and 2 still come first, and each layer is counted where it stands.
#![tactic(auto)]

ghost use Rattle.std.specs.Prelude.{◌≡◌, ◌≤◌, ◌<◌, length};
ghost use Rattle.std.specs.Option.{ForSome};
ghost use Rattle.model.specs.Tape.{places};
ghost use Rattle.places.specs.Again.{AtLayer};
ghost use Rattle.places.specs.Walked.{nth_runs};
ghost use Rattle.store.specs.Stored.{OfTape};

use crate::Store;
use places::LayerRuns;

#[derive(Clone, Copy)]
pub struct Layers<'a> {
    pub tape: &'a [u8],
    pub store: &'a Option<Store>,
    pub count: usize,
    pub ghost counted: { (count ≡ length (places tape.now).layers) × ((places tape.now).nodes_at ≤ length tape.now) },
    pub ghost stored: { ForSome store.now (λ s. OfTape tape.now s) },
}

impl Layers<'_> {
    // Where the records of layer k stand, whose 2 stands at `at`.
    pub fn runs(&self, k: usize, at: usize) -> LayerRuns
        requires { (k < self.now.count) × AtLayer self.now.tape.now k at }
        ensures { result ≡ nth_runs self.now.tape.now k }
    {
        match self.store {
            Some(store) => store.layer_runs(k),
            None => places::next_layer(self.tape, at),
        }
    }
}

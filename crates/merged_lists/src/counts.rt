// How many records each merged list gets, and number 18 as far as that decides it.
#![tactic(auto)]

ghost use Rattle.merged_lists.specs.Sizes.{Small};

use crate::{Kept, Lengths, Totals};
use fitting::Merging;
use numbers::{MAX_LIST, MAX_TEXT, MIN_WORK_WORDS};
use places::Places;
use splice::Spliced;
use splice_lists::{Containers, Diagnostics, Pairs};
use splice_nodes::Nodes;

// How many old elements of each list are kept, and where the reading's lists stand, which go between them; no sum of both is too large.
#[derive(Clone, Copy)]
pub struct Counts {
    pub kept: Kept,
    pub reading: Places,
    pub ghost small: { Small kept reading },
}

impl Counts {
    ghost use Rattle.std.specs.Prelude.{◌≡◌, ◌^◌, ◌<◌};
    ghost use Rattle.merged_lists.specs.Fitted.{CountsOf};
    ghost use Rattle.merged_lists.specs.Sizes.{totals_of, lists_fit, room_for, lists_end};

    pub fn of(m: &Merging) -> Counts
        ensures { CountsOf m.now result }
    {
        Counts {
            kept: crate::kept_in(m),
            reading: m.reading.places,
        }
    }

    pub fn totals(&self) -> Totals
        ensures { result ≡ totals_of self.now.kept self.now.reading }
    {
        let k = self.kept;
        let q = self.reading;
        Totals {
            nodes: k.nodes.total(q.nodes.count),
            pairs: k.pairs.total(q.pairs.count),
            containers: k.containers.total(q.containers.count),
            diagnostics: k.diagnostics.total(q.diagnostics.count),
        }
    }

    #[tactic(auto, using(std::proofs::lemmas::Bool::Decides::nat_tests), unfolding(crate::specs::Sizes::lists_fit))]
    fn lists_fit(&self) -> bool
        ensures { result ≡ lists_fit self.now.kept self.now.reading }
    {
        let all = self.totals();
        all.nodes <= MAX_LIST
            && all.pairs <= MAX_LIST
            && all.containers <= MAX_LIST
            && all.diagnostics <= MAX_LIST
    }

    // Number 18 as far as it is known before the graft: work words, number 3 of the new normalized text and of the lists, room for both
    // texts and the old strings, and for the head and the old layers.
    #[tactic(auto, using(std::proofs::lemmas::Bool::Decides::nat_tests), unfolding(crate::specs::Sizes::room_for))]
    pub fn room_for(
        &self,
        l: Lengths,
        nodes_at: usize,
        tape: usize,
        bytes: usize,
        work: usize,
    ) -> bool
        ensures { result ≡ room_for l self.now.kept self.now.reading nodes_at tape bytes work }
    {
        MIN_WORK_WORDS <= work
            && l.normalized <= MAX_TEXT
            && l.base <= bytes
            && nodes_at <= tape
            && self.lists_fit()
    }

    // Where a tape ends whose lists begin at `at`.
    pub fn lists_end(&self, at: usize) -> usize
        requires { at < 2 ^ 63 }
        ensures { result ≡ lists_end at self.now.kept self.now.reading }
    {
        let all = self.totals();
        at + Nodes::SIZE * all.nodes
            + Pairs::SIZE * all.pairs
            + Containers::SIZE * all.containers
            + Diagnostics::SIZE * all.diagnostics
            + 1
    }
}

// Where a layer goes.
#![tactic(auto)]

ghost use Rattle.layer.specs.Layered.{TotalsFit};

use store::Totals;

// The layers below it hold so many, and its own numbers begin there; its records stand from `at` on, its strings' bytes from `base` on.
#[derive(Clone, Copy)]
pub struct Place {
    pub below: Totals,
    pub at: usize,
    pub base: usize,
    pub ghost fits: { TotalsFit below },
}

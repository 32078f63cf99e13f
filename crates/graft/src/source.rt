// What a walk of this crate is lent.
#![tactic(auto)]

ghost use Rattle.model.specs.Store.{resolve_str};
ghost use Rattle.representatives.specs.Pairs.{Pairs};
ghost use Rattle.graft.specs.Named.{source_store};
ghost use Rattle.graft.specs.Walk.{Source};

use super::Plan;
use store::Store;

// What a walk reads, a source that passed numbers 1 and 4 and pairs of its long strings (none, where none is long), and the plan of what
// it writes. It is lent as a whole.
#[derive(Clone, Copy)]
pub struct Walk<'a> {
    pub tape: &'a [u8],
    pub bytes: &'a [u8],
    pub st: &'a Store,
    pub pairs: &'a [u32],
    pub plan: Plan,
    ghost source: { Source tape.now bytes.now st.now },
    ghost paired: { Pairs (resolve_str (source_store tape.now bytes.now)) pairs.now },
}

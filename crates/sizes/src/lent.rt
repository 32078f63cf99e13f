// What a walk of this crate is lent.
#![tactic(auto)]

ghost use Rattle.store.specs.Stored.{OfTape};

use store::Store;

// A tape and its store. They are lent as a whole.
#[derive(Clone, Copy)]
pub struct Walk<'a> {
    pub tape: &'a [u8],
    pub st: &'a Store,
    ghost fit: { OfTape tape.now st.now },
}

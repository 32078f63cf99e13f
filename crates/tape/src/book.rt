// A book that passed 1 to 7, or a reading: its tape and bytes, where its records stand, its store. By value: whoever opens a book hands it on.
#![tactic(auto)]

ghost use Rattle.std.specs.Prelude.{◌^◌, ◌<◌, length};
ghost use Rattle.model.specs.Bytes.{AreBytes};
ghost use Rattle.tape.specs.Held.{Held};

use places::Places;
use store::Store;

#[derive(Clone, Copy)]
pub struct Book<'a> {
    pub tape: &'a [u8],
    pub bytes: &'a [u8],
    pub places: Places,
    pub store: Store,
    pub ghost held: { Held tape.now bytes.now places store },
    pub ghost are_bytes: { AreBytes tape.now × AreBytes bytes.now },
    pub ghost tape_small: { length tape.now < 2 ^ 63 },
    pub ghost bytes_small: { length bytes.now < 2 ^ 63 },
}

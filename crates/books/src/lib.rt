// What a merge and its price are asked of.
#![tactic(auto)]

ghost use Rattle.model.specs.Bytes.{AreBytes};

use edit::Edit;

// A book or a reading as it is stored: its tape, and the bytes of its texts and strings.
#[derive(Clone, Copy)]
pub struct Stored<'a> {
    pub tape: &'a [u8],
    pub bytes: &'a [u8],
    pub ghost are_bytes: { AreBytes tape.now × AreBytes bytes.now },
}

impl<'a> Stored<'a> {
    ghost use Rattle.std.specs.Prelude.{◌≡◌};
    ghost use Rattle.model.specs.Merge.{stored_of};
    ghost use Rattle.books.specs.Values.{stored_value};

    // Of a slice that comes in as a parameter it is known that its items are bytes, and not of one out of a buffer or a struct: this is for those.
    pub fn new(tape: &'a [u8], bytes: &'a [u8]) -> Stored<'a>
        ensures { stored_value result ≡ stored_of tape.now bytes.now }
    {
        Stored { tape, bytes }
    }
}

// An edit, and the reading of the new text's passage around it.
#[derive(Clone, Copy)]
pub struct Correction<'a> {
    pub edit: Edit<'a>,
    pub reading: Stored<'a>,
}

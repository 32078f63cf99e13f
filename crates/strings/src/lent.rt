// The strings of a tape, as whoever asks for many of them has them at hand: where they stand, by an index, and their bytes in two parts.
#![tactic(auto)]

ghost use Rattle.std.specs.Prelude.{◌≡◌, ◌++◌, ◌<◌, get_or};
ghost use Rattle.model.specs.Store.{resolve_str};
ghost use Rattle.strings.specs.Starts.{lengths_in, store_in};
ghost use Rattle.wire.specs.Overwrite.{overwrite};
ghost use Rattle.strings.specs.Index.{index_in, Indexed};
ghost use Rattle.strings.specs.Shown.{Resolvable, shown_in};

use span::StrId;
use store::Store;

// `old` are the bytes of the strings of all layers but the last, `new` those of the last layer; `index` is what `index_strings` has left.
#[derive(Clone, Copy)]
pub struct Strings<'a> {
    pub tape: &'a [u8],
    pub store: &'a Store,
    pub index: &'a [u32],
    pub old: &'a [u8],
    pub new: &'a [u8],
    pub ghost resolvable: { Resolvable tape.now store.now index.now old.now new.now },
}

impl<'a> Strings<'a> {
    pub fn string_length(&self, id: StrId) -> usize
        requires { id.0 < self.now.store.now.totals.strings }
        ensures { result ≡ get_or (lengths_in self.now.tape.now) id.0 0 }
    {
        crate::string_length(self.tape, self.store, id)
    }

    // Section 3. `resolve_str`.
    pub fn resolve_str(&self, id: StrId) -> &'a [u8]
        requires { id.0 < self.now.store.now.totals.strings }
        ensures shown { result.now ≡ shown_in self.now.tape.now self.now.store.now self.now.old.now self.now.new.now id.0 }
        ensures resolved { result.now ≡ resolve_str (store_in self.now.tape.now (self.now.old.now ++ self.now.new.now)) id.0 }
    {
        let olds = crate::old_strings(self.store);
        let room = self.old.len() + self.new.len();
        let start = crate::string_start(self.tape, self.store, room, self.index, id);
        let len = self.string_length(id);
        crate::resolve(self.old, self.new, olds, id, start, len)
    }

    // An index of these strings in any words, as `index_strings` makes it.
    pub fn write_index(&self, words: &mut [u32])
        ensures indexed { Indexed (lengths_in self.now.tape.now) words.new }
        ensures value { words.new ≡ overwrite words.old 0 (index_in (lengths_in self.now.tape.now) words.old) }
    {
        crate::index_strings(
            self.tape,
            self.store,
            self.old.len() + self.new.len(),
            words,
        );
    }
}

// The parts of an opened book's bytes: its text, and behind both texts its strings.
#![tactic(auto)]

use super::book::Book;
use strings::Strings;

impl<'a> Book<'a> {
    ghost use Rattle.std.specs.Prelude.{◌≡◌, ◌+◌};
    ghost use Rattle.strings.specs.Starts.{start_in};
    ghost use Rattle.strings.specs.Shown.{old_strings};
    ghost use Rattle.tape.specs.StringBytes.{book_of, StringsOf};

    // Its source text.
    pub fn text(&self) -> &'a [u8]
        ensures { result.now ≡ (book_of self.now).sanitized }
    {
        &self.bytes[0..self.places.text.0 as usize]
    }

    // Where the bytes of the last layer's strings begin: behind both texts and the strings of the other layers.
    fn last_strings_at(&self) -> usize
        ensures { result ≡ self.now.places.text.0 + self.now.places.normalized.0 + start_in self.now.tape.now (old_strings self.now.store) }
    {
        let first = self.places.text.0 as usize + self.places.normalized.0 as usize;
        let olds = strings::old_strings(&self.store);
        first + strings::start_from(self.tape, &self.store, self.bytes.len(), 0, olds, 0)
    }

    // Its strings, by no index yet.
    pub fn strings(&self) -> Strings
        ensures { StringsOf self.now result }
    {
        let first = self.places.text.0 as usize + self.places.normalized.0 as usize;
        let cut = self.last_strings_at();
        Strings {
            tape: self.tape,
            store: &self.store,
            index: &[],
            old: &self.bytes[first..cut],
            new: &self.bytes[cut..self.bytes.len()],
        }
    }
}

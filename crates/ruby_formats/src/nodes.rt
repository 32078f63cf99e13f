// The nodes of a book that passed number 4, with the strings that they name.
#![tactic(auto)]

ghost use Rattle.ruby_formats.specs.Sound.{Sound};

use numbers::NODE_SIZE;
use places::Run;
use span::{SourceOffset, StrId};
use strings::Strings;
use tape::Book;

#[derive(Clone, Copy)]
pub struct Nodes<'a> {
    pub strings: Strings<'a>,
    pub run: Run,
    pub ghost sound: { Sound strings run.at run.count },
}

impl<'a> Nodes<'a> {
    ghost use Rattle.std.specs.Prelude.{◌≡◌, List, ℕ, ◌+◌, ◌*◌, ◌≤◌, ◌<◌, length, true};
    ghost use Rattle.model.specs.Region.{is_ruby, is_referenced_format};
    ghost use Rattle.ruby_formats.specs.Asks.{names_one, asks_target};
    ghost use Rattle.ruby_formats.specs.Sound.{PlainIn, first_contents};
    ghost use Rattle.strings.specs.PlainContent.{plain_of, same_known};
    ghost use Rattle.ruby_formats.specs.Nodes.{node_in, SameNodes};
    ghost use Rattle.ruby_formats.specs.Books.{NodesOf};
    ghost use Rattle.ruby_formats.specs.Named.{named_by, base_again, target_again, asks_again};

    // The nodes of an opened book, their strings by no index yet.
    pub fn of(book: &'a Book) -> Nodes<'a>
        ensures { NodesOf book.now result }
    {
        Nodes {
            strings: book.strings(),
            run: book.places.nodes,
        }
    }

    // The same nodes, whose strings are found by an index that is written into these words. Its five fields are named here and in
    // `representatives`: a method of `Strings` would promise of each but one that it is the same.
    pub fn indexed<'b>(&self, words: &'b mut [u32]) -> Nodes<'b>
    where
        'a: 'b,
        ensures { SameNodes result self.now }
    {
        self.strings.write_index(words);
        Nodes {
            strings: Strings {
                tape: self.strings.tape,
                store: self.strings.store,
                index: words,
                old: self.strings.old,
                new: self.strings.new,
            },
            run: self.run,
        }
    }

    // Where node i stands.
    pub fn at(&self, i: usize) -> usize
        requires { i < self.now.run.count }
        ensures place { result ≡ self.now.run.at + 49 * i }
        ensures inside { result + 49 ≤ length self.now.strings.tape.now }
    {
        self.run.at + NODE_SIZE * i
    }

    pub fn is_ruby(&self, i: usize) -> bool
        requires { i < self.now.run.count }
        ensures { result ≡ is_ruby (node_in self.now i) }
    {
        crate::is_ruby(self.strings.tape, self.at(i))
    }

    pub fn is_referenced_format(&self, i: usize) -> bool
        requires { i < self.now.run.count }
        ensures { result ≡ is_referenced_format (node_in self.now i) }
    {
        crate::is_referenced_format(self.strings.tape, self.at(i))
    }

    // Number 10 asks for the target of node i.
    pub fn asks_target(&self, i: usize, from: SourceOffset) -> bool
        requires { i < self.now.run.count }
        ensures { result ≡ asks_target from.0 (node_in self.now i) }
    {
        crate::asks_target(self.strings.tape, self.at(i), from)
    }

    // The contents of the first range of a Ruby or a Referenced Format, if they are one Plain content: the base of the one, the target of the
    // other.
    pub fn first_plain(&self, i: usize) -> Option<StrId>
        requires i_lt_count { i < self.now.run.count }
        requires names { names_one (node_in self.now i) ≡ true }
        ensures plain { (b : List ℕ) → result ≡ plain_of (first_contents self.now.strings.tape.now (self.now.run.at + 49 * i) b) }
        ensures inside { PlainIn self.now.strings.store.now result }
    {
        let body = self.at(i) + 15;
        let tape = self.strings.tape;
        let start = records::body_word(tape, body, 0);
        let len = records::body_word(tape, body, 1);
        strings::content_range_as_plain(tape, self.strings.store, start, len)
    }

    // The string that a Ruby or a Referenced Format names.
    #[tactic(auto, using(crate::specs::Named::nothing_in, crate::specs::Asks::ruby_names, crate::specs::Asks::format_names), unfolding(crate::specs::Named::named_by))]
    pub fn named(&self, i: usize) -> Option<StrId>
        requires { i < self.now.run.count }
        ensures named { (b : List ℕ) → result ≡ named_by self.now.strings.tape.now (self.now.run.at + 49 * i) b }
        ensures inside { PlainIn self.now.strings.store.now result }
    {
        if self.is_ruby(i) || self.is_referenced_format(i) {
            return self.first_plain(i);
        }
        None
    }

    // Do two nodes name a string by the same id?
    #[tactic(auto, unfolding(strings::specs::PlainContent::same_known))]
    fn same_named(&self, i: usize, v: usize) -> bool
        requires { (i < self.now.run.count) × (v < self.now.run.count) }
        ensures { (b : List ℕ) → result ≡ same_known (named_by self.now.strings.tape.now (self.now.run.at + 49 * i) b) (named_by self.now.strings.tape.now (self.now.run.at + 49 * v) b) }
    {
        match (self.named(i), self.named(v)) {
            (Some(first), Some(second)) => first == second,
            _ => false,
        }
    }

    // Is node v a Ruby before node i, and have they one base by its id? Then the row has the base.
    #[tactic(auto, unfolding(crate::specs::Named::base_again))]
    pub fn is_base_again(&self, i: usize, v: usize) -> bool
        requires { i < self.now.run.count }
        ensures { (b : List ℕ) → result ≡ base_again self.now.strings.tape.now self.now.run.at i v b }
    {
        v < i && self.is_ruby(v) && self.same_named(i, v)
    }

    // Is node v before node i a Format with the target of node i by its id? Then the answer of node v is node i's.
    #[tactic(auto, unfolding(crate::specs::Named::target_again))]
    pub fn is_target_again(&self, i: usize, v: usize) -> bool
        requires { i < self.now.run.count }
        ensures { (b : List ℕ) → result ≡ target_again self.now.strings.tape.now self.now.run.at i v b }
    {
        i > v && self.is_referenced_format(v) && self.same_named(i, v)
    }

    // Does node v behind node i ask for the target of node i by its id? If node i refers to a base, then node v does.
    #[tactic(auto, unfolding(crate::specs::Named::asks_again, crate::specs::Asks::asks_at))]
    pub fn asks_again(&self, i: usize, v: usize, from: SourceOffset) -> bool
        requires { i < self.now.run.count }
        ensures { (b : List ℕ) → result ≡ asks_again from.0 self.now.strings.tape.now self.now.run.at i v self.now.run.count b }
    {
        i < v && v < self.run.count && self.asks_target(v, from) && self.same_named(i, v)
    }
}

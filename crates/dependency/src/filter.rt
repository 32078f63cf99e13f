// A Bloom filter of the bases of the Rubies among the first `count` nodes, as it is asked.
#![tactic(auto)]

ghost use Rattle.std.specs.Prelude.{◌≤◌};
ghost use Rattle.model.specs.Lists.{any};
ghost use Rattle.strings.specs.Lent.{lent_store};
ghost use Rattle.strings.specs.PlainContent.{plain_string};
ghost use Rattle.ruby_formats.specs.Sound.{PlainIn};
ghost use Rattle.ruby_formats.specs.Nodes.{first_nodes, nodes_store};
ghost use Rattle.dependency.specs.Bases.{has_base, among_bases};
ghost use Rattle.dependency.specs.Noted.{Noted};
ghost use Rattle.dependency.specs.Rows.{Told};

use crate::Answer;
use ruby_formats::Nodes;
use span::StrId;
use strings::Strings;

#[derive(Clone, Copy)]
pub struct Filter<'a> {
    pub nodes: &'a Nodes<'a>,
    pub count: usize,
    pub words: &'a [u32],
    pub ghost few: { count ≤ nodes.now.run.count },
    pub ghost noted: { Noted (nodes_store nodes.now) (first_nodes nodes.now count) words.now },
}

impl<'a> Filter<'a> {
    // Is it the plain base of a Ruby among these nodes? The filter first; only a short string is then compared.
    pub fn is_base(&self, s: &[u8]) -> Answer
        ensures { Told result (any (has_base (nodes_store self.now.nodes.now) s.now) (first_nodes self.now.nodes.now self.now.count)) }
    {
        if !bloom::may_contain(self.words, crate::filter_key(s)) {
            return Answer::No;
        }
        if crate::LONG_STRING < s.len() {
            return Answer::Unknown;
        }
        if crate::is_ruby_base(self.nodes, self.count, s) {
            return Answer::Yes;
        }
        Answer::InVain
    }

    // The same of the string of an answer `p`, which is one of `of`.
    pub fn is_target_base(&self, of: &Strings, p: Option<StrId>) -> Answer
        requires { PlainIn of.now.store.now p }
        ensures { Told result (among_bases (nodes_store self.now.nodes.now) (first_nodes self.now.nodes.now self.now.count) (plain_string (lent_store of.now) p)) }
    {
        match p {
            Some(id) => self.is_base(of.resolve_str(id)),
            None => Answer::No,
        }
    }
}

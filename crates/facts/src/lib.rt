// Laws that hold of any list and any truth value, and of the four bytes of a word: `laws` cites them, and so do the crates that have code.
// Everything is in specs/; there is no code here.
#![tactic(auto)]

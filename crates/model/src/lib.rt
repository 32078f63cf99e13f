// Document 01 as definitions. Everything is in specs/, one file a section: what a reader must believe is there and nowhere
// else. There is no code here; the crates below are proved equal to these definitions.
#![tactic(auto)]

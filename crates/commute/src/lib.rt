// Demand 3: two corrections of separate passages, merged in both orders, give equal books; and a merged book is a book again.
// Everything is in specs/ and proofs/, the theorem in proofs/Demand3.antt; there is no code here.
#![tactic(auto)]

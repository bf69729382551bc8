// The mathematics that the other crates cite: sets, gap words, genus lists and the tree. There is no code here.
#![tactic(auto)]

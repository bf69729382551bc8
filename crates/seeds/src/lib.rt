// Seed tables of words, the tables of children by lemma 3.1 of source 000, and the numbers of grandchildren and great-grandchildren. There is no
// code here.
#![tactic(auto)]

// Demands 2 and 3 as claims over the calls of any atlas, and that relatives stand together, over this one's: definitions and theorems alone, no
// code.
#![tactic(auto)]

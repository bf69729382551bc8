// Kunz coordinates of words and of sets: definitions and laws. There is no code here.
#![tactic(auto)]

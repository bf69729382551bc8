// Lists of generators that change: changes, states and histories. There is no code here.
#![tactic(auto)]

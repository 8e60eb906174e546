// Honest histories and demand 3, as definitions and theorems: there is no code here.
#![tactic(auto)]

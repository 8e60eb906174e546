// Demand 3 of a repair and the recovery after it, as definitions and theorems: there is no code here.
#![tactic(auto)]

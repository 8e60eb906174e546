// Order, outcomes, clashes and the verdict by first places, as definitions and theorems on plain lists of entries: there is no code here.
#![tactic(auto)]

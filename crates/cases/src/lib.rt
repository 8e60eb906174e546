// Worked cases of the rules, proved of the definitions: there is no code here.
#![tactic(auto)]

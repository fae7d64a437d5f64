// The starred exercises: one list, under one statement about the rules.
#![tactic(auto)]

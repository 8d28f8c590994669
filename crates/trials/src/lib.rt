// The marked trials of 01 on the definitions: a table and one statement that covers it, no code.
#![tactic(auto)]

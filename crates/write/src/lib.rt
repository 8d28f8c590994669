// Lists of calls (from write.rs): what holds over every one of them. Definitions and laws, no code.
#![tactic(auto)]

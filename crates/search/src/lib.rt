// Searches over a test of numbers: definitions and laws, no code; nothing here knows of clusters or entries.
#![tactic(auto)]

// Which clusters allocate and extend take, as one statement; definitions and laws, no code.
#![tactic(auto)]

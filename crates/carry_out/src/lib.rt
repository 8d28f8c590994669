// One call with its arguments: what the claim over lists calls a step.
#![tactic(auto)]

pub mod carry_out;

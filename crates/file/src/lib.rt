// What the calls on files share: the file that a call finds, its entry set stored anew, what a call answers.
#![tactic(auto)]

pub mod answer;
pub mod refresh;
pub mod target;

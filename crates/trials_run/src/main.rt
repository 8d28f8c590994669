// Runs the marked trials of 01 through the code, and reads of 02 behind them. The file stdout beside src/ holds what 01 and 02 say of
// them, written by tests/trials.py.
#![tactic(auto)]

mod out;
mod reads;
mod trial;

fn main(rt: HostRuntime) {
    trial::all(&rt);
    reads::all(&rt);
}

// Replays a sample of the Rust's answers through the library. tests/sample/README.md tells what stands in the file stdin beside src/ and how
// it was made; the file stdout has a line for each call, as the Rust answered it.
#![tactic(auto)]

mod call;
mod row;
mod tape;

fn main(rt: HostRuntime) {
    tape::all(&rt);
}

// Prints vectors of the proved functions, one to a line. The file stdout beside src/ holds the lines that tests/vectors.py makes by other means.
#![tactic(auto)]

mod bits;
mod checksums;
mod counts;
mod free;
mod limits;
mod out;
mod slices;
mod words;

fn main(rt: HostRuntime) {
    bits::all(&rt);
    counts::all(&rt);
    words::all(&rt);
    slices::all(&rt);
    checksums::all(&rt);
    limits::all(&rt);
    free::all(&rt);
}

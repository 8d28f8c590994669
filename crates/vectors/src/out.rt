// Lines on standard output. No contract can say what is written: the lines are compared with the file stdout.

// Writes a space and a number, for each of s.
pub fn numbers(to: &impl Print, s: &[u32]) {
    for n in s {
        let _ = print!(to; " {n}");
    }
}

// Writes every byte of s in two digits, and ends the line.
pub fn bytes(to: &impl Print, s: &[u8]) {
    for b in s {
        let _ = print!(to; "{b:02x}");
    }
    let _ = println!(to);
}

// The input, record by record. A record changes some bytes of a row: the answer, the volume after the call and the arguments.
use crate::call::replay;
use primitives::words::{u16_at, u32_at};
use std::io::Read;

// Every record, and the last line. After a call, and at the start of a volume, the volume is the one before the next call.
pub fn all(rt: &HostRuntime) {
    let mut row = [0u8; 65792];
    let mut before = [0u8; 65792];
    let mut head = [0u8; 4];
    let mut counts = [0u8; 12];
    let _ = rt.stdin().read_exact(&mut counts);
    for _ in 0..u32_at(&counts, 0) {
        let _ = rt.stdin().read_exact(&mut head);
        let [what, len, _, _] = head;
        let at = u16_at(&head, 2) as usize;
        let end = at + usize::from(len);
        let _ = rt.stdin().read_exact(&mut row[at..end]);
        // Kept: the sample's own numbers, as its bytes hold them.
        match what {
            // nothing more
            0 => {}
            // a call
            2 => {
                replay(rt, &before, &row);
                before = row;
            }
            // a volume begins
            _ => before = row,
        }
    }
    let calls = u32_at(&counts, 4);
    let volumes = u32_at(&counts, 8);
    let _ = println!(rt; "{calls} calls on {volumes} volumes");
}

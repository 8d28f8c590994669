// What a store leaves as it was: the bytes outside, the copies of FAT and bitmap, a whole cluster; definitions and laws, no code.
#![tactic(auto)]

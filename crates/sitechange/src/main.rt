// Reads one change of document 01's network B, 12 bytes, from standard input, and prints number and
// triplet count, then for an accepted change the triplets in its cells, in list order.
#![tactic(auto)]

use site_text::site_text;

// Read and printed by the kit's `io`: std's printing rests on three more C functions, and nothing new may be assumed.
// Standard input and output, as every process is given them.
const STDIN_FILENO: i32 = 0;

const STDOUT_FILENO: i32 = 1;

fn main() {
    let mut buffer = [0u8; 13];
    let n = io::read_full(STDIN_FILENO, &mut buffer);
    let mut out = [0u8; 4096];
    let k = site_text(&buffer[..n], &mut out);
    io::write_all(STDOUT_FILENO, &out[..k]);
}

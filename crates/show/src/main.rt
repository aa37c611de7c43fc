// Reads a store from standard input and prints its refusal, or its record as text.
#![tactic(auto)]

use std::io::Write;
use store::WORDS;
use streams::{read_input, text_size};

// The main of `nest` is alike but for its buffers and what it prints: one function for both would take all of these.

// One byte more than a store may have is enough to be refused.
fn main(rt: HostRuntime) {
    let mut bytes = [0u8; 8193];
    let mut words = [0u16; WORDS];
    let mut out = [0u8; 65536];
    let Ok(n) = read_input(&mut rt.stdin(), &mut bytes) else {
        let _ = rt
            .stderr()
            .write_all(b"show: standard input cannot be read\n");
        return;
    };
    let written = text_show::show(&bytes[..n], &mut words, &mut out);
    let size = text_size(written, &out);
    if rt.stdout().write_all(&out[..size]).is_err() {
        let _ = rt
            .stderr()
            .write_all(b"show: standard output cannot be written\n");
    }
}

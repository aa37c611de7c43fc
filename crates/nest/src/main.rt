// Reads a store from standard input and prints its sheet, or its refusal. It lends 16,384 words.
#![tactic(auto)]

use std::io::Write;
use store::WORDS;
use streams::{read_input, text_size};

// One byte more than a store may have is enough to be refused. Sixteen bytes for each lent word are room for every sheet.
fn main(rt: HostRuntime) {
    let mut bytes = [0u8; 8193];
    let mut words = [0u16; WORDS];
    let mut out = [0u32; 16384];
    let mut text = [0u8; 262144];
    let Ok(n) = read_input(&mut rt.stdin(), &mut bytes) else {
        let _ = rt
            .stderr()
            .write_all(b"nest: standard input cannot be read\n");
        return;
    };
    let written = text_nest::print(&bytes[..n], &mut words, &mut out, &mut text);
    let size = text_size(written, &text);
    if rt.stdout().write_all(&text[..size]).is_err() {
        let _ = rt
            .stderr()
            .write_all(b"nest: standard output cannot be written\n");
    }
}

// Every single-bit change of a store of one block, as it is and with its check made right again, and every length of a long
// store: how many of their answers agree with those of a list on standard input. All arrays have fixed lengths: there is no heap.
#![tactic(auto)]

mod answers;
mod changes;

use changes::{bits, lengths};
use std::io;
use store::WORDS;
use streams::read_input;
use vectors::{TEXT, Tally};

fn print(rt: &impl Print, t: Tally, what: &str) -> io::Result<()> {
    println!(rt; "{} {what} agree, {} differ", t.agree, t.differ)
}

// The list: the block, the answers to its changes and to those with the check made right, the long store, the answers to
// its lengths; two bytes for each answer. What a list that ends early lacks is zeros.
fn main(rt: HostRuntime) -> io::Result<()> {
    let mut block = [0u8; 512];
    let mut changed = [0u8; 8192];
    let mut mended = [0u8; 8096];
    let mut long = [0u8; 8704];
    let mut cut = [0u8; 17410];
    let mut words = [0u16; WORDS];
    let mut out = [0u8; TEXT];
    let mut list = rt.stdin();
    let _ = read_input(&mut list, &mut block);
    let _ = read_input(&mut list, &mut changed);
    let _ = read_input(&mut list, &mut mended);
    let _ = read_input(&mut list, &mut long);
    let _ = read_input(&mut list, &mut cut);
    print(
        &rt,
        bits(0, 4096, false, block, &changed, &mut words, &mut out),
        "bits",
    )?;
    print(
        &rt,
        bits(16, 4064, true, block, &mended, &mut words, &mut out),
        "bits with a right check",
    )?;
    print(&rt, lengths(&long, &cut, &mut words, &mut out), "lengths")
}

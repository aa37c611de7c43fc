// The record in front of the lent words, written back as blocks (document 02, request 13): refusal 4 for W, and 10.
ghost use Rattle.std.specs.Prelude.{◌≡◌, ◌+◌, ◌*◌, ◌≤◌, ◌<◌, length, get_or, take, drop};
ghost use Rattle.std.proofs.lemmas.List.Edits.{sets};
ghost use Rattle.format.specs.Store.{two_bytes, check_from};
ghost use Rattle.store.specs.Writes.{WordsPut, with_block, WritesStore};

use crate::layout::{RECORD_END, WORDS, word_at};
use crate::refusals::Refusal;

// The number of the first block.
const FIRST_NUMBER: usize = 0;

// A word of the record. What stands behind its words is no part of it: there it is 0.
fn record_word(w: &[u16; WORDS], used: usize, p: usize) -> u16
    ensures { result ≡ get_or (take used w.now) p 0 }
{
    if p < used { word_at(w, p) } else { 0 }
}

// What a word adds to the check of a block in which it begins at a byte.
fn weight(word: u16, place: usize) -> u32
    requires { place < 507 }
    ensures { (result ≡ check_from place (two_bytes word)) × (result ≤ 259080) }
{
    let low = u32::from(word % 256);
    let high = u32::from(word / 256);
    low * ((place + 1) as u32) + high * ((place + 2) as u32)
}

// Two bytes, little-endian.
fn put_pair(out: &mut [u8], at: usize, word: u16)
    requires { at + 1 < length out.old }
    ensures { out.new ≡ sets out.old at (two_bytes word) }
{
    let [low, high] = word.to_le_bytes();
    out[at] = low;
    out[at + 1] = high;
}

// A block's 253 words; the check of the block, in which its number stands before them.
fn put_words(
    w: &[u16; WORDS],
    used: usize,
    from: usize,
    out: &mut [u8],
    at: usize,
    number: u16,
) -> u32
    requires { (from ≤ 4048) × (at + 506 ≤ length out.old) }
    ensures { WordsPut 253 number (drop from (take used w.now)) at out.old out.new result }
{
    let mut sum = weight(number, 0);
    for j in 0..253 {
        let word = record_word(w, used, from + j);
        put_pair(out, at + 2 * j, word);
        sum += weight(word, 2 + 2 * j);
    }
    sum
}

// Block b: its number, its words, its check.
fn put_block(w: &[u16; WORDS], used: usize, b: usize, out: &mut [u8])
    requires { (b < 16) × (512 * b + 512 ≤ length out.old) }
    ensures { out.new ≡ with_block b (take used w.now) out.old }
{
    let at = 512 * b;
    let number = (FIRST_NUMBER + b) as u16;
    put_pair(out, at, number);
    let check = put_words(w, used, 253 * b, out, at + 2, number);
    put_pair(out, at + 508, (check % 65536) as u16);
    put_pair(out, at + 510, (check / 65536) as u16);
}

// How many bytes the store of the record has, which stands in front of the lent bytes; or its refusal, with the bytes as lent.
pub fn write_store(w: &[u16; WORDS], out: &mut [u8]) -> Result<u16, Refusal>
    ensures { WritesStore w.now out.old out.new result }
{
    let used = usize::from(word_at(w, 0));
    if used == 0 || RECORD_END < used {
        return Err(Refusal::WrongWordCount);
    }
    let blocks = (used + 252) / 253;
    if out.len() < 512 * blocks {
        return Err(Refusal::TooFewWords);
    }
    for b in 0..blocks {
        put_block(w, used, b, out);
    }
    Ok((512 * blocks) as u16)
}

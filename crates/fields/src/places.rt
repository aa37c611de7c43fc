// Where the parts of a region stand, by the index of places behind the record.
ghost use Rattle.std.specs.Prelude.{◌≡◌, ◌≤◌, get_or};
ghost use Rattle.fields.specs.ItemsAndPlaces as words;

use super::words::{behind_values, behind_words, place, stood_before, word_item};
use reading::kinds::TERMINATOR_EXIT;
use store::WORDS;
use store::layout::{BEYOND, BLOCK_PLACES, LIMIT, RECORD_END, ROW, START, word_at};

// Word i of region r's row in the index.
pub fn indexed(w: &[u16; WORDS], r: u16, i: usize) -> u16
    requires { i ≤ 65538 }
    ensures { result ≡ words.indexed w.now r i }
{
    if r < word_at(w, 1) {
        word_at(w, RECORD_END + ROW * (r as usize) + i)
    } else {
        BEYOND
    }
}

// The block count stands behind the inputs.
pub fn blocks_place(w: &[u16; WORDS], r: u16) -> u16
    ensures { result ≡ words.blocks_place w.now r }
{
    behind_words(w, indexed(w, r, START))
}

pub fn block_place(w: &[u16; WORDS], r: u16, b: u16) -> u16
    ensures { result ≡ words.block_place w.now r b }
{
    if b < word_at(w, blocks_place(w, r) as usize) {
        indexed(w, r, BLOCK_PLACES + (b as usize))
    } else {
        BEYOND
    }
}

// The place behind i instructions: each has four words, the last of them the count of its reads.
fn behind_instructions(w: &[u16; WORDS], first: u16, i: u16) -> u16
    ensures { result ≡ words.behind_instructions w.now i first }
{
    let mut p = first;
    for _ in 0..i {
        p = behind_values(w, place((p as usize) + 3));
    }
    p
}

pub fn instruction_place(w: &[u16; WORDS], r: u16, b: u16, i: u16) -> u16
    ensures { result ≡ words.instruction_place w.now r b i }
{
    let p = block_place(w, r, b);
    if i < word_at(w, p as usize) {
        behind_instructions(w, place((p as usize) + 1), i)
    } else {
        BEYOND
    }
}

// The kind stands behind the turn limit; an opcode word stands for ExitInvocation only.
pub fn values_place(w: &[u16; WORDS], r: u16) -> u16
    ensures { result ≡ words.values_place w.now r }
{
    let p = indexed(w, r, LIMIT) as usize;
    if word_at(w, p + 1) == TERMINATOR_EXIT {
        place(p + 3)
    } else {
        place(p + 2)
    }
}

pub fn targets_place(w: &[u16; WORDS], r: u16) -> u16
    ensures { result ≡ words.targets_place w.now r }
{
    behind_values(w, values_place(w, r))
}

// The place behind the list of the target at place q, which has one where it stands for the first time.
fn behind_list(w: &[u16; WORDS], targets: u16, q: u16, p: u16) -> u16
    ensures { result ≡ words.behind_list w.now targets q p }
{
    if stood_before(w, targets, q) {
        p
    } else {
        behind_values(w, p)
    }
}

// The values passed to target t, of those that stand at `targets`: each distinct target has a list.
fn list_for(w: &[u16; WORDS], targets: u16, t: u16) -> u16
    ensures { result ≡ words.list_for w.now targets t (get_or w.now targets 0) 0
        (words.behind_words w.now targets) }
{
    let n = word_at(w, targets as usize);
    let mut p = behind_words(w, targets);
    for q in 0..n {
        if word_item(w, targets, q) == t {
            return p;
        }
        p = behind_list(w, targets, q, p);
    }
    p
}

pub fn passed_place(w: &[u16; WORDS], r: u16, j: u16) -> u16
    ensures { result ≡ words.passed_place w.now r j }
{
    let targets = targets_place(w, r);
    if j < word_at(w, targets as usize) {
        list_for(w, targets, word_item(w, targets, j))
    } else {
        BEYOND
    }
}

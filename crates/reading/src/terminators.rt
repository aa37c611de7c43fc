// Terminators: kind, opcode, values, targets, and the values passed to each distinct target.
ghost use Rattle.std.specs.Prelude.{◌≡◌, ℕ, ◌+◌, ◌<◌};
ghost use Rattle.format.specs.Read as read;
ghost use Rattle.reading.specs.Answers.{Reads};
ghost use Rattle.reading.specs.Readings.{firsts, edges_lists, operands_read};

use crate::kinds::{
    TERMINATOR_BOOL, TERMINATOR_BRANCH, TERMINATOR_EXIT, TERMINATOR_NUMBER, TERMINATOR_RETURN,
    TERMINATOR_UNREACHABLE,
};
use crate::values::counted_values;
use crate::words::{Cursor, Fault, many, past_word, stands_before, within, words};
use store::WORDS;
use store::layout::word_at;

// How many values and targets a terminator of kind k has, at least and at most.
fn fewest_values(k: u16) -> u16
    ensures { result ≡ read.fewest_values k }
{
    match k {
        TERMINATOR_BOOL.. => 1,
        _ => 0,
    }
}

fn most_values(k: u16) -> u16
    ensures { result ≡ read.most_values k }
{
    match k {
        TERMINATOR_BOOL.. => 1,
        TERMINATOR_RETURN | TERMINATOR_EXIT => 4,
        _ => 0,
    }
}

fn fewest_targets(k: u16) -> u16
    ensures { result ≡ read.fewest_targets k }
{
    match k {
        TERMINATOR_BOOL => 2,
        TERMINATOR_BRANCH.. => 1,
        _ => 0,
    }
}

fn most_targets(k: u16) -> u16
    ensures { result ≡ read.most_targets k }
{
    match k {
        TERMINATOR_NUMBER => 8,
        TERMINATOR_BOOL => 2,
        TERMINATOR_BRANCH => 1,
        _ => 0,
    }
}

// The opcode word stands for ExitInvocation only.
fn opcode_for(w: &[u16; WORDS], c: Cursor, k: u16) -> Result<Cursor, Fault>
    ensures { Reads (read.opcode_for k) w.now c result }
{
    if k == TERMINATOR_EXIT {
        return past_word(w, c);
    }
    Ok(c)
}

// How many of n words stand for the first time.
fn distinct(w: &[u16; WORDS], from: usize, n: u16) -> u16
    requires { (j : ℕ) → j < n → from + j < 131072 }
    ensures { result ≡ firsts w.now from n }
{
    let mut k: u16 = 0;
    for j in 0..n {
        let t = word_at(w, from + j as usize);
        if !stands_before(w, from, t, j) {
            k += 1;
        }
    }
    k
}

// n targets and what is passed to them
fn edges(w: &[u16; WORDS], c: Cursor, n: u16) -> Result<Cursor, Fault>
    ensures { Reads (edges_lists n) w.now c result }
{
    let e = words(w, c, n)?;
    let k = distinct(w, c.at, n);
    many(e, k, |c| counted_values(w, c, 0, 4))
}

// What stands after the opcode of a terminator of kind k.
fn operands(w: &[u16; WORDS], c: Cursor, k: u16) -> Result<Cursor, Fault>
    ensures { Reads (operands_read k) w.now c result }
{
    let p = counted_values(w, c, fewest_values(k), most_values(k))?;
    let (n, e) = within(w, p, fewest_targets(k), most_targets(k))?;
    edges(w, e, n)
}

pub fn terminator(w: &[u16; WORDS], c: Cursor) -> Result<Cursor, Fault>
    ensures { Reads read.terminator w.now c result }
{
    let (k, p) = within(w, c, TERMINATOR_UNREACHABLE, TERMINATOR_NUMBER)?;
    let e = opcode_for(w, p, k)?;
    operands(w, e, k)
}

// An accepted record's fields, by the words that it stands in and the index behind them. Each accessor takes any words and any
// numbers; a number that names nothing gets the definition's answer for it: 0, an empty list, Nothing, an unreachable region. So the words
// are no struct with an invariant, which could not hold any words; `OfRecord` says what is so of a record's.
#![tactic(auto)]

ghost use Rattle.std.specs.Prelude.{◌≡◌, ◌*◌, ◌≤◌, length, get_or};
ghost use Rattle.meaning.specs.Graph.{no_value, region, edges_of, targets_of};
ghost use Rattle.format.specs.References.{instructions, instr_type};
ghost use Rattle.record.specs.Stands.{OfRecord};
ghost use Rattle.fields.specs.Shape.{value_is, instruction_is, terminator_is};
ghost use Rattle.fields.specs.ByNumber.{BlocksBefore, ValuesAt, block_of, instr_of, instructions_before, end_values};
ghost use Rattle.fields.specs.ByNumber.{edge_of, stands_before};

mod places;
pub mod shape;
pub mod types;
mod words;

use places::{
    block_place, blocks_place, indexed, instruction_place, passed_place, targets_place,
    values_place,
};
use reading::kinds::{
    TERMINATOR_BOOL, TERMINATOR_BRANCH, TERMINATOR_EXIT, TERMINATOR_RETURN, TERMINATOR_UNREACHABLE,
};
pub use shape::{Instruction, Terminator, Value};
use store::WORDS;
use store::layout::{EXITS, LIMIT, START, word_at};
pub use types::{first_return, return_type, type_in};
pub use words::value_item;
use words::{place, stood_before, word_item};

pub fn region_count(w: &[u16; WORDS]) -> u16
    ensures { OfRecord w.now (λ g. result ≡ length g.regions) }
{
    word_at(w, 1)
}

pub fn entry(w: &[u16; WORDS]) -> u16
    ensures { OfRecord w.now (λ g. result ≡ g.entry) }
{
    word_at(w, 2)
}

pub fn test_cost(w: &[u16; WORDS]) -> u16
    ensures { OfRecord w.now (λ g. result ≡ g.test_cost) }
{
    word_at(w, 3)
}

pub fn constant_count(w: &[u16; WORDS]) -> u16
    ensures { OfRecord w.now (λ g. result ≡ length g.constants) }
{
    word_at(w, 4)
}

pub fn constant_type(w: &[u16; WORDS], i: u16) -> u16
    ensures { OfRecord w.now (λ g. result ≡ get_or g.constants i 0) }
{
    word_item(w, 4, i)
}

pub fn input_count(w: &[u16; WORDS], r: u16) -> u16
    ensures { OfRecord w.now (λ g. result ≡ length (region g r).inputs) }
{
    word_at(w, indexed(w, r, START) as usize)
}

pub fn input_type(w: &[u16; WORDS], r: u16, k: u16) -> u16
    ensures { OfRecord w.now (λ g. result ≡ get_or (region g r).inputs k 0) }
{
    word_item(w, indexed(w, r, START), k)
}

pub fn block_count(w: &[u16; WORDS], r: u16) -> u16
    ensures { OfRecord w.now (λ g. result ≡ length (region g r).blocks) }
{
    word_at(w, blocks_place(w, r) as usize)
}

// How many blocks stand before region r: the number of its first block's node.
pub fn blocks_before(w: &[u16; WORDS], r: u16) -> u32
    ensures { BlocksBefore w.now r result }
{
    let mut sum: u32 = 0;
    for i in 0..r {
        sum += block_count(w, i) as u32;
    }
    sum
}

pub fn block_length(w: &[u16; WORDS], r: u16, b: u16) -> u16
    ensures { OfRecord w.now (λ g. result ≡ length (block_of g r b)) }
{
    word_at(w, block_place(w, r, b) as usize)
}

// How many instructions region r has before block b: the index of its first.
pub fn instructions_before(w: &[u16; WORDS], r: u16, b: u16) -> u32
    ensures of_record { OfRecord w.now (λ g. result ≡ instructions_before (region g r).blocks b) }
    ensures upper_bound { result ≤ 65535 * b }
{
    let mut instructions: u32 = 0;
    for q in 0..b {
        instructions += block_length(w, r, q) as u32;
    }
    instructions
}

pub fn instruction(w: &[u16; WORDS], r: u16, b: u16, i: u16) -> Instruction
    ensures { OfRecord w.now (λ g. result ≡ instruction_is (instr_of g r b i)) }
{
    let p = instruction_place(w, r, b, i) as usize;
    Instruction {
        opcode: word_at(w, p),
        ty: word_at(w, p + 1),
        cost: word_at(w, p + 2),
        reads: word_at(w, p + 3),
    }
}

pub fn read(w: &[u16; WORDS], r: u16, b: u16, i: u16, k: u16) -> Value
    ensures { OfRecord w.now (λ g. value_is result ≡ get_or (instr_of g r b i).reads k no_value) }
{
    value_item(w, place((instruction_place(w, r, b, i) as usize) + 3), k)
}

// How many instructions region r has in its blocks.
pub fn instruction_count(w: &[u16; WORDS], r: u16) -> usize
    ensures { OfRecord w.now (λ g. result ≡ length (instructions (region g r).blocks)) }
{
    let n = block_count(w, r);
    let mut sum: usize = 0;
    for b in 0..n {
        sum += block_length(w, r, b) as usize;
    }
    sum
}

// The type of the output of instruction k, counted through the blocks of region r.
pub fn output_type(w: &[u16; WORDS], r: u16, k: u16) -> u16
    ensures { OfRecord w.now (λ g. result ≡ instr_type (region g r) k) }
{
    let n = block_count(w, r);
    let mut left = k;
    for b in 0..n {
        let length = block_length(w, r, b);
        if left < length {
            return instruction(w, r, b, left).ty;
        }
        left -= length;
    }
    0
}

pub fn limit(w: &[u16; WORDS], r: u16) -> u16
    ensures { OfRecord w.now (λ g. result ≡ (region g r).limit) }
{
    if r < word_at(w, 1) {
        word_at(w, indexed(w, r, LIMIT) as usize)
    } else {
        1
    }
}

pub fn terminator(w: &[u16; WORDS], r: u16) -> Terminator
    ensures { OfRecord w.now (λ g. terminator_is result (region g r).terminator ≡ (region g r).terminator) }
{
    let p = indexed(w, r, LIMIT) as usize;
    match word_at(w, p + 1) {
        TERMINATOR_UNREACHABLE => Terminator::Unreachable,
        TERMINATOR_RETURN => Terminator::Return,
        TERMINATOR_EXIT => Terminator::ExitInvocation(word_at(w, p + 2)),
        TERMINATOR_BRANCH => Terminator::Branch,
        TERMINATOR_BOOL => Terminator::SelectBool,
        _ => Terminator::SelectNumber,
    }
}

// Where the terminator's values stand; value_item gives each of them.
pub fn value_list(w: &[u16; WORDS], r: u16) -> u16
    ensures { OfRecord w.now (λ g. ValuesAt w.now result (end_values g r)) }
{
    values_place(w, r)
}

pub fn value_count(w: &[u16; WORDS], r: u16) -> u16
    ensures { OfRecord w.now (λ g. result ≡ length (end_values g r)) }
{
    word_at(w, values_place(w, r) as usize)
}

pub fn value(w: &[u16; WORDS], r: u16, k: u16) -> Value
    ensures { OfRecord w.now (λ g. value_is result ≡ get_or (end_values g r) k no_value) }
{
    value_item(w, values_place(w, r), k)
}

pub fn target_count(w: &[u16; WORDS], r: u16) -> u16
    ensures { OfRecord w.now (λ g. result ≡ length (edges_of (region g r).terminator)) }
{
    word_at(w, targets_place(w, r) as usize)
}

pub fn target(w: &[u16; WORDS], r: u16, j: u16) -> u16
    ensures { OfRecord w.now (λ g. result ≡ (edge_of g r j).target) }
{
    word_item(w, targets_place(w, r), j)
}

// Where the values that are passed to the target at place j stand.
pub fn passed_list(w: &[u16; WORDS], r: u16, j: u16) -> u16
    ensures { OfRecord w.now (λ g. ValuesAt w.now result (edge_of g r j).inputs) }
{
    passed_place(w, r, j)
}

pub fn passed_count(w: &[u16; WORDS], r: u16, j: u16) -> u16
    ensures { OfRecord w.now (λ g. result ≡ length (edge_of g r j).inputs) }
{
    word_at(w, passed_place(w, r, j) as usize)
}

pub fn passed(w: &[u16; WORDS], r: u16, j: u16, k: u16) -> Value
    ensures { OfRecord w.now (λ g. value_is result ≡ get_or (edge_of g r j).inputs k no_value) }
{
    value_item(w, passed_place(w, r, j), k)
}

pub fn exit_count(w: &[u16; WORDS], r: u16) -> u16
    ensures { OfRecord w.now (λ g. result ≡ length (region g r).exits) }
{
    word_at(w, indexed(w, r, EXITS) as usize)
}

pub fn exit_target(w: &[u16; WORDS], r: u16, k: u16) -> u16
    ensures { OfRecord w.now (λ g. result ≡ get_or (region g r).exits k 0) }
{
    word_item(w, indexed(w, r, EXITS), k)
}

// Whether the target at place j stands at an earlier place too.
pub fn target_again(w: &[u16; WORDS], r: u16, j: u16) -> bool
    ensures { OfRecord w.now (λ g. result ≡ stands_before (targets_of g r) j) }
{
    stood_before(w, targets_place(w, r), j)
}

// Whether exit k stands earlier in its list too.
pub fn exit_again(w: &[u16; WORDS], r: u16, k: u16) -> bool
    ensures { OfRecord w.now (λ g. result ≡ stands_before (region g r).exits k) }
{
    stood_before(w, indexed(w, r, EXITS), k)
}

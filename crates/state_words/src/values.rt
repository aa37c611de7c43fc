// A value as one word, by ranges: constants, booleans, undefined, outputs, inputs, marked inputs, instructions. It stays a number: most of a
// word is an index, words are compared as they are, and `parts_of` alone takes one apart.
ghost use Rattle.std.specs.Prelude.{◌≡◌, ◌≤◌, ltb};
ghost use Rattle.state_words.specs.Values as words;

use crate::defined::{MOST_OUTPUTS, MOST_REGIONS};
use fields::Value;
use reading::kinds::{BOOL_KIND, CONST_KIND, INPUT_KIND, INSTR_KIND, OUTPUT_KIND, UNDEF_KIND};

pub const FALSE: u16 = 64;

pub const TRUE: u16 = 65;

pub const UNDEF: u16 = 66;

pub const OUTPUT: u16 = 322;

pub const INPUT: u16 = 1024;

pub const HELD: u16 = 1536;

pub const INSTR: u16 = 2048;

// Four of each region.
const INPUTS: u16 = 4 * MOST_REGIONS;

// What names nothing.
pub const NOTHING: u16 = 4096;

#[tactic(auto, unfolding(crate::specs::Values::const_word))]
pub fn constant(i: u16) -> u16
    ensures { result ≡ words.const_word i }
{
    if i < 64 { i } else { NOTHING }
}

pub fn boolean(b: bool) -> u16
    ensures { result ≡ words.bool_word b }
{
    if b { TRUE } else { FALSE }
}

#[tactic(auto, unfolding(crate::specs::Values::undef_word))]
pub fn undef(ty: u16) -> u16
    ensures { result ≡ words.undef_word ty }
{
    if ty < 256 { UNDEF + ty } else { NOTHING }
}

#[tactic(auto, unfolding(crate::specs::Values::output_word))]
pub fn output(o: u16) -> u16
    ensures { result ≡ words.output_word o }
{
    if o < MOST_OUTPUTS {
        OUTPUT + o
    } else {
        NOTHING
    }
}

// Four from `base` on for each region.
#[tactic(auto, unfolding(crate::specs::Values::region_word))]
fn of_region(base: u16, r: u16, k: u16) -> u16
    requires { base ≤ 2048 }
    ensures { result ≡ words.region_word base r k }
{
    if r < MOST_REGIONS && k < 4 {
        base + 4 * r + k
    } else {
        NOTHING
    }
}

pub fn input(r: u16, k: u16) -> u16
    ensures { result ≡ words.region_word 1024 r k }
{
    of_region(INPUT, r, k)
}

// A marked input: renumbered, and never rewritten again.
pub fn held(r: u16, k: u16) -> u16
    ensures { result ≡ words.region_word 1536 r k }
{
    of_region(HELD, r, k)
}

#[tactic(auto, unfolding(crate::specs::Values::instr_word))]
pub fn instr(r: u16, k: u16) -> u16
    ensures { result ≡ words.instr_word r k }
{
    if r < 32 && k < 64 {
        INSTR + 64 * r + k
    } else {
        NOTHING
    }
}

// The word of a record's value.
pub fn value_word(v: Value) -> u16
    ensures { result ≡ words.value_word v }
{
    match v {
        Value::Const(i) => constant(i),
        Value::Input(r, k) => input(r, k),
        Value::Instr(r, k) => instr(r, k),
        Value::Bool(b) => boolean(b),
        Value::Undef(ty) => undef(ty),
        Value::Nothing => NOTHING,
    }
}

// A value taken apart. A marked input is an input. `of` is a region, 0 where there is none.
#[derive(Clone, Copy)]
pub struct Parts {
    pub kind: u16,
    pub of: u16,
    pub index: u16,
}

pub fn is_const(v: u16) -> bool
    ensures { result ≡ ltb v 322 }
{
    v < OUTPUT
}

#[tactic(auto, unfolding(crate::specs::Values::is_input))]
pub fn is_input(v: u16) -> bool
    ensures { result ≡ words.is_input v }
{
    INPUT <= v && v < HELD
}

#[tactic(auto, unfolding(crate::specs::Values::is_held))]
pub fn is_held(v: u16) -> bool
    ensures { result ≡ words.is_held v }
{
    HELD <= v && v < INSTR
}

// The region and the index of an input, marked or not.
pub fn input_region(v: u16) -> u16
    ensures { result ≡ words.input_region v }
{
    v % INPUTS / 4
}

pub fn input_index(v: u16) -> u16
    ensures { result ≡ words.input_index v }
{
    v % 4
}

#[tactic(auto, unfolding(crate::specs::Values::parts_of))]
pub fn parts_of(v: u16) -> Parts
    ensures { result ≡ words.parts_of v }
{
    let (kind, of, index) = match v {
        ..FALSE => (CONST_KIND, 0, v),
        FALSE..UNDEF => (BOOL_KIND, 0, v - FALSE),
        UNDEF..OUTPUT => (UNDEF_KIND, 0, v - UNDEF),
        OUTPUT..INPUT => (OUTPUT_KIND, 0, v - OUTPUT),
        INPUT..INSTR => (INPUT_KIND, input_region(v), input_index(v)),
        INSTR..NOTHING => (INSTR_KIND, (v - INSTR) / 64, v % 64),
        _ => (UNDEF_KIND, 0, 0),
    };
    Parts { kind, of, index }
}

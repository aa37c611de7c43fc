// Lists of numbers and of values, joined by commas, `-` if empty.
ghost use Rattle.std.specs.Prelude.{◌≡◌, ◌∷◌, length, get_or};
ghost use Rattle.meaning.specs.Graph.{no_value};
ghost use Rattle.record.specs.Stands.{OfRecord};
ghost use Rattle.fields.specs.Shape.{value_is};
ghost use Rattle.text.specs.Buffer.{buffer, Wrote};
ghost use Rattle.text_parts.specs.Listing.{dotted_text, value_listing, numbers_text, values_text};
ghost use Rattle.text_parts.specs.Parts.{numbers_of, list_of};

use fields::Value;
use store::WORDS;
use text::{put_byte, put_labeled, put_number, put_text};

// An enum says here and below which list is put: of a closure for its items the clause would have to tell each call's result.

// A list of numbers that a record has; all but the constants' types belong to a region.
#[derive(Clone, Copy)]
pub enum Numbers {
    Constants,
    Inputs(u16),
    Targets(u16),
    Exits(u16),
}

fn number_count(w: &[u16; WORDS], l: Numbers) -> u16
    ensures { OfRecord w.now (λ g. result ≡ length (numbers_of g l)) }
{
    match l {
        Numbers::Constants => fields::constant_count(w),
        Numbers::Inputs(r) => fields::input_count(w, r),
        Numbers::Targets(r) => fields::target_count(w, r),
        Numbers::Exits(r) => fields::exit_count(w, r),
    }
}

fn number_item(w: &[u16; WORDS], l: Numbers, k: u16) -> u16
    ensures { OfRecord w.now (λ g. result ≡ get_or (numbers_of g l) k 0) }
{
    match l {
        Numbers::Constants => fields::constant_type(w, k),
        Numbers::Inputs(r) => fields::input_type(w, r, k),
        Numbers::Targets(r) => fields::target(w, r, k),
        Numbers::Exits(r) => fields::exit_target(w, r, k),
    }
}

pub fn put_numbers(w: &[u16; WORDS], out: &mut [u8], at: usize, l: Numbers) -> usize
    ensures { OfRecord w.now (λ g.
        Wrote (buffer out.old at) (numbers_text (numbers_of g l)) (buffer out.new result)) }
{
    let n = number_count(w, l);
    if n == 0 {
        return put_byte(out, at, b'-');
    }
    let mut place = put_number(out, at, number_item(w, l, 0) as u32);
    for k in 1..n {
        place = put_labeled(out, place, b",", number_item(w, l, k) as u32);
    }
    place
}

// A region's number and a place in it.
pub fn put_dotted(out: &mut [u8], at: usize, r: u16, k: u32) -> usize
    ensures { Wrote (buffer out.old at) (dotted_text r k) (buffer out.new result) }
{
    let place = put_number(out, at, r as u32);
    put_labeled(out, place, b".", k)
}

fn put_of_region(out: &mut [u8], at: usize, letter: u8, r: u16, k: u16) -> usize
    ensures { Wrote (buffer out.old at) (letter ∷ dotted_text r k) (buffer out.new result) }
{
    let place = put_byte(out, at, letter);
    put_dotted(out, place, r, k as u32)
}

pub fn put_value(out: &mut [u8], at: usize, v: Value) -> usize
    ensures { Wrote (buffer out.old at) (value_listing (value_is v)) (buffer out.new result) }
{
    match v {
        Value::Const(i) => put_labeled(out, at, b"c", i as u32),
        Value::Input(r, k) => put_of_region(out, at, b'i', r, k),
        Value::Instr(r, k) => put_of_region(out, at, b'd', r, k),
        Value::Bool(b) => {
            if b {
                return put_text(out, at, b"true");
            }
            put_text(out, at, b"false")
        }
        Value::Undef(t) => put_labeled(out, at, b"undef", t as u32),
        Value::Nothing => put_labeled(out, at, b"n", 0),
    }
}

// A list of values of a region: what its terminator has, what an instruction reads, what a target is passed.
#[derive(Clone, Copy)]
pub enum Values {
    Terminator(u16),
    Reads(u16, u16, u16),
    Passed(u16, u16),
}

fn value_count(w: &[u16; WORDS], l: Values) -> u16
    ensures { OfRecord w.now (λ g. result ≡ length (list_of g l)) }
{
    match l {
        Values::Terminator(r) => fields::value_count(w, r),
        Values::Reads(r, b, i) => {
            let x = fields::instruction(w, r, b, i);
            x.reads
        }
        Values::Passed(r, j) => fields::passed_count(w, r, j),
    }
}

fn value_item(w: &[u16; WORDS], l: Values, k: u16) -> Value
    ensures { OfRecord w.now (λ g. value_is result ≡ get_or (list_of g l) k no_value) }
{
    match l {
        Values::Terminator(r) => fields::value(w, r, k),
        Values::Reads(r, b, i) => fields::read(w, r, b, i, k),
        Values::Passed(r, j) => fields::passed(w, r, j, k),
    }
}

pub fn put_values(w: &[u16; WORDS], out: &mut [u8], at: usize, l: Values) -> usize
    ensures { OfRecord w.now (λ g.
        Wrote (buffer out.old at) (values_text (list_of g l)) (buffer out.new result)) }
{
    let n = value_count(w, l);
    if n == 0 {
        return put_byte(out, at, b'-');
    }
    let mut place = put_value(out, at, value_item(w, l, 0));
    for k in 1..n {
        place = put_byte(out, place, b',');
        place = put_value(out, place, value_item(w, l, k));
    }
    place
}

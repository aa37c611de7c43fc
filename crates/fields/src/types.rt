// The types of values: of one that is used in a region, and of those that the first Return region returns.
ghost use Rattle.std.specs.Prelude.{◌≡◌, get_or};
ghost use Rattle.meaning.specs.Graph.{no_value, region};
ghost use Rattle.format.specs.References as format;
ghost use Rattle.record.specs.Stands.{OfRecord};
ghost use Rattle.fields.specs.ByNumber.{end_values};
ghost use Rattle.fields.specs.Shape.{value_is};

use super::shape::{Terminator, Value};
use super::{
    constant_type, input_type, instruction_count, output_type, region_count, terminator, value,
};
use store::WORDS;

// The type of a value used in region r behind its first `before` instructions; 0 where it names nothing allowed there.
pub fn type_in(w: &[u16; WORDS], r: u16, before: usize, v: Value) -> u16
    ensures { OfRecord w.now (λ g. result ≡ format.type_in g r before (value_is v)) }
{
    match v {
        Value::Const(i) => constant_type(w, i),
        Value::Input(q, k) if q == r => input_type(w, r, k),
        Value::Instr(q, k) if q == r && (k as usize) < before => output_type(w, r, k),
        Value::Bool(_) => 1,
        Value::Undef(t) => t,
        Value::Input(..) | Value::Instr(..) | Value::Nothing => 0,
    }
}

fn is_return(w: &[u16; WORDS], r: u16) -> bool
    ensures { OfRecord w.now (λ g. result ≡ format.is_return (region g r).terminator) }
{
    matches!(terminator(w, r), Terminator::Return)
}

// How many regions stand before the first Return region.
pub fn first_return(w: &[u16; WORDS]) -> u16
    ensures { OfRecord w.now (λ g. result ≡ format.first_return g.regions) }
{
    let n = region_count(w);
    for q in 0..n {
        if is_return(w, q) {
            return q;
        }
    }
    n
}

// The type of value k that region q returns.
pub fn return_type(w: &[u16; WORDS], q: u16, k: u16) -> u16
    ensures { OfRecord w.now (λ g. result ≡ format.type_in g q (format.behind_all g q) (get_or (end_values g q) k no_value)) }
{
    type_in(w, q, instruction_count(w, q), value(w, q, k))
}
